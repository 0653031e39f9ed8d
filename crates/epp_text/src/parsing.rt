//! A template: its tree, or its first fault.

ghost use Rattle.std.specs.Prelude.{◌+◌, ◌^◌, ◌<◌, length};
ghost use Rattle.epp_text.specs.Parsing as spec;
ghost use Rattle.pp_values.specs.Answers.{Answers};

use crate::pieces::pieces_of;
use crate::tokenizing::template_tokens;
use pp_lexer::end_line;
use pp_parser::read_template;
use pp_tree::Template;
use pp_values::{Stop, Text};
use std::alloc::Global;

/// The template of a text that stands in the file at this path, or its first fault: that of syntax at the first token with
/// which no template goes on, or at a key that stands a second time in its hash literal, or that of depth at a token that
/// opens a level where 200 are open. A tag that nothing ends is refused at its line.
pub fn parse_epp(alloc: Global, file: &Text, text: &Text) -> Result<Template, Stop>
    ensures { Answers result (spec.template_of file.now text.now) }
{
    // Places count lines in 32 bits.
    if text.as_str().len() >= 4_294_967_295 {
        return Err(Stop::Memory);
    }
    parse_short(alloc, file, text.as_str())
}

#[tactic(auto, unfolding(crate::specs::Parsing::template_of))]
fn parse_short(alloc: Global, file: &Text, text: &str) -> Result<Template, Stop>
    requires { length text.now + 1 < 2 ^ 32 }
    ensures { Answers result (spec.template_of file.now text.now) }
{
    let pieces = pieces_of(alloc, text)?;
    let tokens = template_tokens(alloc, pieces.as_slice())?;
    read_template(alloc, file, end_line(text), tokens)
}
