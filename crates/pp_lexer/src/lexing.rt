//! The tokens of a file, or its fault.

ghost use Rattle.std.specs.Prelude.{◌≡◌, ◌+◌, ◌^◌, ◌<◌, length, IfOk};
ghost use Rattle.pp_lexer.specs.Tokens as spec;
ghost use Rattle.pp_values.specs.Answers.{Answers};

use crate::kind::Kind;
use crate::scanning::scan;
use crate::token::Token;
use crate::tokens::Tokens;
use pp_values::{Fault, Memory, Place, Stop, Text, What};
use std::alloc::Global;

fn ends_early(kind: Kind) -> bool
    ensures { result ≡ spec.ends_early kind }
{
    match kind {
        Kind::Bad | Kind::Unclosed => true,
        _ => false,
    }
}

/// The line of the last token, where that ends the list early.
fn early_end(tokens: &[Token<'_>]) -> Option<u32>
    ensures { result ≡ spec.early_end tokens.now }
{
    match tokens.last() {
        Some(last) if ends_early(last.kind()) => Some(last.line()),
        _ => None,
    }
}

fn syntax_fault(alloc: Global, file: &Text, line: u32) -> Result<Fault, Memory>
    ensures { IfOk result (λ fault. fault ≡ spec.syntax_fault file.now line) }
{
    let file = file.copy(alloc)?;
    Fault::new(alloc, Place { file, line }, What::Syntax)
}

/// The tokens of the file at a path. Where no token can be read, or the end of the file cuts off a text or a comment, it is
/// the fault of the syntax at that line. An interpolation that the end of the file cuts off is none: no token of it is
/// missing, so it is left to the grammar.
#[tactic(auto, unfolding(crate::specs::Tokens::lexed))]
pub fn lex<'a>(alloc: Global, file: &Text, text: &'a Text) -> Result<Tokens<'a>, Stop>
    // Places count lines in 32 bits.
    requires { length text.now + 1 < 2 ^ 32 }
    ensures { Answers result (spec.lexed file.now text.now) }
{
    let tokens = scan(alloc, text.as_str())?;
    match early_end(tokens.as_slice()) {
        None => Ok(tokens),
        Some(line) => Err(Stop::Fault(syntax_fault(alloc, file, line)?)),
    }
}
