//! A template, from its tokens: its tree, or its first fault.

ghost use Rattle.std.specs.Prelude.{◌≡◌, Err, IfOk};
ghost use Rattle.pp_parser.specs.Manifest as manifest;
ghost use Rattle.pp_parser.specs.TemplateLines as told;
ghost use Rattle.pp_parser.specs.Templates as spec;
ghost use Rattle.pp_tree.specs.declared.template.Template.{Template};
ghost use Rattle.pp_values.specs.Answers.{Answers};

use crate::cursor::Cursor;
use crate::levels::template;
use crate::manifest::fault_at;
use crate::refusal::Refusal;
use pp_lexer::{Queue, Token, Tokens};
use pp_tree::Template;
use pp_values::{Memory, Stop, Text, What};
use std::alloc::Global;

/// The fault at a line of the file.
fn stop_at(alloc: Global, file: &Text, what: What, line: u32) -> Stop
    ensures { Answers {T = Template} (Err result) (Err (manifest.fault_at file.now what line)) }
{
    match fault_at(alloc, file, what, line) {
        Ok(fault) => Stop::Fault(fault),
        Err(Memory) => Stop::Memory,
    }
}

/// The lines of all tokens, since these are let go as they are read.
fn lines_of(alloc: Global, tokens: &[Token<'_>]) -> Result<Vec<u32>, Memory>
    ensures { IfOk result (λ ls. ls.items ≡ told.lines_of tokens.now) }
{
    let mut found = Vec::with_capacity(alloc, tokens.len())?;
    for token in tokens {
        found.push(token.line())?;
    }
    Ok(found)
}

/// The first of these lines, or else that of the end.
#[tactic(auto, unfolding(crate::specs::TemplateLines::first_or))]
fn first_or(end: u32, lines: &[u32]) -> u32
    ensures { result ≡ told.first_or end lines.now }
{
    match lines {
        [] => end,
        [line, ..] => *line,
    }
}

/// The line of the place from which so many tokens are left.
fn line_in(end: u32, lines: &[u32], left: usize) -> u32
    ensures { result ≡ told.line_in end lines.now left }
{
    let at = lines.len().saturating_sub(left);
    first_or(end, &lines[at..])
}

/// The fault of tokens that are refused.
fn refused(alloc: Global, file: &Text, end: u32, lines: &[u32], refusal: Refusal) -> Stop
    ensures { Answers (Err result) (told.refused_by file.now end lines.now refusal) }
{
    match refusal {
        Refusal::Wrong(left) => stop_at(alloc, file, What::Syntax, line_in(end, lines, left)),
        Refusal::Deep(left) => stop_at(alloc, file, What::DepthLimit, line_in(end, lines, left)),
        Refusal::Memory => Stop::Memory,
    }
}

/// What was found, or its fault where a key stands twice.
fn with_key(alloc: Global, file: &Text, found: Template, key: Option<u32>) -> Result<Template, Stop>
    ensures { Answers result (spec.template_with file.now found key) }
{
    match key {
        None => Ok(found),
        Some(line) => Err(stop_at(alloc, file, What::Syntax, line)),
    }
}

/// The template of the tokens of the file at a path, which ends on this line: its tree, or its first fault.
///
/// The fault is that of syntax at the first token with which no template goes on, or at a key that stands a second time in
/// its hash literal. It is the limit of depth at a token that opens a level where 200 are open.
#[tactic(auto, unfolding(crate::specs::Templates::template_told), using(crate::proofs::TemplateFaults::refused_same))]
pub fn read_template(
    alloc: Global,
    file: &Text,
    end: u32,
    tokens: Tokens<'_>,
) -> Result<Template, Stop>
    ensures { Answers result (spec.template_told file.now end tokens.entry) }
{
    let lines = lines_of(alloc, tokens.as_slice())?;
    let mut left = Cursor::new(Queue::new(tokens));
    match template(alloc, &mut left) {
        Ok(found) => with_key(alloc, file, found, left.doubled()),
        Err(Refusal::Memory) => Err(Stop::Memory),
        Err(refusal) => Err(refused(alloc, file, end, lines.as_slice(), refusal)),
    }
}
