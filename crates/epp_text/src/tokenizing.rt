//! The tokens of a template.

ghost use Rattle.std.specs.Prelude.{◌≡◌, ◌∷◌, ◌++◌, ◌+◌, ◌^◌, ◌<◌, [], IfOk, IsTrue, OnOk, length};
ghost use Rattle.epp_text.specs.Pieces as pieces;
ghost use Rattle.epp_text.specs.TemplateTokens as spec;
ghost use Rattle.pp_lexer.specs.Tokens.{tokens_at};

use crate::bytes::line_behind;
use crate::piece::{Piece, PieceKind};
use pp_lexer::{Kind, Token, Tokens, scan_at};
use pp_values::Memory;
use std::alloc::Global;

/// The tokens of the pieces of a template: of each code and of each value by itself, with marks round what is emitted and
/// round the parameters.
#[tactic(auto, unfolding(crate::specs::TemplateTokens::tokens_behind))]
pub fn template_tokens<'a>(alloc: Global, pieces: &[Piece<'a>]) -> Result<Tokens<'a>, Memory>
    ensures { IfOk result (λ ts. ts ≡ spec.template_tokens pieces.now) }
{
    let mut done = Tokens::new(alloc);
    let mut first = true;
    let mut rest = pieces;
    while let [piece, more @ ..] = rest {
        let tokens = piece_tokens(alloc, first, piece)?;
        join(&mut done, tokens)?;
        first = first_behind(first, piece.kind());
        rest = more;
    }
    Ok(done)
}

/// Whether the first tag is still to come.
fn first_behind(first: bool, kind: PieceKind) -> bool
    ensures { result ≡ spec.first_behind first kind }
{
    match kind {
        PieceKind::Text => first,
        _ => false,
    }
}

/// Puts tokens behind those that are there.
#[tactic(auto, unfolding(crate::specs::TemplateTokens::joined))]
fn join<'a>(done: &mut Tokens<'a>, more: Tokens<'a>) -> Result<(), Memory>
    ensures { OnOk result (done.new ≡ spec.joined done.old more.entry) }
{
    let last = done.len().saturating_sub(1);
    if opens_block(done.kind_at(last), more.kind_at(0)) {
        done.mark(last, Kind::LastBar);
    }
    done.append(more)
}

fn opens_block(bar: Option<Kind>, next: Option<Kind>) -> bool
    ensures { result ≡ spec.opens_block bar next }
{
    match (bar, next) {
        (Some(Kind::Bar), Some(Kind::OpenBrace)) => true,
        _ => false,
    }
}

#[tactic(auto, unfolding(crate::specs::TemplateTokens::piece_tokens))]
fn piece_tokens<'a>(alloc: Global, first: bool, piece: &Piece<'a>) -> Result<Tokens<'a>, Memory>
    ensures { IfOk result (λ ts. ts ≡ spec.piece_tokens first piece.now) }
{
    match piece.kind() {
        PieceKind::Text => one(
            alloc,
            Token::word(Kind::RenderString, piece.text(), piece.line()),
        ),
        PieceKind::Code => code_tokens(alloc, first, piece.text(), piece.line()),
        PieceKind::Value => value_tokens(alloc, piece.text(), piece.line()),
        PieceKind::Unclosed => one(alloc, Token::mark(Kind::Bad, piece.line())),
    }
}

fn one<'a>(alloc: Global, token: Token<'a>) -> Result<Tokens<'a>, Memory>
    ensures { IfOk result (λ ts. ts ≡ token.entry ∷ []) }
{
    let mut tokens = Tokens::new(alloc);
    tokens.push(token)?;
    Ok(tokens)
}

/// The tokens of a code. Those of the first tag may declare parameters.
fn code_tokens<'a>(
    alloc: Global,
    first: bool,
    text: &'a str,
    line: u32,
) -> Result<Tokens<'a>, Memory>
    ensures { IfOk result (λ ts. ts ≡ spec.code_tokens first text.now line) }
{
    let tokens = tokens_within(alloc, text, line)?;
    if first && is_bar(tokens.kind_at(0)) {
        return params_tokens(tokens, text, line);
    }
    Ok(tokens)
}

fn params_tokens<'a>(tokens: Tokens<'a>, text: &str, line: u32) -> Result<Tokens<'a>, Memory>
    ensures { IfOk result (λ ts. ts ≡ spec.params_marked tokens.entry ++ spec.tag_end text.now line ∷ []) }
{
    let mut tokens = params_marked(tokens);
    tokens.push(Token::mark(Kind::TagEnd, end_of(text, line)?))?;
    Ok(tokens)
}

/// With marks in the places of the bars that begin and end the parameters.
#[tactic(auto, unfolding(crate::specs::TemplateTokens::params_marked))]
fn params_marked<'a>(tokens: Tokens<'a>) -> Tokens<'a>
    ensures { result ≡ spec.params_marked tokens.entry }
{
    let mut tokens = tokens;
    tokens.mark(0, Kind::ParamsBegin);
    let last = tokens.len().saturating_sub(1);
    if is_bar(tokens.kind_at(last)) {
        tokens.mark(last, Kind::ParamsEnd);
    }
    tokens
}

fn is_bar(kind: Option<Kind>) -> bool
    ensures { result ≡ spec.is_bar kind }
{
    match kind {
        Some(Kind::Bar | Kind::LastBar) => true,
        _ => false,
    }
}

/// The tokens of a value that is emitted, between their marks.
fn value_tokens<'a>(alloc: Global, text: &'a str, line: u32) -> Result<Tokens<'a>, Memory>
    ensures { IfOk result (λ ts. ts ≡ spec.value_tokens text.now line) }
{
    let mut tokens = one(alloc, Token::mark(Kind::RenderExpr, line))?;
    tokens.append(tokens_within(alloc, text, line)?)?;
    tokens.push(Token::mark(Kind::TagEnd, end_of(text, line)?))?;
    Ok(tokens)
}

/// The tokens of a text by itself. Its end cuts an interpolation off, as it cuts off a text or a comment.
#[tactic(auto, unfolding(crate::specs::TemplateTokens::tokens_within))]
fn tokens_within<'a>(alloc: Global, text: &'a str, line: u32) -> Result<Tokens<'a>, Memory>
    ensures { IfOk result (λ ts. ts ≡ spec.tokens_within text.now line) }
{
    let mut tokens = scanned(alloc, text, line)?;
    if open_behind(tokens.as_slice())? > 0 {
        tokens.push(Token::mark(Kind::Unclosed, end_of(text, line)?))?;
    }
    Ok(tokens)
}

/// How many interpolations these tokens leave open.
#[tactic(auto, unfolding(crate::specs::TemplateTokens::open_behind))]
fn open_behind(tokens: &[Token<'_>]) -> Result<usize, Memory>
    ensures { IfOk result (λ n. n ≡ spec.open_behind 0 tokens.now) }
{
    let mut count = 0;
    let mut rest = tokens;
    while let [token, more @ ..] = rest {
        count = open_by(token.kind(), count)?;
        rest = more;
    }
    Ok(count)
}

fn open_by(kind: Kind, count: usize) -> Result<usize, Memory>
    ensures { IfOk result (λ n. n ≡ spec.open_by kind count) }
{
    match kind {
        Kind::InterpolationBegin => match count.checked_add(1) {
            Some(more) => Ok(more),
            None => Err(Memory),
        },
        Kind::InterpolationEnd => Ok(count.saturating_sub(1)),
        _ => Ok(count),
    }
}

/// The tokens of a text that begins on this line.
fn scanned<'a>(alloc: Global, text: &'a str, line: u32) -> Result<Tokens<'a>, Memory>
    ensures { IfOk result (λ ts. ts ≡ tokens_at line text.now) }
{
    // A template's lines are fewer than its bytes, of which there are no more than lines can be counted.
    if fits(text, line) {
        return scan_at(alloc, text, line);
    }
    Err(Memory)
}

/// The line behind a text that begins on this line.
fn end_of(text: &str, line: u32) -> Result<u32, Memory>
    ensures { IfOk result (λ n. n ≡ pieces.line_behind line text.now) }
{
    if fits(text, line) {
        return Ok(line_behind(line, text.as_bytes()));
    }
    Err(Memory)
}

/// Whether the lines of a text that begins on this line can be counted.
fn fits(text: &str, line: u32) -> bool
    ensures { IsTrue result → line + length text.now < 2 ^ 32 }
{
    match u32::try_from(text.len()) {
        Ok(len) => len <= u32::MAX - line,
        Err(_) => false,
    }
}
