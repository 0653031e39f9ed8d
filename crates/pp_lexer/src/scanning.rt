//! Cuts a text into its tokens.

ghost use Rattle.std.specs.Prelude.{◌≡◌, ◌+◌, ◌^◌, ◌<◌, ◌++◌, ◌∷◌, [], length, slice_index, IfOk, OnOk, drop, true};
ghost use Rattle.pp_lexer.specs.Bytes as blanks;
ghost use Rattle.pp_lexer.specs.Escapes.{said};
ghost use Rattle.pp_lexer.specs.Fronts.{HasEnds, IsBetweenQuotes, IsPart, IsPiece};
ghost use Rattle.pp_lexer.specs.Tokens as spec;
ghost use Rattle.pp_lexer.specs.declared.escapes.Quotes.TheVariants.{Double};

use crate::bytes::{
    comment_len, is_white, line_at, line_end, meets_brace, opens_comment, white_len,
};
use crate::escapes::{Quotes, says_nothing};
use crate::front::{Found, Front};
use crate::kind::Kind;
use crate::lines::line_behind;
use crate::marks::punctuation;
use crate::mode::{Mode, Nest, mode_after};
use crate::numbers::number;
use crate::texts::{in_text, quoted};
use crate::token::Token;
use crate::tokens::Tokens;
use crate::words::{WordSort, begins_word, name, type_name, variable};
use pp_values::Memory;
use std::alloc::Global;

/// The token at a place outside of texts, where neither white space nor a comment stands.
#[tactic(auto, unfolding(crate::specs::Tokens::token_front))]
fn token_front(bytes: &[u8]) -> Front
    requires { 0 < length bytes.now }
    ensures value { result ≡ spec.token_front bytes.now }
    ensures piece { IsPiece bytes.now result }
{
    let first = bytes[0];
    if first == b'\'' {
        quoted(bytes)
    } else if first == b'$' {
        variable(bytes)
    } else if first.is_ascii_digit() {
        number(bytes)
    } else if begins_word(WordSort::Name, bytes) {
        name(bytes)
    } else if begins_word(WordSort::Type, bytes) {
        type_name(bytes)
    } else {
        punctuation(bytes)
    }
}

/// White space at a place outside of texts.
#[tactic(auto, unfolding(crate::specs::Tokens::in_code, crate::specs::Bytes::blank_len))]
fn white(bytes: &[u8]) -> Front
    requires { blanks.is_white (slice_index bytes.now 0) ≡ true }
    ensures value { result ≡ spec.in_code bytes.now }
    ensures piece { IsPiece bytes.now result }
{
    let len = white_len(bytes);
    Front::new(Found::Blank, len)
}

/// A comment to the end of its line.
#[tactic(auto, using(crate::proofs::CodeLemmas::comment_here))]
fn line_comment(bytes: &[u8]) -> Front
    requires { slice_index bytes.now 0 ≡ 35 }
    ensures value { result ≡ spec.in_code bytes.now }
    ensures piece { IsPiece bytes.now result }
{
    let len = line_end(bytes, 1);
    Front::new(Found::Blank, len)
}

/// A comment between `/*` and `*/`, which the end of the file may cut off.
#[tactic(auto, unfolding(crate::specs::Tokens::in_code, crate::specs::Bytes::blank_len))]
fn long_comment(bytes: &[u8]) -> Front
    requires { blanks.opens_comment bytes.now ≡ true }
    ensures value { result ≡ spec.in_code bytes.now }
    ensures piece { IsPiece bytes.now result }
{
    let blank = comment_len(bytes);
    if blank == 0 {
        Front::new(Found::CutOff, bytes.len())
    } else {
        Front::new(Found::Blank, blank)
    }
}

/// What stands at a place outside of texts.
#[tactic(auto, unfolding(crate::specs::Tokens::in_code, crate::specs::Bytes::blank_len))]
fn in_code(bytes: &[u8]) -> Front
    requires { 0 < length bytes.now }
    ensures value { result ≡ spec.in_code bytes.now }
    ensures piece { IsPiece bytes.now result }
{
    if is_white(bytes[0]) {
        white(bytes)
    } else if bytes[0] == b'#' {
        line_comment(bytes)
    } else if opens_comment(bytes) {
        long_comment(bytes)
    } else {
        token_front(bytes)
    }
}

/// The kind of a mark, by what stands round it.
fn kind_in_place(mode: Mode, nest: &Nest, behind: &[u8], kind: Kind) -> Kind
    ensures { result ≡ spec.kind_in_place mode nest.now behind.now kind }
{
    match (mode, kind) {
        (Mode::AfterToken, Kind::OpenBracket) => Kind::TightBracket,
        (_, Kind::CloseBrace) if nest.in_interpolation() => Kind::InterpolationEnd,
        (_, Kind::Bar) if meets_brace(behind) => Kind::LastBar,
        _ => kind,
    }
}

fn found_in_place(mode: Mode, nest: &Nest, behind: &[u8], found: Found) -> Found
    ensures value { result ≡ spec.found_in_place mode nest.now behind.now found }
{
    match found {
        Found::Mark(kind) => Found::Mark(kind_in_place(mode, nest, behind, kind)),
        _ => found,
    }
}

/// What stands at a place outside of texts, by what stands round it.
fn in_place(mode: Mode, nest: &Nest, text: &str) -> Front
    requires { 0 < length text.now }
    ensures value { result ≡ spec.in_place mode nest.now text.now (spec.in_code text.now) }
    ensures part { IsPart text.now result }
{
    let bytes = text.as_bytes();
    let front = in_code(bytes);
    let found = found_in_place(mode, nest, &bytes[1..], front.found);
    Front::new(found, front.len)
}

/// What stands at the front of a text that is not empty.
fn front_at(mode: Mode, nest: &Nest, text: &str) -> Front
    requires { 0 < length text.now }
    ensures value { result ≡ spec.front_at mode nest.now text.now }
    ensures part { IsPart text.now result }
{
    match mode {
        Mode::Inside => in_text(text),
        _ => in_place(mode, nest, text),
    }
}

/// A text in single quotes, from its spelling.
fn quoted_token(spelling: &str, line: u32) -> Token<'_>
    requires { IsBetweenQuotes spelling.now (length spelling.now) }
    ensures { result ≡ spec.token Kind.Text (spec.quoted_text spelling.now) line }
{
    let end = spelling.len() - 1;
    Token::text_in(Kind::Text, Quotes::Single, &spelling[1..end], line)
}

/// A variable, from its spelling.
fn dollar_token(kind: Kind, spelling: &str, line: u32) -> Token<'_>
    requires some { 0 < length spelling.now }
    requires dollar { slice_index spelling.now 0 ≡ 36 }
    ensures { result ≡ spec.token kind (drop 1 spelling.now) line }
{
    Token::word(kind, &spelling[1..], line)
}

/// Appends a run of a text in double quotes, if it says something.
#[tactic(auto, using(crate::proofs::ScanLemmas::piece_none, crate::proofs::ScanLemmas::piece_some))]
fn put_run<'a>(
    alloc: Global,
    found: &mut Tokens<'a>,
    spelling: &'a str,
    line: u32,
) -> Result<(), Memory>
    requires { 0 < length spelling.now }
    ensures { OnOk result (found.new ≡ found.old ++ spec.piece (said Double 0 spelling.now) line) }
{
    if says_nothing(alloc, Quotes::Double, spelling)? {
        return Ok(());
    }
    found.push(Token::text_in(Kind::Piece, Quotes::Double, spelling, line))
}

/// Appends the tokens of what stands at a place, from its spelling.
#[tactic(auto, using(crate::proofs::ScanLemmas::number_put))]
fn emit<'a>(
    alloc: Global,
    tokens: &mut Tokens<'a>,
    found: Found,
    spelling: &'a str,
    line: u32,
) -> Result<(), Memory>
    requires some { 0 < length spelling.now }
    requires ends { HasEnds spelling.now found (length spelling.now) }
    ensures { OnOk result (tokens.new ≡ tokens.old ++ spec.emitted line found spelling.now) }
{
    match found {
        Found::Blank | Found::CutOff => Ok(()),
        Found::Mark(kind) => tokens.push(Token::mark(kind, line)),
        Found::Word(kind) => tokens.push(Token::word(kind, spelling, line)),
        Found::Dollar(kind) => tokens.push(dollar_token(kind, spelling, line)),
        Found::Number(_) => tokens.push(Token::digits(spelling, line)),
        Found::Quoted => tokens.push(quoted_token(spelling, line)),
        Found::Run => put_run(alloc, tokens, spelling, line),
    }
}

/// Appends the end of the file, where it is within a text or a comment.
fn finish(tokens: &mut Tokens<'_>, mode: Mode, line: u32) -> Result<(), Memory>
    ensures { OnOk result (tokens.new ≡ tokens.old ++ spec.at_end mode line) }
{
    match mode {
        Mode::Inside => tokens.push(Token::mark(Kind::Unclosed, line)),
        _ => Ok(()),
    }
}

/// The tokens of a text that begins on this line. Where no token can be read, or the end of the text cuts off a text or a
/// comment, the last of them says so.
pub fn scan_at(alloc: Global, text: &str, line: u32) -> Result<Tokens<'_>, Memory>
    // Places count lines in 32 bits.
    requires { line + length text.now < 2 ^ 32 }
    ensures { IfOk result (λ ts. ts ≡ spec.tokens_at line text.now) }
{
    let mut tokens = Tokens::new(alloc);
    let mut nest = Nest::new(alloc);
    let mut mode = Mode::AfterBlank;
    let mut here = line;
    let mut rest = text;
    while !rest.is_empty() {
        let front = front_at(mode, &nest, rest);
        let (spelling, after) = rest.split_at(front.len);
        emit(alloc, &mut tokens, front.found, spelling, here)?;
        nest.pass(front.found)?;
        mode = mode_after(front.found);
        here = line_behind(here, front.found, spelling);
        rest = after;
    }
    finish(&mut tokens, mode, here)?;
    Ok(tokens)
}

/// The tokens of a file. Where no token can be read, or the end of the file cuts off a text or a comment, the last of them
/// says so.
#[tactic(auto, unfolding(crate::specs::Tokens::tokens, crate::specs::Tokens::tokens_at))]
pub fn scan(alloc: Global, text: &str) -> Result<Tokens<'_>, Memory>
    // Places count lines in 32 bits.
    requires { length text.now + 1 < 2 ^ 32 }
    ensures { IfOk result (λ ts. ts ≡ spec.tokens text.now) }
{
    scan_at(alloc, text, 1)
}

/// The line of the end of the file: one more than the number of line feeds.
pub fn end_line(text: &str) -> u32
    requires { length text.now + 1 < 2 ^ 32 }
    ensures { result ≡ blanks.end_line text.now }
{
    line_at(1, text.as_bytes())
}
