//! A manifest: its tree, or its first fault.

ghost use Rattle.pp_parser.specs.Input.{Reads};
ghost use Rattle.pp_parser.specs.Keys.{earlier_line};
ghost use Rattle.pp_parser.specs.Manifest as manifest;
ghost use Rattle.pp_tree.specs.declared.file.File.{File};
ghost use Rattle.pp_values.specs.Answers.{Answers};
ghost use Rattle.std.specs.Prelude.{◌≡◌, ◌+◌, ◌<◌, ◌^◌, length, Err, Some, IfOk};

use crate::cursor::Cursor;
use crate::found::Found;
use crate::levels::{main_manifest, module_file};
use crate::refusal::Refusal;
use pp_lexer::{Queue, Token, end_line, scan};
use pp_tree::{File, TableStop, table_of};
use pp_values::{Fault, Kept, MAIN_MANIFEST, Memory, Place, Stop, Text, What};
use std::alloc::Global;

/// From this length on room is made for the tree of a text.
const LONG: usize = 65_536;

/// How many bytes of memory a tree takes for a byte of its text, where people wrote that.
const ROOM: usize = 4;

/// What the file at this path says.
#[tactic(auto, unfolding(crate::specs::Manifest::read_file))]
fn read_file(alloc: Global, file: &Text, tokens: &mut Cursor<'_>) -> Result<Found, Refusal>
    ensures { Reads (manifest.read_file file.now tokens.old) result tokens.new }
{
    if file.is(MAIN_MANIFEST) {
        main_manifest(alloc, tokens)
    } else {
        module_file(alloc, tokens)
    }
}

pub(crate) fn fault_at(alloc: Global, file: &Text, what: What, line: u32) -> Result<Fault, Memory>
    ensures { IfOk result (λ fault. fault ≡ manifest.fault_at file.now what line) }
{
    let what = Kept::new(what);
    let file = file.copy(alloc)?;
    Fault::new(alloc, Place { file, line }, what.into_inner())
}

/// The fault at a line of the file.
fn stop_at(alloc: Global, file: &Text, what: What, line: u32) -> Stop
    ensures { Answers {T = File} (Err result) (Err (manifest.fault_at file.now what line)) }
{
    match fault_at(alloc, file, what, line) {
        Ok(fault) => Stop::Fault(fault),
        Err(Memory) => Stop::Memory,
    }
}

/// The line of the first token, or of the end of the file.
#[tactic(auto, unfolding(crate::specs::Manifest::line_from))]
fn line_from(end: u32, tokens: &[Token<'_>]) -> u32
    ensures { result ≡ manifest.line_from end tokens.now }
{
    match tokens {
        [] => end,
        [token, ..] => token.line(),
    }
}

/// The line of the place from which so many tokens are left; that of none is the end of the file.
fn line_of(end: u32, tokens: &[Token<'_>], left: usize) -> u32
    ensures { result ≡ manifest.line_of end tokens.now left }
{
    let at = tokens.len().saturating_sub(left);
    line_from(end, &tokens[at..])
}

/// The fault of a text that has no tree.
fn refused(alloc: Global, file: &Text, end: u32, tokens: &[Token<'_>], refusal: Refusal) -> Stop
    ensures { Answers (Err result) (manifest.file_from file.now end tokens.now (Err refusal)) }
{
    match refusal {
        Refusal::Wrong(left) => stop_at(alloc, file, What::Syntax, line_of(end, tokens, left)),
        Refusal::Deep(left) => stop_at(alloc, file, What::DepthLimit, line_of(end, tokens, left)),
        Refusal::Memory => Stop::Memory,
    }
}

/// The earlier of two lines, where the first is one.
#[tactic(auto, unfolding(crate::specs::Keys::earlier_line))]
fn earlier(key: Option<u32>, name: u32) -> u32
    ensures { earlier_line key (Some name) ≡ Some result }
{
    match key {
        None => name,
        Some(key) => key.min(name),
    }
}

/// The tree of what was found, or its fault where a key stands twice or a name is defined twice.
#[tactic(auto, unfolding(crate::specs::Manifest::file_with, crate::specs::Keys::earlier_line))]
fn file_with(alloc: Global, file: &Text, found: Found, key: Option<u32>) -> Result<File, Stop>
    ensures { Answers result (manifest.file_with file.now found key) }
{
    let Found {
        statements,
        definitions,
    } = found;
    match (table_of(alloc, definitions), key) {
        (Ok(definitions), None) => Ok(File {
            statements,
            definitions,
        }),
        (Ok(_), Some(line)) => Err(stop_at(alloc, file, What::Syntax, line)),
        (Err(TableStop::Doubled(line)), _) => {
            Err(stop_at(alloc, file, What::Syntax, earlier(key, line)))
        }
        (Err(TableStop::Memory), _) => Err(Stop::Memory),
    }
}

/// Lets the heap grow once by what the tree of a long text takes: it grows by a page each time else, and asks the kernel each
/// time. No memory is held, and where none is given the tree tells.
fn make_room(alloc: Global, len: usize) {
    if len < LONG {
        return;
    }
    // The first block is none of the heap's own, but tells it to hold blocks of this size. The second becomes its own.
    drop(Vec::<u8>::with_capacity(alloc, len.saturating_mul(ROOM)));
    drop(Vec::<u8>::with_capacity(alloc, len.saturating_mul(ROOM)));
}

/// Reads the manifest at the path `file`: its tree, or its first fault.
///
/// The fault is the language's fault of syntax at the first token with which no text of the grammar goes on (at the end of
/// the file, where the text ends too early), or at a key or a name that stands a second time. It is the limit of depth at a
/// token that opens a level where 200 are open.
#[tactic(auto, unfolding(crate::specs::Manifest::file_of))]
pub fn parse(alloc: Global, file: &Text, text: &Text) -> Result<File, Stop>
    // Places count lines in 32 bits.
    requires { length text.now + 1 < 2 ^ 32 }
    // Exactly what the text means, unless memory ran out.
    ensures answer { Answers result (manifest.file_of file.now text.now) }
{
    let tokens = scan(alloc, text.as_str())?;
    make_room(alloc, text.as_str().len());
    let mut left = Cursor::new(Queue::new(tokens));
    match read_file(alloc, file, &mut left) {
        Ok(found) => file_with(alloc, file, found, left.doubled()),
        Err(Refusal::Memory) => Err(Stop::Memory),
        Err(refusal) => {
            // The tokens are let go as they are read, so the line of the fault is looked for in new ones.
            let tokens = scan(alloc, text.as_str())?;
            let end = end_line(text.as_str());
            Err(refused(alloc, file, end, tokens.as_slice(), refusal))
        }
    }
}
