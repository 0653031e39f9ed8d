//! A manifest that is parsed, or is still to be.
ghost use Rattle.std.specs.Prelude.{◌≡◌, ◌+◌, ◌^◌, ◌<◌, length, IfOk, IfSome};
ghost use Rattle.pp_parser.specs.Manifest.{file_of};

use pp_parser::parse;
use pp_tree::{File, ManifestFile};
use pp_values::{Fault, Memory, Stop, Text};
use std::alloc::Global;
use std::marker::Model;
use work_pool::Job;

/// A manifest, and what was read of it, if it was parsed. A contract sees its path and its text.
///
/// As a job it is parsed, on whichever thread. Where memory is wanting there it stays as it was.
#[derive(Drop)]
pub struct Manifest {
    alloc: Global,
    path: Text,
    text: Text,
    read: Option<Result<File, Fault>>,
}

impl Model for Manifest {
    ghost use Rattle.std.specs.Prelude.{◌≡◌, ◌+◌, ◌^◌, ◌<◌, length, IfSome};
    ghost use Rattle.pp_parser.specs.Manifest.{file_of};
    ghost use Rattle.site_bundle.specs.SiteView.{Filed};

    ghost Value = { Filed };

    ghost view = { λ m. (m.path, m.text) };

    // Places count lines in 32 bits.
    ghost invariant = { λ m. (length m.text + 1 < 2 ^ 32) × IfSome m.read (λ read. read ≡ file_of m.path m.text) };
}

impl Manifest {
    /// A manifest that is still to be parsed.
    pub fn new(alloc: Global, path: Text, text: Text) -> Manifest
        requires { length text + 1 < 2 ^ 32 }
        ensures { result ≡ (path, text) }
    {
        Manifest {
            alloc,
            path,
            text,
            read: None,
        }
    }

    /// How many bytes its text has.
    pub fn len(&self) -> usize
        ensures { result ≡ length self.now.1 }
    {
        self.text.as_str().len()
    }

    /// Its path, and its text with what was read of it. It is parsed here where it was not.
    pub fn into_file(self) -> Result<(Text, ManifestFile), Memory>
        ensures path { IfOk result (λ f. f.0 ≡ self.0) }
        ensures text { IfOk result (λ f. f.1.text ≡ self.1) }
        ensures read { IfOk result (λ f. f.1.read ≡ file_of f.0 f.1.text) }
    {
        let Manifest {
            alloc,
            path,
            text,
            read,
        } = self;
        let read = known_or_read(alloc, read, &path, &text)?;
        Ok((path, ManifestFile { text, read }))
    }
}

impl Job for Manifest {
    ghost use Rattle.std.specs.Prelude.{◌≡◌};

    type Out = Manifest;

    ghost promise = { λ manifest parsed. parsed ≡ manifest };

    fn run(self) -> Manifest {
        let Manifest {
            alloc,
            path,
            text,
            read: _read,
        } = self;
        let read = read_with_room(alloc, &path, &text);
        Manifest {
            alloc,
            path,
            text,
            read,
        }
    }
}

/// What was read of the manifest, or is read now.
fn known_or_read(
    alloc: Global,
    known: Option<Result<File, Fault>>,
    path: &Text,
    text: &Text,
) -> Result<Result<File, Fault>, Memory>
    requires known { IfSome known (λ read. read ≡ file_of path.now text.now) }
    requires short { length text.now + 1 < 2 ^ 32 }
    ensures { IfOk result (λ read. read ≡ file_of path.now text.now) }
{
    match known {
        Some(read) => Ok(read),
        None => read_manifest(alloc, path, text),
    }
}

/// What is read of the manifest, where there is memory for it.
fn read_with_room(alloc: Global, path: &Text, text: &Text) -> Option<Result<File, Fault>>
    requires { length text.now + 1 < 2 ^ 32 }
    ensures { IfSome result (λ read. read ≡ file_of path.now text.now) }
{
    match read_manifest(alloc, path, text) {
        Ok(read) => Some(read),
        Err(_) => None,
    }
}

/// The manifest's tree, or its first fault.
fn read_manifest(alloc: Global, path: &Text, text: &Text) -> Result<Result<File, Fault>, Memory>
    requires { length text.now + 1 < 2 ^ 32 }
    ensures { IfOk result (λ read. read ≡ file_of path.now text.now) }
{
    match parse(alloc, path, text) {
        Ok(file) => Ok(Ok(file)),
        Err(Stop::Fault(fault)) => Ok(Err(fault)),
        Err(Stop::Memory) => Err(Memory),
    }
}
