ghost use Rattle.std.specs.Prelude.{◌≡◌, ◌≤◌, ◌++◌, codes, length, IsTrue, IfOk, OnOk};
ghost use Rattle.std.specs.IoError.{error_kind};
ghost use Rattle.std.specs.BTreeSet.{insert_key};
ghost use Rattle.pp_values.specs.Rising.{text_cmp, is_rising};
ghost use Rattle.site_io.specs.Folders.{Lists, Reads, untold_folder};
ghost use Rattle.site_io.specs.SystemFolders.{stop_for, IsSeen, name_seen, PutsSeen};

use super::names::{folder_name, texts_of};
use super::{Bytes, Content, Listed, ReadStop, ReaderSource, Tree, read_all};
use pp_values::{Memory, Text, Texts};
use std::alloc::Global;
use std::collections::BTreeSet;
use std::fs::{DirEntry, Files, Metadata, ReadDir};
use std::io::ErrorKind;
use std::marker::Model;
use std::{fs, io};

/// A tree over the folders and files of the system. It tells nothing.
///
/// Links are followed. What is neither a folder nor a plain file, as a pipe or a link that leads nowhere, is no name in
/// its folder and no file. A name that isn't UTF-8 is a fault.
#[derive(Drop)]
pub struct FolderTree<'a, R: Files + AllocGlobal + Clone + Drop> {
    system: &'a R,
    faults: u64,
}

impl<'a, R: Files + AllocGlobal + Clone + Drop> Model for FolderTree<'a, R> {
    ghost use Rattle.site_io.specs.Folders.{Folder, untold_folder};

    ghost Value = { Folder };

    ghost view = { λ t. untold_folder t.faults };
}

impl<'a, R: Files + AllocGlobal + Clone + Drop> FolderTree<'a, R> {
    pub fn new(system: &'a R) -> Self
        ensures { result ≡ untold_folder 0 }
    {
        FolderTree { system, faults: 0 }
    }

    /// How many calls have failed; it stands still at the last value of its type.
    pub fn faults(&self) -> u64
        ensures { result ≡ self.now.faults }
    {
        self.faults
    }
}

impl<'a, R: Files + AllocGlobal + Clone + Drop> Tree for FolderTree<'a, R> {
    ghost folder = { λ t. t };

    fn list(&mut self, alloc: Global, path: &Text) -> Listed
        ensures { Lists result path.now self.old self.new }
    {
        match names_in(self.system, alloc, path.as_str()) {
            Ok(names) => Listed::Names(names),
            Err(FolderStop::Missing) => Listed::Missing,
            Err(FolderStop::Fault) => {
                self.faults = self.faults.saturating_add(1);
                Listed::Failed
            }
            Err(FolderStop::Memory) => Listed::Memory,
        }
    }

    fn read_file(&mut self, alloc: Global, path: &Text, limit: usize) -> Content
        ensures { Reads result path.now limit self.old self.new }
    {
        match bytes_in(self.system, alloc, path.as_str(), limit) {
            Ok(Ok(bytes)) => Content::Bytes(bytes),
            Ok(Err(ReadStop::TooLong)) => Content::TooLarge,
            Ok(Err(ReadStop::Memory)) => Content::Memory,
            Err(FolderStop::Missing) => Content::Missing,
            Err(FolderStop::Memory) => Content::Memory,
            Ok(Err(ReadStop::Fault)) | Err(FolderStop::Fault) => {
                self.faults = self.faults.saturating_add(1);
                Content::Failed
            }
        }
    }
}

/// Why the system gave no folder or file.
#[derive(Clone, Copy)]
enum FolderStop {
    Missing,
    Fault,
    Memory,
}

impl From<Memory> for FolderStop {
    ghost from_gives = { λ _ _. Unit {0} };

    fn from(_memory: Memory) -> FolderStop {
        FolderStop::Memory
    }
}

/// There is nothing only where the system says so: what may not be looked at is a fault.
fn stop_for(error: &io::Error) -> FolderStop
    ensures { result ≡ stop_for (error_kind error.now) }
{
    match error.kind() {
        ErrorKind::NotFound | ErrorKind::NotADirectory => FolderStop::Missing,
        ErrorKind::OutOfMemory => FolderStop::Memory,
        _ => FolderStop::Fault,
    }
}

/// What lies at a path, links followed.
#[derive(Clone, Copy)]
enum Seen {
    Folder,
    File,
    Other,
}

fn seen_in(looked: &io::Result<Metadata>) -> Result<Seen, FolderStop>
    ensures { IsSeen looked.now result }
{
    match looked {
        Ok(metadata) if metadata.is_dir() => Ok(Seen::Folder),
        Ok(metadata) if metadata.is_file() => Ok(Seen::File),
        Ok(_) => Ok(Seen::Other),
        Err(error) => Err(stop_for(error)),
    }
}

fn names_in<R: Files + AllocGlobal + Clone + Drop>(
    system: &R,
    alloc: Global,
    path: &str,
) -> Result<Texts, FolderStop>
    ensures { IfOk result (λ names. IsTrue (is_rising names)) }
{
    let mut names = BTreeSet::new(alloc);
    for entry in entries_of(system, path)? {
        put_entry(system, alloc, &entry, &mut names)?;
    }
    Ok(texts_of(alloc, names)?)
}

fn entries_of<R: Files + AllocGlobal + Clone + Drop>(
    system: &R,
    path: &str,
) -> Result<ReadDir<R, Global>, FolderStop> {
    match fs::read_dir(system, path) {
        Ok(entries) => Ok(entries),
        Err(error) => Err(stop_for(&error)),
    }
}

fn put_entry<R: Files + AllocGlobal + Clone + Drop>(
    system: &R,
    alloc: Global,
    entry: &io::Result<DirEntry<R, Global>>,
    names: &mut BTreeSet<Text>,
) -> Result<(), FolderStop>
    requires { IsTrue (is_rising names.old.keys) }
    ensures { OnOk result (IsTrue (is_rising names.new.keys)) }
{
    match entry {
        Ok(entry) => {
            let seen = seen_in(&fs::metadata(system, entry.path()));
            put_seen(alloc, seen, entry.file_name(), names)
        }
        Err(error) => Err(stop_for(error)),
    }
}

/// Puts the name among the names, if what lies there is listed: a link that leads nowhere is not.
fn put_seen(
    alloc: Global,
    seen: Result<Seen, FolderStop>,
    name: &str,
    names: &mut BTreeSet<Text>,
) -> Result<(), FolderStop>
    ensures puts { PutsSeen result (name_seen seen name.now) names.old.keys names.new.keys }
    ensures rising { IsTrue (is_rising names.old.keys) → OnOk result (IsTrue (is_rising names.new.keys)) }
{
    match seen {
        Ok(Seen::Folder) => match put_folder(alloc, name, names) {
            Ok(()) => Ok(()),
            Err(Memory) => Err(FolderStop::Memory),
        },
        Ok(Seen::File) => match put_file(alloc, name, names) {
            Ok(()) => Ok(()),
            Err(Memory) => Err(FolderStop::Memory),
        },
        Ok(Seen::Other) | Err(FolderStop::Missing) => Ok(()),
        Err(stop) => Err(stop),
    }
}

fn put_folder(alloc: Global, name: &str, names: &mut BTreeSet<Text>) -> Result<(), Memory>
    ensures puts { OnOk result (names.new.keys ≡ insert_key text_cmp names.old.keys (name.now ++ codes "/")) }
    ensures rising { IsTrue (is_rising names.old.keys) → OnOk result (IsTrue (is_rising names.new.keys)) }
{
    put_name(folder_name(alloc, name)?, names)
}

fn put_file(alloc: Global, name: &str, names: &mut BTreeSet<Text>) -> Result<(), Memory>
    ensures puts { OnOk result (names.new.keys ≡ insert_key text_cmp names.old.keys name.now) }
    ensures rising { IsTrue (is_rising names.old.keys) → OnOk result (IsTrue (is_rising names.new.keys)) }
{
    put_name(Text::from_str(alloc, name)?, names)
}

#[tactic(auto, using(crate::proofs::Trees::rising_put))]
fn put_name(name: Text, names: &mut BTreeSet<Text>) -> Result<(), Memory>
    ensures puts { OnOk result (names.new.keys ≡ insert_key text_cmp names.old.keys name) }
    ensures rising { IsTrue (is_rising names.old.keys) → OnOk result (IsTrue (is_rising names.new.keys)) }
{
    names.insert(name)?;
    Ok(())
}

fn bytes_in<R: Files + AllocGlobal + Clone + Drop>(
    system: &R,
    alloc: Global,
    path: &str,
    limit: usize,
) -> Result<Result<Bytes, ReadStop>, FolderStop>
    ensures { IfOk result (λ read. IfOk read (λ bytes. length bytes ≤ limit)) }
{
    let file = file_at(system, path)?;
    Ok(read_all(alloc, &mut ReaderSource::new(file), limit))
}

fn file_at<R: Files + AllocGlobal + Clone + Drop>(
    system: &R,
    path: &str,
) -> Result<R::File, FolderStop> {
    match seen_in(&fs::metadata(system, path)) {
        Ok(Seen::File) => {}
        Ok(Seen::Folder | Seen::Other) => return Err(FolderStop::Missing),
        Err(stop) => return Err(stop),
    }
    match fs::open(system, path) {
        Ok(file) => Ok(file),
        Err(error) => Err(stop_for(&error)),
    }
}
