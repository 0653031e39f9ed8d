ghost use Rattle.std.specs.Prelude.{◌≡◌, [], option_map, if◌then◌else◌, is_ok, IfOk};
ghost use Rattle.site_io.specs.Folders.{IsSameFolder, Lists, Reads, names_with, folder_front, bytes_at, is_failed_list, is_failed_read, IsCopy};
ghost use Rattle.site_io.specs.ScriptedFolder.{folder_of, new_folder, holding, is_failing_call, IsNextVisit};

use super::names::{folder_front, put_name, texts_of};
use super::{Bytes, Content, Listed, Tree};
use pp_values::{Memory, Text, Texts};
use std::alloc::{AllocError, Global};
use std::collections::{BTreeMap, BTreeSet};
use std::marker::Model;

/// A tree in memory. Its calls fail where they are told to.
///
/// A folder is there where a file lies in it. At a path there may be no bytes: then it is listed, and there is no file
/// to be read.
#[derive(Drop)]
pub struct MemTree {
    files: BTreeMap<Text, Option<Bytes>>,
    calls: u64,
    failing: Vec<u64>,
    faults: u64,
}

impl Model for MemTree {
    ghost use Rattle.site_io.specs.ScriptedFolder.{ScriptedFolder};

    ghost Value = { ScriptedFolder };

    ghost view = { λ t. record {
      faults = t.faults;
      files = t.files.entries;
      calls = t.calls;
      failing = t.failing.items;
    } };
}

impl MemTree {
    /// A tree without files. Copies the numbers of the calls that are to fail, which count from 1.
    pub fn new(alloc: Global, failing: &[u64]) -> Result<Self, AllocError>
        ensures { IfOk result (λ tree. tree ≡ new_folder failing.now) }
    {
        Ok(MemTree {
            files: BTreeMap::new(alloc),
            calls: 0,
            failing: Vec::from_slice(alloc, failing)?,
            faults: 0,
        })
    }

    /// Puts this at a path, in place of what stood there. Where there is no memory, the tree stays as it was.
    pub fn hold(&mut self, path: Text, content: Option<Bytes>) -> Result<(), Memory>
        ensures { self.new ≡ (if is_ok result then holding path content self.old else self.old) }
    {
        drop(self.files.insert(path, content)?);
        Ok(())
    }

    /// How many calls of `list` and `read_file` it has met.
    pub fn calls(&self) -> u64
        ensures { result ≡ self.now.calls }
    {
        self.calls
    }

    /// How many of them have failed.
    pub fn faults(&self) -> u64
        ensures { result ≡ self.now.faults }
    {
        self.faults
    }

    // Counts a call, and says whether it is to fail.
    fn is_failing(&mut self) -> bool
        ensures failing { result ≡ is_failing_call self.old }
        ensures next { IsNextVisit result self.old self.new }
        ensures same { IsSameFolder (folder_of self.old) (folder_of self.new) }
    {
        self.calls = self.calls.saturating_add(1);
        let is_failing = self.failing.contains(&self.calls);
        if is_failing {
            self.faults = self.faults.saturating_add(1);
        }
        is_failing
    }

    fn names_at(&self, alloc: Global, path: &Text) -> Result<Texts, Memory>
        ensures { IfOk result (λ names. names ≡ names_with [] (folder_front path.now) self.now.files) }
    {
        let front = folder_front(alloc, path.as_str())?;
        let names = self.names_behind(alloc, front.as_str())?;
        texts_of(alloc, names)
    }

    #[tactic(auto, unfolding(crate::specs::Folders::names_with))]
    fn names_behind(&self, alloc: Global, front: &str) -> Result<BTreeSet<Text>, Memory>
        ensures { IfOk result (λ names. names.keys ≡ names_with [] front.now self.now.files) }
    {
        let mut names = BTreeSet::new(alloc);
        for (path, _) in &self.files {
            put_name(alloc, front, path.as_str(), &mut names)?;
        }
        Ok(names)
    }

    fn bytes_at(&self, path: &Text) -> Option<&Bytes>
        ensures { option_map (λ b. b.now) result ≡ bytes_at path.now self.now.files }
    {
        match self.files.get(path) {
            Some(Some(bytes)) => Some(bytes),
            Some(None) => None,
            None => None,
        }
    }
}

impl Tree for MemTree {
    ghost folder = { folder_of };

    fn list(&mut self, alloc: Global, path: &Text) -> Listed
        ensures lists { Lists result path.now (folder_of self.old) (folder_of self.new) }
        ensures next { IsNextVisit (is_failed_list result) self.old self.new }
        ensures fails { is_failed_list result ≡ is_failing_call self.old }
    {
        if self.is_failing() {
            return Listed::Failed;
        }
        match self.names_at(alloc, path) {
            Ok(names) if names.is_empty() => Listed::Missing,
            Ok(names) => Listed::Names(names),
            Err(Memory) => Listed::Memory,
        }
    }

    fn read_file(&mut self, alloc: Global, path: &Text, limit: usize) -> Content
        ensures reads { Reads result path.now limit (folder_of self.old) (folder_of self.new) }
        ensures next { IsNextVisit (is_failed_read result) self.old self.new }
        ensures fails { is_failed_read result ≡ is_failing_call self.old }
    {
        if self.is_failing() {
            return Content::Failed;
        }
        match self.bytes_at(path) {
            Some(bytes) if limit < bytes.len() => Content::TooLarge,
            Some(bytes) => copy_of(alloc, bytes),
            None => Content::Missing,
        }
    }
}

fn copy_of(alloc: Global, bytes: &Bytes) -> Content
    ensures { IsCopy result bytes.now }
{
    match Bytes::from_slice(alloc, bytes.as_slice()) {
        Ok(bytes) => Content::Bytes(bytes),
        Err(_) => Content::Memory,
    }
}
