ghost use Rattle.site_io.specs.Folders.{Folder, Lists, Reads};

use super::Bytes;
use pp_values::{Text, Texts};
use std::alloc::Global;

/// What lies in a folder.
#[derive(Drop)]
pub enum Listed {
    /// The names in byte order, that of a folder with a `/` at its end.
    Names(Texts),
    /// There is no such folder.
    Missing,
    Failed,
    Memory,
}

/// What stands in a file.
#[derive(Drop)]
pub enum Content {
    Bytes(Bytes),
    /// There is no such file.
    Missing,
    /// It has more bytes than were asked for.
    TooLarge,
    Failed,
    Memory,
}

/// A tree of files.
///
/// A tree tells which files it has, or leaves it open. What it tells stays the same. It may also tell which calls were
/// made, in their order, and which of them failed.
pub trait Tree {
    ghost folder: { Self → Folder };

    /// The names in the folder at a path. After `Failed` a later call may succeed.
    fn list(&mut self, alloc: Global, path: &Text) -> Listed
        ensures { Lists result path.now (Self.folder self.old) (Self.folder self.new) };

    /// The bytes of the file at a path, of which there may be `limit`. After `Failed` a later call may succeed.
    fn read_file(&mut self, alloc: Global, path: &Text, limit: usize) -> Content
        ensures { Reads result path.now limit (Self.folder self.old) (Self.folder self.new) };
}
