//! How much a bundle or a folder may be.

/// The most bytes that a bundle has, and all files that are read of a folder together: 64 MiB.
pub const MOST_BUNDLE_BYTES: usize = 67_108_864;

/// The most bytes that a file has: 4 MiB.
pub const MOST_FILE_BYTES: usize = 4_194_304;

/// The most files of a bundle, and that are read of a folder.
pub const MOST_FILES: usize = 65_536;

/// The most requests of a bundle.
pub const MOST_REQUESTS: usize = 1_048_576;

/// How deep the folders lie at most that are read of a tree: `data/` has depth 1.
pub const MOST_LEVELS: usize = 16;
