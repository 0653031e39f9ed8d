//! How long a name may be, and how great a number.

/// The most characters of the name of a node.
pub const MOST_NAME_CHARACTERS: usize = 255;

/// The most nodes of a demo.
pub const MOST_DEMO_NODES: u32 = 4096;

/// The most workers that share work out.
pub const MOST_WORKERS: u32 = 64;

/// The most rounds in which a site may settle.
pub const MOST_ROUNDS: u32 = 100;

/// The most connections that a service accepts.
pub const MOST_CONNECTIONS: u32 = 1024;

/// The greatest number of a port.
pub const MOST_PORT: u32 = 65535;
