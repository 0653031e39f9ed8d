//! Positional words as the usage names them, and options by their names.

pub const NODE: &str = "NODE";

pub const KEY: &str = "KEY";

pub const NODES: &str = "N";

pub const ROUNDS: &str = "ROUNDS";

pub const PORT: &str = "PORT";

pub const COUNT: &str = "COUNT";

pub const MERGE: &str = "merge";

pub const DIR: &str = "dir";

pub const RESUME: &str = "resume";

pub const WORKERS: &str = "workers";
