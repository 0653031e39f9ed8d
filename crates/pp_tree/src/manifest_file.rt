use crate::file::File;
use pp_values::{Fault, Text};

/// A manifest of a site: its text, and its tree or its first fault.
pub struct ManifestFile {
    pub text: Text,
    pub read: Result<File, Fault>,
}

// By hand, so that a crate that lets a manifest go proves one call, and not the drops of its tree and of its fault.
impl Drop for ManifestFile {
    fn drop(self) {
        let ManifestFile {
            text: _text,
            read: _read,
        } = self;
    }
}
