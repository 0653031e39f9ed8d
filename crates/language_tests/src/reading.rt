//! Manifests that are read, and what is told of them.
use pp_parser::parse;
use pp_tree::File;
use pp_values::{Fault, Stop, Text, What};
use std::alloc::{AllocError, Global};

pub const MAIN: &str = "manifests/site.pp";

pub fn parsed(alloc: Global, path: &str, manifest: &str) -> Result<File, Stop> {
    let file = Text::from_str(alloc, path)?;
    let text = Text::from_str(alloc, manifest)?;
    if text.as_str().len() < 65536 {
        parse(alloc, &file, &text)
    } else {
        Err(Stop::Memory)
    }
}

fn number_of(what: &What) -> &'static str {
    match what {
        What::Syntax => "F1",
        What::DepthLimit => "F29",
        _ => "another fault",
    }
}

/// The number of the fault and its line, such as `F1 2`.
pub fn fault_text(alloc: Global, fault: &Fault) -> Result<String, AllocError> {
    let number = number_of(fault.what.get());
    let line = fault.at.line;
    format!(in alloc; "{number} {line}")
}

fn counts(alloc: Global, file: &File) -> Result<String, AllocError> {
    let statements = file.statements.len();
    let definitions = file.definitions.len();
    format!(in alloc; "{statements} {definitions}")
}

/// Reads a manifest and says something of its tree, or its fault.
fn told(alloc: Global, path: &str, manifest: &str) -> Result<String, AllocError> {
    match parsed(alloc, path, manifest) {
        Ok(file) => counts(alloc, &file),
        Err(Stop::Fault(fault)) => fault_text(alloc, &fault),
        Err(Stop::Memory) => String::from_str(alloc, "no memory"),
    }
}

/// Whether the manifest has so many statements and names of definitions, or this fault.
pub fn reads_as(alloc: Global, path: &str, manifest: &str, want: &str) -> Result<bool, AllocError> {
    Ok(told(alloc, path, manifest)?.as_str() == want)
}
