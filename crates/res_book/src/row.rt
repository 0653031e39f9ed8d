use crate::mode::Mode;
use res_core::{Attributes, Declared};

/// A declaration, and what became of it.
#[derive(Drop)]
pub struct Row {
    pub declared: Declared,
    pub mode: Mode,
    /// Whether a collector has taken it.
    pub marked: bool,
    /// The parameters of a class or instance, from its evaluation on.
    pub bound: Option<Attributes>,
}
