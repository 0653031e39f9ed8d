use crate::exports::Exports;

/// What a node exports, in the order of declaration. A resource's place in `items`, counted from 0, is its place in the set.
#[derive(Drop)]
pub struct ExportSet {
    pub items: Exports,
}
