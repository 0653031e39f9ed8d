use pp_tree::Class;
use scope_core::ScopeId;

/// A class whose scope is entered, and that is to be declared.
#[derive(Clone, Copy)]
pub struct Entered<'a> {
    pub class: &'a Class,
    pub scope: ScopeId,
}
