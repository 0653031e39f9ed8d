use pp_tree::Definition;
use pp_values::Fault;

/// What stands under the name of a class or define.
#[derive(Clone, Copy)]
pub enum Found<'a> {
    Nothing,
    Definition(&'a Definition),
    /// The file that the name gives was not read.
    Fault(&'a Fault),
}
