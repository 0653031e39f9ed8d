use crate::statement::Block;
use crate::table::Table;

/// A manifest: the statements at its top, and its definitions by their names.
pub struct File {
    pub statements: Block,
    pub definitions: Table,
}

// By hand, so that a crate that lets a file go proves one call, and not the drop of each type of the tree.
impl Drop for File {
    fn drop(self) {
        let File {
            statements: _statements,
            definitions: _definitions,
        } = self;
    }
}
