use pp_tree::{Definition, Name, Statement};

/// What stands at the top of a main manifest.
#[derive(Drop)]
pub enum Item {
    Definition(Definition),
    /// A statement, and the name behind it that begins the next one, where its last token was such a name.
    Statement(Statement, Option<Name>),
}
