/// What a scope belongs to.
#[derive(Clone, Copy, Debug, PartialEq, Eq)]
pub enum Owner {
    Top,
    Node,
    Class,
    Instance,
    Lambda,
    /// A call of a lambda that has ended.
    Ended,
}
