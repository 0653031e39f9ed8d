use pp_values::{Place, Reference, Text, Texts, Value};

/// What a line of an override may set or change.
#[derive(Drop)]
pub enum Right {
    /// Anything: the line is one of a collector's block.
    Any,

    /// What this source, and those from which it inherits in any number of steps, let it.
    From(Text, Texts),
}

/// A line that sets an attribute of a resource which was, or will be, declared elsewhere.
pub struct OverrideLine {
    pub target: Reference,
    pub name: Text,
    /// Whether it is written with `+>`, and so adds to what is set, and not with `=>`.
    pub append: bool,
    pub value: Value,
    pub at: Place,
    pub right: Right,
}

// By hand, so that no crate above proves the drops of the value again.
impl Drop for OverrideLine {
    fn drop(self) {
        let OverrideLine {
            target: _target,
            name: _name,
            append: _append,
            value: _value,
            at: _at,
            right: _right,
        } = self;
    }
}
