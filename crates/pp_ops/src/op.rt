ghost use Rattle.std.specs.Prelude.{◌≡◌};
ghost use Rattle.pp_ops.specs.Symbols.{symbol};

/// An operator. `Append` is `<<`, `Member` is `in`, and `Access` is `[]`.
#[derive(Clone, Copy)]
pub enum Op {
    Add,
    Subtract,
    Multiply,
    Divide,
    Modulo,
    Append,
    Equal,
    NotEqual,
    Less,
    Greater,
    AtMost,
    AtLeast,
    Member,
    Negate,
    Access,
}

impl Op {
    /// The operator as it is written, which faults name.
    pub fn symbol(self) -> &'static str
        ensures { result.now ≡ symbol self }
    {
        match self {
            Op::Add => "+",
            Op::Subtract => "-",
            Op::Multiply => "*",
            Op::Divide => "/",
            Op::Modulo => "%",
            Op::Append => "<<",
            Op::Equal => "==",
            Op::NotEqual => "!=",
            Op::Less => "<",
            Op::Greater => ">",
            Op::AtMost => "<=",
            Op::AtLeast => ">=",
            Op::Member => "in",
            Op::Negate => "-",
            Op::Access => "[]",
        }
    }
}
