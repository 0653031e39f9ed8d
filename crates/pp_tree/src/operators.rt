/// An operator before its operand.
#[derive(Clone, Copy, Debug, PartialEq, Eq)]
pub enum PrefixOperator {
    /// `!$a`
    Not,
    /// `-$a`
    Negate,
    /// `*$a`
    Splat,
}

/// An operator between two operands. Those of one strength associate to the left.
#[derive(Clone, Copy, Debug, PartialEq, Eq)]
pub enum BinaryOperator {
    /// `$a in $b`
    In,
    /// `$a =~ Integer`
    Match,
    /// `$a !~ Integer`
    NoMatch,
    /// `$a * $b`
    Multiply,
    /// `$a / $b`
    Divide,
    /// `$a % $b`
    Modulo,
    /// `$a + $b`
    Add,
    /// `$a - $b`
    Subtract,
    /// `$a << $b`
    Append,
    /// `$a == $b`
    Equal,
    /// `$a != $b`
    NotEqual,
    /// `$a >= $b`
    AtLeast,
    /// `$a <= $b`
    AtMost,
    /// `$a > $b`
    Greater,
    /// `$a < $b`
    Less,
    /// `$a and $b`
    And,
    /// `$a or $b`
    Or,
}
