ghost use Rattle.std.specs.Prelude.{◌≡◌};
ghost use Rattle.eval_forms.specs.Operators.{kind_of};

use pp_ops::Op;
use pp_tree::BinaryOperator;

/// How an operator between two operands goes.
#[derive(Clone, Copy)]
pub enum OperatorKind {
    /// It takes the values of both operands.
    Combine(Op),
    /// It asks whether the left value is of the type on the right: `=~` where that is wanted, and else `!~`.
    Match(bool),
    /// `and`
    And,
    /// `or`
    Or,
}

impl OperatorKind {
    pub fn of(operator: BinaryOperator) -> OperatorKind
        ensures { result ≡ kind_of operator }
    {
        match operator {
            BinaryOperator::In => OperatorKind::Combine(Op::Member),
            BinaryOperator::Match => OperatorKind::Match(true),
            BinaryOperator::NoMatch => OperatorKind::Match(false),
            BinaryOperator::Multiply => OperatorKind::Combine(Op::Multiply),
            BinaryOperator::Divide => OperatorKind::Combine(Op::Divide),
            BinaryOperator::Modulo => OperatorKind::Combine(Op::Modulo),
            BinaryOperator::Add => OperatorKind::Combine(Op::Add),
            BinaryOperator::Subtract => OperatorKind::Combine(Op::Subtract),
            BinaryOperator::Append => OperatorKind::Combine(Op::Append),
            BinaryOperator::Equal => OperatorKind::Combine(Op::Equal),
            BinaryOperator::NotEqual => OperatorKind::Combine(Op::NotEqual),
            BinaryOperator::AtLeast => OperatorKind::Combine(Op::AtLeast),
            BinaryOperator::AtMost => OperatorKind::Combine(Op::AtMost),
            BinaryOperator::Greater => OperatorKind::Combine(Op::Greater),
            BinaryOperator::Less => OperatorKind::Combine(Op::Less),
            BinaryOperator::And => OperatorKind::And,
            BinaryOperator::Or => OperatorKind::Or,
        }
    }
}
