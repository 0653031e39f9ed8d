use pp_tree::Arrow;
use res_core::Operands;

/// An operand of a chain behind an arrow, evaluated.
#[derive(Drop)]
pub struct End {
    pub arrow: Arrow,
    /// What it stands for; `None` where that is nothing that can be related.
    pub operands: Option<Operands>,
}
