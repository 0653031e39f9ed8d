use agent_machine::ReportLine;
use pp_values::Reference;

/// What a turn came to.
#[derive(Drop)]
pub struct TakenTurn<P> {
    pub at: u32,
    pub what: Reference,
    pub line: ReportLine,
    pub part: Option<P>,
}
