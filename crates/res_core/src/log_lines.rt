use crate::log_line::LogLine;
use pp_values::Items;

/// The lines of a log, in the order in which they were written.
pub type LogLines = Items<LogLine>;
