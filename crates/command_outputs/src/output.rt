use pp_values::Text;

/// What an input gives, as the text that is to be written.
#[derive(Drop)]
pub enum Output {
    /// The output.
    Done(Text),

    /// The log of a compile that succeeded, for the error stream, and the output.
    Compiled { log: Text, text: Text },

    /// The output, which tells of a refusal.
    Refused(Text),

    /// The output, and a line for the error stream, which tells of a refusal.
    Faulty { text: Text, line: Text },

    /// The output, and a line for the error stream, which tells what did not settle.
    Unsettled { text: Text, line: Text },

    /// The output, which tells of a want of memory.
    Short(Text),

    /// There is no output but this line, which tells of a fault, or of a node that the site doesn't list.
    Fault(Text),

    /// The input is not what the command reads, as this line tells.
    BadInput(Text),
}
