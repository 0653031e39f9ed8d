ghost use Rattle.std.specs.Prelude.{◌≡◌};
ghost use Rattle.site_commands.specs.Status.{status_of};

/// How a run of the program ended.
#[derive(Clone, Copy, Debug, PartialEq, Eq)]
pub enum Ending {
    /// The command did its work.
    Done,

    /// The work was refused, and the error stream or the output says why.
    Refused,

    /// A catalog was applied: something changed, and nothing failed.
    Changed,

    /// A catalog was applied: something failed, and nothing changed.
    Failed,

    /// A catalog was applied: something changed, and something failed.
    ChangedAndFailed,

    /// The words are faulty.
    BadWords,

    /// The input is not what the command reads.
    BadInput,

    /// The input could not be read.
    ReadFault,

    /// The output could not be written.
    WriteFault,

    /// The listener failed.
    NetFault,

    /// The tree of files failed.
    TreeFault,

    Memory,

    /// What the nodes of a site export has not settled in the rounds that were allowed.
    NotSettled,
}

impl Ending {
    /// The exit status.
    pub fn status(self) -> u8
        ensures { result ≡ status_of self }
    {
        match self {
            Ending::Done => 0,
            Ending::Refused => 1,
            Ending::Changed => 2,
            Ending::Failed => 4,
            Ending::ChangedAndFailed => 6,
            Ending::BadWords => 10,
            Ending::BadInput => 11,
            Ending::ReadFault => 12,
            Ending::WriteFault => 13,
            Ending::NetFault => 14,
            Ending::TreeFault => 15,
            Ending::Memory => 16,
            Ending::NotSettled => 17,
        }
    }
}
