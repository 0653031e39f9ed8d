ghost use Rattle.std.specs.Prelude.{◌≡◌};
ghost use Rattle.site_core.specs.Said.{kind_of};

use agent_machine::Report;
use pp_values::Text;

/// What is asked for by one entry, which may stand behind any others.
#[derive(Drop)]
pub enum Plain<S> {
    /// The node exports nothing any more.
    Deactivate { node: Text },
    /// The site takes the place of the one in force. Compiles that have begun keep theirs.
    Deploy { site: S },
    /// What became of the node's catalog. No set changes.
    Report { node: Text, report: Report },
}

/// What kind of entry that is.
#[derive(Clone, Copy, Debug, PartialEq, Eq)]
pub enum PlainKind {
    Deactivation,
    Deployment,
    Filing,
}

impl<S> Plain<S> {
    pub fn kind(&self) -> PlainKind
        ensures { result ≡ kind_of self.now }
    {
        match self {
            Plain::Deactivate { node: _ } => PlainKind::Deactivation,
            Plain::Deploy { site: _ } => PlainKind::Deployment,
            Plain::Report { node: _, report: _ } => PlainKind::Filing,
        }
    }
}
