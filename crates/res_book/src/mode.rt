ghost use Rattle.std.specs.Prelude.{◌≡◌};
ghost use Rattle.res_book.specs.Rows.{is_imported};

use pp_values::Text;

/// How a resource was declared.
#[derive(Drop)]
pub enum Mode {
    Plain,

    /// By `@`.
    Virtual,

    /// By `@@`.
    Exported,

    /// By a collector, which found it at this place of the node's exports.
    Imported { node: Text, place: u32 },
}

impl Mode {
    /// Whether a collector found it among the exports of a node.
    pub fn is_imported(&self) -> bool
        ensures { result ≡ is_imported self.now }
    {
        match self {
            Mode::Imported { node: _, place: _ } => true,
            Mode::Plain | Mode::Virtual | Mode::Exported => false,
        }
    }
}
