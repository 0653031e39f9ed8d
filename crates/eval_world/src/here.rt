ghost use Rattle.std.specs.Prelude.{◌≡◌};
ghost use Rattle.eval_world.specs.Worlds.{top};

use scope_core::ScopeId;

/// Where an evaluation stands: the scope that names are read in, the number of the owner whose code is evaluated, and
/// whether that is within the type of a parameter. A lambda has a scope of its own and the owner that it is within.
#[derive(Clone, Copy, Debug, PartialEq, Eq)]
pub struct Here {
    /// The scope that names are read in and set in.
    pub scope: ScopeId,
    /// The number of the owner: whose file faults are placed in, and who contains what is declared.
    pub owner: u32,
    /// Whether it is within the type of a parameter. The body of a class or of a lambda is not, though it is run from
    /// within one.
    pub typed: bool,
}

impl Here {
    /// Where the statements of the main manifest are evaluated.
    pub fn top() -> Here
        ensures { result ≡ top }
    {
        Here {
            scope: ScopeId { number: 0 },
            owner: 0,
            typed: false,
        }
    }
}
