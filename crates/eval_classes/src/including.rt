ghost use Rattle.std.specs.Prelude.{◌≡◌};
ghost use Rattle.eval_classes.specs.Included.{including_of};

use pp_values::Text;

/// The functions that declare classes.
#[derive(Clone, Copy, Debug, PartialEq, Eq)]
pub enum Including {
    Include,
    /// The classes stand within the resource of the scope, too.
    Contain,
    /// The classes come before the resource of the scope, too.
    Require,
}

impl Including {
    /// The function of this name.
    pub fn from_name(function: &Text) -> Option<Including>
        ensures { result ≡ including_of function.now }
    {
        if function.is("include") {
            Some(Including::Include)
        } else if function.is("contain") {
            Some(Including::Contain)
        } else if function.is("require") {
            Some(Including::Require)
        } else {
            None
        }
    }
}
