ghost use Rattle.std.specs.Prelude.{◌≡◌, IfOk, OnOk, OnErr, option_map};
ghost use Rattle.agent_machine.specs.Parts.{part_of, TakesBack};

use crate::machine::Machine;
use pp_values::{Memory, Reference, Text};

/// A machine of which parts can be handed out, so that several resources have their turns at once.
pub trait WideMachine: Machine {
    type Part: Machine + Send;

    /// A part for the turn of a resource: it holds what is recorded of it and, for reading, of the file of
    /// `creates`. The machine stays as it was, also where the part is dropped.
    fn part(&mut self, what: &Reference, creates: Option<&Text>) -> Result<Self::Part, Memory>
        ensures part { IfOk result (λ p. Self.Part.state p
            ≡ part_of what.now (option_map (λ t. t.now) creates.entry) (Self.state self.old)) }
        ensures same { Self.state self.new ≡ Self.state self.old };

    /// Takes back what a part records of a resource. Where there is no memory, the machine stays as it was.
    fn put_back(&mut self, what: &Reference, part: Self::Part) -> Result<(), Memory>
        ensures back { OnOk result (TakesBack what.now (Self.Part.state part) (Self.state self.old)
            (Self.state self.new)) }
        ensures same { OnErr result (Self.state self.new ≡ Self.state self.old) };
}
