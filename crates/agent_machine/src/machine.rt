ghost use Rattle.std.specs.Prelude.{◌≡◌, IsTrue, option_map};
ghost use Rattle.pp_values.specs.Plain.{is_plain_value};
ghost use Rattle.pp_values.specs.Views.{view};
ghost use Rattle.agent_machine.specs.Machines.{Told, Asks, Writes, Refreshes, Loads};

use crate::holds::Holds;
use crate::machine_doc::MachineDoc;
use crate::wrote::Wrote;
use pp_values::{Reference, Text, Value};

/// What a catalog is applied to.
///
/// A contract sees a count of faults and, where the machine tells it, what is recorded. A machine in memory tells it,
/// and a real one need not.
pub trait Machine {
    ghost state: { Self → Told };

    /// Puts another document in the place of what is recorded.
    fn load(&mut self, document: MachineDoc)
        ensures { Loads document (Self.state self.old) (Self.state self.new) };

    /// Whether the resource has the property at this value. It takes no memory.
    fn holds(&mut self, what: &Reference, name: &Text, value: &Value) -> Holds
        ensures { Asks what.now name.now (view value.now) result (Self.state self.old) (Self.state self.new) };

    /// Sets the property to this value; `ensure` of `absent` removes what is recorded.
    fn write(&mut self, what: &Reference, name: &Text, value: &Value) -> Wrote
        requires { IsTrue (is_plain_value (view value.now)) }
        ensures { Writes what.now name.now (view value.now) result (Self.state self.old) (Self.state self.new) };

    /// Runs or restarts it. It takes no memory.
    fn refresh(&mut self, what: &Reference) -> Holds
        ensures { Refreshes what.now result (Self.state self.old) (Self.state self.new) };

    /// What is recorded, where the machine tells it.
    fn document(&self) -> Option<&MachineDoc>
        ensures { option_map (λ d. d.now) result ≡ option_map (λ c. c.document) (Self.state self.now).content };
}
