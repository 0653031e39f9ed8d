ghost use Rattle.std.specs.Prelude.{◌≡◌, ◌++◌, IsTrue, IfOk};
ghost use Rattle.pp_values.specs.Plain.{is_plain_value};
ghost use Rattle.pp_values.specs.Views.{view};
ghost use Rattle.agent_machine.specs.Machines.{Asks, Writes};
ghost use Rattle.agent_transaction.specs.Faults.{holds_fault, write_fault};

use agent_machine::{Holds, Machine, Wrote};
use pp_values::{Memory, Reference, Text, Value, copy};
use std::alloc::Global;
use std::marker::Model;

/// A property that a resource is to have, with all that its calls need, so that a turn takes no memory.
///
/// A contract sees its name and what its value says.
pub struct Want {
    name: Text,
    value: Value,
    holds_fault: Text,
    write_fault: Text,
}

// By hand, so that whoever holds one proves one call.
impl Drop for Want {
    fn drop(self) {
        let Want {
            name: _name,
            value: _value,
            holds_fault: _holds_fault,
            write_fault: _write_fault,
        } = self;
    }
}

impl Model for Want {
    ghost use Rattle.pp_values.specs.Settings.{Setting};
    ghost use Rattle.pp_values.specs.Views.{view as said};
    ghost use Rattle.agent_transaction.specs.TaskCodes.{coded_setting};
    ghost use Rattle.agent_transaction.specs.Faults.{IsWant};

    ghost Value = { Setting };

    ghost coded = { coded_setting };

    ghost view = { λ w. (w.name, said w.value) };

    ghost invariant = { λ w. IsWant w.name (said w.value) w.holds_fault w.write_fault };
}

impl Want {
    pub fn new(alloc: Global, name: Text, value: Value) -> Result<Want, Memory>
        requires { IsTrue (is_plain_value (view value)) }
        ensures { IfOk result (λ w. w ≡ (name, view value)) }
    {
        let holds_fault = fault_of(alloc, "holds ", &name)?;
        let write_fault = fault_of(alloc, "write ", &name)?;
        Ok(Want {
            name,
            value,
            holds_fault,
            write_fault,
        })
    }

    /// Asks whether the resource has it.
    pub fn ask<M: Machine>(&self, what: &Reference, machine: &mut M) -> Holds
        ensures { Asks what.now self.now.0 self.now.1 result (M.state machine.old) (M.state machine.new) }
    {
        machine.holds(what, &self.name, &self.value)
    }

    pub fn write<M: Machine>(&self, what: &Reference, machine: &mut M) -> Wrote
        ensures { Writes what.now self.now.0 self.now.1 result (M.state machine.old) (M.state machine.new) }
    {
        machine.write(what, &self.name, &self.value)
    }

    pub fn into_name(self) -> Text
        ensures { result ≡ self.0 }
    {
        let Want {
            name,
            value: _value,
            holds_fault: _holds_fault,
            write_fault: _write_fault,
        } = self;
        name
    }

    pub fn into_holds_fault(self) -> Text
        ensures { result ≡ holds_fault self.0 }
    {
        let Want {
            name: _name,
            value: _value,
            holds_fault,
            write_fault: _write_fault,
        } = self;
        holds_fault
    }

    pub fn into_write_fault(self) -> Text
        ensures { result ≡ write_fault self.0 }
    {
        let Want {
            name: _name,
            value: _value,
            holds_fault: _holds_fault,
            write_fault,
        } = self;
        write_fault
    }
}

fn fault_of(alloc: Global, call: &str, name: &Text) -> Result<Text, Memory>
    ensures { IfOk result (λ t. t ≡ call.now ++ name.now) }
{
    let mut out = String::from_str(alloc, call)?;
    out.push_str(name.as_str())?;
    Ok(Text::new(out))
}
