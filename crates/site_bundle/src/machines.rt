//! The machine of a bundle.
ghost use Rattle.std.specs.Prelude.{◌≡◌};
ghost use Rattle.serde_json.specs.View.{view};
ghost use Rattle.site_bundle.specs.Machines.{no_machine, machine_said, machine_of};
ghost use Rattle.site_bundle.specs.Refusals.{Reads};

use crate::bundle_stop::BundleStop;
use agent_docs::MachineStop;
use agent_machine::{FailingTexts, MachineDoc, States};
use serde_json::Value;
use std::alloc::Global;

/// A machine of which nothing is recorded, and on which no call fails.
pub fn no_machine(alloc: Global) -> MachineDoc
    ensures { result ≡ no_machine }
{
    MachineDoc {
        failing: FailingTexts::new(alloc),
        state: States::new(alloc),
    }
}

/// The machine of a bundle, which need not be there.
pub fn read_machine(alloc: Global, bundle: &Value) -> Result<MachineDoc, BundleStop>
    ensures { Reads result (machine_of (view bundle.now)) }
{
    match bundle.get("machine") {
        Some(machine) => machine_said(alloc, machine),
        None => Ok(no_machine(alloc)),
    }
}

/// The machine that a document says, or the first of its members that is bad.
pub fn machine_said(alloc: Global, machine: &Value) -> Result<MachineDoc, BundleStop>
    ensures { Reads result (machine_said (view machine.now)) }
{
    match agent_docs::machine_of(alloc, machine) {
        Ok(machine) => Ok(machine),
        Err(MachineStop::Bad(path)) => Err(BundleStop::BadShape(path)),
        Err(MachineStop::Memory) => Err(BundleStop::Memory),
    }
}
