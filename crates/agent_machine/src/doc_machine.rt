ghost use Rattle.std.specs.Prelude.{◌≡◌, false, if◌then◌else◌, is_ok, IfOk, OnErr, IsTrue, option_map};
ghost use Rattle.pp_values.specs.Plain.{is_plain_value};
ghost use Rattle.pp_values.specs.Views.{view};
ghost use Rattle.agent_machine.specs.CallTexts.{pieces_text};
ghost use Rattle.agent_machine.specs.Contents.{holds_text, write_text, refresh_text, holds_by};
ghost use Rattle.agent_machine.specs.States.{removes};
ghost use Rattle.agent_machine.specs.Machines.{new_machine, counted, recording, FailsNext, Has, Loads, Asks, Writes, Refreshes};

use crate::call_text::CallText;
use crate::doc_parts::part_state;
use crate::holds::Holds;
use crate::machine::Machine;
use crate::machine_doc::MachineDoc;
use crate::recording::{has, write};
use crate::wide_machine::WideMachine;
use crate::wrote::Wrote;
use pp_values::{Memory, Reference, Text, Value};
use std::alloc::Global;
use std::marker::Model;

/// A machine that is its document. Calls fail where the document says so, and where they are told to by their numbers.
#[derive(Drop)]
pub struct DocMachine {
    alloc: Global,
    document: MachineDoc,
    calls: u64,
    failing: Vec<u64>,
    faults: u64,
}

impl Model for DocMachine {
    ghost use Rattle.std.specs.Prelude.{Some};
    ghost use Rattle.agent_machine.specs.States.{removes};
    ghost use Rattle.agent_machine.specs.Machines.{Told};
    ghost use Rattle.agent_machine.specs.MachineCodes.{coded_told};

    ghost Value = { Told };

    ghost coded = { coded_told };

    ghost view = { λ m. record {
      content = Some (record { document = m.document; calls = m.calls; failing = m.failing.items });
      faults = m.faults;
    } };
}

impl DocMachine {
    /// Copies the numbers of the calls that are to fail, which count from 1.
    pub fn new(alloc: Global, document: MachineDoc, failing: &[u64]) -> Result<DocMachine, Memory>
        ensures { IfOk result (λ m. m ≡ new_machine document failing.now) }
    {
        let failing = Vec::from_slice(alloc, failing)?;
        Ok(DocMachine {
            alloc,
            document,
            calls: 0,
            failing,
            faults: 0,
        })
    }

    /// Whether the next call fails.
    fn is_failing(&self, call: CallText<'_>) -> bool
        ensures { FailsNext (pieces_text call.entry) result self.now }
    {
        self.failing.contains(&self.calls.saturating_add(1)) || self.document.failing.has(call)
    }

    fn has(&self, what: &Reference, name: &Text, value: &Value) -> bool
        ensures { Has what.now name.now (view value.now) result self.now }
    {
        has(&self.document.state, what, name, value)
    }

    /// Counts a call, and its fault where it fails.
    fn count(&mut self, is_failing: bool)
        ensures { self.new ≡ counted is_failing self.old }
    {
        self.calls = self.calls.saturating_add(1);
        if is_failing {
            self.faults = self.faults.saturating_add(1);
        }
    }

    /// Writes into the state. Where there is no memory, it stays as it was.
    fn put(&mut self, what: &Reference, name: &Text, value: &Value) -> Result<(), Memory>
        requires { IsTrue (is_plain_value (view value.now)) }
        ensures machine { self.new ≡ (if is_ok result then recording what.now name.now (view value.now) self.old else self.old) }
        ensures memory { OnErr result (removes name.now (view value.now) ≡ false) }
    {
        write(self.alloc, &mut self.document.state, what, name, value)
    }
}

impl Machine for DocMachine {
    ghost state = { λ m. m };

    fn load(&mut self, document: MachineDoc)
        ensures { Loads document self.old self.new }
    {
        self.document = document;
    }

    fn holds(&mut self, what: &Reference, name: &Text, value: &Value) -> Holds
        ensures { Asks what.now name.now (view value.now) result self.old self.new }
    {
        let fails = self.is_failing(holds_call(what, name));
        let has = self.has(what, name, value);
        self.count(fails);
        holds_by(fails, has)
    }

    fn write(&mut self, what: &Reference, name: &Text, value: &Value) -> Wrote
        requires { IsTrue (is_plain_value (view value.now)) }
        ensures { Writes what.now name.now (view value.now) result self.old self.new }
    {
        if self.is_failing(write_call(what, name)) {
            self.count(true);
            return Wrote::Failed;
        }
        match self.put(what, name, value) {
            Ok(()) => {
                self.count(false);
                Wrote::Done
            }
            Err(Memory) => Wrote::Memory,
        }
    }

    fn refresh(&mut self, what: &Reference) -> Holds
        ensures { Refreshes what.now result self.old self.new }
    {
        let fails = self.is_failing(refresh_call(what));
        self.count(fails);
        holds_by(fails, true)
    }

    fn document(&self) -> Option<&MachineDoc>
        ensures { option_map (λ d. d.now) result ≡ option_map (λ c. c.document) self.now.content }
    {
        Some(&self.document)
    }
}

impl WideMachine for DocMachine {
    type Part = DocMachine;

    fn part(&mut self, what: &Reference, creates: Option<&Text>) -> Result<DocMachine, Memory> {
        let state = part_state(self.alloc, &self.document.state, what, creates)?;
        let failing = self.document.failing.share(self.alloc)?;
        Ok(DocMachine {
            alloc: self.alloc,
            document: MachineDoc { failing, state },
            calls: self.calls,
            failing: Vec::from_slice(self.alloc, self.failing.as_slice())?,
            faults: self.faults,
        })
    }

    fn put_back(&mut self, what: &Reference, part: DocMachine) -> Result<(), Memory> {
        part.document
            .state
            .copy_into(self.alloc, what, &mut self.document.state)?;
        self.calls = self.calls.max(part.calls);
        self.faults = self.faults.max(part.faults);
        Ok(())
    }
}

/// What is answered where the call fails, and else by what there is.
fn holds_by(fails: bool, has: bool) -> Holds
    ensures { result ≡ holds_by fails has }
{
    if fails {
        return Holds::Failed;
    }
    if has { Holds::Yes } else { Holds::No }
}

fn holds_call<'a>(what: &'a Reference, name: &'a Text) -> CallText<'a>
    ensures { pieces_text result ≡ holds_text what.now name.now }
{
    CallText {
        before: "holds ",
        what,
        gap: " ",
        name: name.as_str(),
    }
}

fn write_call<'a>(what: &'a Reference, name: &'a Text) -> CallText<'a>
    ensures { pieces_text result ≡ write_text what.now name.now }
{
    CallText {
        before: "write ",
        what,
        gap: " ",
        name: name.as_str(),
    }
}

fn refresh_call(what: &Reference) -> CallText<'_>
    ensures { pieces_text result ≡ refresh_text what.now }
{
    CallText {
        before: "refresh ",
        what,
        gap: "",
        name: "",
    }
}
