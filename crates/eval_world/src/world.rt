ghost use Rattle.std.specs.Prelude.{◌≡◌, [], IfOk, OnErr};
ghost use Rattle.pp_values.specs.Faults.{fault};
ghost use Rattle.pp_values.specs.TextOf.{text_of};
ghost use Rattle.pp_values.specs.Views.{view};
ghost use Rattle.pp_values.specs.declared.fault.Stop.TheVariants as stop;
ghost use Rattle.pp_values.specs.declared.fault.What.TheVariants as what;
ghost use Rattle.eval_world.specs.Outcomes.{Gives, nothing, same};
ghost use Rattle.eval_world.specs.Worlds as spec;

use crate::environment::Environment;
use crate::evaluated::Evaluated;
use crate::heap::Heap;
use crate::here::Here;
use crate::owners::Owners;
use crate::rendered::Rendered;
use override_rules::Overrides;
use pp_values::{Fault, Kept, Memory, Place, Stop, Text, Value, What};
use res_book::{Book, Relations};
use res_core::{LogLine, LogLines};
use scope_core::{ScopeId, ScopeKind, Scopes};
use std::alloc::Global;
use std::mem;

/// All that a compile has made so far. Nothing in it is replaced: its lists only grow, but for the scopes of calls that have
/// ended, and for what a template emits.
pub struct World<'a> {
    /// Where memory is taken from.
    pub heap: Heap,
    /// What is read: the manifests and the data of the site.
    pub environment: Environment<'a>,
    /// Where variables have their values.
    pub scopes: Scopes,
    /// The owners of the code that is evaluated, by number.
    pub owners: Owners,
    /// What was declared, by number.
    pub book: Book,
    /// What was set on declarations, and by default.
    pub overrides: Overrides,
    /// Relations, containments and collectors.
    pub relations: Relations,
    /// What log functions wrote.
    pub log: LogLines,
    /// What the template that is rendered has emitted so far.
    pub rendered: Rendered,
}

// By hand, so that no crate above proves the drops of the tables again.
impl<'a> Drop for World<'a> {
    fn drop(self) {
        let World {
            heap: _heap,
            environment: _environment,
            scopes: _scopes,
            owners: _owners,
            book: _book,
            overrides: _overrides,
            relations: _relations,
            log: _log,
            rendered: _rendered,
        } = self;
    }
}

impl<'a> World<'a> {
    /// The world before anything was evaluated: the empty top scope, the main manifest as the one owner, and no
    /// declaration.
    pub fn new(alloc: Global, environment: Environment<'a>) -> Result<World<'a>, Memory>
        ensures { IfOk result (λ w. w ≡ spec.empty environment.entry) }
    {
        Ok(World {
            heap: Heap::new(alloc),
            environment,
            scopes: Scopes::new(alloc)?,
            owners: Owners::new(alloc)?,
            book: Book::new(alloc),
            overrides: Overrides::new(alloc),
            relations: Relations::new(alloc),
            log: LogLines::new(alloc),
            rendered: Rendered::new(alloc),
        })
    }

    /// The tables that finishing reads, and the lines of the log.
    pub fn into_parts(self) -> (Book, Overrides, Relations, LogLines)
        ensures book { result.0 ≡ self.entry.book }
        ensures overrides { result.1 ≡ self.entry.overrides }
        ensures relations { result.2 ≡ self.entry.relations }
        ensures log { result.3 ≡ self.entry.log }
    {
        let World {
            heap: _heap,
            environment: _environment,
            scopes: _scopes,
            owners: _owners,
            book,
            overrides,
            relations,
            log,
            rendered: _rendered,
        } = self;
        (book, overrides, relations, log)
    }

    /// A line of the file whose code is evaluated.
    pub fn place(&self, here: Here, line: u32) -> Result<Place, Memory>
        ensures { IfOk result (λ p. p ≡ spec.place_at self.now here line) }
    {
        Ok(Place {
            file: self.owners.get(here.owner).file.copy(self.heap.alloc())?,
            line,
        })
    }

    /// A place for a step whose fault, if there is one, is told anew at its own place. It takes no memory.
    pub fn nowhere(&self) -> Place
        ensures file { result.file ≡ [] }
        ensures line { result.line ≡ 0 }
    {
        Place {
            file: Text::new(String::new(self.heap.alloc())),
            line: 0,
        }
    }

    /// A fault at a line of the file whose code is evaluated.
    #[cold]
    #[inline(never)]
    pub fn fault(&self, here: Here, line: u32, what: What) -> Result<Fault, Memory>
        ensures { IfOk result (λ f. f ≡ fault (spec.place_at self.now here line) what) }
    {
        let what = Kept::new(what);
        let at = self.place(here, line)?;
        Fault::new(self.heap.alloc(), at, what.into_inner())
    }

    /// The value of a variable, by its name as it is written after `$`.
    #[tactic(auto, unfolding(crate::specs::Worlds::read, scope_core::specs::Scopes::read))]
    pub fn read(&self, here: Here, name: &Text, line: u32) -> Result<Evaluated, Stop>
        ensures { Gives same (spec.read here name.now line self.now) result self.now }
    {
        match self.scopes.get(here.scope, name) {
            Some(value) => Ok(Evaluated::copy_of(self.heap.alloc(), value)?),
            None => {
                let name = name.copy(self.heap.alloc())?;
                Err(Stop::Fault(self.fault(here, line, What::UnknownVariable(name))?))
            }
        }
    }

    /// Sets a variable. F3 is placed at this line, and a place is made only for it. Whatever the error, memory
    /// included, all stays as it was.
    #[inline(always)]
    #[tactic(auto, using(crate::proofs::Elsewhere::set_here, crate::proofs::Elsewhere::refused_here))]
    pub fn assign(
        &mut self,
        here: Here,
        name: &Text,
        value: Evaluated,
        line: u32,
    ) -> Result<(), Stop>
        ensures step { Gives nothing (spec.assign here name.now value line self.old) result self.new }
        ensures kept { OnErr result (self.new ≡ self.old) }
    {
        let alloc = self.heap.alloc();
        match self.scopes.put(alloc, here.scope, name, value.into_value()) {
            Ok(true) => Ok(()),
            Ok(false) => Err(self.reassigned(here, name, line)?),
            Err(Memory) => Err(Stop::Memory),
        }
    }

    #[cold]
    #[inline(never)]
    fn reassigned(&self, here: Here, name: &Text, line: u32) -> Result<Stop, Memory>
        ensures { IfOk result
            (λ s. s ≡ stop.Fault (fault (spec.place_at self.now here line) (what.Reassigned name.now))) }
    {
        let name = name.copy(self.heap.alloc())?;
        Ok(Stop::Fault(self.fault(here, line, What::Reassigned(name))?))
    }

    /// The scope of one call of a lambda that stands here. Where there is no memory, all stays as it was.
    #[inline(always)]
    #[tactic(auto, unfolding(crate::specs::Worlds::enter_lambda))]
    pub fn enter_lambda(&mut self, here: Here) -> Result<Here, Stop>
        ensures step { Gives same (spec.enter_lambda here self.old) result self.new }
        ensures kept { OnErr result (self.new ≡ self.old) }
    {
        let scope = self
            .scopes
            .enter(self.heap.alloc(), ScopeKind::Lambda, here.scope)?;
        Ok(Here {
            scope,
            owner: here.owner,
            typed: false,
        })
    }

    /// The scope of one call of a function that stands in this file.
    #[tactic(auto, unfolding(crate::specs::Worlds::enter_function))]
    pub fn enter_function(&mut self, file: &Text) -> Result<Here, Stop>
        ensures { Gives same (spec.enter_function file.now self.old) result self.new }
    {
        let alloc = self.heap.alloc();
        let owner = self.owners.in_file(alloc, file)?;
        let scope = self
            .scopes
            .enter(alloc, ScopeKind::Lambda, ScopeId { number: 0 })?;
        Ok(Here {
            scope,
            owner,
            typed: false,
        })
    }

    /// The scope of a text that a call which stands here renders as a template.
    #[tactic(auto, unfolding(crate::specs::Worlds::enter_inline))]
    pub fn enter_inline(&mut self, here: Here) -> Result<Here, Stop>
        ensures { Gives same (spec.enter_inline here self.old) result self.new }
    {
        let alloc = self.heap.alloc();
        let owner = self.owners.inline(alloc, here.owner)?;
        let scope = self.scopes.enter(alloc, ScopeKind::Lambda, here.scope)?;
        Ok(Here {
            scope,
            owner,
            typed: false,
        })
    }

    /// Ends the scope of a call of a lambda or of a function, or of a template.
    #[inline(always)]
    pub fn leave(&mut self, here: Here)
        ensures { self.new ≡ spec.left here self.old }
    {
        self.scopes.leave(here.scope);
    }

    /// Sets a variable. F3 is placed there. Whatever the error, memory included, all stays as it was.
    #[tactic(auto, using(crate::proofs::Elsewhere::set_there, crate::proofs::Elsewhere::refused_there))]
    pub fn assign_at(
        &mut self,
        here: Here,
        name: &Text,
        value: Evaluated,
        at: &Place,
    ) -> Result<(), Stop>
        ensures step { Gives nothing (spec.assign_at here name.now value at.now self.old) result self.new }
        ensures kept { OnErr result (self.new ≡ self.old) }
    {
        let alloc = self.heap.alloc();
        match self.scopes.put(alloc, here.scope, name, value.into_value()) {
            Ok(true) => Ok(()),
            Ok(false) => Err(Stop::Fault(reassigned_at(alloc, name, at)?)),
            Err(Memory) => Err(Stop::Memory),
        }
    }

    /// Emits a text.
    #[tactic(auto, unfolding(crate::specs::Worlds::emit))]
    pub fn emit(&mut self, text: &str) -> Result<(), Stop>
        ensures { Gives nothing (spec.emit text.now self.old) result self.new }
    {
        self.rendered.push(text)?;
        Ok(())
    }

    /// Emits the text of a value.
    #[tactic(auto, unfolding(crate::specs::Worlds::emit))]
    pub fn emit_value(&mut self, value: &Value) -> Result<(), Stop>
        ensures { Gives nothing (spec.emit (text_of (view value.now)) self.old) result self.new }
    {
        self.rendered.push_value(value)?;
        Ok(())
    }

    /// Begins a template: what was emitted so far is put apart.
    pub fn begin_rendering(&mut self) -> Rendered
        ensures text { result ≡ self.old.rendered }
        ensures world { self.new ≡ spec.with_rendered [] self.old }
    {
        mem::replace(&mut self.rendered, Rendered::new(self.heap.alloc()))
    }

    /// Ends a template: what was put apart is back, and the answer is what was emitted since.
    pub fn end_rendering(&mut self, before: Rendered) -> Rendered
        ensures text { result ≡ self.old.rendered }
        ensures world { self.new ≡ spec.with_rendered before self.old }
    {
        mem::replace(&mut self.rendered, before)
    }

    /// Writes a line of the log. Where there is no memory, all stays as it was.
    #[tactic(auto, unfolding(crate::specs::Worlds::write_log))]
    pub fn write_log(&mut self, level: Text, text: Text) -> Result<(), Stop>
        ensures step { Gives nothing (spec.write_log level text self.old) result self.new }
        ensures kept { OnErr result (self.new ≡ self.old) }
    {
        self.log.push(LogLine { level, text })?;
        Ok(())
    }
}

#[cold]
#[inline(never)]
fn reassigned_at(alloc: Global, name: &Text, at: &Place) -> Result<Fault, Memory>
    ensures { IfOk result (λ f. f ≡ fault at.now (what.Reassigned name.now)) }
{
    let name = name.copy(alloc)?;
    let at = at.copy(alloc)?;
    Fault::new(alloc, at, What::Reassigned(name))
}
