ghost use Rattle.std.specs.Prelude.{◌≡◌, None, length, map, option_map, is_ok, if◌then◌else◌, slice_get, IfOk};
ghost use Rattle.std.specs.Char.{to_ascii_lowercase};
ghost use Rattle.pp_values.specs.Views.{view};
ghost use Rattle.scope_core.specs.Names.{value_of_class};
ghost use Rattle.scope_core.specs.Outcomes.{Changes, Puts, Reads};
ghost use Rattle.scope_core.specs.Scopes as spec;
ghost use Rattle.scope_core.specs.declared.owner.Owner.TheVariants as o;
ghost use Rattle.scope_core.specs.declared.scope_kind.ScopeKind.TheVariants as k;

use crate::binding::Binding;
use crate::cutting::{cut, has_capital, without_front_colons};
use crate::faults::{reassigned, unknown};
use crate::named::Named;
use crate::owner::Owner;
use crate::scope::Scope;
use crate::scope_id::ScopeId;
use crate::scope_kind::ScopeKind;
use crate::scope_names::ScopeNames;
use pp_values::{Memory, Place, Stop, Text, Value};
use std::alloc::Global;
use std::marker::Model;

/// All scopes of one compile.
///
/// A scope is named by the number that it was entered with, as long as it was not left.
#[derive(Drop)]
pub struct Scopes {
    scopes: Vec<Scope>,
    node: u32,
    classes: Named<u32>,
    /// That of the call of a lambda that ended last: the next call puts its names there.
    room: Option<Box<ScopeNames>>,
}

impl Model for Scopes {
    ghost use Rattle.scope_core.specs.Scopes.{Scopes as Seen, coded_scopes};

    ghost Value = { Seen };

    ghost coded = { coded_scopes };

    ghost view = { λ s. record { scopes = s.scopes.items; node = s.node; classes = s.classes } };
}

impl Scopes {
    /// The empty top scope alone.
    pub fn new(alloc: Global) -> Result<Scopes, Memory>
        ensures { IfOk result (λ s. s ≡ spec.top_alone) }
    {
        let mut scopes = Vec::new(alloc);
        scopes.push(Scope::new(Owner::Top, 0))?;
        Ok(Scopes {
            scopes,
            node: 0,
            classes: Named::new(alloc),
            room: None,
        })
    }

    /// A new scope without names. `parent` is the scope that a lambda's call is within, and for a class with a parent
    /// class that class's scope; for others it does not count. Where there is no memory, all stays as it was.
    #[inline(always)]
    pub fn enter(
        &mut self,
        alloc: Global,
        kind: ScopeKind,
        parent: ScopeId,
    ) -> Result<ScopeId, Memory>
        ensures number { IfOk result (λ id. id.number ≡ length self.old.scopes) }
        ensures scopes { self.new ≡ (if is_ok result then spec.entered kind parent.number self.old else self.old) }
    {
        let Ok(number) = u32::try_from(self.scopes.len()) else {
            return Err(Memory);
        };
        match kind {
            ScopeKind::Node => {
                self.add(Owner::Node, parent)?;
                self.node = number;
            }
            ScopeKind::Class(name) => self.add_class(alloc, name, parent, number)?,
            ScopeKind::Instance => self.add(Owner::Instance, parent)?,
            ScopeKind::Lambda => self.add(Owner::Lambda, parent)?,
        }
        Ok(ScopeId { number })
    }

    #[inline(always)]
    fn add(&mut self, owner: Owner, parent: ScopeId) -> Result<(), Memory>
        ensures { self.new ≡ (if is_ok result then spec.added owner parent.number self.old else self.old) }
    {
        self.scopes.push(Scope::new(owner, parent.number))?;
        Ok(())
    }

    /// The scope of a class, which has its name from then on. It is taken back where there is no memory for the name.
    fn add_class(
        &mut self,
        alloc: Global,
        name: Text,
        parent: ScopeId,
        number: u32,
    ) -> Result<(), Memory>
        ensures { self.new
            ≡ (if is_ok result
            then record (spec.added o.Class parent.number self.old) {
              classes = spec.classes_after (k.Class name) number self.old.classes;
            }
            else self.old) }
    {
        let name = lowered(alloc, name)?;
        self.add(Owner::Class, parent)?;
        if self.classes.set(alloc, name, number).is_err() {
            drop(self.scopes.pop());
            return Err(Memory);
        }
        Ok(())
    }

    /// Ends the scope of a lambda's call. Where no other stands behind it, it gives its room back, and the next scope
    /// has its number. Other scopes stay for the compile.
    #[inline(always)]
    pub fn leave(&mut self, scope: ScopeId)
        ensures { self.new ≡ spec.left scope.number self.old }
    {
        let place = scope.number as usize;
        end_scope(&mut self.scopes, &mut self.room, place);
        drop_ended(&mut self.scopes, place);
    }

    /// Sets a name in one scope. A name may be set once there; `facts` and `trusted` nowhere once top scope has them.
    #[tactic(auto, unfolding(crate::specs::Scopes::assign))]
    pub fn assign(
        &mut self,
        alloc: Global,
        scope: ScopeId,
        name: &Text,
        value: Value,
        at: &Place,
    ) -> Result<(), Stop>
        ensures { Changes (spec.assign scope.number name.now (view value) at.now self.old) self.old result self.new }
    {
        match self.put(alloc, scope, name, value) {
            Ok(true) => Ok(()),
            Ok(false) => Err(Stop::from(reassigned(alloc, name, at)?)),
            Err(Memory) => Err(Stop::Memory),
        }
    }

    /// The same for whoever tells the fault: false where the name may not be set.
    #[inline(always)]
    pub fn put(
        &mut self,
        alloc: Global,
        scope: ScopeId,
        name: &Text,
        value: Value,
    ) -> Result<bool, Memory>
        ensures { Puts (spec.is_set scope.number name.now self.old)
            (spec.with_name scope.number name.now (view value) self.old) self.old result self.new }
    {
        self.put_binding(alloc, scope, name, Binding::new(value))
    }

    #[inline(always)]
    #[tactic(auto, using(crate::proofs::Sets::not_set))]
    fn put_binding(
        &mut self,
        alloc: Global,
        scope: ScopeId,
        name: &Text,
        value: Binding,
    ) -> Result<bool, Memory>
        ensures { Puts (spec.is_set scope.number name.now self.old)
            (spec.with_name scope.number name.now value self.old) self.old result self.new }
    {
        if self.is_set(scope.number, name) {
            return Ok(false);
        }
        let place = scope.number as usize;
        add_name(alloc, &mut self.scopes, &mut self.room, place, name, value)?;
        Ok(true)
    }

    /// The value of a name as it is written after `$`: `x`, `::x` or `c::x`.
    #[tactic(auto, unfolding(crate::specs::Scopes::read))]
    pub fn read(
        &self,
        alloc: Global,
        scope: ScopeId,
        name: &Text,
        at: &Place,
    ) -> Result<&Value, Stop>
        ensures { Reads (spec.read scope.number name.now at.now self.now) result }
    {
        match self.get(scope, name) {
            Some(value) => Ok(value),
            None => Err(Stop::from(unknown(alloc, name, at)?)),
        }
    }

    /// The value of a name as it is written after `$`, where it has one.
    pub fn get(&self, scope: ScopeId, name: &Text) -> Option<&Value>
        ensures { option_map (λ v. view v.now) result ≡ spec.found scope.number name.now self.now }
    {
        self.found(scope.number, name.as_str().as_bytes())
    }

    #[tactic(auto, unfolding(crate::specs::Scopes::found))]
    fn found(&self, number: u32, name: &[u8]) -> Option<&Value>
        ensures { option_map (λ v. view v.now) result ≡ spec.found number name.now self.now }
    {
        match cut(name) {
            Some((before, name)) => self.qualified(before, name),
            None => self.seen(Some(number), name),
        }
    }

    /// The value of a name behind `::`.
    #[inline(never)]
    fn qualified(&self, before: &[u8], name: &[u8]) -> Option<&Value>
        ensures { option_map (λ v. view v.now) result ≡ spec.seen (spec.start before.now self.now) name.now self.now }
    {
        self.seen(self.start(before), name)
    }

    /// Where a name is looked for that has this before its last `::`.
    fn start(&self, before: &[u8]) -> Option<u32>
        ensures { result ≡ spec.start before.now self.now }
    {
        if before.is_empty() {
            return Some(0);
        }
        self.class_scope(before)
    }

    /// The scope of the class of this name, in which `$c::x` is read. A class has it from when it is entered on.
    pub fn of_class(&self, name: &Text) -> Option<ScopeId>
        ensures { option_map (λ s. s.number) result ≡ value_of_class name.now self.now.classes }
    {
        let number = self.class_scope(name.as_str().as_bytes())?;
        Some(ScopeId { number })
    }

    fn class_scope(&self, name: &[u8]) -> Option<u32>
        ensures { result ≡ value_of_class name.now self.now.classes }
    {
        let class = without_front_colons(name);
        if has_capital(name) {
            return self.classes.get_folded(class).copied();
        }
        self.classes.get(class).copied()
    }

    /// The value of a name in this scope, or in those that are read after it.
    #[inline(always)]
    #[tactic(auto, using(crate::proofs::Turns::seen_some, crate::proofs::Turns::seen_none, crate::proofs::Turns::seen_end))]
    fn seen(&self, start: Option<u32>, name: &[u8]) -> Option<&Value>
        ensures { option_map (λ v. view v.now) result ≡ spec.seen start name.now self.now }
    {
        let mut at = start;
        for _turn in 0..self.scopes.len() {
            let Some(number) = at else {
                return None;
            };
            let found = self.own(number, name);
            if found.is_some() {
                return found;
            }
            at = self.next(number);
        }
        None
    }

    /// The value of a name in this one scope.
    #[inline(always)]
    fn own(&self, number: u32, name: &[u8]) -> Option<&Value>
        ensures { option_map (λ v. view v.now) result ≡ spec.own number name.now self.now }
    {
        match self.scopes.get(number as usize) {
            Some(scope) => scope.value_of(name),
            None => None,
        }
    }

    /// The scope that is read after this one.
    fn next(&self, number: u32) -> Option<u32>
        ensures { result ≡ spec.next number self.now }
    {
        match self.scopes.get(number as usize) {
            Some(scope) => self.after(scope.owner(), scope.parent()),
            None => None,
        }
    }

    fn after(&self, owner: Owner, parent: u32) -> Option<u32>
        ensures { result ≡ spec.after owner parent self.now }
    {
        match owner {
            Owner::Top => None,
            Owner::Node => Some(0),
            Owner::Class => {
                if self.is_of_class(parent) {
                    Some(parent)
                } else {
                    Some(self.node)
                }
            }
            Owner::Instance => Some(self.node),
            Owner::Lambda => Some(parent),
            Owner::Ended => None,
        }
    }

    fn is_of_class(&self, number: u32) -> bool
        ensures { result ≡ spec.is_of_class (slice_get self.now.scopes number) }
    {
        match self.scopes.get(number as usize) {
            Some(scope) => matches!(scope.owner(), Owner::Class),
            None => false,
        }
    }

    /// Whether a name may not be set.
    #[inline(always)]
    fn is_set(&self, number: u32, name: &Text) -> bool
        ensures { result ≡ spec.is_set number name.now self.now }
    {
        let bytes = name.as_str().as_bytes();
        self.own(number, bytes).is_some()
            || (name.is("facts") || name.is("trusted")) && self.own(0, bytes).is_some()
    }
}

/// A class's name, in lower case.
fn lowered(alloc: Global, name: Text) -> Result<Text, Memory>
    ensures { IfOk result (λ lowered. lowered ≡ map to_ascii_lowercase name) }
{
    let mut name = name.into_string(alloc)?;
    name.make_ascii_lowercase();
    Ok(Text::new(name))
}

#[inline(always)]
fn end_scope(scopes: &mut Vec<Scope>, room: &mut Option<Box<ScopeNames>>, place: usize)
    ensures { scopes.new.items ≡ spec.scopes_after place (slice_get scopes.old.items place) scopes.old.items }
{
    if let Some(scope) = scopes.get_mut(place) {
        scope.end(room);
    }
}

/// Lets the scope at this place go where it has ended and none stands behind it.
#[inline(always)]
fn drop_ended(scopes: &mut Vec<Scope>, place: usize)
    ensures { scopes.new.items ≡ spec.without_ended place scopes.old.items }
{
    if is_last_ended(scopes, place) {
        scopes.truncate(place);
    }
}

#[inline(always)]
fn is_last_ended(scopes: &[Scope], place: usize) -> bool
    ensures { result ≡ spec.is_last_ended place scopes.now }
{
    has_ended(scopes, place) && place == scopes.len().saturating_sub(1)
}

#[inline(always)]
fn has_ended(scopes: &[Scope], place: usize) -> bool
    ensures { result ≡ spec.has_ended (slice_get scopes.now place) }
{
    match scopes.get(place) {
        Some(scope) => matches!(scope.owner(), Owner::Ended),
        None => false,
    }
}

#[inline(always)]
fn add_name(
    alloc: Global,
    scopes: &mut Vec<Scope>,
    room: &mut Option<Box<ScopeNames>>,
    place: usize,
    name: &Text,
    value: Binding,
) -> Result<(), Memory>
    requires { spec.own_of name.now (slice_get scopes.old.items place) ≡ None }
    ensures { scopes.new.items
        ≡ (if is_ok result
        then spec.set_in place name.now value (slice_get scopes.old.items place) scopes.old.items
        else scopes.old.items) }
{
    match scopes.get_mut(place) {
        Some(scope) => scope.add(alloc, room, name, value),
        None => Ok(()),
    }
}
