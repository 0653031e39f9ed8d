ghost use Rattle.std.specs.Prelude.{◌≡◌, [], None, is_ok, if◌then◌else◌, option_map, IfOk};
ghost use Rattle.pp_values.specs.Views.{view};
ghost use Rattle.scope_core.specs.Names.{value_of, with_value};
ghost use Rattle.scope_core.specs.Scopes.{scope_of, ended};

use crate::binding::Binding;
use crate::owner::Owner;
use crate::scope_names::ScopeNames;
use pp_values::{Memory, Text, Value};
use std::alloc::Global;
use std::marker::Model;

/// One scope. A contract sees its names by name in byte order, with what their values say.
#[derive(Drop)]
pub struct Scope {
    owner: Owner,
    parent: u32,
    /// None where no name was set, or the scope has ended.
    names: Option<Box<ScopeNames>>,
}

impl Model for Scope {
    ghost use Rattle.scope_core.specs.Scopes.{Scope as Seen, coded_scope};

    ghost Value = { Seen };

    ghost coded = { coded_scope };

    ghost use Rattle.std.specs.Prelude.{[], option_map, unwrap_or};

    ghost view = { λ s. record { owner = s.owner; parent = s.parent; names = unwrap_or (option_map (λ b. b.value) s.names) [] } };
}

impl Scope {
    /// A scope without names.
    pub fn new(owner: Owner, parent: u32) -> Scope
        ensures { result ≡ scope_of owner parent }
    {
        Scope {
            owner,
            parent,
            names: None,
        }
    }

    pub fn owner(&self) -> Owner
        ensures { result ≡ self.now.owner }
    {
        self.owner
    }

    pub fn parent(&self) -> u32
        ensures { result ≡ self.now.parent }
    {
        self.parent
    }

    #[inline(always)]
    pub fn value_of(&self, name: &[u8]) -> Option<&Value>
        ensures { option_map (λ v. view v.now) result ≡ value_of name.now self.now.names }
    {
        match &self.names {
            Some(names) => names.value_of(name),
            None => None,
        }
    }

    /// Sets a name that has no value in it, the first one in this room. Where there is no memory, the scope stays as it
    /// was.
    #[inline(always)]
    pub fn add(
        &mut self,
        alloc: Global,
        room: &mut Option<Box<ScopeNames>>,
        name: &Text,
        value: Binding,
    ) -> Result<(), Memory>
        requires { value_of name.now self.old.names ≡ None }
        ensures { self.new
            ≡ (if is_ok result then record self.old { names = with_value name.now value self.old.names } else self.old) }
    {
        if let Some(names) = &mut self.names {
            return names.add(alloc, name, value);
        }
        let mut names = no_names(alloc, room)?;
        names.add(alloc, name, value)?;
        self.names = Some(names);
        Ok(())
    }

    /// Ends the scope of a lambda's call, whose names give their room.
    #[inline(always)]
    pub fn end(&mut self, room: &mut Option<Box<ScopeNames>>)
        ensures { self.new ≡ ended self.old.owner self.old }
    {
        if self.owner == Owner::Lambda {
            self.owner = Owner::Ended;
            self.parent = 0;
            if let Some(names) = self.names.take() {
                *room = Some(names);
            }
        }
    }
}

/// No names, in this room where there is one.
fn no_names(alloc: Global, room: &mut Option<Box<ScopeNames>>) -> Result<Box<ScopeNames>, Memory>
    ensures { IfOk result (λ names. names.value ≡ []) }
{
    match room.take() {
        Some(mut names) => {
            names.clear(alloc);
            Ok(names)
        }
        None => Ok(Box::new(alloc, ScopeNames::new(alloc))?),
    }
}
