ghost use Rattle.std.specs.Prelude.{◌≡◌, IfOk, option_map};
ghost use Rattle.pp_values.specs.Views.{view};
ghost use Rattle.hiera_config.specs.Seen.{seen};
ghost use Rattle.hiera_config.specs.Variables.{in_scope, variable};

use hiera_merge::{dig, parts, root, steps};
use pp_values::{Memory, Text, Value};
use scope_core::{ScopeId, Scopes};
use std::alloc::Global;

/// The variables that texts of the data read: those of a scope.
#[derive(Clone, Copy)]
pub struct Variables<'a> {
    scopes: &'a Scopes,
    scope: ScopeId,
}

impl<'a> Variables<'a> {
    /// The variables of a scope.
    pub fn in_scope(scopes: &'a Scopes, scope: ScopeId) -> Variables<'a>
        ensures { seen result ≡ in_scope scope.number scopes.now }
    {
        Variables { scopes, scope }
    }

    /// The value of `name.key`, where there is one.
    pub fn value(&self, alloc: Global, name: &str) -> Result<Option<&Value>, Memory>
        ensures { IfOk result (λ o. option_map (λ v. view v.now) o ≡ variable (seen self.now) name.now) }
    {
        let parts = parts(alloc, name)?;
        match self.read(alloc, root(parts.as_slice()))? {
            Some(value) => Ok(dig(value, steps(parts.as_slice()))),
            None => Ok(None),
        }
    }

    /// The value of a name without steps.
    pub(crate) fn read(&self, alloc: Global, name: &str) -> Result<Option<&Value>, Memory>
        ensures { IfOk result (λ o. option_map (λ v. view v.now) o ≡ seen self.now name.now) }
    {
        let name = Text::from_str(alloc, name)?;
        Ok(self.scopes.get(self.scope, &name))
    }
}
