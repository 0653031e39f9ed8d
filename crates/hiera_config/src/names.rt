ghost use Rattle.std.specs.Prelude.{◌≡◌, IfOk, option_map};
ghost use Rattle.pp_values.specs.Views.{view};
ghost use Rattle.hiera_config.specs.Seen.{seen, names_seen};
ghost use Rattle.hiera_config.specs.Variables.{hiding, variable};

use crate::variables::Variables;
use hiera_merge::{dig, parts, root, steps};
use pp_values::{Memory, Text, Value};
use std::alloc::Global;

/// A value that hides the variable of this name.
#[derive(Clone, Copy)]
pub struct Hidden<'a> {
    pub name: &'a Text,
    pub value: &'a Value,
}

/// The variables that a path reads: those of the look-up, but for one that a mapped path hides.
#[derive(Clone, Copy)]
pub struct Names<'a> {
    pub variables: &'a Variables<'a>,
    pub hidden: Option<Hidden<'a>>,
}

impl<'a> Names<'a> {
    pub fn plain(variables: &'a Variables<'a>) -> Names<'a>
        ensures { names_seen result ≡ seen variables.now }
    {
        Names {
            variables,
            hidden: None,
        }
    }

    pub fn hiding(variables: &'a Variables<'a>, name: &'a Text, value: &'a Value) -> Names<'a>
        ensures { names_seen result ≡ hiding name.now (view value.now) (seen variables.now) }
    {
        Names {
            variables,
            hidden: Some(Hidden { name, value }),
        }
    }

    /// The value of `name.key`, where there is one.
    pub fn value(&self, alloc: Global, name: &str) -> Result<Option<&Value>, Memory>
        ensures { IfOk result (λ o. option_map (λ v. view v.now) o ≡ variable (names_seen self.now) name.now) }
    {
        let parts = parts(alloc, name)?;
        match self.read(alloc, root(parts.as_slice()))? {
            Some(value) => Ok(dig(value, steps(parts.as_slice()))),
            None => Ok(None),
        }
    }

    fn read(&self, alloc: Global, name: &str) -> Result<Option<&Value>, Memory>
        ensures { IfOk result (λ o. option_map (λ v. view v.now) o ≡ names_seen self.now name.now) }
    {
        match &self.hidden {
            Some(hidden) => {
                if hidden.name.is(name) {
                    Ok(Some(hidden.value))
                } else {
                    self.variables.read(alloc, name)
                }
            }
            None => self.variables.read(alloc, name),
        }
    }
}
