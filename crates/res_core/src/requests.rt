ghost use Rattle.std.specs.Prelude.{◌≡◌, [], ◌∷◌, ◌++◌, ◌↔◌, length, is_ok, if◌then◌else◌, IfOk, IsTrue};
ghost use Rattle.res_core.specs.RequestViews.{asked, all_asked};

use crate::request::Request;
use pp_values::Memory;
use std::alloc::Global;
use std::marker::Model;

/// Requests, in the order in which they are answered.
///
/// A contract sees what each asks for, its facts as what they say.
#[derive(Drop)]
pub struct Requests {
    items: Vec<Request>,
}

impl Model for Requests {
    ghost use Rattle.std.specs.Prelude.{List};
    ghost use Rattle.std.specs.Coded.{coded_list};
    ghost use Rattle.res_core.specs.Asked.{Asked, coded_asked};

    ghost Value = { List Asked };

    ghost coded = { coded_list coded_asked };

    ghost use Rattle.res_core.specs.RequestViews.{all_asked};

    ghost view = { λ l. all_asked l.items.items };
}

impl Requests {
    pub fn new(alloc: Global) -> Requests
        ensures { result ≡ [] }
    {
        Requests {
            items: Vec::new(alloc),
        }
    }

    pub fn from_vec(items: Vec<Request>) -> Requests
        ensures { result ≡ all_asked items.items }
    {
        Requests { items }
    }

    pub fn into_vec(self) -> Vec<Request>
        ensures { all_asked result.items ≡ self }
    {
        self.items
    }

    pub fn len(&self) -> usize
        ensures { result ≡ length self.now }
    {
        self.items.len()
    }

    pub fn is_empty(&self) -> bool
        ensures { IsTrue result ↔ (self.now ≡ []) }
    {
        self.items.is_empty()
    }

    pub fn as_slice(&self) -> &[Request]
        ensures { all_asked result.now ≡ self.now }
    {
        self.items.as_slice()
    }

    /// Appends a request. Where there is no memory, the list stays as it was.
    pub fn push(&mut self, item: Request) -> Result<(), Memory>
        ensures { self.new ≡ (if is_ok result then self.old ++ asked item ∷ [] else self.old) }
    {
        self.items.push(item)?;
        Ok(())
    }
}
