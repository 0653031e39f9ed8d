ghost use Rattle.std.specs.Prelude.{◌≡◌, [], ◌∷◌, ◌++◌, ◌↔◌, length, is_ok, if◌then◌else◌, IsTrue};

use pp_values::Memory;
use site_core::{Language, Reply};
use std::alloc::Global;
use std::marker::Model;

/// Replies, in the order of their requests.
#[derive(Drop)]
pub struct Replies<L: Language> {
    items: Vec<Reply<L>>,
}

impl<L: Language> Model for Replies<L> {
    ghost use Rattle.std.specs.Prelude.{List};
    ghost use Rattle.site_core.specs.declared.reply.ReplyOf.{ReplyOf};

    ghost Value = { List (ReplyOf L.Catalog L.Fault) };

    ghost view = { λ l. l.items.items };
}

impl<L: Language> Replies<L> {
    pub fn new(alloc: Global) -> Replies<L>
        ensures { result ≡ [] }
    {
        Replies {
            items: Vec::new(alloc),
        }
    }

    pub fn from_vec(items: Vec<Reply<L>>) -> Replies<L>
        ensures { result ≡ items.items }
    {
        Replies { items }
    }

    pub fn len(&self) -> usize
        ensures { result ≡ length self.now }
    {
        self.items.len()
    }

    pub fn as_slice(&self) -> &[Reply<L>]
        ensures { result.now ≡ self.now }
    {
        self.items.as_slice()
    }

    /// Takes the replies out.
    pub fn into_vec(self) -> Vec<Reply<L>>
        ensures { result.items ≡ self }
    {
        self.items
    }

    /// Appends a reply. Where there is no memory, the list stays as it was.
    pub fn push(&mut self, item: Reply<L>) -> Result<(), Memory>
        ensures { self.new ≡ (if is_ok result then self.old ++ item ∷ [] else self.old) }
    {
        self.items.push(item)?;
        Ok(())
    }
}
