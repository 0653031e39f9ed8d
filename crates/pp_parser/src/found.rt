//! What was read of a file.

ghost use Rattle.std.specs.Prelude.{◌≡◌, [], IfOk, OnOk};
ghost use Rattle.pp_parser.specs.Definitions.{nothing_yet, found_with, pending_of, with_definition};

use crate::item::Item;
use pp_tree::{Block, Definition, Name};
use pp_values::{Items, Memory};
use std::alloc::Global;

/// The statements and definitions of a file, each in order.
#[derive(Drop)]
pub struct Found {
    pub statements: Block,
    pub definitions: Items<Definition>,
}

impl Found {
    pub fn new(alloc: Global) -> Found
        ensures { result ≡ nothing_yet }
    {
        Found {
            statements: Items::new(alloc),
            definitions: Items::new(alloc),
        }
    }

    /// Appends an item. The name behind it that begins the next one is given back.
    pub fn put(&mut self, item: Item) -> Result<Option<Name>, Memory>
        ensures found { OnOk result (self.new ≡ found_with self.old item) }
        ensures pending { IfOk result (λ pending. pending ≡ pending_of item) }
    {
        match item {
            Item::Definition(definition) => {
                self.definitions.push(definition)?;
                Ok(None)
            }
            Item::Statement(statement, pending) => {
                self.statements.push(statement)?;
                Ok(pending)
            }
        }
    }

    pub fn put_definition(&mut self, definition: Definition) -> Result<(), Memory>
        ensures { OnOk result (self.new ≡ with_definition self.old definition) }
    {
        self.definitions.push(definition)?;
        Ok(())
    }
}
