ghost use Rattle.std.specs.Prelude.{◌≡◌, ◌+◌, length, is_ok, if◌then◌else◌, IfOk, OnOk};
ghost use Rattle.eval_world.specs.Owners.{owner_at, owner_in, owner_of_file, main_alone, with_file, with_owner};
ghost use Rattle.eval_world.specs.Owners.{inline_in, inline_owner, with_inline};

use crate::owner::Owner;
use pp_values::{MAIN_MANIFEST, Memory, Text};
use std::alloc::Global;
use std::collections::BTreeMap;
use std::marker::Model;

/// The source of what stands in no class, define or node.
pub const MAIN_SOURCE: &str = "class main";

/// The file that is named for texts which are rendered as templates.
pub const INLINE_FILE: &str = "inline_epp";

/// The owners of a compile by number. The first is the main manifest.
#[derive(Drop)]
pub struct Owners {
    main: Owner,
    others: Vec<Owner>,
    /// The number of the owner of what stands in top scope, by the file.
    files: BTreeMap<Text, u32>,
    /// The number of the owner of the texts that an owner's code renders as templates, by that owner's number.
    inlines: BTreeMap<u32, u32>,
}

impl Model for Owners {
    ghost use Rattle.eval_world.specs.Owners.{Owners as Seen, coded_owners};

    ghost Value = { Seen };

    ghost coded = { coded_owners };

    ghost view = { λ o. record {
      main = o.main;
      others = o.others.items;
      files = o.files.entries;
      inlines = o.inlines.entries;
    } };
}

impl Owners {
    /// The main manifest alone, whose container is declaration 0.
    pub fn new(alloc: Global) -> Result<Owners, Memory>
        ensures { IfOk result (λ o. o ≡ main_alone) }
    {
        let file = Text::from_str(alloc, MAIN_MANIFEST)?;
        let source = Text::from_str(alloc, MAIN_SOURCE)?;
        let files = main_file(alloc)?;
        Ok(Owners {
            main: Owner {
                file,
                source,
                resource: 0,
                scope: 0,
            },
            others: Vec::new(alloc),
            files,
            inlines: BTreeMap::new(alloc),
        })
    }

    /// The owner of this number, and the main manifest where there is none.
    #[tactic(auto, unfolding(crate::specs::Owners::owner_at))]
    pub fn get(&self, number: u32) -> &Owner
        ensures { result.now ≡ owner_at number self.now }
    {
        if number == 0 {
            return &self.main;
        }
        match self.others.get(number as usize - 1) {
            Some(owner) => owner,
            None => &self.main,
        }
    }

    /// Adds an owner. The answer is its number. Where there is no memory, all stays as it was.
    pub fn add(&mut self, owner: Owner) -> Result<u32, Memory>
        ensures number { IfOk result (λ n. n ≡ length self.old.others + 1) }
        ensures owners { self.new ≡ (if is_ok result then with_owner owner self.old else self.old) }
    {
        let number = self.others.len() + 1;
        let Ok(number) = u32::try_from(number) else {
            return Err(Memory);
        };
        self.others.push(owner)?;
        Ok(number)
    }

    /// The number of the owner of what stands in top scope in a file, which is added where it is not there yet.
    #[tactic(auto, unfolding(crate::specs::Owners::owner_in))]
    pub fn in_file(&mut self, alloc: Global, file: &Text) -> Result<u32, Memory>
        ensures number { IfOk result (λ n. n ≡ (owner_in file.now self.old).0) }
        ensures owners { OnOk result (self.new ≡ (owner_in file.now self.old).1) }
    {
        match self.files.get(file) {
            Some(number) => Ok(*number),
            None => self.add_file(alloc, file),
        }
    }

    fn add_file(&mut self, alloc: Global, file: &Text) -> Result<u32, Memory>
        ensures number { IfOk result (λ n. n ≡ length self.old.others + 1) }
        ensures owners { OnOk result (self.new ≡ with_file file.now self.old) }
    {
        let number = self.others.len() + 1;
        let Ok(number) = u32::try_from(number) else {
            return Err(Memory);
        };
        let owner = self.top_owner(alloc, file)?;
        let key = file.copy(alloc)?;
        drop(self.files.insert(key, number)?);
        self.others.push(owner)?;
        Ok(number)
    }

    /// The number of the owner of the texts that the code of this owner renders as templates, which is added where it is
    /// not there yet.
    #[tactic(auto, unfolding(crate::specs::Owners::inline_in))]
    pub fn inline(&mut self, alloc: Global, number: u32) -> Result<u32, Memory>
        ensures number { IfOk result (λ n. n ≡ (inline_in number self.old).0) }
        ensures owners { OnOk result (self.new ≡ (inline_in number self.old).1) }
    {
        match self.inlines.get(&number) {
            Some(inline) => Ok(*inline),
            None => self.add_inline(alloc, number),
        }
    }

    fn add_inline(&mut self, alloc: Global, number: u32) -> Result<u32, Memory>
        ensures number { IfOk result (λ n. n ≡ length self.old.others + 1) }
        ensures owners { OnOk result (self.new ≡ with_inline number self.old) }
    {
        let inline = self.others.len() + 1;
        let Ok(inline) = u32::try_from(inline) else {
            return Err(Memory);
        };
        let owner = self.inline_owner(alloc, number)?;
        drop(self.inlines.insert(number, inline)?);
        self.others.push(owner)?;
        Ok(inline)
    }

    fn inline_owner(&self, alloc: Global, number: u32) -> Result<Owner, Memory>
        ensures { IfOk result (λ o. o ≡ inline_owner number self.now) }
    {
        let outer = self.get(number);
        Ok(Owner {
            file: Text::from_str(alloc, INLINE_FILE)?,
            source: outer.source.copy(alloc)?,
            resource: outer.resource,
            scope: outer.scope,
        })
    }

    /// The owner of what stands in top scope in this file.
    fn top_owner(&self, alloc: Global, file: &Text) -> Result<Owner, Memory>
        ensures { IfOk result (λ o. o ≡ owner_of_file file.now self.now) }
    {
        Ok(Owner {
            file: file.copy(alloc)?,
            source: self.main.source.copy(alloc)?,
            resource: self.main.resource,
            scope: self.main.scope,
        })
    }
}

/// The main manifest's owner is that of what stands in top scope there.
fn main_file(alloc: Global) -> Result<BTreeMap<Text, u32>, Memory>
    ensures { IfOk result (λ files. files.entries ≡ main_alone.files) }
{
    let file = Text::from_str(alloc, MAIN_MANIFEST)?;
    let mut files = BTreeMap::new(alloc);
    drop(files.insert(file, 0)?);
    Ok(files)
}
