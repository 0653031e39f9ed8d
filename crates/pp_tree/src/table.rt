//! The definitions of a file by their names.
ghost use Rattle.std.specs.Prelude.{◌≡◌, [], ◌∷◌, ◌++◌, ◌↔◌, IfOk, OnOk, IsTrue, length, slice_get, None};
ghost use Rattle.std.specs.Option.{option_copied, option_map};
ghost use Rattle.std.specs.Map.{lookup};
ghost use Rattle.std.specs.Map.Iter.{deref_pair};
ghost use Rattle.pp_tree.specs.declared.table.DefinitionName.TheVariants.{Code, Function};
ghost use Rattle.pp_tree.specs.Names.{normal, same_name, without_front_colons};
ghost use Rattle.pp_tree.specs.Tables.{table_of, table_from, doubled_told};
ghost use Rattle.pp_values.specs.Answers.{AnswersBy};

use crate::definition::Definition;
use crate::rows::{Row, all_rows};
use pp_values::{Items, Memory, Text};
use std::alloc::Global;
use std::cmp::Ordering;
use std::collections::BTreeMap;
use std::marker::Model;

/// A name under which a definition stands.
#[derive(Drop)]
pub enum DefinitionName {
    /// Of a class or a define: without a leading `::`, with its ASCII letters in lower case.
    Code(Text),
    /// Of a node, as it is written, or none for `default`.
    Node(Option<Text>),
    /// Of a function: without a leading `::`, with its letters as they are written.
    Function(Text),
}

impl DefinitionName {
    /// The name under which a class or a define of this written name stands.
    #[tactic(auto, unfolding(crate::specs::Names::normal))]
    pub fn code(alloc: Global, written: &Text) -> Result<DefinitionName, Memory>
        ensures { IfOk result (λ name. name ≡ Code (normal written.now)) }
    {
        let mut name = String::from_str(alloc, without_front_colons(written.as_str()))?;
        name.make_ascii_lowercase();
        Ok(DefinitionName::Code(Text::new(name)))
    }

    /// The name under which a function of this written name stands.
    pub fn function(alloc: Global, written: &Text) -> Result<DefinitionName, Memory>
        ensures { IfOk result (λ name. name ≡ Function (without_front_colons written.now)) }
    {
        let name = Text::from_str(alloc, without_front_colons(written.as_str()))?;
        Ok(DefinitionName::Function(name))
    }

    pub fn copy(&self, alloc: Global) -> Result<DefinitionName, Memory>
        ensures { IfOk result (λ name. name ≡ self.now) }
    {
        match self {
            DefinitionName::Code(text) => Ok(DefinitionName::Code(text.copy(alloc)?)),
            DefinitionName::Node(name) => Ok(DefinitionName::Node(copy_name(alloc, name)?)),
            DefinitionName::Function(text) => Ok(DefinitionName::Function(text.copy(alloc)?)),
        }
    }
}

/// A copy of the name of a node.
pub fn copy_name(alloc: Global, name: &Option<Text>) -> Result<Option<Text>, Memory>
    ensures { IfOk result (λ copy. copy ≡ name.now) }
{
    match name {
        Some(text) => Ok(Some(text.copy(alloc)?)),
        None => Ok(None),
    }
}

/// The text without a `::` at its front.
#[tactic(auto, using(crate::proofs::Colons::kept))]
fn without_front_colons(text: &str) -> &str
    ensures { result.now ≡ without_front_colons text.now }
{
    match text.strip_prefix("::") {
        Some(rest) => rest,
        None => text,
    }
}

impl PartialEq for DefinitionName {
    ghost use Rattle.std.specs.Cmp.{partial_equiv_from_equiv};
    ghost use Rattle.pp_tree.specs.Names.{same_name};
    ghost use Rattle.pp_tree.specs.NameLaws.{same_name_equiv};

    ghost eq = { same_name };

    ghost laws = { partial_equiv_from_equiv same_name_equiv };

    fn eq(&self, other: &DefinitionName) -> bool {
        match (self, other) {
            (DefinitionName::Code(a), DefinitionName::Code(b)) => a == b,
            (DefinitionName::Node(None), DefinitionName::Node(None)) => true,
            (DefinitionName::Node(Some(a)), DefinitionName::Node(Some(b))) => a == b,
            (DefinitionName::Function(a), DefinitionName::Function(b)) => a == b,
            _ => false,
        }
    }
}

impl Eq for DefinitionName {
    ghost use Rattle.pp_tree.specs.NameLaws.{same_name_equiv};

    ghost laws = { same_name_equiv };
}

impl PartialOrd for DefinitionName {
    ghost use Rattle.std.specs.Prelude.{Some};
    ghost use Rattle.pp_tree.specs.Names.{name_cmp};
    ghost use Rattle.pp_tree.specs.NameLaws.{name_cmp_partial};

    ghost partial_cmp = { λ x y. Some (name_cmp x y) };

    ghost laws = { name_cmp_partial };

    fn partial_cmp(&self, other: &DefinitionName) -> Option<Ordering> {
        Some(self.cmp(other))
    }
}

impl Ord for DefinitionName {
    ghost use Rattle.std.specs.Prelude.{refl};
    ghost use Rattle.pp_tree.specs.Names.{name_cmp};
    ghost use Rattle.pp_tree.specs.NameLaws.{name_cmp_total, name_cmp_ties};

    ghost cmp = { name_cmp };

    ghost total = { name_cmp_total };

    ghost matches_partial_cmp = { λ x y. refl };

    ghost matches_eq = { name_cmp_ties };

    fn cmp(&self, other: &DefinitionName) -> Ordering {
        match (self, other) {
            (DefinitionName::Code(a), DefinitionName::Code(b)) => a.cmp(b),
            (DefinitionName::Code(_), DefinitionName::Node(_)) => Ordering::Less,
            (DefinitionName::Node(_), DefinitionName::Code(_)) => Ordering::Greater,
            (DefinitionName::Node(None), DefinitionName::Node(None)) => Ordering::Equal,
            (DefinitionName::Node(None), DefinitionName::Node(Some(_))) => Ordering::Less,
            (DefinitionName::Node(Some(_)), DefinitionName::Node(None)) => Ordering::Greater,
            (DefinitionName::Node(Some(a)), DefinitionName::Node(Some(b))) => a.cmp(b),
            (DefinitionName::Code(_), DefinitionName::Function(_)) => Ordering::Less,
            (DefinitionName::Node(_), DefinitionName::Function(_)) => Ordering::Less,
            (DefinitionName::Function(_), DefinitionName::Code(_)) => Ordering::Greater,
            (DefinitionName::Function(_), DefinitionName::Node(_)) => Ordering::Greater,
            (DefinitionName::Function(a), DefinitionName::Function(b)) => a.cmp(b),
        }
    }
}

/// Why there is no table.
#[derive(Clone, Copy, Debug, PartialEq, Eq)]
pub enum TableStop {
    /// A name comes a second time, at this line.
    Doubled(u32),
    /// Memory was wanted and not given.
    Memory,
}

impl From<Memory> for TableStop {
    ghost from_gives = { λ memory stop. stop ≡ Memory };

    ghost use Rattle.pp_tree.specs.declared.table.TableStop.TheVariants.{Memory};

    fn from(_memory: Memory) -> TableStop {
        TableStop::Memory
    }
}

/// The definitions of a file by their names. A contract sees the names and definitions in the order of the file.
///
/// Names are looked up by their order, and not by a hash: whoever writes a manifest chooses them.
#[derive(Drop)]
pub struct Table {
    entries: Items<(DefinitionName, Definition)>,
    /// Where each name stands among the entries.
    places: BTreeMap<DefinitionName, usize>,
}

impl Model for Table {
    ghost use Rattle.pp_tree.specs.Tables.{Entries, ArePlaces};
    ghost use Rattle.std.specs.Coded.{coded_list, coded×};
    ghost use Rattle.pp_tree.specs.contracts.definition.Definition as definition;
    ghost use Rattle.pp_tree.specs.contracts.table.DefinitionName as name;

    ghost Value = { Entries };

    ghost coded = { coded_list (coded× name.the_row.coded definition.the_row.coded) };

    ghost view = { λ t. t.entries };

    ghost invariant = { λ t. ArePlaces t.places t.entries };
}

impl Table {
    #[tactic(auto, using(crate::proofs::TableLemmas::no_places))]
    fn new(alloc: Global) -> Table
        ensures { result ≡ [] }
    {
        Table {
            entries: Items::new(alloc),
            places: BTreeMap::new(alloc),
        }
    }

    /// What stands under a name.
    pub fn get(&self, name: &DefinitionName) -> Option<&Definition>
        ensures { option_copied result ≡ lookup (same_name name.now) self.now }
    {
        match self.places.get(name) {
            Some(place) => match self.entries.get(*place) {
                Some(entry) => Some(&entry.1),
                None => None,
            },
            None => None,
        }
    }

    /// The name and the definition at a place, counted from 0.
    pub fn at(&self, index: usize) -> Option<(&DefinitionName, &Definition)>
        ensures { option_map deref_pair result ≡ slice_get self.now index }
    {
        match self.entries.get(index) {
            Some((name, definition)) => Some((name, definition)),
            None => None,
        }
    }

    pub fn len(&self) -> usize
        ensures { result ≡ length self.now }
    {
        self.entries.len()
    }

    pub fn is_empty(&self) -> bool
        ensures { IsTrue result ↔ (self.now ≡ []) }
    {
        self.entries.is_empty()
    }

    /// With a definition behind the others, under a name that is not there yet.
    fn with(
        self,
        alloc: Global,
        name: DefinitionName,
        definition: Definition,
    ) -> Result<Table, Memory>
        requires { lookup (same_name name) self ≡ None }
        ensures { IfOk result (λ table. table ≡ self ++ (name, definition) ∷ []) }
    {
        let Table {
            mut entries,
            mut places,
        } = self;
        places.insert(name.copy(alloc)?, entries.len())?;
        entries.push((name, definition))?;
        Ok(Table { entries, places })
    }
}

/// The table of these definitions, in their order: each class, define and function under its name, each node under its
/// first name, and what that was under each further one. A node without a name, and what is no definition as written, is
/// left out.
///
/// `Doubled` where a name comes a second time. Classes and defines share their names; functions have their own, and so
/// have nodes.
#[tactic(auto, unfolding(crate::specs::Tables::table_of, crate::specs::Tables::table_from), using(crate::proofs::TableLemmas::row_doubled, crate::proofs::TableLemmas::row_put))]
pub fn table_of(alloc: Global, definitions: Items<Definition>) -> Result<Table, TableStop>
    ensures { AnswersBy doubled_told result (table_of definitions) }
{
    let rows = all_rows(alloc, definitions)?;
    let mut table = Table::new(alloc);
    for row in rows {
        if table.get(&row.name).is_some() {
            return Err(TableStop::Doubled(row.at));
        }
        table = table.with(alloc, row.name, row.definition)?;
    }
    Ok(table)
}
