ghost use Rattle.std.specs.Prelude.{◌≡◌, ◌<◌, ◌+◌, ◌==◌, ◌++◌, [], ℕ, List, Some, length, find, if◌then◌else◌, is_ok};
ghost use Rattle.std.specs.Prelude.{nat_lt, option_copied, option_map, slice_get, IfOk, OnOk};
ghost use Rattle.pp_values.specs.Answers.{Answers};
ghost use Rattle.pp_values.specs.Views.{view};
ghost use Rattle.pp_values.specs.Rising.{sorted, with_texts};
ghost use Rattle.res_book.specs.Outcomes.{Changes};
ghost use Rattle.res_core.specs.AttributeViews.{set_in, settings};
ghost use Rattle.override_rules.specs.Lines.{line_of, lines_of};
ghost use Rattle.override_rules.specs.Meaning.{State, attribute_of as attribute_meant, attribute_at};
ghost use Rattle.override_rules.specs.Meaning.{defaulted as defaulted_meant, line_added, tested, test_of, row_of};
ghost use Rattle.override_rules.specs.Meaning.{stands, is_orphan as is_orphan_meant, orphan, default_added};
ghost use Rattle.override_rules.specs.Meaning.{scope_opened, touched_by};
ghost use Rattle.override_rules.specs.Names.{names_of, default_names, setting_for, settings_among, attributes_of};

use crate::changing::set_to;
use crate::defaults::Defaults;
use crate::faults::default_twice;
use crate::fold::overridden;
use crate::gathering::{put_defaults, put_overridden, put_own};
use crate::lines::Lines;
use crate::nearest::nearest;
use crate::override_line::OverrideLine;
use crate::own::copy_set;
use crate::scopes::Scopes;
use crate::testing::{is_set_by, line_test, test_all};
use pp_values::{Kind, Memory, Place, Stop, Text, Value};
use res_book::{Book, Row};
use res_core::{Attribute, Attributes};
use std::alloc::Global;
use std::collections::BTreeSet;
use std::marker::Model;

/// The override lines and default statements of one compile, and the scopes that have the latter.
pub struct Overrides {
    lines: Lines,
    scopes: Scopes,
    defaults: Defaults,
}

// By hand, so that no crate above proves the drops of the tables again.
impl Drop for Overrides {
    fn drop(self) {
        let Overrides {
            lines: _lines,
            scopes: _scopes,
            defaults: _defaults,
        } = self;
    }
}

impl Model for Overrides {
    ghost use Rattle.override_rules.specs.Codes.{coded_state};
    ghost use Rattle.override_rules.specs.Meaning.{State};

    ghost Value = { State };

    ghost coded = { coded_state };

    ghost use Rattle.std.specs.Prelude.{◌+◌, ◌<◌, ◌^◌, length};

    ghost view = { λ o. record { lines = o.lines; scopes = o.scopes; defaults = o.defaults } };

    ghost invariant = { λ o. length o.lines + length o.defaults < 2 ^ 32 };
}

impl Overrides {
    pub fn new(alloc: Global) -> Overrides
        ensures { result ≡ record { lines = []; scopes = []; defaults = [] } }
    {
        Overrides {
            lines: Lines::new(alloc),
            scopes: Scopes::new(alloc),
            defaults: Defaults::new(alloc),
        }
    }

    /// Adds a line behind the others. Where its target stands already the line is tested, after the lines before it.
    ///
    /// An attribute that the target does not take is the first fault, one that the line may not touch the second.
    /// Whatever the error, memory included, all stays as it was.
    pub fn add_line(&mut self, alloc: Global, book: &Book, line: OverrideLine) -> Result<(), Stop>
        ensures { Changes (line_added book.now (line_of line) self.old) self.old result self.new }
    {
        self.test_target(alloc, book, &line)?;
        if self.has_room() {
            self.lines.push(alloc, line)?;
            return Ok(());
        }
        Err(Stop::Memory)
    }

    /// Whether one more line or default may come.
    fn has_room(&self) -> bool
        ensures { result ≡ nat_lt (length self.now.lines + length self.now.defaults) 4294967295 }
    {
        self.lines.len() + self.defaults.len() < u32::MAX as usize
    }

    fn test_target(&self, alloc: Global, book: &Book, line: &OverrideLine) -> Result<(), Stop>
        ensures { Answers result (tested (test_of self.now (line_of line.now)) (row_of line.now.target book.now)) }
    {
        match book.find(&line.target) {
            Some(number) => self.test_on(alloc, book.row(number), line),
            None => Ok(()),
        }
    }

    fn test_on(&self, alloc: Global, row: &Row, line: &OverrideLine) -> Result<(), Stop>
        ensures { Answers result (test_of self.now (line_of line.now) row.now) }
    {
        let item = &row.declared;
        let numbers = self.lines.on(&item.item.kind, &item.item.title);
        let set = is_set_by(&self.lines, numbers, item, &line.name);
        line_test(alloc, item, row.bound.is_some(), set, line)
    }

    /// Tests the lines that came before their target was declared, in their order. The first fault is the answer.
    pub fn stand(&self, alloc: Global, book: &Book, number: u32) -> Result<(), Stop>
        requires { number < length book.now }
        ensures { Answers result (stands self.now book.now number) }
    {
        let row = book.row(number);
        test_all(alloc, &self.lines, &row.declared, row.bound.is_some())
    }

    /// The value of an attribute; `None` where it is not set.
    pub fn attribute(
        &self,
        alloc: Global,
        book: &Book,
        number: u32,
        name: &Text,
    ) -> Result<Option<Value>, Memory>
        requires { number < length book.now }
        ensures { IfOk result (λ o. option_map view o ≡ attribute_at self.now book.now number name.now) }
    {
        self.attribute_of(alloc, book.row(number), name)
    }

    fn attribute_of(&self, alloc: Global, row: &Row, name: &Text) -> Result<Option<Value>, Memory>
        ensures { IfOk result (λ o. option_map view o ≡ attribute_meant self.now row.now name.now) }
    {
        match overridden(alloc, &self.lines, &row.declared, name)? {
            Some(value) => Ok(Some(value)),
            None => self.defaulted(alloc, row, name),
        }
    }

    fn defaulted(&self, alloc: Global, row: &Row, name: &Text) -> Result<Option<Value>, Memory>
        ensures { IfOk result (λ o. option_map view o ≡ defaulted_meant self.now row.now name.now) }
    {
        if row.mode.is_imported() {
            return Ok(None);
        }
        let kind = &row.declared.item.kind;
        match nearest(&self.scopes, &self.defaults, kind, name, row.declared.scope) {
            Some(value) => set_to(alloc, value),
            None => Ok(None),
        }
    }

    /// All attributes that are set, each with what `attribute` gives for it.
    #[tactic(auto, using(crate::proofs::Among::each_found))]
    pub fn attributes(&self, alloc: Global, book: &Book, number: u32) -> Result<Attributes, Memory>
        requires { number < length book.now }
        ensures list { IfOk result (λ a. option_map (attributes_of self.now) (slice_get book.now number) ≡ Some a) }
        ensures each { IfOk result (λ a. (name : List ℕ) → set_in a name ≡ attribute_at self.now book.now number name) }
    {
        self.row_attributes(alloc, book.row(number))
    }

    /// All attributes of a declaration that are set.
    pub fn row_attributes(&self, alloc: Global, row: &Row) -> Result<Attributes, Memory>
        ensures { IfOk result (λ a. a ≡ attributes_of self.now row.now) }
    {
        if self.is_untouched(row) {
            return copy_set(alloc, &row.declared.item.attributes);
        }
        let names = self.names(alloc, row)?;
        self.attributes_among(alloc, row, names)
    }

    /// Whether no line is on a declaration, and no default for its kind. Then what it sets itself is all that is set.
    pub fn is_untouched(&self, row: &Row) -> bool
        ensures { result ≡ (touched_by self.now row.now == 0) }
    {
        self.touched_row(row) == 0
    }

    fn names(&self, alloc: Global, row: &Row) -> Result<BTreeSet<Text>, Memory>
        ensures { IfOk result (λ n. n.keys ≡ sorted (names_of self.now row.now)) }
    {
        let mut names = BTreeSet::new(alloc);
        put_own(alloc, &row.declared.item.attributes, &mut names)?;
        put_overridden(alloc, &self.lines, &row.declared, &mut names)?;
        self.put_default_names(alloc, row, &mut names)?;
        Ok(names)
    }

    fn put_default_names(
        &self,
        alloc: Global,
        row: &Row,
        names: &mut BTreeSet<Text>,
    ) -> Result<(), Memory>
        ensures { OnOk result (names.new.keys ≡ with_texts names.old.keys (default_names self.now row.now)) }
    {
        if row.mode.is_imported() {
            return Ok(());
        }
        let item = &row.declared;
        put_defaults(
            alloc,
            &self.scopes,
            &self.defaults,
            &item.item.kind,
            item.scope,
            names,
        )
    }

    fn attributes_among(
        &self,
        alloc: Global,
        row: &Row,
        names: BTreeSet<Text>,
    ) -> Result<Attributes, Memory>
        requires { names.keys ≡ sorted (names_of self.now row.now) }
        ensures { IfOk result (λ a. a ≡ attributes_of self.now row.now) }
    {
        let mut items = Vec::new(alloc);
        for name in names {
            self.put_attribute(alloc, row, name, &mut items)?;
        }
        Ok(Attributes::from_vec(items))
    }

    fn put_attribute(
        &self,
        alloc: Global,
        row: &Row,
        name: Text,
        items: &mut Vec<Attribute>,
    ) -> Result<(), Memory>
        ensures { OnOk result (settings items.new.items
            ≡ settings items.old.items ++ setting_for (attribute_meant self.now row.now) name) }
    {
        match self.attribute_of(alloc, row, &name)? {
            Some(value) => {
                items.push(Attribute { name, value })?;
                Ok(())
            }
            None => Ok(()),
        }
    }

    /// The first line whose target is not declared, or is a class.
    pub fn orphans(&self, book: &Book) -> Option<&OverrideLine>
        ensures { option_map (λ l. line_of l.now) result ≡ orphan book.now self.now }
    {
        first_orphan(self.lines.as_slice(), book)
    }

    /// Opens a scope, which may then have defaults, and take those of its dynamic parent. A parent is set once: where
    /// the scope was opened before, it keeps the one that it has. One that was never opened has no parent and no
    /// default.
    ///
    /// Where there is no memory, all stays as it was.
    pub fn open_scope(&mut self, scope: u32, parent: Option<u32>) -> Result<(), Memory>
        ensures { self.new ≡ (if is_ok result then scope_opened scope parent self.old else self.old) }
    {
        self.scopes.open(scope, parent)
    }

    /// Adds a default to a scope, which may have one for this kind and name already: that is a fault.
    ///
    /// Whatever the error, memory included, all stays as it was.
    pub fn add_default(
        &mut self,
        alloc: Global,
        scope: u32,
        kind: &Kind,
        name: &Text,
        value: Value,
        at: &Place,
    ) -> Result<(), Stop>
        ensures { Changes (default_added kind.now scope name.now (view value) at.now self.old)
            self.old result self.new }
    {
        if self.defaults.get(kind, scope, name).is_some() {
            return Err(Stop::Fault(default_twice(alloc, kind, name, at)?));
        }
        if self.has_room() {
            self.defaults.add(alloc, kind, scope, name, value)?;
            return Ok(());
        }
        Err(Stop::Memory)
    }

    /// How many override lines so far are on the declaration, and how many defaults so far are for its kind.
    pub fn touched(&self, book: &Book, number: u32) -> u32
        requires { number < length book.now }
        ensures { option_map (touched_by self.now) (slice_get book.now number) ≡ Some result }
    {
        self.touched_row(book.row(number))
    }

    fn touched_row(&self, row: &Row) -> u32
        ensures { result ≡ touched_by self.now row.now }
    {
        let item = &row.declared.item;
        let lines = self.lines.on(&item.kind, &item.title).len();
        (lines + self.defaults.count(&item.kind)) as u32
    }
}

fn first_orphan<'a>(lines: &'a [OverrideLine], book: &Book) -> Option<&'a OverrideLine>
    ensures { option_copied result ≡ find (λ l. is_orphan_meant book.now (line_of l)) lines.now }
{
    lines.iter().find(|line| is_orphan(book, line))
}

fn is_orphan(book: &Book, line: &OverrideLine) -> bool
    ensures { result ≡ is_orphan_meant book.now (line_of line.now) }
{
    line.target.kind.is("class") || book.find(&line.target).is_none()
}
