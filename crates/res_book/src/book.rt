ghost use Rattle.std.specs.Prelude.{◌≡◌, ◌<◌, [], length, not, option_copied, slice_get, IsTrue};
ghost use Rattle.res_book.specs.Outcomes.{Changes};
ghost use Rattle.res_book.specs.Rows.{reference_of, is_class_virtual as class_virtual_meant};
ghost use Rattle.res_book.specs.Rows.{is_virtual as virtual_meant, is_live as live_meant};
ghost use Rattle.res_book.specs.Rows.{is_instance as instance_meant, is_pending as pending_meant};
ghost use Rattle.res_book.specs.Rows.{AreApart, AreContained, item_at, mode_at, is_live_at, is_pending_at};
ghost use Rattle.res_book.specs.Rows.{pending_from, pending_after, bound_at, number_of, declared, declared_as};
ghost use Rattle.res_book.specs.Rows.{declared_once, is_contained, limit, with_mark, with_bound};

use crate::faults::{class_virtual, duplicate, too_many};
use crate::mode::Mode;
use crate::numbers::Numbers;
use crate::row::Row;
use pp_values::{Memory, Reference, Stop};
use res_core::{Attributes, Declared, native};
use std::alloc::Global;
use std::marker::Model;

/// How many declarations a compile may have, its imports and `Class[main]` among them.
pub const DECLARATION_LIMIT: u32 = 65_536;

/// The declarations of one compile, numbered from 0 in their order. No two have the same reference.
#[derive(Drop)]
pub struct Book {
    rows: Vec<Row>,
    /// Where in `rows` a reference is declared.
    numbers: Numbers,
}

impl Model for Book {
    ghost use Rattle.std.specs.Prelude.{List};
    ghost use Rattle.std.specs.Coded.{coded_list};
    ghost use Rattle.res_book.specs.declared.row.Row.{Row};
    ghost use Rattle.res_book.specs.contracts.row.Row as row;

    ghost Value = { List Row };

    ghost coded = { coded_list row.the_row.coded };

    ghost use Rattle.res_book.specs.Kept.{IsKept};

    ghost view = { λ b. b.rows.items };

    ghost invariant = { λ b. IsKept b.numbers.by_kind b.rows.items };
}

impl Book {
    pub fn new(alloc: Global) -> Book
        ensures { result ≡ [] }
    {
        Book {
            rows: Vec::new(alloc),
            numbers: Numbers::new(alloc),
        }
    }

    /// How many declarations there are.
    pub fn count(&self) -> u32
        ensures { result ≡ length self.now }
    {
        self.rows.len() as u32
    }

    /// A declaration, and what became of it.
    pub fn row(&self, number: u32) -> &Row
        requires { number < length self.now }
        ensures { slice_get self.now number ≡ Some result.now }
    {
        &self.rows[number as usize]
    }

    /// A declaration. Its reference finds it.
    pub fn item(&self, number: u32) -> &Declared
        requires { number < length self.now }
        ensures item { item_at self.now number ≡ Some result.now }
        ensures found { number_of (reference_of result.now) self.now ≡ Some number }
    {
        &self.rows[number as usize].declared
    }

    /// No two declarations have the same reference.
    pub fn references_differ(&self)
        ensures { AreApart self.now }
    {
        let _count = self.rows.len();
    }

    /// Each container was declared before what it contains, and is live.
    pub fn containers_stand(&self)
        ensures { AreContained self.now }
    {
        let _count = self.rows.len();
    }

    /// How a resource was declared.
    pub fn mode(&self, number: u32) -> &Mode
        requires { number < length self.now }
        ensures { mode_at self.now number ≡ Some result.now }
    {
        &self.row(number).mode
    }

    /// The number of the declaration with this reference.
    pub fn find(&self, reference: &Reference) -> Option<u32>
        ensures { result ≡ number_of reference.now self.now }
    {
        self.numbers.get(reference.kind.as_text(), &reference.title)
    }

    /// Declares a resource. The answer is its number.
    ///
    /// A class that is virtual or exported is the first fault, a reference that is declared the second, and one
    /// declaration too many the third. Whatever the error, memory included, all stays as it was.
    pub fn declare(&mut self, alloc: Global, item: Declared, mode: Mode) -> Result<u32, Stop>
        requires { IsTrue (is_contained item.container self.old) }
        ensures { Changes (declared item mode self.old) self.old result self.new }
    {
        if is_class_virtual(&item, &mode) {
            return Err(Stop::Fault(class_virtual(alloc, &item)?));
        }
        if self.count() < DECLARATION_LIMIT {
            return self.declare_once(alloc, item, mode);
        }
        match self.earlier(&item) {
            Some(row) => Err(Stop::Fault(duplicate(alloc, &item, &row.declared.at)?)),
            None => Err(Stop::Fault(too_many(alloc, &item)?)),
        }
    }

    /// The declaration with the same reference.
    fn earlier(&self, item: &Declared) -> Option<&Row>
        ensures { option_copied result ≡ declared_as (reference_of item.now) self.now }
    {
        match self.number_of(item) {
            Some(number) => Some(self.row(number)),
            None => None,
        }
    }

    fn number_of(&self, item: &Declared) -> Option<u32>
        ensures { result ≡ number_of (reference_of item.now) self.now }
    {
        self.numbers.get(item.item.kind.as_text(), &item.item.title)
    }

    /// Declares a resource where there is room, unless its reference is declared. Whatever the error, all stays as it
    /// was.
    fn declare_once(&mut self, alloc: Global, item: Declared, mode: Mode) -> Result<u32, Stop>
        requires contained { IsTrue (is_contained item.container self.old) }
        requires room { length self.old < limit }
        ensures { Changes (declared_once item mode (declared_as (reference_of item) self.old) self.old) self.old result
            self.new }
    {
        let number = self.count();
        self.rows.reserve(1)?;
        let kind = item.item.kind.as_text();
        match self.numbers.claim(alloc, kind, &item.item.title, number)? {
            Some(earlier) => {
                let earlier = self.row(earlier);
                Err(Stop::Fault(duplicate(alloc, &item, &earlier.declared.at)?))
            }
            None => {
                self.rows.push(Row {
                    declared: item,
                    mode,
                    marked: false,
                    bound: None,
                })?;
                Ok(number)
            }
        }
    }

    /// Whether a declaration is live: neither virtual nor exported, or taken by a collector.
    pub fn live(&self, number: u32) -> bool
        requires { number < length self.now }
        ensures { result ≡ is_live_at self.now number }
    {
        is_live(self.row(number))
    }

    /// The next instance of a definition behind a declaration, or of all, that is live and was not evaluated.
    pub fn pending(&self, after: Option<u32>) -> Option<u32>
        ensures { result ≡ pending_after self.now after }
    {
        let from = match after {
            Some(number) => number as usize + 1,
            None => 0,
        };
        self.pending_from(from)
    }

    #[tactic(auto, using(crate::proofs::Pending::none_from, crate::proofs::Pending::not_here, crate::proofs::Pending::here))]
    fn pending_from(&self, from: usize) -> Option<u32>
        ensures { result ≡ pending_from self.now from }
    {
        for number in from..self.rows.len() {
            if self.is_pending(number as u32) {
                return Some(number as u32);
            }
        }
        None
    }

    fn is_pending(&self, number: u32) -> bool
        requires { number < length self.now }
        ensures { result ≡ is_pending_at self.now number }
    {
        is_pending(self.row(number))
    }

    /// Marks a declaration as taken by a collector. True exactly where that makes it live.
    pub fn realize(&mut self, number: u32) -> Result<bool, Memory>
        requires { number < length self.old }
        ensures was { result ≡ Ok (not (is_live_at self.old number)) }
        ensures rows { self.new ≡ with_mark number self.old }
    {
        let was_live = self.live(number);
        let row = &mut self.rows[number as usize];
        row.marked = true;
        Ok(!was_live)
    }

    /// Keeps the parameters of a class or instance. An instance is evaluated from then on.
    pub fn set_bound(&mut self, number: u32, bound: Attributes)
        requires { number < length self.old }
        ensures { self.new ≡ with_bound number bound self.old }
    {
        let row = &mut self.rows[number as usize];
        row.bound = Some(bound);
    }

    /// The parameters of a class or instance, where they were kept.
    pub fn bound(&self, number: u32) -> Option<&Attributes>
        requires { number < length self.now }
        ensures { option_copied result ≡ bound_at self.now number }
    {
        self.row(number).bound.as_ref()
    }
}

fn is_virtual(mode: &Mode) -> bool
    ensures { result ≡ virtual_meant mode.now }
{
    match mode {
        Mode::Virtual | Mode::Exported => true,
        Mode::Plain => false,
        Mode::Imported { node: _, place: _ } => false,
    }
}

fn is_live(row: &Row) -> bool
    ensures { result ≡ live_meant row.now }
{
    !is_virtual(&row.mode) || row.marked
}

fn is_instance(item: &Declared) -> bool
    ensures { result ≡ instance_meant item.now }
{
    !item.item.kind.is("class") && native(item.item.kind.as_text()).is_none()
}

fn is_pending(row: &Row) -> bool
    ensures { result ≡ pending_meant row.now }
{
    is_live(row) && is_instance(&row.declared) && row.bound.is_none()
}

fn is_class_virtual(item: &Declared, mode: &Mode) -> bool
    ensures { result ≡ class_virtual_meant item.now mode.now }
{
    item.item.kind.is("class") && is_virtual(mode)
}
