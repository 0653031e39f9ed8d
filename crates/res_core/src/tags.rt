ghost use Rattle.std.specs.Prelude.{◌≡◌, [], ◌↔◌, length, IfOk, IsTrue, OnOk};
ghost use Rattle.std.specs.BTreeSet.{insert_key};
ghost use Rattle.pp_values.specs.Rising.{is_rising, text_cmp};
ghost use Rattle.res_core.specs.TagNames.{is_tagged};
ghost use Rattle.res_core.specs.TagPlaces.{place_in};

use pp_values::{Memory, Text};
use std::alloc::Global;
use std::cmp::Ordering;
use std::marker::Model;

/// The tags of a resource: texts in rising byte order, each once.
#[derive(Debug, Drop)]
pub struct Tags {
    items: Vec<Text>,
}

impl Model for Tags {
    ghost use Rattle.std.specs.Prelude.{ℕ, List};

    ghost Value = { List (List ℕ) };

    ghost use Rattle.std.specs.Prelude.{IsTrue};
    ghost use Rattle.pp_values.specs.Rising.{is_rising};

    ghost view = { λ t. t.items.items };

    ghost invariant = { λ t. IsTrue (is_rising t.items.items) };
}

impl Tags {
    pub fn new(alloc: Global) -> Tags
        ensures { result ≡ [] }
    {
        Tags {
            items: Vec::new(alloc),
        }
    }

    pub fn from_vec(items: Vec<Text>) -> Tags
        requires { IsTrue (is_rising items.items) }
        ensures { result ≡ items.items }
    {
        Tags { items }
    }

    pub fn len(&self) -> usize
        ensures { result ≡ length self.now }
    {
        self.items.len()
    }

    pub fn is_empty(&self) -> bool
        ensures { IsTrue result ↔ (self.now ≡ []) }
    {
        self.items.is_empty()
    }

    pub fn as_slice(&self) -> &[Text]
        ensures tags { result.now ≡ self.now }
        ensures rising { IsTrue (is_rising self.now) }
    {
        self.items.as_slice()
    }

    pub(crate) fn into_vec(self) -> Vec<Text>
        ensures tags { result.items ≡ self }
        ensures rising { IsTrue (is_rising self) }
    {
        let Tags { items } = self;
        items
    }

    /// Whether one of them is this text, with ASCII letters folded.
    pub fn has(&self, text: &Text) -> bool
        ensures { result ≡ is_tagged self.now text.now }
    {
        self.items
            .iter()
            .any(|tag| text.as_str().eq_ignore_ascii_case(tag.as_str()))
    }

    /// The same tags.
    pub fn copy(&self, alloc: Global) -> Result<Tags, Memory>
        ensures { IfOk result (λ t. t ≡ self.now) }
    {
        self.copy_with_room(alloc, 0)
    }

    /// A copy, with room for so many more.
    pub(crate) fn copy_with_room(&self, alloc: Global, more: usize) -> Result<Tags, Memory>
        ensures { IfOk result (λ t. t ≡ self.now) }
    {
        let room = self.items.len().saturating_add(more);
        let mut items = Vec::with_capacity(alloc, room)?;
        for item in &self.items {
            items.push(item.copy(alloc)?)?;
        }
        Ok(Tags { items })
    }

    /// Puts a text at its place, unless it is there.
    #[tactic(auto, using(crate::proofs::PlaceLemmas::there, crate::proofs::PlaceLemmas::put_between, crate::proofs::PlaceLemmas::between_within))]
    pub(crate) fn add(&mut self, text: Text) -> Result<(), Memory>
        ensures { OnOk result (self.new ≡ insert_key text_cmp self.old text) }
    {
        match place_of(&self.items, &text) {
            Ok(_) => Ok(()),
            Err(place) => {
                self.items.insert(place, text)?;
                Ok(())
            }
        }
    }
}

/// Where the text stands, or else where it would.
#[tactic(auto, using(crate::proofs::PlaceLemmas::at_end, crate::proofs::PlaceLemmas::at_less, crate::proofs::PlaceLemmas::at_equal, crate::proofs::PlaceLemmas::at_greater, crate::proofs::PlaceLemmas::further_none))]
fn place_of(items: &[Text], text: &Text) -> Result<usize, usize>
    ensures { result ≡ place_in text.now items.now }
{
    let mut place = 0;
    let mut rest = items;
    while let Some((item, more)) = rest.split_first() {
        match text.compare(item) {
            Ordering::Less => return Err(place),
            Ordering::Equal => return Ok(place),
            Ordering::Greater => {}
        }
        place += 1;
        rest = more;
    }
    Err(place)
}
