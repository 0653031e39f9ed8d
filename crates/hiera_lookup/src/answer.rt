ghost use Rattle.std.specs.Prelude.{◌≡◌, ◌≢◌, ◌∷◌, ◌++◌, [], IfOk, None, option_map};
ghost use Rattle.std.specs.BTreeMap.{get};
ghost use Rattle.pp_values.specs.Rising.{text_cmp};
ghost use Rattle.pp_values.specs.Views.{view};
ghost use Rattle.hiera_lookup.specs.AnswerPlaces.{place_for};
ghost use Rattle.hiera_lookup.specs.Filled.{answer_to};

use pp_values::{Memory, Text, Value};
use std::alloc::Global;
use std::collections::BTreeMap;
use std::marker::Model;

/// A key that a value looks up, and the value that was found for it.
#[derive(Drop)]
pub struct Answer {
    key: Text,
    value: Option<Value>,
}

impl Model for Answer {
    ghost use Rattle.std.specs.Coded.{coded×, coded_option};
    ghost use Rattle.std.specs.Prelude.{ℕ, List, Option, option_map};
    ghost use Rattle.pp_values.specs.Codes.{coded_text, coded_datum};
    ghost use Rattle.pp_values.specs.Datum.{Datum};
    ghost use Rattle.pp_values.specs.Views.{view as said};

    ghost Value = { List ℕ × Option Datum };

    ghost coded = { coded× coded_text (coded_option coded_datum) };

    ghost view = { λ a. (a.key, option_map said a.value) };
}

impl Answer {
    pub fn new(key: Text, value: Option<Value>) -> Answer
        ensures { result ≡ (key, option_map view value) }
    {
        Answer { key, value }
    }

    pub fn value(&self) -> Option<&Value>
        ensures { option_map (λ v. view v.now) result ≡ self.now.1 }
    {
        self.value.as_ref()
    }
}

/// What was found for the keys that a value looks up, in the order in which they stand in it, with the place of each
/// key's first answer.
#[derive(Drop)]
pub struct Answers {
    items: Vec<Answer>,
    places: BTreeMap<Text, usize>,
}

impl Model for Answers {
    ghost use Rattle.std.specs.Coded.{coded×, coded_list, coded_option};
    ghost use Rattle.std.specs.Prelude.{List};
    ghost use Rattle.pp_values.specs.Codes.{coded_text, coded_datum};
    ghost use Rattle.hiera_lookup.specs.Filled as spec;
    ghost use Rattle.hiera_lookup.specs.AnswerPlaces.{ArePlaced};

    ghost Value = { List spec.Answer };

    ghost coded = { coded_list (coded× coded_text (coded_option coded_datum)) };

    ghost view = { λ a. a.items.items };

    ghost invariant = { λ a. ArePlaced a.places a.items.items };
}

impl Answers {
    #[tactic(auto, using(crate::proofs::AnswerLemmas::none_placed))]
    pub fn new(alloc: Global) -> Answers
        ensures { result ≡ [] }
    {
        Answers {
            items: Vec::new(alloc),
            places: BTreeMap::new(alloc),
        }
    }

    /// With one answer more behind those that are there.
    pub fn with(self, alloc: Global, answer: Answer) -> Result<Answers, Memory>
        ensures { IfOk result (λ l. l ≡ self ++ answer ∷ []) }
    {
        match self.place_of(&answer.key) {
            Some(_) => with_again(self, answer),
            None => with_first(alloc, self, answer),
        }
    }

    /// Where the first answer for a key stands.
    fn place_of(&self, key: &Text) -> Option<usize>
        ensures { result ≡ place_for self.now key.now }
    {
        place_in(&self.places, key)
    }

    /// What was found for a key, if it was asked and has a value.
    #[tactic(auto, using(crate::proofs::AnswerLemmas::place_within, crate::proofs::AnswerLemmas::answer_at, crate::proofs::AnswerLemmas::no_answer))]
    fn value_of(&self, key: &Text) -> Option<&Value>
        ensures { option_map (λ v. view v.now) result ≡ answer_to self.now key.now }
    {
        match self.place_of(key) {
            Some(place) => self.items[place].value(),
            None => None,
        }
    }
}

fn place_in(places: &BTreeMap<Text, usize>, key: &Text) -> Option<usize>
    ensures { result ≡ get text_cmp places.now key.now }
{
    places.get(key).copied()
}

/// With one answer more, for a key that has one.
fn with_again(answers: Answers, answer: Answer) -> Result<Answers, Memory>
    requires { place_for answers answer.0 ≢ None }
    ensures { IfOk result (λ l. l ≡ answers ++ answer ∷ []) }
{
    let Answers { items, places } = answers;
    let mut items = items;
    items.push(answer)?;
    Ok(Answers { items, places })
}

/// With one answer more, for a key that has none.
fn with_first(alloc: Global, answers: Answers, answer: Answer) -> Result<Answers, Memory>
    requires { place_for answers answer.0 ≡ None }
    ensures { IfOk result (λ l. l ≡ answers ++ answer ∷ []) }
{
    let Answers { items, places } = answers;
    let mut items = items;
    let mut places = places;
    drop(places.insert(answer.key.copy(alloc)?, items.len())?);
    items.push(answer)?;
    Ok(Answers { items, places })
}

/// What was found for a key, if it was asked and has a value.
pub fn answer_to<'a>(
    alloc: Global,
    answers: &'a Answers,
    key: &str,
) -> Result<Option<&'a Value>, Memory>
    ensures { IfOk result (λ o. option_map (λ v. view v.now) o ≡ answer_to answers.now key.now) }
{
    let key = Text::from_str(alloc, key)?;
    Ok(answers.value_of(&key))
}
