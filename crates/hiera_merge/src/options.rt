//! What `lookup_options` says of one key.
ghost use Rattle.std.specs.Prelude.{◌≡◌, option_map};
ghost use Rattle.pp_values.specs.Datum as d;
ghost use Rattle.pp_values.specs.Datum.{entries_of};
ghost use Rattle.pp_values.specs.Views.{view};
ghost use Rattle.hiera_merge.specs.Options.{sole, merge_by_name, merge_in, merge_of};

use crate::digging::is_text;
use crate::merge::Merge;
use pp_values::{Pairs, Value};

/// The merge that the options of a key give. None where they are no options.
pub fn merge_of(options: &Value) -> Option<Merge>
    ensures { result ≡ merge_of (view options.now) }
{
    match options {
        Value::Hash(pairs) => merge_of_pairs(pairs),
        _ => None,
    }
}

#[tactic(auto, using(crate::proofs::OptionLemmas::merge_of_more))]
fn merge_of_pairs(pairs: &Pairs) -> Option<Merge>
    ensures { result ≡ merge_of (d.hash (entries_of pairs.now)) }
{
    if pairs.is_empty() {
        return Some(Merge::First);
    }
    match sole(pairs, "merge") {
        Some(value) => merge_in(value),
        None => None,
    }
}

/// The merge that a value names: by its name, or by a hash that has its name as `strategy` and nothing else.
pub fn merge_in(value: &Value) -> Option<Merge>
    ensures { result ≡ merge_in (view value.now) }
{
    match value {
        Value::Text(name) => Merge::from_name(name.as_str()),
        Value::Hash(pairs) => merge_by_name(sole(pairs, "strategy")?),
        _ => None,
    }
}

fn merge_by_name(value: &Value) -> Option<Merge>
    ensures { result ≡ merge_by_name (view value.now) }
{
    match value {
        Value::Text(name) => Merge::from_name(name.as_str()),
        _ => None,
    }
}

/// The value of this key, where it is the hash's only one.
#[tactic(auto, using(crate::proofs::OptionLemmas::sole_of_more))]
fn sole<'a>(pairs: &'a Pairs, name: &str) -> Option<&'a Value>
    ensures { option_map (λ v. view v.now) result ≡ sole name.now (entries_of pairs.now) }
{
    match pairs.as_slice() {
        [] => None,
        [(key, value)] => {
            if is_text(key, name) {
                Some(value)
            } else {
                None
            }
        }
        [_, _, ..] => None,
    }
}
