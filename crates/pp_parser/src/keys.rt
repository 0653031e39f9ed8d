//! Keys that stand twice in a hash literal.

ghost use Rattle.std.specs.Prelude.{◌≡◌, IfOk};
ghost use Rattle.pp_parser.specs.Keys as spec;

use pp_tree::{Form, Pair};
use pp_values::Memory;
use std::alloc::Global;
use std::collections::BTreeSet;

/// The line of the first key that is an earlier pair's key too.
pub fn doubled_key(alloc: Global, pairs: &[Pair]) -> Result<Option<u32>, Memory>
    ensures { IfOk result (λ found. found ≡ spec.doubled_key pairs.now) }
{
    let mut texts = BTreeSet::new(alloc);
    let mut numbers = BTreeSet::new(alloc);
    for at in 0..pairs.len() {
        let key = &pairs[at].key;
        let is_new = match key.form.get() {
            Form::Text(said) | Form::Name(said) => texts.insert(said.as_str())?,
            Form::Number(n) => numbers.insert(*n)?,
            _ => true,
        };
        if !is_new {
            return Ok(Some(key.at));
        }
    }
    Ok(None)
}
