//! Flags by which keys are told that a document surely lacks.
ghost use Rattle.std.specs.Prelude.{◌≡◌, Some, IfOk, option_map};
ghost use Rattle.serde_json.specs.Data.{object};
ghost use Rattle.serde_json.specs.View.{view as json_view, members_view};
ghost use Rattle.hiera_config.specs.Flags.{mark_of, may_have, with_flag, flagged, Knows};

use pp_values::Memory;
use serde_json::{Map, Value as Json};
use std::alloc::Global;

/// How many flags there are for each key of a document.
const FLAGS: usize = 8;

/// A number that is the same for equal keys.
pub fn mark_of(key: &str) -> usize
    ensures { result ≡ mark_of key.now }
{
    let mut mark: usize = 5381;
    let mut left = key.as_bytes();
    while let [byte, after @ ..] = left {
        mark = mark.wrapping_mul(33).wrapping_add(usize::from(*byte));
        left = after;
    }
    mark
}

/// Whether a key of this mark may stand in the document of these flags.
pub fn may_have(flags: &[bool], mark: usize) -> bool
    ensures { result ≡ may_have flags.now mark }
{
    let count = flags.len();
    if count == 0 {
        return true;
    }
    match flags.get(mark % count) {
        Some(flag) => *flag,
        None => true,
    }
}

/// The flags of the keys that a document has. Of JSON that is none, they say nothing.
pub fn flags_of(alloc: Global, json: &Option<Json>) -> Result<Vec<bool>, Memory>
    ensures { IfOk result (λ f. Knows f.items (option_map json_view json.now)) }
{
    match json {
        Some(json) => flags_of_json(alloc, json),
        None => Ok(Vec::new(alloc)),
    }
}

fn flags_of_json(alloc: Global, json: &Json) -> Result<Vec<bool>, Memory>
    ensures { IfOk result (λ f. Knows f.items (Some (json_view json.now))) }
{
    match json.as_object() {
        Some(members) => flags_of_members(alloc, members),
        None => Ok(Vec::new(alloc)),
    }
}

fn flags_of_members(alloc: Global, members: &Map<String, Json>) -> Result<Vec<bool>, Memory>
    ensures { IfOk result (λ f. Knows f.items (Some (object (members_view members.now.entries)))) }
{
    let mut flags = Vec::new(alloc);
    flags.resize(members.len().saturating_mul(FLAGS), false)?;
    set_flags(&mut flags, members);
    Ok(flags)
}

fn set_flags(flags: &mut Vec<bool>, members: &Map<String, Json>)
    ensures { flags.new.items ≡ flagged flags.old.items (members_view members.now.entries) }
{
    for (name, _) in members.iter() {
        set_flag(flags, mark_of(name.as_str()));
    }
}

fn set_flag(flags: &mut Vec<bool>, mark: usize)
    ensures { flags.new.items ≡ with_flag flags.old.items mark }
{
    let count = flags.len();
    if count == 0 {
        return;
    }
    flags[mark % count] = true;
}
