//! How deep values nest.
ghost use Rattle.std.specs.Prelude.{◌≡◌, ◌+◌, ◌≤◌, IfOk, IfErr};
ghost use Rattle.pp_values.specs.Depth.{IsDepth, max_nesting, depth, deepest, deepest_value, deepest_type};
ghost use Rattle.pp_values.specs.Depth.{arguments_of, arguments_depth};
ghost use Rattle.pp_values.specs.PTypes.{sort, sorts, type_argument, member_arguments, entry_arguments};
ghost use Rattle.pp_values.specs.Views.{view, views, pair_views};

use crate::memory::Memory;
use crate::ptype::{EntryType, MemberType, PType, TypeBox};
use crate::value::Value;

/// How deep lists, hashes and data types stand within one another at most. To make a deeper value is want of memory.
///
/// Whatever walks over a value (a drop, a copy, a comparison, a text, a merge) goes one frame deeper for each level, so
/// this number and the stack of the threads that compile (`STACK_SIZE` of `work_pool`) are chosen together.
pub const MAX_NESTING: u32 = 4096;

/// The depth of what holds parts of which the deepest has this depth.
pub(crate) fn depth_around(deepest: u32) -> Result<u32, Memory>
    ensures deeper { IfOk result (λ n. IsDepth n (deepest + 1)) }
    ensures refused { IfErr result (λ _. max_nesting ≤ deepest) }
{
    if deepest >= MAX_NESTING {
        return Err(Memory);
    }
    Ok(deepest + 1)
}

/// How deep a value nests. What holds nothing has no depth, and no value is deeper than [`MAX_NESTING`].
pub fn depth_of(value: &Value) -> u32
    ensures depth { result ≡ depth (view value.now) }
    ensures limit { depth (view value.now) ≤ max_nesting }
{
    match value {
        Value::List(items) => items.depth(),
        Value::Hash(pairs) => pairs.depth(),
        Value::Kind(ptype) => ptype.depth(),
        _ => 0,
    }
}

/// How deep the deepest of these values nests.
pub(crate) fn depth_within(values: &[Value]) -> u32
    ensures { IsDepth result (deepest (views values.now)) }
{
    let mut deepest = 0;
    for value in values {
        deepest = deepest.max(depth_of(value));
    }
    deepest
}

/// How deep the deepest of these pairs' values nests. Keys have no depth.
pub(crate) fn depth_within_pairs(pairs: &[(Value, Value)]) -> u32
    ensures { IsDepth result (deepest_value (pair_views pairs.now)) }
{
    let mut deepest = 0;
    for (_, value) in pairs {
        deepest = deepest.max(depth_of(value));
    }
    deepest
}

/// How deep the deepest of these data types nests.
pub(crate) fn depth_within_types(types: &[PType]) -> u32
    ensures { result ≡ deepest_type (sorts types.now) }
{
    let mut deepest = 0;
    for ptype in types {
        deepest = deepest.max(depth_of_arguments(ptype) + 1);
    }
    deepest
}

/// How deep the data types among a data type's arguments nest.
pub(crate) fn depth_of_arguments(ptype: &PType) -> u32
    ensures { IsDepth result (arguments_depth (arguments_of (sort ptype.now))) }
{
    match ptype {
        PType::Array(members) => depth_of_members(members),
        PType::Hash(entries) => depth_of_entries(entries),
        PType::Optional(inner) | PType::NotUndef(inner) | PType::KindOf(inner) => depth_of_inner(
            inner,
        ),
        PType::Variant(types) | PType::Tuple(types) => types.depth(),
        _ => 0,
    }
}

fn depth_of_inner(inner: &Option<TypeBox>) -> u32
    ensures { IsDepth result (arguments_depth (type_argument inner.now)) }
{
    match inner {
        Some(inner) => inner.depth(),
        None => 0,
    }
}

fn depth_of_entries(entries: &Option<EntryType>) -> u32
    ensures { IsDepth result (arguments_depth (entry_arguments entries.now)) }
{
    match entries {
        Some(entries) => entries.key.depth().max(depth_of_members(&entries.value)),
        None => 0,
    }
}

fn depth_of_members(members: &Option<MemberType>) -> u32
    ensures { IsDepth result (arguments_depth (member_arguments members.now)) }
{
    match members {
        Some(members) => members.of.depth(),
        None => 0,
    }
}
