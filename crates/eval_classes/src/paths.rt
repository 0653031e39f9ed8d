//! The files of modules.
ghost use Rattle.std.specs.Prelude.{◌≡◌, ◌++◌, IfOk, OnOk, string_bytes};
ghost use Rattle.eval_classes.specs.Definitions as spec;
ghost use Rattle.res_core.specs.TagNames.{segments};

use pp_values::{Memory, Text};
use std::alloc::Global;

/// How many bytes a path has at most beside those of the name.
const BESIDE: usize = 26;

/// The path of the one file of a module that may define a class or define of this name.
pub fn module_path(alloc: Global, name: &Text) -> Result<Text, Memory>
    ensures { IfOk result (λ t. t ≡ spec.module_path name.now) }
{
    let name = name.as_str();
    let mut path = String::with_capacity(alloc, name.len().saturating_add(BESIDE))?;
    path.push_str("modules/")?;
    put_path(&mut path, name)?;
    Ok(Text::new(path))
}

fn put_path(path: &mut String, name: &str) -> Result<(), Memory>
    ensures { OnOk result (string_bytes path.new ≡ string_bytes path.old ++ spec.within_modules (segments name.now)) }
{
    match name.split_once("::") {
        None => put_first(path, name),
        Some((first, rest)) => put_further(path, first, rest),
    }
}

fn put_first(path: &mut String, first: &str) -> Result<(), Memory>
    ensures { OnOk result (string_bytes path.new ≡ string_bytes path.old ++ spec.init_of first.now) }
{
    path.push_str(first)?;
    path.push_str("/manifests/init.pp")?;
    Ok(())
}

fn put_further(path: &mut String, first: &str, rest: &str) -> Result<(), Memory>
    ensures { OnOk result (string_bytes path.new
        ≡ string_bytes path.old ++ spec.further_of first.now (segments rest.now)) }
{
    path.push_str(first)?;
    path.push_str("/manifests")?;
    put_below(path, rest)?;
    path.push_str(".pp")?;
    Ok(())
}

/// `/a/b` for `a::b`.
fn put_below(path: &mut String, name: &str) -> Result<(), Memory>
    ensures { OnOk result (string_bytes path.new ≡ string_bytes path.old ++ spec.below (segments name.now)) }
{
    let mut rest = name;
    while let Some((segment, after)) = rest.split_once("::") {
        put_segment(path, segment)?;
        rest = after;
    }
    put_segment(path, rest)
}

fn put_segment(path: &mut String, segment: &str) -> Result<(), Memory>
    ensures { OnOk result (string_bytes path.new ≡ string_bytes path.old ++ spec.step_to segment.now) }
{
    path.push_str("/")?;
    path.push_str(segment)?;
    Ok(())
}

/// The module of a name: what stands before its first `::`.
pub fn first_module(alloc: Global, name: &Text) -> Result<Text, Memory>
    ensures { IfOk result (λ t. t ≡ spec.first_segment (segments name.now)) }
{
    Text::from_str(alloc, first_segment(name.as_str()))
}

fn first_segment(name: &str) -> &str
    ensures { result.now ≡ spec.first_segment (segments name.now) }
{
    match name.split_once("::") {
        None => name,
        Some((first, _)) => first,
    }
}
