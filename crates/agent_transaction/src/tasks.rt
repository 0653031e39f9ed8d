//! What the turns of resources have to do.
ghost use Rattle.std.specs.Prelude.{◌≡◌, ◌++◌, [], Some, if◌then◌else◌, List, IsTrue, IfOk, map, option_map};
ghost use Rattle.pp_values.specs.Plain.{is_plain_value};
ghost use Rattle.pp_values.specs.Settings.{Setting};
ghost use Rattle.pp_values.specs.Views.{view};
ghost use Rattle.res_core.specs.AttributeViews.{set_in};
ghost use Rattle.res_core.specs.PlainAttributes.{are_plain};
ghost use Rattle.agent_machine.specs.States.{present, absent, removes};
ghost use Rattle.pp_ops.specs.Same.{same};
ghost use Rattle.res_core.specs.declared.native_type.NativeType.TheVariants as native;
ghost use Rattle.agent_transaction.specs.Tasks.{is_true, from_here, looked_at, ensure, file_at, run_unless, work_of, is_refreshed, task_of, task_in};

use crate::task::Task;
use crate::want::Want;
use crate::wants::Wants;
use crate::work::Work;
use pp_values::{Kind, Memory, Reference, Text, Value, copy};
use res_core::{Attributes, NativeType, Resource, native};
use std::alloc::Global;

fn is_flag(value: &Value) -> bool
    ensures { result ≡ is_true (Some (view value.now)) }
{
    match value {
        Value::Flag(flag) => *flag,
        _ => false,
    }
}

/// Whether this attribute is set to true.
fn is_set(alloc: Global, attributes: &Attributes, name: &str) -> Result<bool, Memory>
    ensures { IfOk result (λ b. b ≡ is_true (set_in attributes.now name.now)) }
{
    let name = Text::from_str(alloc, name)?;
    match attributes.get(&name) {
        Some(value) => Ok(is_flag(value)),
        None => Ok(false),
    }
}

/// Whether a write of this value removes what is recorded.
fn removes(name: &Text, value: &Value) -> bool
    ensures { result ≡ removes name.now (view value.now) }
{
    name.is("ensure") && is_absent(value)
}

fn is_absent(value: &Value) -> bool
    ensures { result ≡ same (view value.now) absent }
{
    match value {
        Value::Text(text) => text.is("absent"),
        _ => false,
    }
}

/// Puts a property that is wanted at the end. Answers whether it is the last one.
fn put_want(alloc: Global, name: Text, value: &Value, wants: &mut Vec<Want>) -> Result<bool, Memory>
    requires { IsTrue (is_plain_value (view value.now)) }
    ensures { IfOk result (λ last. (rest : List Setting) → wants.old.items ++ from_here name (Some (view value.now)) rest
        ≡ wants.new.items ++ (if last then [] else rest)) }
{
    let last = removes(&name, value);
    let value = copy(alloc, value)?;
    wants.push(Want::new(alloc, name, value)?)?;
    Ok(last)
}

/// Puts a property at the end, if it is set. Answers whether it is the last one.
fn put_property(
    alloc: Global,
    name: &str,
    attributes: &Attributes,
    wants: &mut Vec<Want>,
) -> Result<bool, Memory>
    requires { IsTrue (are_plain attributes.now) }
    ensures { IfOk result (λ last. (rest : List Setting) → wants.old.items ++ from_here name.now (set_in attributes.now name.now) rest
        ≡ wants.new.items ++ (if last then [] else rest)) }
{
    let name = Text::from_str(alloc, name)?;
    match attributes.get(&name) {
        Some(value) => put_want(alloc, name, value, wants),
        None => Ok(false),
    }
}

fn looked_at(alloc: Global, names: &[&str], attributes: &Attributes) -> Result<Wants, Memory>
    requires { IsTrue (are_plain attributes.now) }
    ensures { IfOk result (λ w. w ≡ looked_at (map (λ n. n.now) names.now) attributes.now) }
{
    let mut wants = Vec::new(alloc);
    let mut left = names;
    while let [name, after @ ..] = left {
        if put_property(alloc, name, attributes, &mut wants)? {
            return Ok(Wants::from_vec(wants));
        }
        left = after;
    }
    Ok(Wants::from_vec(wants))
}

fn file_at(alloc: Global, path: &Text) -> Result<Reference, Memory>
    ensures { IfOk result (λ r. r ≡ file_at path.now) }
{
    Ok(Reference {
        kind: Kind::from_str(alloc, "file")?,
        title: path.copy(alloc)?,
    })
}

fn presence(alloc: Global) -> Result<Want, Memory>
    ensures { IfOk result (λ w. w ≡ (ensure, present)) }
{
    let name = Text::from_str(alloc, "ensure")?;
    let value = Value::Text(Text::from_str(alloc, "present")?);
    Want::new(alloc, name, value)
}

fn run_without(alloc: Global, creates: &Value) -> Result<Work, Memory>
    ensures { IfOk result (λ w. w ≡ run_unless (Some (view creates.now))) }
{
    match creates {
        Value::Text(path) => {
            let file = file_at(alloc, path)?;
            let want = presence(alloc)?;
            Ok(Work::RunUnless(file, want))
        }
        _ => Ok(Work::Run),
    }
}

fn exec_work(alloc: Global, attributes: &Attributes) -> Result<Work, Memory>
    ensures { IfOk result (λ w. w ≡ work_of native.Exec attributes.now) }
{
    if is_set(alloc, attributes, "refreshonly")? {
        return Ok(Work::Idle);
    }
    let name = Text::from_str(alloc, "creates")?;
    match attributes.get(&name) {
        Some(value) => run_without(alloc, value),
        None => Ok(Work::Run),
    }
}

fn work_of(alloc: Global, kind: NativeType, attributes: &Attributes) -> Result<Work, Memory>
    requires { IsTrue (are_plain attributes.now) }
    ensures { IfOk result (λ w. w ≡ work_of kind attributes.now) }
{
    match kind {
        NativeType::Exec => exec_work(alloc, attributes),
        NativeType::Notify => Ok(Work::Run),
        _ => Ok(Work::Set(looked_at(alloc, kind.row().properties, attributes)?)),
    }
}

fn is_refreshed(kind: NativeType) -> bool
    ensures { result ≡ is_refreshed kind }
{
    match kind {
        NativeType::Service => true,
        NativeType::Exec => true,
        _ => false,
    }
}

fn task_of(alloc: Global, kind: NativeType, resource: &Resource) -> Result<Task, Memory>
    requires { IsTrue (are_plain resource.now.attributes) }
    ensures { IfOk result (λ t. t ≡ task_of kind resource.now) }
{
    let what = Reference {
        kind: resource.kind.copy(alloc)?,
        title: resource.title.copy(alloc)?,
    };
    let noop = is_set(alloc, &resource.attributes, "noop")?;
    let work = work_of(alloc, kind, &resource.attributes)?;
    Ok(Task {
        what,
        noop,
        refreshes: is_refreshed(kind) && !noop,
        work,
    })
}

/// What the turn of a resource has to do, where it is of a native type.
pub fn task_in(alloc: Global, resource: &Resource) -> Result<Option<Task>, Memory>
    requires { IsTrue (are_plain resource.now.attributes) }
    ensures { IfOk result (λ o. o ≡ task_in resource.now) }
{
    match native(resource.kind.as_text()) {
        Some(kind) => Ok(Some(task_of(alloc, kind, resource)?)),
        None => Ok(None),
    }
}
