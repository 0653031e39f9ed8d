//! Which kinds may be declared.
ghost use Rattle.std.specs.Prelude.{◌≡◌, IfOk};
ghost use Rattle.eval_resources.specs.Checks as spec;
ghost use Rattle.pp_values.specs.Answers.{Answers};
ghost use Rattle.res_core.specs.NativeTypes.{row};

use crate::known_kind::KnownKind;
use eval_classes::{define_found, param_names, unknown_type};
use eval_world::Environment;
use pp_tree::Param;
use pp_values::{Kind, Memory, Place, Stop, Text};
use res_core::{KnownNames, NativeType, native};
use std::alloc::Global;

/// A native type or a define of the site, by its name in lower case without a leading `::`. Else it is F5.
#[tactic(auto, unfolding(crate::specs::Checks::kind_checked))]
pub fn check_kind(
    alloc: Global,
    environment: &Environment<'_>,
    kind: &Text,
    at: &Place,
) -> Result<KnownKind, Stop>
    ensures { Answers result (spec.kind_checked environment.now kind.now at.now) }
{
    match native(kind) {
        Some(native) => Ok(native_kind(alloc, native)?),
        None => check_define(alloc, environment, kind, at),
    }
}

fn native_kind(alloc: Global, native: NativeType) -> Result<KnownKind, Memory>
    ensures { IfOk result (λ k. k ≡ spec.native_kind native) }
{
    let kind = kind_of(alloc, native)?;
    let known = KnownNames::of_native(native);
    Ok(KnownKind { kind, known })
}

fn check_define(
    alloc: Global,
    environment: &Environment<'_>,
    kind: &Text,
    at: &Place,
) -> Result<KnownKind, Stop>
    ensures { Answers result (spec.define_checked environment.now kind.now at.now) }
{
    let define = define_found(alloc, environment, kind, at)?;
    define_kind(alloc, kind, at, define.params.as_slice())
}

fn define_kind(alloc: Global, kind: &Text, at: &Place, params: &[Param]) -> Result<KnownKind, Stop>
    ensures { Answers result (spec.define_kind kind.now at.now params.now) }
{
    match Kind::from_text(kind.copy(alloc)?) {
        Some(kind) => Ok(with_params(alloc, kind, params)?),
        None => Err(Stop::Fault(unknown_type(alloc, kind, at)?)),
    }
}

fn with_params(alloc: Global, kind: Kind, params: &[Param]) -> Result<KnownKind, Memory>
    ensures { IfOk result (λ k. k ≡ spec.with_params kind params.now) }
{
    let known = KnownNames::listed(param_names(alloc, params)?);
    Ok(KnownKind { kind, known })
}

/// The kind of a native type.
#[tactic(auto, using(crate::proofs::NativeKinds::kind_seen))]
pub fn kind_of(alloc: Global, native: NativeType) -> Result<Kind, Memory>
    ensures { IfOk result (λ k. k ≡ (row native).kind) }
{
    Kind::from_str(alloc, native.row().kind)
}
