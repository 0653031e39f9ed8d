//! Names of classes and defines, and of their parameters.
ghost use Rattle.std.specs.Prelude.{◌≡◌, IfOk, IsTrue};
ghost use Rattle.eval_classes.specs.Definitions as spec;
ghost use Rattle.eval_classes.specs.Listing as listing;
ghost use Rattle.pp_tree.specs.Names.{normal};

use pp_tree::{Class, DefinitionName, Param};
use pp_values::{Kind, Memory, Reference, Text, Texts, is_kind};
use std::alloc::Global;

/// The name of a class, a define or a kind: without a leading `::`, its ASCII letters in lower case.
pub fn normal_name(alloc: Global, written: &Text) -> Result<Text, Memory>
    ensures { IfOk result (λ name. name ≡ normal written.now) }
{
    if is_plain(written.as_str()) {
        return written.copy(alloc);
    }
    made_normal(alloc, written)
}

/// Whether a name is written as it is looked up, as nearly all are.
#[tactic(auto, using(crate::proofs::PlainNames::plain_is_normal))]
fn is_plain(written: &str) -> bool
    ensures { IsTrue result → (normal written.now ≡ written.now) }
{
    match written.strip_prefix("::") {
        Some(_) => false,
        None => is_kind(written),
    }
}

fn made_normal(alloc: Global, written: &Text) -> Result<Text, Memory>
    ensures { IfOk result (λ name. name ≡ normal written.now) }
{
    match DefinitionName::code(alloc, written)? {
        DefinitionName::Code(name) => Ok(name),
        DefinitionName::Function(_) | DefinitionName::Node(_) => written.copy(alloc),
    }
}

pub fn class_name(alloc: Global, class: &Class) -> Result<Text, Memory>
    ensures { IfOk result (λ name. name ≡ spec.class_name class.now) }
{
    normal_name(alloc, &class.name.text)
}

/// The source of what the class of this name declares.
pub fn class_source(alloc: Global, name: &Text) -> Result<Text, Memory>
    ensures { IfOk result (λ source. source ≡ spec.class_source name.now) }
{
    let mut source = String::from_str(alloc, "class ")?;
    source.push_str(name.as_str())?;
    Ok(Text::new(source))
}

/// The reference to the class of this name.
pub fn class_reference(alloc: Global, name: &Text) -> Result<Reference, Memory>
    ensures { IfOk result (λ r. r ≡ listing.class_reference name.now) }
{
    Ok(Reference {
        kind: Kind::from_str(alloc, "class")?,
        title: name.copy(alloc)?,
    })
}

/// The names of parameters, in their order.
pub fn param_names(alloc: Global, params: &[Param]) -> Result<Texts, Memory>
    ensures { IfOk result (λ names. names ≡ spec.param_names params.now) }
{
    let mut names = Vec::with_capacity(alloc, params.len())?;
    for param in params {
        names.push(param.name.copy(alloc)?)?;
    }
    Ok(Texts::from_vec(names))
}
