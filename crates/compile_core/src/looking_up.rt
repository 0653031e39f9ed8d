//! What the data of a site have for a key, asked from outside of any manifest.
ghost use Rattle.std.specs.Prelude.{◌≡◌, IfOk};
ghost use Rattle.compile_core.specs.LookUp as spec;
ghost use Rattle.pp_ops.specs.Said.{said};
ghost use Rattle.pp_values.specs.Answers.{Answers};
ghost use Rattle.pp_values.specs.Faults.{fault};
ghost use Rattle.pp_values.specs.declared.fault.What.TheVariants.{LookupMissing};

use class_eval::top_scopes;
use hiera_config::SiteData;
use hiera_lookup::lookup;
use hiera_merge::Merge;
use pp_values::{Fault, Memory, Pairs, Place, Stop, Text, Value, What};
use scope_core::{ScopeId, Scopes};
use site_bundle::{Site, data_of};
use std::alloc::Global;

/// The value that the site's data have for a key, with the variables of the node's top scope, by the merge, or else by
/// the one that `lookup_options` gives for the key.
///
/// A node that the site does not list has no facts. Manifests are not asked: a faulty one does no harm. A fault stands
/// at line 1 of `lookup`.
#[tactic(auto, unfolding(crate::specs::LookUp::look_up))]
pub fn look_up(
    alloc: Global,
    site: &Site,
    node: &Text,
    key: &Text,
    merge: Option<Merge>,
) -> Result<Value, Stop>
    ensures { Answers (said result) (spec.look_up site.now node.now key.now merge) }
{
    let scopes = node_scopes(alloc, site, node)?;
    let at = lookup_place(alloc)?;
    value_of_key(alloc, data_of(site), &scopes, key, merge, &at)
}

/// Top scope as it is for the node before evaluation.
fn node_scopes(alloc: Global, site: &Site, node: &Text) -> Result<Scopes, Memory>
    ensures { IfOk result (λ s. s ≡ spec.node_scopes site.now node.now) }
{
    match site.facts_of(node) {
        Some(facts) => top_scopes(alloc, node, facts),
        None => top_scopes(alloc, node, &Value::Hash(Pairs::new(alloc))),
    }
}

/// Where the faults of a look-up stand that no manifest asks for.
fn lookup_place(alloc: Global) -> Result<Place, Memory>
    ensures { IfOk result (λ p. p ≡ spec.lookup_place) }
{
    Ok(Place {
        file: Text::from_str(alloc, "lookup")?,
        line: 1,
    })
}

/// The value that the data have for a key, with the variables of top scope; a fault stands at the place.
#[tactic(auto, using(crate::proofs::Finding::has, crate::proofs::Finding::lacks, crate::proofs::Finding::refused))]
fn value_of_key(
    alloc: Global,
    site_data: &SiteData,
    scopes: &Scopes,
    key: &Text,
    merge: Option<Merge>,
    at: &Place,
) -> Result<Value, Stop>
    ensures { Answers (said result) (spec.found site_data.now scopes.now key.now merge at.now) }
{
    match lookup(alloc, site_data, scopes, ScopeId::TOP, key, merge, at) {
        Ok(Some(value)) => Ok(value),
        Ok(None) => Err(Stop::Fault(missing(alloc, at, key)?)),
        Err(stop) => Err(stop),
    }
}

fn missing(alloc: Global, at: &Place, key: &Text) -> Result<Fault, Memory>
    ensures { IfOk result (λ f. f ≡ fault at.now (LookupMissing key.now)) }
{
    let what = What::LookupMissing(key.copy(alloc)?);
    let at = at.copy(alloc)?;
    Fault::new(alloc, at, what)
}
