//! References as keys of an ordered map.
ghost use Rattle.std.specs.Ordering.{on, as_partial_cmp};
ghost use Rattle.std.specs.Cmp.{partial_equiv_from_equiv, on_equiv, on_total, po};
ghost use Rattle.std.specs.Prelude.{◌≡◌, refl};
ghost use Rattle.std_collections.specs.BTreeMap.Comparable.{le_lt_trans};
ghost use Rattle.std.specs.Ordering.{nat_cmp};
ghost use Rattle.pp_values.specs.References.{same_reference, same_reference_equiv};
ghost use Rattle.override_rules.specs.Targets.{reference_cmp, reference_total, same_by_cmp};

use pp_values::{Kind, Reference, Text};
use std::cmp::Ordering;
use std_collections::btree_map::Comparable;

/// The resource that lines are on.
#[derive(Drop)]
pub struct Target {
    pub reference: Reference,
}

impl PartialEq for Target {
    ghost eq = { on (λ t. t.reference) same_reference };

    ghost laws = { partial_equiv_from_equiv (on_equiv (λ t. t.reference) same_reference_equiv) };

    fn eq(&self, other: &Target) -> bool {
        self.reference == other.reference
    }
}

impl Eq for Target {
    ghost laws = { on_equiv (λ t. t.reference) same_reference_equiv };
}

impl PartialOrd for Target {
    ghost partial_cmp = { as_partial_cmp (on (λ t. t.reference) reference_cmp) };

    ghost laws = { po (on_total (λ t. t.reference) reference_total) (λ x y. same_by_cmp x.reference y.reference) };

    fn partial_cmp(&self, other: &Target) -> Option<Ordering> {
        Some(self.cmp(other))
    }
}

impl Ord for Target {
    ghost cmp = { on (λ t. t.reference) reference_cmp };

    ghost total = { on_total (λ t. t.reference) reference_total };

    ghost matches_partial_cmp = { λ x y. refl };

    ghost matches_eq = { λ x y. same_by_cmp x.reference y.reference };

    fn cmp(&self, other: &Target) -> Ordering {
        compare(&self.reference.kind, &self.reference.title, other)
    }
}

fn compare(kind: &Kind, title: &Text, target: &Target) -> Ordering
    ensures { result ≡ reference_cmp (record { kind = kind.now; title = title.now }) target.now.reference }
{
    let by_kind = kind.as_text().compare(target.reference.kind.as_text());
    by_kind.then(title.compare(&target.reference.title))
}

/// What a resource is looked up by.
#[derive(Clone, Copy)]
pub struct Wanted<'a> {
    pub kind: &'a Kind,
    pub title: &'a Text,
}

impl<'a> Comparable<Target> for Wanted<'a> {
    ghost compare = { λ q t. reference_cmp (record { kind = q.kind.now; title = q.title.now }) t.reference };

    ghost respects_cmp = { λ q x y. reference_total.congr _ x.reference y.reference };

    ghost below_greater = { λ q x y. le_lt_trans reference_total _ x.reference y.reference };

    fn compare(&self, key: &Target) -> Ordering {
        compare(self.kind, self.title, key)
    }
}
