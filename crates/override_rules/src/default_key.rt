//! What a default statement's line is found by.
ghost use Rattle.std.specs.Ordering.{as_partial_cmp};
ghost use Rattle.std.specs.Cmp.{partial_equiv_from_equiv, po};
ghost use Rattle.std.specs.Prelude.{◌≡◌, refl};
ghost use Rattle.std_collections.specs.BTreeMap.Comparable.{le_lt_trans};
ghost use Rattle.override_rules.specs.Keys.{key_cmp, key_total, same_key, same_key_equiv, key_ties};

use pp_values::{Kind, Text};
use std::cmp::Ordering;
use std_collections::btree_map::Comparable;

/// The kind that a default is for, the scope that has it, and the attribute's name.
#[derive(Drop)]
pub struct DefaultKey {
    pub kind: Kind,
    pub scope: u64,
    pub name: Text,
}

impl PartialEq for DefaultKey {
    ghost eq = { same_key };

    ghost laws = { partial_equiv_from_equiv same_key_equiv };

    fn eq(&self, other: &DefaultKey) -> bool {
        self.kind == other.kind && self.scope == other.scope && self.name == other.name
    }
}

impl Eq for DefaultKey {
    ghost laws = { same_key_equiv };
}

impl PartialOrd for DefaultKey {
    ghost partial_cmp = { as_partial_cmp key_cmp };

    ghost laws = { po key_total key_ties };

    fn partial_cmp(&self, other: &DefaultKey) -> Option<Ordering> {
        Some(self.cmp(other))
    }
}

impl Ord for DefaultKey {
    ghost cmp = { key_cmp };

    ghost total = { key_total };

    ghost matches_partial_cmp = { λ x y. refl };

    ghost matches_eq = { key_ties };

    fn cmp(&self, other: &DefaultKey) -> Ordering {
        compare(&self.kind, self.scope, &self.name, other)
    }
}

fn compare(kind: &Kind, scope: u64, name: &Text, key: &DefaultKey) -> Ordering
    ensures { result ≡ key_cmp (record { kind = kind.now; scope = scope; name = name.now }) key.now }
{
    let by_kind = kind.as_text().compare(key.kind.as_text());
    let by_scope = scope.cmp(&key.scope);
    by_kind.then(by_scope.then(name.compare(&key.name)))
}

/// What a default is looked up by.
#[derive(Clone, Copy)]
pub struct WantedDefault<'a> {
    pub kind: &'a Kind,
    pub scope: u64,
    pub name: &'a Text,
}

impl<'a> Comparable<DefaultKey> for WantedDefault<'a> {
    ghost compare = { λ q k. key_cmp (record { kind = q.kind.now; scope = q.scope; name = q.name.now }) k };

    ghost respects_cmp = { λ q x y. key_total.congr _ x y };

    ghost below_greater = { λ q x y. le_lt_trans key_total _ x y };

    fn compare(&self, key: &DefaultKey) -> Ordering {
        compare(self.kind, self.scope, self.name, key)
    }
}
