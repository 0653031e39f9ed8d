ghost use Rattle.std.specs.Prelude.{◌≡◌, [], ◌∷◌, ◌++◌, ◌↔◌, length, is_ok, if◌then◌else◌, IfOk, IsTrue};
ghost use Rattle.res_core.specs.QueryViews.{criterion, criteria};

use pp_values::{Memory, Text, Value};
use std::alloc::Global;
use std::marker::Model;

/// What a collector asks for, with its values evaluated: `tag == 'a' and title != 'x'`.
#[cycle(query)]
pub enum Query {
    /// The empty query of `File <| |>`.
    All,
    /// `title == 'x'`
    Title(Value),
    /// `tag == 'a'`
    Tag(Value),
    /// `mode == '0644'`
    Attribute(Text, Value),
    /// What `!=` asks for: `mode != '0644'`.
    Not(QueryBox),
    /// Queries with `and` between them.
    And(Queries),
    /// Queries with `or` between them.
    Or(Queries),
}

// By hand, so that no crate above proves the drops of values and of queries again.
impl Drop for Query {
    #[cycle(dropping)]
    fn drop(self) {
        match self {
            Query::All => {}
            Query::Title(_value) => {}
            Query::Tag(_value) => {}
            Query::Attribute(_name, _value) => {}
            Query::Not(_query) => {}
            Query::And(_queries) => {}
            Query::Or(_queries) => {}
        }
    }
}

/// A query within another one. A contract sees what it asks for.
#[cycle(query)]
#[derive(Drop)]
pub struct QueryBox {
    inner: Box<Query>,
}

impl Model for QueryBox {
    ghost use Rattle.res_core.specs.Criteria.{Criterion, criterion_size};
    ghost use Rattle.res_core.specs.CriteriaCodes.{coded_criterion};

    ghost Value = { Criterion };

    ghost coded = { coded_criterion };

    ghost use Rattle.res_core.specs.QueryViews.{criterion};

    ghost view = { λ b. criterion b.inner.value };

    ghost size = { criterion_size };

    ghost use Rattle.std.proofs.Common.{arith};
    ghost use Rattle.res_core.specs.QueryFalls.{deep_le-criterion_size};

    ghost size_decreases = { λ b h. omega (arith, deep_le-criterion_size b.inner.value) };
}

impl QueryBox {
    pub fn new(alloc: Global, inner: Query) -> Result<QueryBox, Memory>
        ensures { IfOk result (λ b. b ≡ criterion inner) }
    {
        Ok(QueryBox {
            inner: Box::new(alloc, inner)?,
        })
    }

    pub fn as_query(&self) -> &Query
        ensures { criterion result.now ≡ self.now }
    {
        &self.inner
    }
}

/// A list of queries. A contract sees what each of them asks for.
#[cycle(query)]
pub struct Queries {
    items: Vec<Query>,
}

// By hand for the same reason.
impl Drop for Queries {
    #[cycle(dropping)]
    fn drop(self) {
        let Queries { items: _items } = self;
    }
}

impl Model for Queries {
    ghost use Rattle.std.specs.Prelude.{List};
    ghost use Rattle.res_core.specs.Criteria.{Criterion, criterion_list_size};
    ghost use Rattle.res_core.specs.CriteriaCodes.{coded_criteria};

    ghost Value = { List Criterion };

    ghost coded = { coded_criteria };

    ghost use Rattle.res_core.specs.QueryViews.{criteria};

    ghost view = { λ l. criteria l.items.items };

    ghost size = { criterion_list_size };

    ghost use Rattle.res_core.specs.QueryFalls.{queries_fall};

    ghost size_decreases = { λ l h. queries_fall l.items.items };
}

impl Queries {
    pub fn new(alloc: Global) -> Queries
        ensures { result ≡ [] }
    {
        Queries {
            items: Vec::new(alloc),
        }
    }

    pub fn from_vec(items: Vec<Query>) -> Queries
        ensures { result ≡ criteria items.items }
    {
        Queries { items }
    }

    pub fn len(&self) -> usize
        ensures { result ≡ length self.now }
    {
        self.items.len()
    }

    pub fn is_empty(&self) -> bool
        ensures { IsTrue result ↔ (self.now ≡ []) }
    {
        self.items.is_empty()
    }

    pub fn as_slice(&self) -> &[Query]
        ensures { criteria result.now ≡ self.now }
    {
        self.items.as_slice()
    }

    /// Appends a query. Where there is no memory, the list stays as it was.
    pub fn push(&mut self, item: Query) -> Result<(), Memory>
        ensures { self.new ≡ (if is_ok result then self.old ++ criterion item ∷ [] else self.old) }
    {
        self.items.push(item)?;
        Ok(())
    }
}
