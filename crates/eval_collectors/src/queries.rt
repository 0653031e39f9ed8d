//! Queries of collectors.
ghost use Rattle.std.specs.Prelude.{◌≡◌, [], IfOk};
ghost use Rattle.eval_collectors.specs.Queries as spec;
ghost use Rattle.eval_world.specs.Nests.{Nests};
ghost use Rattle.eval_world.specs.Outcomes.{Gives, same};
ghost use Rattle.res_core.specs.QueryViews.{criterion};

use eval_world::{Evaluated, Forms, Goal, Here, Meaning, World};
use pp_tree::{Comparison, Conjunction, Expr, Query as Written, Test};
use pp_values::{Memory, Stop, Text, What};
use res_core::{Queries, Query, QueryBox};
use std::alloc::Global;

/// What a query asks for that stands in a collector of this line, with its values evaluated. So many queries may stand
/// within one another.
#[cycle(asking)]
#[tactic(auto, unfolding(crate::specs::Queries::query_within), using(crate::proofs::Levels::level_left))]
pub fn query<F: Fn(&mut World<'_>, Goal<'_>, Here, u32) -> Result<Evaluated, Stop>, M: Meaning>(
    forms: &Forms<F, M>,
    world: &mut World<'_>,
    levels: u32,
    written: &Written,
    line: u32,
    here: Here,
) -> Result<Query, Stop>
    requires { Nests (M.within forms.now.left) forms.now.left (F.pre forms.now.inner) (F.post forms.now.inner) }
    ensures { Gives criterion
        (spec.query_within levels (M.within forms.now.left) line written.now here world.old) result world.new }
{
    if levels == 0 {
        return Err(Stop::Fault(world.fault(here, line, What::DepthLimit)?));
    }
    some_of(
        forms,
        world,
        levels - 1,
        written.conjunctions.as_slice(),
        line,
        here,
    )
}

/// Conjunctions with `or` between them, or one alone.
#[cycle(asking)]
fn some_of<F: Fn(&mut World<'_>, Goal<'_>, Here, u32) -> Result<Evaluated, Stop>, M: Meaning>(
    forms: &Forms<F, M>,
    world: &mut World<'_>,
    levels: u32,
    conjunctions: &[Conjunction],
    line: u32,
    here: Here,
) -> Result<Query, Stop>
    requires { Nests (M.within forms.now.left) forms.now.left (F.pre forms.now.inner) (F.post forms.now.inner) }
    ensures { Gives criterion
        (spec.some_of (M.within forms.now.left) (spec.query_within levels (M.within forms.now.left) line)
        conjunctions.now here world.old) result world.new }
{
    match conjunctions {
        [one] => all_of(forms, world, levels, one.tests.as_slice(), line, here),
        several => {
            let queries = each_of(forms, world, levels, several, line, here)?;
            Ok(Query::Or(queries))
        }
    }
}

/// What each of these conjunctions asks for.
#[cycle(asking)]
#[tactic(auto, unfolding(crate::specs::Queries::conjunctions_from))]
fn each_of<F: Fn(&mut World<'_>, Goal<'_>, Here, u32) -> Result<Evaluated, Stop>, M: Meaning>(
    forms: &Forms<F, M>,
    world: &mut World<'_>,
    levels: u32,
    conjunctions: &[Conjunction],
    line: u32,
    here: Here,
) -> Result<Queries, Stop>
    requires { Nests (M.within forms.now.left) forms.now.left (F.pre forms.now.inner) (F.post forms.now.inner) }
    ensures { Gives same
        (spec.conjunctions_from (M.within forms.now.left) (spec.query_within levels (M.within forms.now.left) line) []
        conjunctions.now here world.old) result world.new }
{
    let mut done = Queries::new(world.heap.alloc());
    let mut rest = conjunctions;
    while let Some((next, more)) = rest.split_first() {
        done.push(all_of(forms, world, levels, next.tests.as_slice(), line, here)?)?;
        rest = more;
    }
    Ok(done)
}

/// Tests with `and` between them, or one alone.
#[cycle(asking)]
fn all_of<F: Fn(&mut World<'_>, Goal<'_>, Here, u32) -> Result<Evaluated, Stop>, M: Meaning>(
    forms: &Forms<F, M>,
    world: &mut World<'_>,
    levels: u32,
    tests: &[Test],
    line: u32,
    here: Here,
) -> Result<Query, Stop>
    requires { Nests (M.within forms.now.left) forms.now.left (F.pre forms.now.inner) (F.post forms.now.inner) }
    ensures { Gives criterion
        (spec.all_of (M.within forms.now.left) (spec.query_within levels (M.within forms.now.left) line) tests.now here
        world.old) result world.new }
{
    match tests {
        [one] => test(forms, world, levels, one, line, here),
        several => {
            let queries = each_test(forms, world, levels, several, line, here)?;
            Ok(Query::And(queries))
        }
    }
}

/// What each of these tests asks for.
#[cycle(asking)]
#[tactic(auto, unfolding(crate::specs::Queries::tests_from))]
fn each_test<F: Fn(&mut World<'_>, Goal<'_>, Here, u32) -> Result<Evaluated, Stop>, M: Meaning>(
    forms: &Forms<F, M>,
    world: &mut World<'_>,
    levels: u32,
    tests: &[Test],
    line: u32,
    here: Here,
) -> Result<Queries, Stop>
    requires { Nests (M.within forms.now.left) forms.now.left (F.pre forms.now.inner) (F.post forms.now.inner) }
    ensures { Gives same
        (spec.tests_from (M.within forms.now.left) (spec.query_within levels (M.within forms.now.left) line) []
        tests.now here world.old) result world.new }
{
    let mut done = Queries::new(world.heap.alloc());
    let mut rest = tests;
    while let Some((next, more)) = rest.split_first() {
        done.push(test(forms, world, levels, next, line, here)?)?;
        rest = more;
    }
    Ok(done)
}

/// A comparison, or a query in parentheses.
#[cycle(asking)]
#[tactic(auto, unfolding(crate::specs::Queries::test_rule))]
fn test<F: Fn(&mut World<'_>, Goal<'_>, Here, u32) -> Result<Evaluated, Stop>, M: Meaning>(
    forms: &Forms<F, M>,
    world: &mut World<'_>,
    levels: u32,
    written: &Test,
    line: u32,
    here: Here,
) -> Result<Query, Stop>
    requires { Nests (M.within forms.now.left) forms.now.left (F.pre forms.now.inner) (F.post forms.now.inner) }
    ensures { Gives criterion
        (spec.test_rule (M.within forms.now.left) (spec.query_within levels (M.within forms.now.left) line)
        written.now here world.old) result world.new }
{
    match written {
        Test::Compare(comparison) => compare(forms, world, comparison, here),
        Test::Query(within) => query(forms, world, levels, within, line, here),
    }
}

/// `tag == 'a'`, or `tag != 'a'`.
#[tactic(auto, unfolding(crate::specs::Queries::compare_rule))]
fn compare<F: Fn(&mut World<'_>, Goal<'_>, Here, u32) -> Result<Evaluated, Stop>, M: Meaning>(
    forms: &Forms<F, M>,
    world: &mut World<'_>,
    comparison: &Comparison<Expr>,
    here: Here,
) -> Result<Query, Stop>
    requires { Nests (M.within forms.now.left) forms.now.left (F.pre forms.now.inner) (F.post forms.now.inner) }
    ensures { Gives criterion
        (spec.compare_rule (M.within forms.now.left) comparison.now here world.old) result world.new }
{
    let value = forms.value(world, &comparison.value, here)?;
    Ok(compared(world.heap.alloc(), comparison, value)?)
}

fn compared(alloc: Global, comparison: &Comparison<Expr>, value: Evaluated) -> Result<Query, Memory>
    ensures { IfOk result (λ q. criterion q
        ≡ spec.compared comparison.now.equal (spec.equal_to comparison.now.word value)) }
{
    let equal = equal_to(alloc, &comparison.word, value)?;
    if comparison.equal {
        return Ok(equal);
    }
    Ok(Query::Not(QueryBox::new(alloc, equal)?))
}

fn equal_to(alloc: Global, word: &Text, value: Evaluated) -> Result<Query, Memory>
    ensures { IfOk result (λ q. criterion q ≡ spec.equal_to word.now value) }
{
    if word.is("title") {
        return Ok(Query::Title(value.into_value()));
    }
    if word.is("tag") {
        return Ok(Query::Tag(value.into_value()));
    }
    let name = word.copy(alloc)?;
    Ok(Query::Attribute(name, value.into_value()))
}
