//! Collectors.

ghost use Rattle.pp_lexer.specs.declared.kind.Kind.TheVariants as k;
ghost use Rattle.pp_parser.specs.Input.{Reads, repeat_from, turns};
ghost use Rattle.pp_parser.specs.Levels.{within};
ghost use Rattle.pp_parser.specs.Nests.{Nests};
ghost use Rattle.pp_parser.specs.Statements as spec;

use crate::cursor::Cursor;
use crate::inset::{Inset, InsetTree};
use crate::refusal::Refusal;
use crate::rules::Rules;
use pp_lexer::Kind;
use pp_tree::{Attributes, Collector, Comparison, Conjunction, Operand, Query, Test};
use pp_values::{Boxed, Items, Text};
use std::alloc::Global;

impl<F: Fn(Global, &mut Cursor<'_>, usize, Inset) -> Result<InsetTree, Refusal>> Rules<F> {
    /// `==` or `!=`: whether it is `==`.
    #[tactic(auto, unfolding(crate::specs::Statements::compares))]
    fn compares(&self, tokens: &mut Cursor<'_>) -> Result<bool, Refusal>
        ensures { Reads (spec.compares (within self.now.levels) tokens.old) result tokens.new }
    {
        match tokens.peek() {
            Some(Kind::Equal) => {
                tokens.take()?;
                Ok(true)
            }
            Some(Kind::NotEqual) => {
                tokens.take()?;
                Ok(false)
            }
            _ => Err(tokens.refusal()),
        }
    }

    /// `word == value`
    #[tactic(auto, unfolding(crate::specs::Statements::comparison_rule))]
    fn comparison(&self, tokens: &mut Cursor<'_>) -> Result<Test, Refusal>
        requires { Nests self.now.levels (F.pre self.now.inner) (F.post self.now.inner) }
        ensures { Reads (spec.comparison_rule (within self.now.levels) tokens.old) result tokens.new }
    {
        let word = tokens.expect_word()?;
        let equal = self.compares(tokens)?;
        let value = self.value(tokens, false)?;
        Ok(Test::Compare(Comparison {
            word: word.text(self.alloc)?,
            equal,
            value,
            at: word.line(),
        }))
    }

    /// `( query )`
    #[tactic(auto, unfolding(crate::specs::Statements::query_in_parentheses))]
    fn query_in_parentheses(&self, tokens: &mut Cursor<'_>) -> Result<Test, Refusal>
        requires { Nests self.now.levels (F.pre self.now.inner) (F.post self.now.inner) }
        ensures { Reads (spec.query_in_parentheses (within self.now.levels) tokens.old) result tokens.new }
    {
        self.open(tokens, Kind::OpenParen)?;
        let query = self.query_in(tokens)?;
        tokens.expect(Kind::CloseParen)?;
        Ok(Test::Query(query))
    }

    /// A comparison, or a query in parentheses.
    #[tactic(auto, unfolding(crate::specs::Statements::test_rule))]
    fn test(&self, tokens: &mut Cursor<'_>) -> Result<Test, Refusal>
        requires { Nests self.now.levels (F.pre self.now.inner) (F.post self.now.inner) }
        ensures { Reads (spec.test_rule (within self.now.levels) tokens.old) result tokens.new }
    {
        match tokens.peek() {
            Some(Kind::OpenParen) => self.query_in_parentheses(tokens),
            _ => self.comparison(tokens),
        }
    }

    /// Tests with `and` before each, behind those that were found.
    #[tactic(auto, using(crate::proofs::Turns::repeat_turn, crate::proofs::Turns::repeat_none), unfolding(crate::specs::Statements::another, crate::specs::Statements::another_by))]
    fn tests_from(
        &self,
        tokens: &mut Cursor<'_>,
        mut found: Items<Test>,
    ) -> Result<Items<Test>, Refusal>
        requires { Nests self.now.levels (F.pre self.now.inner) (F.post self.now.inner) }
        ensures { Reads (repeat_from (spec.another (within self.now.levels) k.And (spec.test_rule (within self.now.levels))) (turns tokens.old) found tokens.old) result tokens.new }
    {
        for _turn in 0..tokens.turns() {
            if !tokens.eat(Kind::And)? {
                return Ok(found);
            }
            found.push(self.test(tokens)?)?;
        }
        Err(tokens.refusal())
    }

    /// Tests with `and` between them.
    #[tactic(auto, unfolding(crate::specs::Statements::conjunction_rule, crate::specs::Input::repeat))]
    fn conjunction(&self, tokens: &mut Cursor<'_>) -> Result<Conjunction, Refusal>
        requires { Nests self.now.levels (F.pre self.now.inner) (F.post self.now.inner) }
        ensures { Reads (spec.conjunction_rule (within self.now.levels) tokens.old) result tokens.new }
    {
        let first = self.test(tokens)?;
        let more = self.tests_from(tokens, Items::new(self.alloc))?;
        let mut tests = Items::new(self.alloc);
        tests.push(first)?;
        tests.append(more)?;
        Ok(Conjunction { tests })
    }

    /// Conjunctions with `or` before each, behind those that were found.
    #[tactic(auto, using(crate::proofs::Turns::repeat_turn, crate::proofs::Turns::repeat_none), unfolding(crate::specs::Statements::another, crate::specs::Statements::another_by))]
    fn conjunctions_from(
        &self,
        tokens: &mut Cursor<'_>,
        mut found: Items<Conjunction>,
    ) -> Result<Items<Conjunction>, Refusal>
        requires { Nests self.now.levels (F.pre self.now.inner) (F.post self.now.inner) }
        ensures { Reads (repeat_from (spec.another (within self.now.levels) k.Or (spec.conjunction_rule (within self.now.levels))) (turns tokens.old) found tokens.old) result tokens.new }
    {
        for _turn in 0..tokens.turns() {
            if !tokens.eat(Kind::Or)? {
                return Ok(found);
            }
            found.push(self.conjunction(tokens)?)?;
        }
        Err(tokens.refusal())
    }

    /// Conjunctions with `or` between them.
    #[tactic(auto, unfolding(crate::specs::Statements::query, crate::specs::Input::repeat))]
    pub fn query(&self, tokens: &mut Cursor<'_>) -> Result<Query, Refusal>
        requires { Nests self.now.levels (F.pre self.now.inner) (F.post self.now.inner) }
        ensures { Reads (spec.query (within self.now.levels) tokens.old) result tokens.new }
    {
        let first = self.conjunction(tokens)?;
        let more = self.conjunctions_from(tokens, Items::new(self.alloc))?;
        let mut conjunctions = Items::new(self.alloc);
        conjunctions.push(first)?;
        conjunctions.append(more)?;
        Ok(Query { conjunctions })
    }

    /// A query, or nothing before what closes the collector.
    #[tactic(auto, unfolding(crate::specs::Statements::optional_query, crate::specs::Input::sees))]
    fn optional_query(&self, tokens: &mut Cursor<'_>, close: Kind) -> Result<Option<Query>, Refusal>
        requires { Nests self.now.levels (F.pre self.now.inner) (F.post self.now.inner) }
        ensures { Reads (spec.optional_query (within self.now.levels) close tokens.old) result tokens.new }
    {
        if tokens.sees(close) {
            return Ok(None);
        }
        Ok(Some(self.query_in(tokens)?))
    }

    /// `{ attributes }` or nothing
    #[tactic(auto, unfolding(crate::specs::Statements::optional_settings))]
    fn optional_settings(&self, tokens: &mut Cursor<'_>) -> Result<Attributes, Refusal>
        requires { Nests self.now.levels (F.pre self.now.inner) (F.post self.now.inner) }
        ensures { Reads (spec.optional_settings (within self.now.levels) tokens.old) result tokens.new }
    {
        match tokens.peek() {
            Some(Kind::OpenBrace) => self.attributes(tokens, true),
            _ => Ok(Items::new(self.alloc)),
        }
    }

    /// Behind the kind: `<| query |> { attributes }`, or with `<<|` and `|>>`.
    #[tactic(auto, unfolding(crate::specs::Statements::collector))]
    pub fn collector(
        &self,
        tokens: &mut Cursor<'_>,
        exported: bool,
        opens: Kind,
        close: Kind,
        kind: Text,
        at: u32,
    ) -> Result<Operand, Refusal>
        requires { Nests self.now.levels (F.pre self.now.inner) (F.post self.now.inner) }
        ensures { Reads (spec.collector (within self.now.levels) exported opens close kind at tokens.old) result tokens.new }
    {
        self.open(tokens, opens)?;
        let query = self.optional_query(tokens, close)?;
        tokens.expect(close)?;
        let attributes = self.optional_settings(tokens)?;
        let collector = Collector {
            kind,
            exported,
            query,
            attributes,
            at,
        };
        Ok(Operand::Collector(Boxed::new(self.alloc, collector)?))
    }
}
