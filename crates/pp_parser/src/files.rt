//! Main manifests and module files.

ghost use Rattle.pp_parser.specs.Definitions as spec;
ghost use Rattle.pp_parser.specs.Input.{Reads};
ghost use Rattle.pp_parser.specs.Levels.{within};
ghost use Rattle.pp_parser.specs.Nests.{Nests};
ghost use Rattle.std.specs.Prelude.{◌≡◌, None};

use crate::cursor::Cursor;
use crate::found::Found;
use crate::inset::{Inset, InsetTree};
use crate::item::Item;
use crate::operands::taken_name;
use crate::refusal::Refusal;
use crate::rules::Rules;
use pp_lexer::Kind;
use pp_tree::{Definition, Name, ResourceForm};
use std::alloc::Global;

/// Whether a file ends here.
pub fn ends_file(pending: &Option<Name>, next: Option<Kind>) -> bool
    ensures { result ≡ spec.ends_file pending.now next }
{
    match (pending, next) {
        (None, None) => true,
        _ => false,
    }
}

impl<F: Fn(Global, &mut Cursor<'_>, usize, Inset) -> Result<InsetTree, Refusal>> Rules<F> {
    /// Behind the word `class`: its braces, and the chain that begins with this resource.
    fn class_chain(&self, tokens: &mut Cursor<'_>, word: Name) -> Result<Item, Refusal>
        requires { Nests self.now.levels (F.pre self.now.inner) (F.post self.now.inner) }
        ensures { Reads (spec.class_chain (within self.now.levels) word tokens.old) result tokens.new }
    {
        let Name { text, at } = word;
        let first = self.resource(tokens, ResourceForm::Plain, text, at)?;
        let (statement, pending) = self.chain_from(tokens, at, first)?;
        Ok(Item::Statement(statement, pending))
    }

    /// Behind the word `class` at the top: a resource where `{` follows, else a definition.
    #[tactic(auto, unfolding(crate::specs::Definitions::class_item))]
    fn class_item(&self, tokens: &mut Cursor<'_>, word: Name) -> Result<Item, Refusal>
        requires { Nests self.now.levels (F.pre self.now.inner) (F.post self.now.inner) }
        ensures { Reads (spec.class_item (within self.now.levels) word tokens.old) result tokens.new }
    {
        match tokens.peek() {
            Some(Kind::OpenBrace) => self.class_chain(tokens, word),
            _ => Ok(Item::Definition(self.class(tokens, word.at)?)),
        }
    }

    /// A statement, whose name may have been taken already.
    fn statement_item(
        &self,
        tokens: &mut Cursor<'_>,
        pending: Option<Name>,
    ) -> Result<Item, Refusal>
        requires { Nests self.now.levels (F.pre self.now.inner) (F.post self.now.inner) }
        ensures { Reads (spec.statement_item (within self.now.levels) pending tokens.old) result tokens.new }
    {
        let (statement, pending) = self.statement(tokens, pending)?;
        Ok(Item::Statement(statement, pending))
    }

    /// A definition or a statement of which nothing was taken yet.
    fn item_here(&self, tokens: &mut Cursor<'_>) -> Result<Item, Refusal>
        requires { Nests self.now.levels (F.pre self.now.inner) (F.post self.now.inner) }
        ensures { Reads (spec.item_from (within self.now.levels) None tokens.old) result tokens.new }
    {
        match tokens.peek() {
            Some(Kind::Class) => {
                let word = taken_name(self.alloc, tokens)?;
                self.class_item(tokens, word)
            }
            Some(Kind::Define) => {
                let word = tokens.take()?;
                Ok(Item::Definition(self.define(tokens, word.line())?))
            }
            Some(Kind::Function) => {
                let word = tokens.take()?;
                let function = self.function_definition(tokens, word.line())?;
                Ok(Item::Definition(function))
            }
            Some(Kind::Node) => {
                let word = tokens.take()?;
                Ok(Item::Definition(self.node(tokens, word.line())?))
            }
            _ => self.statement_item(tokens, None),
        }
    }

    /// A definition or a statement, whose name may have been taken already.
    #[tactic(auto, unfolding(crate::specs::Definitions::item_rule))]
    fn item(&self, tokens: &mut Cursor<'_>, pending: Option<Name>) -> Result<Item, Refusal>
        requires { Nests self.now.levels (F.pre self.now.inner) (F.post self.now.inner) }
        ensures { Reads (spec.item_rule (within self.now.levels) pending tokens.old) result tokens.new }
    {
        match pending {
            Some(_) => self.statement_item(tokens, pending),
            None => self.item_here(tokens),
        }
    }

    /// A main manifest: statements and definitions, each with at most one `;` behind it.
    #[tactic(auto, using(crate::proofs::Loops::manifest_turn, crate::proofs::Loops::manifest_none), unfolding(crate::specs::Definitions::main_manifest))]
    pub fn main_manifest(&self, tokens: &mut Cursor<'_>) -> Result<Found, Refusal>
        requires { Nests self.now.levels (F.pre self.now.inner) (F.post self.now.inner) }
        ensures { Reads (spec.main_manifest (within self.now.levels) tokens.old) result tokens.new }
    {
        let mut found = Found::new(self.alloc);
        let mut pending = None;
        for _turn in 0..tokens.turns() {
            if ends_file(&pending, tokens.peek()) {
                return Ok(found);
            }
            let item = self.item(tokens, pending)?;
            pending = found.put(item)?;
            tokens.eat(Kind::Semicolon)?;
        }
        Err(tokens.refusal())
    }

    /// A class, a define or a function.
    #[tactic(auto, unfolding(crate::specs::Definitions::module_item))]
    fn module_item(&self, tokens: &mut Cursor<'_>) -> Result<Definition, Refusal>
        requires { Nests self.now.levels (F.pre self.now.inner) (F.post self.now.inner) }
        ensures { Reads (spec.module_item (within self.now.levels) tokens.old) result tokens.new }
    {
        match tokens.peek() {
            Some(Kind::Class) => {
                let word = tokens.take()?;
                self.class(tokens, word.line())
            }
            Some(Kind::Define) => {
                let word = tokens.take()?;
                self.define(tokens, word.line())
            }
            Some(Kind::Function) => {
                let word = tokens.take()?;
                self.function_definition(tokens, word.line())
            }
            _ => Err(tokens.refusal()),
        }
    }

    /// A module file: classes, defines and functions, each with at most one `;` behind it.
    #[tactic(auto, using(crate::proofs::Loops::module_turn, crate::proofs::Loops::module_none), unfolding(crate::specs::Definitions::module_file))]
    pub fn module_file(&self, tokens: &mut Cursor<'_>) -> Result<Found, Refusal>
        requires { Nests self.now.levels (F.pre self.now.inner) (F.post self.now.inner) }
        ensures { Reads (spec.module_file (within self.now.levels) tokens.old) result tokens.new }
    {
        let mut found = Found::new(self.alloc);
        for _turn in 0..tokens.turns() {
            if tokens.peek().is_none() {
                return Ok(found);
            }
            let definition = self.module_item(tokens)?;
            found.put_definition(definition)?;
            tokens.eat(Kind::Semicolon)?;
        }
        Err(tokens.refusal())
    }
}
