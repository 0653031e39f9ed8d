//! The evaluator of one compile.
ghost use Rattle.std.specs.Prelude.{◌≡◌, ◌<◌, Some, length, option_copied, option_map, slice_get, IfOk};
ghost use Rattle.pp_values.specs.Datum as d;
ghost use Rattle.pp_values.specs.Faults.{fault};
ghost use Rattle.pp_values.specs.Views.{view};
ghost use Rattle.override_rules.specs.Meaning.{touched_by};
ghost use Rattle.class_eval.specs.Evaluating as spec;
ghost use Rattle.class_eval.specs.Evaluators.{one_more};
ghost use Rattle.class_eval.specs.Meaning.{within};
ghost use Rattle.class_eval.specs.Starting.{started};
ghost use Rattle.eval_collecting.specs.Importing as importing;
ghost use Rattle.eval_collecting.specs.Matching as matching;
ghost use Rattle.eval_world.specs.Outcomes.{Gives, nothing, same};
ghost use Rattle.eval_world.specs.Worlds.{place_at, top};

use crate::classes::class_at;
use crate::knot::{AllForms, evaluate};
use crate::nodes::{has_nodes, node_of};
use crate::running::run;
use crate::starting::start_world;
use crate::statements::emitted;
use eval_classes::{BodyOwner, enter_body, run_instance};
use eval_collecting::{import_match, imports, local_match, needed_tag, realized};
use eval_world::{Environment, Evaluated, Forms, Goal, Here, World};
use override_rules::Overrides;
use pp_tree::{Block, Expr, File, Node, Table, Template};
use pp_values::{Fault, MAIN_MANIFEST, Memory, Place, Reference, Stop, Text, Value, What};
use res_book::{Book, Relations};
use res_core::{Attributes, Exported, LogLines};
use scope_core::{ScopeId, ScopeKind, Scopes};
use std::alloc::Global;
use std::marker::{Model, PhantomData};

/// How deep an evaluation may stand: how many expressions, blocks and bodies it is within, itself included.
pub const GREATEST_DEPTH: u32 = 1_000;

/// The evaluator of one compile. Its depths count from 1.
///
/// The world is told by calls alone, so that how often collectors look at declarations is counted.
#[derive(Drop)]
pub struct Evaluator<'a> {
    world: World<'a>,
    /// The name of the node that is compiled.
    node: Text,
    /// How often a collector was to take a local declaration.
    looks: u64,
}

impl<'a> Model for Evaluator<'a> {
    ghost use Rattle.class_eval.specs.Evaluators.{Evaluation};
    ghost use Rattle.class_eval.specs.EvaluatorCodes.{coded_evaluation};

    ghost Value = { Evaluation };

    ghost coded = { coded_evaluation };

    ghost view = { λ e. record { world = e.world; node = e.node; looks = e.looks } };
}

impl<'a> Evaluator<'a> {
    /// Before any statement of the main manifest, for a node with these facts.
    pub fn start(
        alloc: Global,
        environment: Environment<'a>,
        node: &Text,
        facts: &Value,
    ) -> Result<Evaluator<'a>, Memory>
        ensures world { IfOk result (λ e. e.world ≡ started environment.entry node.now (view facts.now)) }
        ensures node { IfOk result (λ e. e.node ≡ node.now) }
        ensures looks { IfOk result (λ e. e.looks ≡ 0) }
    {
        let name = node.copy(alloc)?;
        let world = start_world(alloc, environment, node, facts)?;
        Ok(Evaluator {
            world,
            node: name,
            looks: 0,
        })
    }

    /// The tables that finishing reads, and the lines of the log.
    pub fn parts(self) -> (Book, Overrides, Relations, LogLines)
        ensures book { result.0 ≡ self.entry.world.book }
        ensures overrides { result.1 ≡ self.entry.world.overrides }
        ensures relations { result.2 ≡ self.entry.world.relations }
        ensures log { result.3 ≡ self.entry.world.log }
    {
        let Evaluator {
            world,
            node: _node,
            looks: _looks,
        } = self;
        world.into_parts()
    }

    /// The value of an expression that stands at this depth.
    pub fn value_of(&mut self, expr: &Expr, here: Here, depth: u32) -> Result<Evaluated, Stop>
        ensures world { Gives same (spec.value_at expr.now here depth self.old.world) result self.new.world }
        ensures node { self.new.node ≡ self.old.node }
        ensures looks { self.new.looks ≡ self.old.looks }
    {
        evaluate(&mut self.world, Goal::Value(expr), here, levels_left(depth))
    }

    /// The value of a block that stands at this depth and belongs to what begins at this line.
    pub fn run_block(
        &mut self,
        block: &Block,
        line: u32,
        here: Here,
        depth: u32,
    ) -> Result<Evaluated, Stop>
        ensures world { Gives same (spec.block_at block.now line here depth self.old.world) result self.new.world }
        ensures node { self.new.node ≡ self.old.node }
        ensures looks { self.new.looks ≡ self.old.looks }
    {
        evaluate(
            &mut self.world,
            Goal::Block(block, line),
            here,
            levels_left(depth),
        )
    }

    /// Runs the statements of the main manifest, and then the node's definition, where nodes are defined.
    pub fn run_main(&mut self) -> Result<(), Stop>
        ensures world { Gives nothing (spec.main_rule self.old.world.environment.main self.old.node self.old.world)
            result self.new.world }
        ensures node { self.new.node ≡ self.old.node }
        ensures looks { self.new.looks ≡ self.old.looks }
    {
        let main = self.world.environment.main();
        run_file(&mut self.world, main, &self.node)
    }

    /// Declares the class of a name, whose body then stands at this depth: as by `include`, or with what is given as by
    /// `class { }`. The answer is its number.
    pub fn declare_class(
        &mut self,
        name: &Text,
        given: Option<Attributes>,
        here: Here,
        at: &Place,
        depth: u32,
    ) -> Result<u32, Stop>
        ensures world { Gives same (spec.class_at name.now given at.now here depth self.old.world) result self.new.world }
        ensures node { self.new.node ≡ self.old.node }
        ensures looks { self.new.looks ≡ self.old.looks }
    {
        class_at(&mut self.world, name, given, here, at, levels_left(depth))
    }

    /// Evaluates the instance of this declaration, which stands at this depth.
    pub fn run_instance(&mut self, number: u32, depth: u32) -> Result<(), Stop>
        ensures world { Gives nothing (spec.instance_at number depth self.old.world) result self.new.world }
        ensures node { self.new.node ≡ self.old.node }
        ensures looks { self.new.looks ≡ self.old.looks }
    {
        let forms: Forms<_, AllForms> = Forms {
            left: levels_left(depth),
            inner: evaluate,
            meaning: PhantomData,
        };
        run_instance(&forms, &mut self.world, number)
    }

    /// The text of a template, in the scope in which what it is given has been set. The expressions in its tags stand at
    /// this depth.
    pub fn render(&mut self, template: &Template, here: Here, depth: u32) -> Result<Text, Stop>
        ensures world { Gives (λ t. d.text t) (spec.render_at template.now here depth self.old.world) result
            self.new.world }
        ensures node { self.new.node ≡ self.old.node }
        ensures looks { self.new.looks ≡ self.old.looks }
    {
        let forms: Forms<_, AllForms> = Forms {
            left: levels_left(depth),
            inner: evaluate,
            meaning: PhantomData,
        };
        emitted(&forms, &mut self.world, &template.block, here)
    }

    /// Has one collector take one local declaration, which is marked then, and to which the collector's block is applied
    /// where it was not before: true exactly where the mark makes it live, or the block is applied now. It is counted,
    /// whatever the answer. Both are given by their numbers.
    pub fn local_match(&mut self, collector: u32, number: u32) -> Result<bool, Stop>
        ensures world { Gives same (matching.local_match collector number self.old.world) result self.new.world }
        ensures node { self.new.node ≡ self.old.node }
        ensures looks { self.new.looks ≡ one_more self.old.looks }
    {
        self.looks = self.looks.saturating_add(1);
        local_match(&mut self.world, collector, number)
    }

    /// Has one collector import the resource that a node exports at this place of its set, unless it was imported
    /// before, and apply its block to it where it was not applied before: true exactly where the resource is declared
    /// here, or the block is applied now. The collector is given by its number.
    pub fn import_match(
        &mut self,
        collector: u32,
        node: &Text,
        place: u32,
        exported: &Exported,
    ) -> Result<bool, Stop>
        ensures world { Gives same
            (importing.import_match collector node.now place exported.now self.old.world) result self.new.world }
        ensures node { self.new.node ≡ self.old.node }
        ensures looks { self.new.looks ≡ self.old.looks }
    {
        import_match(&mut self.world, collector, node, place, exported)
    }

    /// How many collectors there are.
    pub fn collectors(&self) -> u32
        ensures { result ≡ length self.now.world.relations.collectors }
    {
        self.world.relations.collector_count()
    }

    /// The kind whose exports a collector takes, where it takes any. The collector is given by its number.
    pub fn imports(&self, collector: u32) -> Option<&Text>
        ensures { option_copied result ≡ importing.imports self.now.world collector }
    {
        imports(&self.world, collector)
    }

    /// A tag that all has which a collector finds, where its query tells one. The collector is given by its number.
    pub fn needed_tag(&self, collector: u32) -> Option<&Text>
        ensures { option_copied result ≡ importing.needed_tag self.now.world collector }
    {
        needed_tag(&self.world, collector)
    }

    /// The one reference that a collector asks for, where it comes from the function `realize`. The collector is given
    /// by its number.
    pub fn realized(&self, collector: u32) -> Option<&Reference>
        ensures { option_copied result ≡ matching.realized self.now.world collector }
    {
        realized(&self.world, collector)
    }

    /// How many override lines so far are on the declaration, and how many defaults so far are for its kind.
    pub fn touched(&self, number: u32) -> u32
        requires { number < length self.now.world.book }
        ensures { option_map (touched_by self.now.world.overrides) (slice_get self.now.world.book number)
            ≡ Some result }
    {
        self.world.overrides.touched(&self.world.book, number)
    }

    /// How often a collector was to take a local declaration so far.
    pub fn looks(&self) -> u64
        ensures { result ≡ self.now.looks }
    {
        self.looks
    }

    /// A fault at a line of the file whose code is evaluated.
    pub fn fault(&self, here: Here, line: u32, what: What) -> Result<Fault, Memory>
        ensures { IfOk result (λ f. f ≡ fault (place_at self.now.world here line) what) }
    {
        self.world.fault(here, line, what)
    }

    /// The declarations so far.
    pub fn book(&self) -> &Book
        ensures { result.now ≡ self.now.world.book }
    {
        &self.world.book
    }

    /// The scopes so far.
    pub fn scopes(&self) -> &Scopes
        ensures { result.now ≡ self.now.world.scopes }
    {
        &self.world.scopes
    }

    /// Top scope.
    pub fn top_scope(&self) -> ScopeId
        ensures { result.number ≡ 0 }
    {
        ScopeId { number: 0 }
    }
}

/// How many levels may be opened from this depth on, itself included.
fn levels_left(depth: u32) -> u32
    ensures { within result ≡ spec.at_depth depth }
{
    (GREATEST_DEPTH + 1).saturating_sub(depth)
}

/// First the statements, and then the definition of the node.
#[tactic(auto, using(crate::proofs::Runs::main_ran, crate::proofs::Runs::main_refused))]
fn run_file(world: &mut World<'_>, main: &File, node: &Text) -> Result<(), Stop>
    ensures { Gives nothing (spec.main_rule main.now node.now world.old) result world.new }
{
    run(world, &main.statements, Here::top(), levels_left(1))?;
    run_nodes(world, &main.definitions, node)
}

#[tactic(auto, unfolding(crate::specs::Evaluating::nodes_rule))]
fn run_nodes(world: &mut World<'_>, definitions: &Table, name: &Text) -> Result<(), Stop>
    ensures { Gives nothing (spec.nodes_rule definitions.now name.now world.old) result world.new }
{
    if has_nodes(definitions) {
        return run_chosen(world, definitions, name);
    }
    Ok(())
}

fn run_chosen(world: &mut World<'_>, definitions: &Table, name: &Text) -> Result<(), Stop>
    ensures { Gives nothing (spec.chosen (spec.node_of definitions.now name.now) name.now world.old) result world.new }
{
    match node_of(world.heap.alloc(), definitions, name)? {
        Some(node) => run_node(world, node),
        None => {
            let name = name.copy(world.heap.alloc())?;
            Err(Stop::Fault(world.fault(Here::top(), 1, What::NoNode(name))?))
        }
    }
}

/// The block of a node's definition, in the node's scope.
#[tactic(auto, unfolding(crate::specs::Evaluating::node_rule))]
fn run_node(world: &mut World<'_>, node: &Node) -> Result<(), Stop>
    ensures { Gives nothing (spec.node_rule node.now world.old) result world.new }
{
    let owner = node_owner(world.heap.alloc())?;
    let own = enter_body(world, ScopeKind::Node, 0, 0, owner)?;
    let goal = Goal::Block(&node.block, node.at);
    drop(evaluate(world, goal, own, levels_left(1))?);
    Ok(())
}

fn node_owner(alloc: Global) -> Result<BodyOwner, Memory>
    ensures { IfOk result (λ o. o ≡ spec.node_owner) }
{
    let file = Text::from_str(alloc, MAIN_MANIFEST)?;
    let source = Text::from_str(alloc, "node")?;
    Ok(BodyOwner {
        file,
        source,
        resource: 0,
    })
}
