ghost use Rattle.std.specs.Prelude.{◌≡◌, Err};
ghost use Rattle.compile_core.specs.Meaning as spec;
ghost use Rattle.eval_world.specs.Outcomes.{Gives, nothing};
ghost use Rattle.pp_values.specs.Answers.{Answers};
ghost use Rattle.pp_values.specs.Views.{view};
ghost use Rattle.world_laws.specs.Extends.{IsPlaced};

use catalog_finish::finish;
use class_eval::Evaluator;
use defined_types::run_rounds;
use eval_world::Environment;
use export_store::Version;
use pp_tree::File;
use pp_values::{Fault, Stop, Text, Value};
use res_core::{Catalog, ExportSet};
use site_bundle::{Site, data_of, templates_of};
use std::alloc::Global;

/// The catalog of a node with these facts and what it exports, by a site and the sets that the nodes export; or the
/// first fault.
pub fn compile(
    alloc: Global,
    site: &Site,
    node: &Text,
    facts: &Value,
    sets: &Version,
) -> Result<(Catalog, ExportSet), Stop>
    ensures { Answers result (spec.meaning site.now node.now (view facts.now) sets.now) }
{
    match &site.main_file().read {
        Ok(main) => compile_environment(alloc, environment_of(site, main), node, facts, sets),
        Err(fault) => refused(alloc, fault),
    }
}

/// Where the main manifest has no tree, its fault.
fn refused(alloc: Global, fault: &Fault) -> Result<(Catalog, ExportSet), Stop>
    ensures { Answers result (Err fault.now) }
{
    Err(Stop::Fault(fault.copy(alloc)?))
}

/// What is read of a site: its manifests, its data and its templates.
fn environment_of<'a>(site: &'a Site, main: &'a File) -> Environment<'a>
    ensures { result ≡ spec.environment_of site.now main.now }
{
    Environment::new(
        main,
        site.manifests().as_map(),
        data_of(site),
        templates_of(site),
    )
}

/// The same by the trees of the manifests.
fn compile_environment(
    alloc: Global,
    environment: Environment<'_>,
    node: &Text,
    facts: &Value,
    sets: &Version,
) -> Result<(Catalog, ExportSet), Stop>
    ensures { Answers result (spec.meaning_of environment.entry node.now (view facts.now) sets.now) }
{
    let evaluator = Evaluator::start(alloc, environment, node, facts)?;
    complete(alloc, evaluator, node, sets)
}

/// The main manifest and the rounds, and what becomes of the world.
fn complete(
    alloc: Global,
    mut evaluator: Evaluator<'_>,
    node: &Text,
    sets: &Version,
) -> Result<(Catalog, ExportSet), Stop>
    // Each scope was opened after its dynamic parent, as rounds ask it.
    requires { IsPlaced evaluator.world }
    ensures { Answers result (spec.ended node.now (spec.evaluated evaluator.entry.world.environment
        evaluator.entry.node node.now sets.now evaluator.entry.world)) }
{
    evaluate(alloc, &mut evaluator, node, sets)?;
    finish_world(alloc, evaluator, node)
}

fn evaluate(
    alloc: Global,
    evaluator: &mut Evaluator<'_>,
    node: &Text,
    sets: &Version,
) -> Result<(), Stop>
    requires { IsPlaced evaluator.old.world }
    ensures { Gives nothing (spec.evaluated evaluator.old.world.environment evaluator.old.node node.now sets.now
        evaluator.old.world) result evaluator.new.world }
{
    evaluator.run_main()?;
    run_rounds(alloc, evaluator, sets, node)
}

fn finish_world(
    alloc: Global,
    evaluator: Evaluator<'_>,
    node: &Text,
) -> Result<(Catalog, ExportSet), Stop>
    ensures { Answers result (spec.finished_world node.now evaluator.entry.world) }
{
    let (book, overrides, relations, log) = evaluator.parts();
    let (catalog, exports) = finish(alloc, book, overrides, relations, node)?;
    Ok((catalog.with_log(log), exports))
}
