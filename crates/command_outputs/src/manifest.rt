//! The output to a manifest: the log and the node's catalog, or its fault.
ghost use Rattle.std.specs.Prelude.{◌≡◌, ◌≤◌, [], ◌∷◌, IfOk, length};
ghost use Rattle.site_core.specs.Meaning.{Compiles};
ghost use Rattle.command_outputs.specs.Outputs.{output_meant, manifest_output, no_text_output};
ghost use Rattle.site_bundle.specs.declared.limits.TheConstants.{MOST_FILE_BYTES};
ghost use Rattle.compile_core.specs.Puppet.{manifest_meaning};

use crate::compiled::{catalog_output, fault_line};
use crate::lines::line;
use crate::output::Output;
use compile_core::PuppetLanguage;
use export_store::Version;
use pp_values::{Fault, MAIN_MANIFEST, Memory, Pairs, Text, Value};
use res_core::{Catalog, ExportSet};
use site_bundle::{BundleStop, ListedNodes, Site, site_of_main, stop_text};
use site_core::{CompileStop, Language};
use site_io::Bytes;
use std::alloc::Global;
use std::mem::forget;

/// The output for a node under a manifest of these bytes.
pub fn manifest_output(alloc: Global, node: &str, input: Bytes) -> Result<Output, Memory>
    requires { length input ≤ MOST_FILE_BYTES }
    ensures { IfOk result (λ output. output ≡ manifest_output node.now input) }
{
    match String::from_utf8(input.into_vec()) {
        Ok(manifest) => output_of_text(alloc, node, Text::new(manifest)),
        Err(_) => no_text(alloc),
    }
}

/// The bytes are no text.
fn no_text(alloc: Global) -> Result<Output, Memory>
    ensures { IfOk result (λ output. output ≡ no_text_output) }
{
    let path = Text::from_str(alloc, MAIN_MANIFEST)?;
    let refusal = stop_text(alloc, &BundleStop::BadShape(path))?;
    Ok(Output::BadInput(line(alloc, refusal)?))
}

fn output_of_text(alloc: Global, node: &str, manifest: Text) -> Result<Output, Memory>
    requires { length manifest ≤ MOST_FILE_BYTES }
    ensures { IfOk result (λ output. output ≡ output_meant (manifest_meaning node.now manifest)) }
{
    match compile_alone(alloc, node, manifest) {
        Ok((catalog, _)) => {
            let output = catalog_output(alloc, &catalog);
            // Left to the end of the process, as the manifest's tree is.
            forget(catalog);
            output
        }
        Err(CompileStop::Fault(fault)) => Ok(Output::Fault(fault_line(alloc, &fault)?)),
        Err(CompileStop::Memory) => Err(Memory),
    }
}

/// The node's catalog, with empty facts, where no node exports anything.
fn compile_alone(
    alloc: Global,
    node: &str,
    manifest: Text,
) -> Result<(Catalog, ExportSet), CompileStop<Fault>>
    requires { length manifest ≤ MOST_FILE_BYTES }
    ensures { Compiles result (manifest_meaning node.now manifest) }
{
    let node = Text::from_str(alloc, node)?;
    let site = site_alone(alloc, manifest)?;
    let facts = Value::Hash(Pairs::new(alloc));
    let outcome = PuppetLanguage.compile(alloc, &site, &node, &facts, &Version::empty(alloc));
    // The program ends when it has written this, and its memory goes back at once: taking a long manifest's tree apart
    // before would be a fifth of the time that reading it takes.
    forget(site);
    outcome
}

/// The site of the main manifest alone, without data and nodes.
fn site_alone(alloc: Global, manifest: Text) -> Result<Site, Memory>
    requires { length manifest ≤ MOST_FILE_BYTES }
    ensures { IfOk result (λ s. s ≡ record { manifests = (MAIN_MANIFEST.now, manifest) ∷ []; «data» = []; nodes = [] }) }
{
    site_of_main(alloc, manifest, ListedNodes::new(alloc))
}
