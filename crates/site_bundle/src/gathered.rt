//! What is kept of the files that are read of a folder.
ghost use Rattle.std.specs.Prelude.{◌≡◌, ◌≤◌, IfOk, Some, length, option_map};
ghost use Rattle.pp_values.specs.Views.{view as value_view};
ghost use Rattle.serde_json.specs.View.{view as json_view};
ghost use Rattle.site_bundle.specs.declared.limits.TheConstants.{MOST_FILE_BYTES as MOST};
ghost use Rattle.site_bundle.specs.Gathering.{nothing_gathered, count_file, site_file, facts_file, facts_in, json_in};
ghost use Rattle.site_bundle.specs.Gathering.{machine_file, machine_in, if_good, gather};
ghost use Rattle.site_bundle.specs.Machines.{machine_said};
ghost use Rattle.site_bundle.specs.Refusals.{ReadsAs};

use crate::bundle_stop::BundleStop;
use crate::document::parse;
use crate::kept_files::KeptFiles;
use crate::limits::{MOST_BUNDLE_BYTES, MOST_FILES};
use crate::listed_nodes::ListedNodes;
use crate::machines::{machine_said, no_machine};
use crate::nodes::listed_facts;
use crate::refusing::{bad_shape, too_large};
use agent_machine::MachineDoc;
use pp_values::{Memory, Text, Value as FactValue};
use serde_json::Value;
use site_io::Bytes;
use std::alloc::Global;

/// What was read of a folder, how many files, and how many bytes they have together.
#[derive(Drop)]
pub struct Gathered {
    pub files: KeptFiles,
    pub nodes: ListedNodes,
    pub machine: MachineDoc,
    pub count: usize,
    pub size: usize,
}

impl Gathered {
    pub fn new(alloc: Global) -> Gathered
        ensures { result ≡ nothing_gathered }
    {
        Gathered {
            files: KeptFiles::new(alloc),
            nodes: ListedNodes::new(alloc),
            machine: no_machine(alloc),
            count: 0,
            size: 0,
        }
    }

    /// Keeps a file of the site.
    pub fn keep_site_file(
        &mut self,
        alloc: Global,
        path: &str,
        content: Bytes,
    ) -> Result<(), BundleStop>
        requires { length content ≤ MOST }
        ensures { ReadsAs (λ done. self.new) result (gather site_file path.now (Some content) self.old) }
    {
        self.count_file(alloc, path, &content)?;
        self.put_text(alloc, path, content)
    }

    /// Keeps the facts of a node.
    pub fn keep_facts(
        &mut self,
        alloc: Global,
        node: &str,
        path: &str,
        content: Bytes,
    ) -> Result<(), BundleStop>
        ensures { ReadsAs (λ done. self.new) result (gather (facts_file node.now) path.now (Some content) self.old) }
    {
        self.count_file(alloc, path, &content)?;
        self.put_facts(alloc, node, path, &content)
    }

    /// Keeps the machine.
    pub fn keep_machine(
        &mut self,
        alloc: Global,
        path: &str,
        content: Bytes,
    ) -> Result<(), BundleStop>
        ensures { ReadsAs (λ done. self.new) result (gather machine_file path.now (Some content) self.old) }
    {
        self.count_file(alloc, path, &content)?;
        self.put_machine(alloc, path, &content)
    }

    /// Counts a file, if it may come.
    fn count_file(&mut self, alloc: Global, path: &str, content: &Bytes) -> Result<(), BundleStop>
        ensures { ReadsAs (λ done. self.new) result (count_file path.now content.now self.old) }
    {
        if self.count >= MOST_FILES {
            return Err(too_large(alloc, path));
        }
        let size = self.size.saturating_add(content.len());
        if size > MOST_BUNDLE_BYTES {
            return Err(too_large(alloc, path));
        }
        self.count += 1;
        self.size = size;
        Ok(())
    }

    fn put_text(&mut self, alloc: Global, path: &str, content: Bytes) -> Result<(), BundleStop>
        requires { length content ≤ MOST }
        ensures { ReadsAs (λ done. self.new) result (site_file path.now content self.old) }
    {
        match String::from_utf8(content.into_vec()) {
            Ok(text) => {
                let path = Text::from_str(alloc, path)?;
                self.files.keep(alloc, path, Text::new(text))?;
                Ok(())
            }
            Err(_) => Err(bad_shape(alloc, path)),
        }
    }

    fn put_facts(
        &mut self,
        alloc: Global,
        node: &str,
        path: &str,
        content: &Bytes,
    ) -> Result<(), BundleStop>
        ensures { ReadsAs (λ done. self.new) result (facts_file node.now path.now content.now self.old) }
    {
        match facts_in(alloc, node, content)? {
            Some(facts) => {
                let name = Text::from_str(alloc, node)?;
                self.nodes.list(name, facts)?;
                Ok(())
            }
            None => Err(bad_shape(alloc, path)),
        }
    }

    fn put_machine(&mut self, alloc: Global, path: &str, content: &Bytes) -> Result<(), BundleStop>
        ensures { ReadsAs (λ done. self.new) result (machine_file path.now content.now self.old) }
    {
        match machine_in(alloc, content)? {
            Some(machine) => {
                self.machine = machine;
                Ok(())
            }
            None => Err(bad_shape(alloc, path)),
        }
    }
}

/// The JSON that the content is, if it is any.
fn json_in(alloc: Global, content: &Bytes) -> Result<Option<Value>, Memory>
    ensures { IfOk result (λ o. option_map json_view o ≡ json_in content.now) }
{
    match parse(alloc, content.as_slice()) {
        Ok(value) => Ok(Some(value)),
        Err(BundleStop::Memory) => Err(Memory),
        Err(_) => Ok(None),
    }
}

fn facts_in(alloc: Global, node: &str, content: &Bytes) -> Result<Option<FactValue>, Memory>
    ensures { IfOk result (λ o. option_map value_view o ≡ facts_in node.now content.now) }
{
    match json_in(alloc, content)? {
        Some(json) => listed_facts(alloc, node, &json),
        None => Ok(None),
    }
}

fn machine_in(alloc: Global, content: &Bytes) -> Result<Option<MachineDoc>, Memory>
    ensures { IfOk result (λ o. o ≡ machine_in content.now) }
{
    match json_in(alloc, content)? {
        Some(json) => good_machine(alloc, &json),
        None => Ok(None),
    }
}

fn good_machine(alloc: Global, json: &Value) -> Result<Option<MachineDoc>, Memory>
    ensures { IfOk result (λ o. o ≡ if_good (machine_said (json_view json.now))) }
{
    match machine_said(alloc, json) {
        Ok(machine) => Ok(Some(machine)),
        Err(BundleStop::Memory) => Err(Memory),
        Err(_) => Ok(None),
    }
}
