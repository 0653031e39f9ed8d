//! Puppet's language, in which a site is written.

use crate::compiling::compile;
use export_store::Version;
use pp_values::{Fault, Memory, Stop, Text, Value};
use res_core::{Catalog, ExportSet};
use site_bundle::{BundleStop, Site, read_site_text};
use site_core::{CompileStop, Language, SiteStop};
use site_docs::{catalog_text, fault_text, site_text};
use std::alloc::Global;

/// The language of manifests, as far as it is built.
#[derive(Drop)]
pub struct PuppetLanguage;

impl Language for PuppetLanguage {
    type Site = Site;

    type Catalog = Catalog;

    type Fault = Fault;

    ghost use Rattle.compile_core.specs.Puppet.{puppet, listed, said_site};
    ghost use Rattle.site_docs.specs.SiteText as sites;
    ghost use Rattle.site_docs.specs.CatalogText as catalogs;
    ghost use Rattle.site_docs.specs.FaultText as faults;

    ghost meaning = { puppet };

    ghost listed = { listed };

    ghost said_site = { said_site };

    ghost site_form = { sites.site_text };

    ghost catalog_form = { catalogs.catalog_text };

    ghost fault_form = { faults.fault_text };

    fn compile(
        &self,
        alloc: Global,
        site: &Site,
        node: &Text,
        facts: &Value,
        sets: &Version,
    ) -> Result<(Catalog, ExportSet), CompileStop<Fault>> {
        match compile(alloc, site, node, facts, sets) {
            Ok(made) => Ok(made),
            Err(Stop::Fault(fault)) => Err(CompileStop::Fault(fault)),
            Err(Stop::Memory) => Err(CompileStop::Memory),
        }
    }

    fn facts_of<'a>(&self, site: &'a Site, node: &Text) -> Option<&'a Value> {
        site.facts_of(node)
    }

    /// A JSON object with `files` and, where there are any, `nodes`, as in a bundle.
    fn site_of(&self, alloc: Global, body: &[u8]) -> Result<Site, SiteStop> {
        match read_site_text(alloc, body) {
            Ok(site) => Ok(site),
            Err(BundleStop::NotJson) => Err(SiteStop::Bad),
            Err(BundleStop::BadShape(_)) => Err(SiteStop::Bad),
            Err(BundleStop::TooLarge(_)) => Err(SiteStop::Bad),
            Err(BundleStop::TreeFault(_)) => Err(SiteStop::Bad),
            Err(BundleStop::Memory) => Err(SiteStop::Memory),
        }
    }

    fn site_text(&self, alloc: Global, site: &Site) -> Result<Text, Memory> {
        site_text(alloc, site)
    }

    fn catalog_text(&self, alloc: Global, catalog: &Catalog) -> Result<Text, Memory> {
        catalog_text(alloc, catalog)
    }

    fn fault_text(&self, alloc: Global, fault: &Fault) -> Result<Text, Memory> {
        fault_text(alloc, fault)
    }
}
