//! A language that is lent.

use export_store::Version;
use pp_values::{Memory, Text, Value};
use res_core::ExportSet;
use site_core::{CompileStop, Language, SiteStop};
use std::alloc::Global;

/// Means what the language means that it lends, so that one language serves several rounds.
#[derive(Drop)]
pub struct Lent<'a, L> {
    pub language: &'a L,
}

impl<'a, L: Language> Language for Lent<'a, L> {
    type Site = L::Site;

    type Catalog = L::Catalog;

    type Fault = L::Fault;

    ghost meaning = { L.meaning };

    ghost listed = { L.listed };

    ghost said_site = { L.said_site };

    ghost site_form = { L.site_form };

    ghost catalog_form = { L.catalog_form };

    ghost fault_form = { L.fault_form };

    fn compile(
        &self,
        alloc: Global,
        site: &L::Site,
        node: &Text,
        facts: &Value,
        sets: &Version,
    ) -> Result<(L::Catalog, ExportSet), CompileStop<L::Fault>> {
        self.language.compile(alloc, site, node, facts, sets)
    }

    fn facts_of<'b>(&self, site: &'b L::Site, node: &Text) -> Option<&'b Value> {
        self.language.facts_of(site, node)
    }

    fn site_of(&self, alloc: Global, body: &[u8]) -> Result<L::Site, SiteStop> {
        self.language.site_of(alloc, body)
    }

    fn site_text(&self, alloc: Global, site: &L::Site) -> Result<Text, Memory> {
        self.language.site_text(alloc, site)
    }

    fn catalog_text(&self, alloc: Global, catalog: &L::Catalog) -> Result<Text, Memory> {
        self.language.catalog_text(alloc, catalog)
    }

    fn fault_text(&self, alloc: Global, fault: &L::Fault) -> Result<Text, Memory> {
        self.language.fault_text(alloc, fault)
    }
}
