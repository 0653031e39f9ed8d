ghost use Rattle.std.specs.Prelude.{◌≡◌, IfOk, IfSome, IsTrue, option_map};
ghost use Rattle.pp_values.specs.Views.{view};
ghost use Rattle.pp_values.specs.Facts.{are_facts};

use crate::compile_stop::CompileStop;
use crate::site_stop::SiteStop;
use export_store::Version;
use pp_values::{Memory, Text, Value};
use res_core::ExportSet;
use std::alloc::Global;

/// A language in which a site is written.
///
/// What it means is a function of the site, the node, the node's facts and the sets that the nodes export:
/// the catalog and the node's own exports, or one fault.
///
/// Facts are a hash whose keys are texts in rising byte order. Its members are undef, truth values, integers, texts,
/// lists of such members, and such hashes.
pub trait Language {
    type Site: Drop;

    type Catalog: Drop;

    type Fault: Drop;

    ghost use Rattle.std.specs.Prelude.{ℕ, List, Option};
    ghost use Rattle.pp_values.specs.Datum.{Datum};
    ghost use Rattle.site_core.specs.Meaning.{Meaning, Compiles};
    ghost use Rattle.site_core.specs.SitesRead.{ReadsSite};

    ghost meaning: { Meaning Self.Site Self.Catalog Self.Fault };

    // the facts that a site lists for a node, or none
    ghost listed: { Self.Site → List ℕ → Option Datum };

    // the site that bytes say, or none
    ghost said_site: { List ℕ → Option Self.Site };

    // the texts of a site, a catalog and a fault, without a line feed at their end
    ghost site_form: { Self.Site → List ℕ };

    ghost catalog_form: { Self.Catalog → List ℕ };

    ghost fault_form: { Self.Fault → List ℕ };

    /// The catalog of a node with these facts, and what it exports.
    fn compile(
        &self,
        alloc: Global,
        site: &Self::Site,
        node: &Text,
        facts: &Value,
        sets: &Version,
    ) -> Result<(Self::Catalog, ExportSet), CompileStop<Self::Fault>>
        requires { IsTrue (are_facts (view facts.now)) }
        ensures { Compiles result (meaning site.now node.now (view facts.now) sets.now) };

    /// The facts that the site lists for a node.
    fn facts_of<'a>(&self, site: &'a Self::Site, node: &Text) -> Option<&'a Value>
        ensures listed { option_map (λ v. view v.now) result ≡ listed site.now node.now }
        ensures facts { IfSome result (λ v. IsTrue (are_facts (view v.now))) };

    /// The site that these bytes say, such as those that are sent to deploy it.
    fn site_of(&self, alloc: Global, body: &[u8]) -> Result<Self::Site, SiteStop>
        ensures { ReadsSite result (said_site body.now) };

    /// The text of a site, without a line feed at its end.
    fn site_text(&self, alloc: Global, site: &Self::Site) -> Result<Text, Memory>
        ensures { IfOk result (λ t. t ≡ site_form site.now) };

    /// The text of a catalog, without a line feed at its end.
    fn catalog_text(&self, alloc: Global, catalog: &Self::Catalog) -> Result<Text, Memory>
        ensures { IfOk result (λ t. t ≡ catalog_form catalog.now) };

    /// The text of a fault, without a line feed at its end.
    fn fault_text(&self, alloc: Global, fault: &Self::Fault) -> Result<Text, Memory>
        ensures { IfOk result (λ t. t ≡ fault_form fault.now) };
}
