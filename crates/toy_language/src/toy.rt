//! A small language of sites, for the tests of histories.
ghost use Rattle.std.specs.Prelude.{IsTrue};
ghost use Rattle.pp_values.specs.Views.{view};
ghost use Rattle.pp_values.specs.Facts.{are_facts};

use export_store::Version;
use pp_values::{Memory, Pairs, Text, Value};
use res_core::{ExportSet, Exports};
use site_core::{CompileStop, Language, SiteStop};
use std::alloc::Global;

/// Lists these facts for node `a`. A strict one refuses node `b`.
#[derive(Drop)]
pub struct ToySite {
    pub facts: Value,
    pub strict: bool,
    ghost shape: { IsTrue (are_facts (view facts)) },
}

/// The site that lists no facts but those of node `a`, which has none.
pub fn toy_site(alloc: Global) -> ToySite {
    site_of(alloc, false)
}

/// The same one, but that it is strict.
pub fn strict_site(alloc: Global) -> ToySite {
    site_of(alloc, true)
}

fn site_of(alloc: Global, strict: bool) -> ToySite {
    ToySite {
        facts: Value::Hash(Pairs::new(alloc)),
        strict,
    }
}

/// Node `bad` is refused, and by a strict site `b`. The catalog of another one is whether node `a` has an export set. Each node exports an empty set.
#[derive(Drop)]
pub struct Toy;

impl Language for Toy {
    type Site = ToySite;

    type Catalog = bool;

    type Fault = Text;

    ghost use Rattle.std.specs.Prelude.{◌≡◌, IfOk, IfSome, IsTrue, Ok, Err, None, Some, [], codes, option_map, is_some, if◌then◌else◌, ◌||◌, ◌&&◌};
    ghost use Rattle.std.specs.FinMap as fin;
    ghost use Rattle.std.specs.Cmp.Lexicographic.{pointwise};
    ghost use Rattle.std.specs.Prelude.{nat_eq};

    ghost meaning = { λ site node facts sets.
        if pointwise nat_eq node (codes "bad") || (site.strict && pointwise nat_eq node (codes "b")) then Err node else Ok (is_some (fin.get sets (codes "a")), record { items = [] }) };

    ghost listed = { λ site node. if pointwise nat_eq node (codes "a") then Some (view site.facts) else None };

    ghost said_site = { λ body. None };

    ghost site_form = { λ site. [] };

    ghost catalog_form = { λ catalog. if catalog then codes "some" else codes "none" };

    ghost fault_form = { λ fault. fault };

    fn compile(
        &self,
        alloc: Global,
        site: &ToySite,
        node: &Text,
        _facts: &Value,
        sets: &Version,
    ) -> Result<(bool, ExportSet), CompileStop<Text>> {
        if node.is("bad") || (site.strict && node.is("b")) {
            return Err(CompileStop::Fault(node.copy(alloc)?));
        }
        let a = Text::from_str(alloc, "a")?;
        let exports = ExportSet {
            items: Exports::new(alloc),
        };
        Ok((sets.get(&a).is_some(), exports))
    }

    fn facts_of<'a>(&self, site: &'a ToySite, node: &Text) -> Option<&'a Value> {
        if node.is("a") {
            Some(&site.facts)
        } else {
            None
        }
    }

    /// No bytes say a site.
    fn site_of(&self, _alloc: Global, _body: &[u8]) -> Result<ToySite, SiteStop> {
        Err(SiteStop::Bad)
    }

    fn site_text(&self, alloc: Global, _site: &ToySite) -> Result<Text, Memory> {
        Text::from_str(alloc, "")
    }

    fn catalog_text(&self, alloc: Global, catalog: &bool) -> Result<Text, Memory> {
        Text::from_str(alloc, if *catalog { "some" } else { "none" })
    }

    fn fault_text(&self, alloc: Global, fault: &Text) -> Result<Text, Memory> {
        fault.copy(alloc)
    }
}
