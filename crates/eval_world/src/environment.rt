ghost use Rattle.std.specs.Prelude.{◌≡◌};
ghost use Rattle.std.specs.FinMap.{find};
ghost use Rattle.std.specs.Option.{option_copied};
ghost use Rattle.epp_text.specs.Parsing.{template_of};
ghost use Rattle.eval_world.specs.Environment.{text_at};
ghost use Rattle.eval_world.specs.Reading.{Reads};
ghost use Rattle.pp_values.specs.Rising.{text_cmp};

use crate::read_template::ReadTemplate;
use epp_text::{Templates, parse_epp};
use hiera_config::SiteData;
use pp_tree::{File, ManifestFile};
use pp_values::{Stop, Text};
use std::alloc::Global;
use std::collections::BTreeMap;
use std::marker::Model;

/// What an evaluation reads: the main manifest, all manifests of the site by their paths, the site's data, and the
/// templates that are parsed already. They stay as they are.
///
/// A contract sees trees, faults and texts, and not where they lie. It doesn't see which templates are parsed: what was
/// read of one is what its text says.
#[derive(Drop)]
pub struct Environment<'a> {
    main: &'a File,
    files: &'a BTreeMap<Text, ManifestFile>,
    site_data: &'a SiteData,
    templates: &'a Templates,
}

impl<'a> Model for Environment<'a> {
    ghost use Rattle.eval_world.specs.Environment.{Environment as Seen};

    ghost Value = { Seen };

    ghost use Rattle.eval_world.specs.Environment.{coded_environment};

    ghost coded = { coded_environment };

    ghost view = { λ e. record { main = e.main.now; files = e.files.now.entries; site_data = e.site_data.now } };
}

impl<'a> Environment<'a> {
    pub fn new(
        main: &'a File,
        files: &'a BTreeMap<Text, ManifestFile>,
        site_data: &'a SiteData,
        templates: &'a Templates,
    ) -> Environment<'a>
        ensures { result ≡ record { main = main.now; files = files.now.entries; site_data = site_data.now } }
    {
        Environment {
            main,
            files,
            site_data,
            templates,
        }
    }

    /// The main manifest.
    pub fn main(&self) -> &'a File
        ensures { result.now ≡ self.now.main }
    {
        self.main
    }

    /// All manifests of the site, by path in byte order.
    pub fn files(&self) -> &'a BTreeMap<Text, ManifestFile>
        ensures { result.now.entries ≡ self.now.files }
    {
        self.files
    }

    /// The text of the file at this path, a manifest or another one, where the site has such a file.
    pub fn text_at(&self, path: &Text) -> Option<&'a Text>
        ensures { option_copied result ≡ text_at path.now self.now }
    {
        match self.files.get(path) {
            Some(file) => Some(&file.text),
            None => other_text(self.site_data, path),
        }
    }

    /// The template of this text in the file at this path: as it was parsed before, or else parsed here. Its fault is told
    /// where it is used.
    pub fn template(
        &self,
        alloc: Global,
        path: &Text,
        text: &Text,
    ) -> Result<ReadTemplate<'a>, Stop>
        ensures { Reads result (template_of path.now text.now) }
    {
        match self.templates.get(path, text) {
            Some(Ok(kept)) => Ok(ReadTemplate::Kept(kept)),
            Some(Err(fault)) => Err(Stop::Fault(fault.copy(alloc)?)),
            None => Ok(ReadTemplate::New(parse_epp(alloc, path, text)?)),
        }
    }

    /// The data of the site.
    pub fn site_data(&self) -> &'a SiteData
        ensures { result.now ≡ self.now.site_data }
    {
        self.site_data
    }
}

fn other_text<'a>(files: &'a SiteData, path: &Text) -> Option<&'a Text>
    ensures { option_copied result ≡ find text_cmp path.now files.now }
{
    match files.get(path) {
        Some(file) => Some(&file.text),
        None => None,
    }
}
