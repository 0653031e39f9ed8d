//! Sites.
ghost use Rattle.std.specs.Prelude.{◌≡◌, ◌+◌, ◌^◌, ◌<◌, [], ◌∷◌, length, IsSome, IsTrue, IfOk, IfSome, option_map};
ghost use Rattle.std.specs.FinMap.{find};
ghost use Rattle.std.specs.Option.{option_copied};
ghost use Rattle.pp_values.specs.Rising.{text_cmp};
ghost use Rattle.pp_parser.specs.Manifest.{file_of};
ghost use Rattle.pp_values.specs.Facts.{are_facts};
ghost use Rattle.pp_values.specs.Views.{view};
ghost use Rattle.pp_values.specs.declared.place.TheConstants.{MAIN_MANIFEST};
ghost use Rattle.site_bundle.specs.Given.{are_distinct, has_main, are_short};
ghost use Rattle.site_bundle.specs.Keeping.{kept};
ghost use Rattle.site_bundle.specs.SiteView.{facts_for, file_in, main_text, have_facts, put_in, site_of};
ghost use Rattle.site_bundle.specs.Templates.{with_templates};

use crate::kept_files::KeptFiles;
use crate::listed_nodes::ListedNodes;
use crate::manifest_texts::ManifestTexts;
use crate::parsing::{parse_all, parse_in_turn};
use crate::site_files::SiteFiles;
use crate::site_templates::read_templates;
use epp_text::Templates;
use hiera_config::SiteData;
use pp_tree::ManifestFile;
use pp_values::{FactPairs, MAIN_MANIFEST, Memory, Text, TextPairs, Value};
use std::alloc::Global;
use std::marker::Model;
use std::thread::Threads;

/// A site: its manifests, its templates and the files of its data, which were read when it was made, and the facts that
/// it lists for nodes.
///
/// A contract sees the paths and texts of the files, and the nodes with what their facts say.
pub struct Site {
    // The path of the main manifest, by which it is found.
    main: Text,
    manifests: SiteFiles,
    data: SiteData,
    // Those among the other files, parsed.
    templates: Templates,
    nodes: ListedNodes,
}

// By hand, so that no crate above proves the drops of the files and of the facts again.
impl Drop for Site {
    fn drop(self) {
        let Site {
            main: _main,
            manifests: _manifests,
            data: _data,
            templates: _templates,
            nodes: _nodes,
        } = self;
    }
}

impl Model for Site {
    ghost use Rattle.std.specs.Prelude.{◌≡◌, [], IsSome};
    ghost use Rattle.pp_values.specs.declared.place.TheConstants.{MAIN_MANIFEST};
    ghost use Rattle.site_bundle.specs.SiteView.{SiteView, coded_site, text_at};
    ghost use Rattle.site_bundle.specs.Templates.{with_templates};

    ghost Value = { SiteView };

    ghost coded = { coded_site };

    ghost view = { λ s. record { manifests = s.manifests; «data» = s.data; nodes = s.nodes } };

    ghost invariant = { λ s. (s.main ≡ MAIN_MANIFEST.now) × (s.templates ≡ with_templates [] s.data)
        × IsSome (text_at (record { manifests = s.manifests; «data» = s.data; nodes = s.nodes }) MAIN_MANIFEST.now) };
}

impl Site {
    pub fn manifests(&self) -> &SiteFiles
        ensures { result.now ≡ self.now.manifests }
    {
        &self.manifests
    }

    pub fn nodes(&self) -> &ListedNodes
        ensures { result.now ≡ self.now.nodes }
    {
        &self.nodes
    }

    /// The main manifest.
    pub fn main_file(&self) -> &ManifestFile
        ensures text { result.now.text ≡ main_text self.now }
        ensures read { result.now.read ≡ file_of MAIN_MANIFEST.now (main_text self.now) }
    {
        self.manifests.get(&self.main).unwrap()
    }

    /// The facts that are listed for the node.
    pub fn facts_of(&self, node: &Text) -> Option<&Value>
        ensures listed { option_map (λ v. view v.now) result ≡ facts_for self.now node.now }
        ensures facts { IfSome result (λ v. IsTrue (are_facts (view v.now))) }
    {
        self.nodes.get(node)
    }
}

/// The files of a site's data: all that are no manifests.
pub fn data_of(site: &Site) -> &SiteData
    ensures { result.now ≡ site.now.data }
{
    &site.data
}

/// The site's templates, as they were parsed when it was made. They are kept for speed: what is rendered says the same
/// without them.
pub fn templates_of(site: &Site) -> &Templates
    ensures { result.now ≡ with_templates [] site.now.data }
{
    &site.templates
}

/// The text of the file at this path, a manifest or another one, where the site has such a file.
pub fn file_text<'a>(site: &'a Site, path: &Text) -> Option<&'a Text>
    ensures { option_copied result ≡ file_in site.now path.now }
{
    match site.manifests.get(path) {
        Some(file) => Some(&file.text),
        None => other_text(&site.data, path),
    }
}

fn other_text<'a>(files: &'a SiteData, path: &Text) -> Option<&'a Text>
    ensures { option_copied result ≡ find text_cmp path.now files.now }
{
    match files.get(path) {
        Some(file) => Some(&file.text),
        None => None,
    }
}

/// The site of these files and nodes. Each file is read here, one after another.
pub fn make_site(alloc: Global, files: TextPairs, nodes: FactPairs) -> Result<Site, Memory>
    requires paths { IsTrue (are_distinct files) }
    requires main { IsTrue (has_main files) }
    // Places count lines in 32 bits.
    requires short { IsTrue (are_short files) }
    requires names { IsTrue (are_distinct nodes) }
    requires facts { IsTrue (have_facts nodes) }
    ensures { IfOk result (λ s. s ≡ site_of files nodes) }
{
    let KeptFiles { manifests, data } = keep_files(alloc, files)?;
    let nodes = list_nodes(alloc, nodes)?;
    let site = site_in_turn(alloc, manifests, data, nodes)?;
    Ok(site)
}

/// The site of a main manifest alone, with nodes that are listed already.
pub fn site_of_main(alloc: Global, manifest: Text, nodes: ListedNodes) -> Result<Site, Memory>
    // Places count lines in 32 bits.
    requires { length manifest + 1 < 2 ^ 32 }
    ensures { IfOk result (λ s.
        s ≡ record { manifests = (MAIN_MANIFEST.now, manifest) ∷ []; «data» = []; nodes = nodes }) }
{
    let main = Text::from_str(alloc, MAIN_MANIFEST)?;
    let mut manifests = ManifestTexts::new(alloc);
    manifests.put(main, manifest)?;
    let site = site_in_turn(alloc, manifests, SiteData::new(alloc), nodes)?;
    Ok(site)
}

/// The site of these manifests, the main one among them, and these other files, with nodes that are listed already. The
/// manifests are parsed here, side by side where threads can be had.
pub fn site_with<R: Threads>(
    rt: &R,
    alloc: Global,
    manifests: ManifestTexts,
    others: SiteData,
    nodes: ListedNodes,
) -> Result<Site, Memory>
    requires { IsSome (find text_cmp MAIN_MANIFEST.now manifests) }
    ensures { IfOk result (λ s. s ≡ record { manifests = manifests; «data» = others; nodes = nodes }) }
{
    let files = parse_all(rt, alloc, manifests)?;
    site_of_files(alloc, files, others, nodes)
}

/// The same site, whose manifests are parsed one after another.
pub fn site_in_turn(
    alloc: Global,
    manifests: ManifestTexts,
    others: SiteData,
    nodes: ListedNodes,
) -> Result<Site, Memory>
    requires { IsSome (find text_cmp MAIN_MANIFEST.now manifests) }
    ensures { IfOk result (λ s. s ≡ record { manifests = manifests; «data» = others; nodes = nodes }) }
{
    let files = parse_in_turn(alloc, manifests)?;
    site_of_files(alloc, files, others, nodes)
}

fn site_of_files(
    alloc: Global,
    manifests: SiteFiles,
    others: SiteData,
    nodes: ListedNodes,
) -> Result<Site, Memory>
    requires { IsSome (find text_cmp MAIN_MANIFEST.now manifests) }
    ensures { IfOk result (λ s. s ≡ record { manifests = manifests; «data» = others; nodes = nodes }) }
{
    let main = Text::from_str(alloc, MAIN_MANIFEST)?;
    let templates = read_templates(alloc, &others)?;
    let data = planned(alloc, others)?;
    Ok(Site {
        main,
        manifests,
        data,
        templates,
        nodes,
    })
}

/// The data of a site, all of whose files are read: what look-ups read of them is found ahead.
fn planned(alloc: Global, files: SiteData) -> Result<SiteData, Memory>
    ensures { IfOk result (λ d. d ≡ files) }
{
    let mut files = files;
    files.plan(alloc)?;
    Ok(files)
}

fn keep_files(alloc: Global, files: TextPairs) -> Result<KeptFiles, Memory>
    requires { IsTrue (are_short files) }
    ensures { IfOk result (λ fs. fs ≡ kept files) }
{
    let mut kept = KeptFiles::new(alloc);
    let mut left = files;
    while let Some((path, text)) = left.pop() {
        kept.keep(alloc, path, text)?;
    }
    Ok(kept)
}

fn list_nodes(alloc: Global, nodes: FactPairs) -> Result<ListedNodes, Memory>
    requires { IsTrue (have_facts nodes) }
    ensures { IfOk result (λ n. n ≡ put_in [] nodes) }
{
    let mut listed = ListedNodes::new(alloc);
    let mut left = nodes.into_vec();
    while let Some((name, facts)) = left.pop() {
        listed.list(name, facts)?;
    }
    Ok(listed)
}
