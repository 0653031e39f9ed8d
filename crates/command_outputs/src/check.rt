//! The output to the check of a site: the faults of its manifests.
ghost use Rattle.std.specs.Prelude.{◌≡◌, ◌++◌, map, length, string_bytes, IfOk, OnOk};
ghost use Rattle.pp_tree.specs.declared.manifest_file.ManifestFile.{ManifestFile};
ghost use Rattle.command_outputs.specs.Checks.{count_line, fault_lines, faults_among, faults_of};
ghost use Rattle.command_outputs.specs.Outputs.{checked_by, checked_output};

use crate::compiled::fault_line;
use crate::output::Output;
use pp_tree::ManifestFile;
use pp_values::{Fault, Memory, Text};
use site_bundle::Site;
use std::alloc::Global;
use std::collections::BTreeMap;

/// The output to the check of a site. Its data and its nodes are not looked at.
pub fn check_output(alloc: Global, site: &Site) -> Result<Output, Memory>
    ensures { IfOk result (λ output. output ≡ checked_output site.now) }
{
    let faults = faults_of(alloc, site)?;
    let text = check_text(alloc, site.manifests().len(), faults.as_slice())?;
    Ok(output_by(faults.as_slice(), text))
}

/// The faults of the site's manifests.
fn faults_of<'a>(alloc: Global, site: &'a Site) -> Result<Vec<&'a Fault>, Memory>
    ensures { IfOk result (λ faults. map (λ f. f.now) faults.items ≡ faults_of site.now) }
{
    faults_among(alloc, site.manifests().as_map())
}

/// The faults of those that have one, in their order.
#[tactic(auto, unfolding(crate::specs::Checks::faults_among))]
fn faults_among<'a>(
    alloc: Global,
    manifests: &'a BTreeMap<Text, ManifestFile>,
) -> Result<Vec<&'a Fault>, Memory>
    ensures { IfOk result (λ faults.
        map (λ f. f.now) faults.items ≡ faults_among (map (λ e. e.1.read) manifests.now.entries)) }
{
    let mut faults = Vec::new(alloc);
    for (_, manifest) in manifests {
        if let Err(fault) = &manifest.read {
            faults.push(fault)?;
        }
    }
    Ok(faults)
}

/// The lines of the faults, and then how many files and how many faults there are.
fn check_text(alloc: Global, files: usize, faults: &[&Fault]) -> Result<Text, Memory>
    ensures { IfOk result (λ text. text
        ≡ fault_lines (map (λ f. f.now) faults.now) ++ count_line files (length faults.now)) }
{
    let mut text = String::new(alloc);
    write_faults(alloc, &mut text, faults)?;
    write_counts(&mut text, files, faults.len())?;
    Ok(Text::new(text))
}

#[tactic(auto, unfolding(crate::specs::Checks::fault_lines))]
fn write_faults(alloc: Global, out: &mut String, faults: &[&Fault]) -> Result<(), Memory>
    ensures { OnOk result (string_bytes out.new
        ≡ string_bytes out.old ++ fault_lines (map (λ f. f.now) faults.now)) }
{
    let mut left = faults;
    while let [fault, after @ ..] = left {
        out.push_str(fault_line(alloc, fault)?.as_str())?;
        left = after;
    }
    Ok(())
}

#[tactic(auto, unfolding(crate::specs::Checks::count_line))]
fn write_counts(out: &mut String, files: usize, faults: usize) -> Result<(), Memory>
    ensures { OnOk result (string_bytes out.new ≡ string_bytes out.old ++ count_line files faults) }
{
    write!(out, "files {files} faults {faults}\n")?;
    Ok(())
}

/// The output, by whether there are any faults.
fn output_by(faults: &[&Fault], text: Text) -> Output
    ensures { result ≡ checked_by (map (λ f. f.now) faults.now) text }
{
    match faults {
        [] => Output::Done(text),
        [_, ..] => Output::Refused(text),
    }
}
