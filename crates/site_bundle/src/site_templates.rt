//! The templates of a site.
ghost use Rattle.std.specs.Prelude.{◌≡◌, [], is_ok, if◌then◌else◌, IfOk};
ghost use Rattle.site_bundle.specs.Templates.{is_in_templates, is_template_path, with_template, with_templates};

use epp_text::Templates;
use hiera_config::SiteData;
use pp_values::{Memory, Text};
use site_io::after_front;
use std::alloc::Global;

/// The templates among the files of a site that are no manifests, each parsed once.
pub fn read_templates(alloc: Global, files: &SiteData) -> Result<Templates, Memory>
    ensures { IfOk result (λ templates. templates ≡ with_templates [] files.now) }
{
    let mut templates = Templates::new(alloc);
    for (path, file) in files.as_map() {
        read_template(alloc, &mut templates, path, &file.text)?;
    }
    Ok(templates)
}

/// Parses the file and keeps it, where it may be named to `epp`.
fn read_template(
    alloc: Global,
    templates: &mut Templates,
    path: &Text,
    text: &Text,
) -> Result<(), Memory>
    ensures { templates.new ≡ (if is_ok result then with_template templates.old path.now text.now else templates.old) }
{
    if is_template_path(path.as_str()) {
        templates.read(alloc, path, text)
    } else {
        Ok(())
    }
}

/// Whether `epp` may name the file at this path: it lies below `templates/` of a module.
fn is_template_path(path: &str) -> bool
    ensures { result ≡ is_template_path path.now }
{
    match after_front(path, "modules/") {
        Some(rest) => is_in_templates(rest),
        None => false,
    }
}

/// Whether what stands behind the module's name begins with the folder of templates.
fn is_in_templates(rest: &str) -> bool
    ensures { result ≡ is_in_templates rest.now }
{
    match rest.split_once('/') {
        Some((_module, name)) => name.starts_with("templates/"),
        None => false,
    }
}
