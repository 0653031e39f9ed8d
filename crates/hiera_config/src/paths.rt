//! Paths of data files.
ghost use Rattle.std.specs.Prelude.{◌≡◌, ◌++◌, IfOk, OnOk, codes, string_bytes};
ghost use Rattle.pp_values.specs.declared.fault.What.TheVariants as what;
ghost use Rattle.hiera_config.specs.Meant.{MeetsBy, Tells, in_turn};
ghost use Rattle.hiera_config.specs.Pieces.{path_form, path_pieces};
ghost use Rattle.hiera_config.specs.Seen.{names_seen};
ghost use Rattle.hiera_config.specs.Variables.{path_piece, variable, text_or_none};
ghost use Rattle.hiera_config.specs.Sources.{path_of};
ghost use Rattle.hiera_config.specs.Written.{piece_in};

use crate::config::Level;
use crate::cutting::{cut_at, trimmed};
use crate::names::Names;
use crate::refused::{Refused, bad_interpolation};
use crate::template::Template;
use pp_values::{Memory, Text, write_value};
use std::alloc::Global;

/// Writes the path of a data file in place of what `path` says: the configuration's folder, the level's folder, and
/// what the template says.
pub fn write_path(
    alloc: Global,
    names: &Names<'_>,
    folder: &str,
    level: &Level,
    template: &Template,
    path: &mut String,
) -> Result<(), Refused>
    ensures { MeetsBy (λ u. string_bytes path.new) result
        (path_of (names_seen names.now) folder.now level.now template.now) }
{
    path.clear();
    path.push_str(folder)?;
    add_template(alloc, names, path, &level.folder)?;
    path.push_str("/")?;
    add_template(alloc, names, path, template)
}

/// Appends the template with its variables filled in. Most have none.
fn add_template(
    alloc: Global,
    names: &Names<'_>,
    out: &mut String,
    template: &Template,
) -> Result<(), Refused>
    ensures { MeetsBy (λ u. string_bytes out.new) result
        (in_turn (path_piece (names_seen names.now)) (string_bytes out.old) (path_pieces template.now)) }
{
    match template.plain() {
        Some(text) => Ok(out.push_str(text)?),
        None => add_text(alloc, names, out, template.as_str()),
    }
}

/// Appends the text with its variables filled in, without a copy of its pieces.
fn add_text(alloc: Global, names: &Names<'_>, out: &mut String, text: &str) -> Result<(), Refused>
    ensures { MeetsBy (λ u. string_bytes out.new) result
        (in_turn (path_piece (names_seen names.now)) (string_bytes out.old) (path_pieces text.now)) }
{
    let mut rest = text;
    while let Some((before, behind)) = cut_at(rest, "%{") {
        out.push_str(before)?;
        let Some((inner, after)) = cut_at(behind, "}") else {
            return Err(broken(alloc, behind));
        };
        add_form(alloc, names, out, trimmed(inner), behind)?;
        rest = after;
    }
    out.push_str(rest)?;
    Ok(())
}

/// Appends what stands between `%{` and `}`: in a path only variables are lawful.
#[tactic(auto, unfolding(crate::specs::Pieces::path_form))]
fn add_form(
    alloc: Global,
    names: &Names<'_>,
    out: &mut String,
    inner: &str,
    behind: &str,
) -> Result<(), Refused>
    ensures { MeetsBy (λ u. string_bytes out.new) result
        (path_piece (names_seen names.now) (string_bytes out.old) (piece_in behind.now (path_form inner.now))) }
{
    if cut_at(inner, "(").is_some() {
        return Err(broken(alloc, behind));
    }
    Ok(write_variable(alloc, names, out, inner)?)
}

/// The fault of an interpolation that is none, by what stands behind its `%{`.
fn broken(alloc: Global, behind: &str) -> Refused
    ensures { Tells result (what.BadInterpolation (codes "%{" ++ behind.now)) }
{
    match opened(alloc, behind) {
        Ok(text) => bad_interpolation(alloc, text.as_str()),
        Err(Memory) => Refused::Memory,
    }
}

fn opened(alloc: Global, behind: &str) -> Result<Text, Memory>
    ensures { IfOk result (λ t. t ≡ codes "%{" ++ behind.now) }
{
    let mut text = String::from_str(alloc, "%{")?;
    text.push_str(behind)?;
    Ok(Text::new(text))
}

fn write_variable(
    alloc: Global,
    names: &Names<'_>,
    out: &mut String,
    name: &str,
) -> Result<(), Memory>
    ensures { OnOk result (string_bytes out.new
        ≡ string_bytes out.old ++ text_or_none (variable (names_seen names.now) name.now)) }
{
    match names.value(alloc, name)? {
        Some(value) => write_value(out, value),
        None => Ok(()),
    }
}
