//! The line that opens a site, with which what was read is compared.
ghost use Rattle.std.specs.Prelude.{◌≡◌, ◌++◌, codes, true, IfOk, string_bytes};
ghost use Rattle.serde_json.specs.Written.{compact_text};
ghost use Rattle.site_docs.specs.SiteText.{site_data, site_text as text_of_site};
ghost use Rattle.site_docs.specs.JournalText.{opening_object as object_of_opening};
ghost use Rattle.journal_reading.specs.JournalLines.{opening_data};

use pp_values::{Memory, Text};
use site_bundle::Site;
use site_docs::site_text;
use std::alloc::Global;

/// The line that opens the site, in the first version or in the second.
pub fn opening_line(alloc: Global, first: bool, site: &Site) -> Result<Text, Memory>
    ensures { IfOk result (λ t. t ≡ compact_text (opening_data first site.now)) }
{
    if first {
        first_line(alloc, site)
    } else {
        numbered_opening(alloc, 0, site)
    }
}

#[tactic(auto, using(crate::proofs::LineTexts::first_text))]
fn first_line(alloc: Global, site: &Site) -> Result<Text, Memory>
    ensures { IfOk result (λ t. t ≡ compact_text (opening_data true site.now)) }
{
    let front = "{\"entry\":0,\"journal\":1,\"kind\":\"open\",\"site\":";
    let line = with_site(alloc, String::from_str(alloc, front)?, site)?;
    Ok(line)
}

#[tactic(auto, using(crate::proofs::LineTexts::opening_text))]
fn numbered_opening(alloc: Global, number: u32, site: &Site) -> Result<Text, Memory>
    ensures { IfOk result (λ t. t ≡ compact_text (object_of_opening number (site_data site.now))) }
{
    let front = format!(in alloc;
        "{{\"entry\":{number},\"journal\":2,\"kind\":\"open\",\"site\":"
    )?;
    let line = with_site(alloc, front, site)?;
    Ok(line)
}

/// The line of which the site is the last member.
fn with_site(alloc: Global, front: String, site: &Site) -> Result<Text, Memory>
    ensures { IfOk result (λ t. t ≡ string_bytes front ++ (text_of_site site.now ++ codes "}")) }
{
    let mut line = front;
    line.push_str(site_text(alloc, site)?.as_str())?;
    line.push_str("}")?;
    Ok(Text::new(line))
}
