ghost use Rattle.std.specs.Prelude.{◌≡◌, ◌∷◌, ◌++◌, [], ℕ, List, true, map, filter, if◌then◌else◌, IfOk, OnOk};
ghost use Rattle.std.specs.List.{list_all};
ghost use Rattle.pp_values.specs.Rising.{has_text, is_rising, sorted, with_texts};
ghost use Rattle.res_core.specs.TagNames.{is_word_byte as word_byte, is_tag_byte as tag_byte, is_taggable as taggable, is_filled, is_lower_byte as lower_byte, segments, with_segments, lowered, names, tags, AddsTexts, TagsAreTheSet};

use crate::tags::Tags;
use pp_values::{Memory, Text, Texts};
use std::alloc::Global;

/// How many names there is room for from the beginning.
const OWN_TAGS: usize = 6;

/// How many names are put at their places one by one. A title of strangers may have 700,000 segments.
const FEW_NAMES: usize = 32;

/// The tags of a resource of this kind and title that has these texts in its attribute `tag` and
/// stands in a resource with the container's tags. The tags of a class are those of kind `class`.
///
/// All are in lower case, as far as their letters are ASCII.
pub fn tags_of(
    alloc: Global,
    kind: &Text,
    title: &Text,
    given: &Texts,
    container: &Tags,
) -> Result<Tags, Memory>
    ensures { IfOk result (λ t. t ≡ tags kind.now title.now given.now container.now) }
{
    let own = own_names(alloc, kind, title, given)?;
    let all = lowered_tags(alloc, container, own.len())?;
    with_names(all, own)
}

/// The names that it has besides its container's tags, in lower case.
fn own_names(alloc: Global, kind: &Text, title: &Text, given: &Texts) -> Result<Vec<Text>, Memory>
    ensures { IfOk result (λ v. (t : List ℕ) → has_text v.items t
        ≡ has_text (map lowered (names kind.now title.now given.now [])) t) }
{
    let mut own = Vec::with_capacity(alloc, OWN_TAGS)?;
    put_all(alloc, &mut own, given.as_slice())?;
    put_title(alloc, &mut own, title.as_str())?;
    put_with_segments(alloc, &mut own, kind.as_str())?;
    Ok(own)
}

/// The tags in lower case, with room for so many more. Mostly they are in lower case already, and so stay in order.
fn lowered_tags(alloc: Global, tags: &Tags, more: usize) -> Result<Tags, Memory>
    ensures rising { IfOk result (λ t. is_rising t ≡ true) }
    ensures names { IfOk result (λ t. (q : List ℕ) → has_text t q ≡ has_text (map lowered tags.now) q) }
{
    if are_all_lower(tags.as_slice()) {
        return tags.copy_with_room(alloc, more);
    }
    let mut all = Vec::new(alloc);
    put_all(alloc, &mut all, tags.as_slice())?;
    Ok(in_order(all))
}

fn are_all_lower(texts: &[Text]) -> bool
    ensures { result ≡ list_all (list_all lower_byte) texts.now }
{
    texts.iter().all(|text| are_lower(text.as_str().as_bytes()))
}

/// The tags with each of these names at its place.
fn with_names(tags: Tags, names: Vec<Text>) -> Result<Tags, Memory>
    ensures { IfOk result (λ t. t ≡ with_texts tags names.items) }
{
    if names.len() > FEW_NAMES {
        return with_many(tags, names);
    }
    with_few(tags, names)
}

/// Each name is searched for: few of them are put among the tags sooner than all are sorted.
fn with_few(tags: Tags, names: Vec<Text>) -> Result<Tags, Memory>
    ensures { IfOk result (λ t. t ≡ with_texts tags names.items) }
{
    let mut all = tags;
    for name in names {
        all.add(name)?;
    }
    Ok(all)
}

fn with_many(tags: Tags, names: Vec<Text>) -> Result<Tags, Memory>
    ensures { IfOk result (λ t. t ≡ with_texts tags names.items) }
{
    let mut all = tags.into_vec();
    let mut names = names;
    all.append(&mut names)?;
    Ok(in_order(all))
}

/// These texts in rising order, each once.
fn in_order(texts: Vec<Text>) -> Tags
    ensures { result ≡ sorted texts.items }
{
    let mut texts = texts;
    texts.sort_unstable();
    texts.dedup();
    Tags::from_vec(texts)
}

/// What `tags_of` gives is the one list that rises and holds exactly the names, in lower case.
pub fn tags_are_the_set()
    ensures { TagsAreTheSet }
{}

/// Whether a title may be a tag: it begins with an ASCII letter, a digit or `_`, and holds nothing
/// but these, `:`, `.` and `-`.
fn is_taggable(title: &str) -> bool
    ensures { result ≡ taggable title.now }
{
    match title.as_bytes() {
        [first, others @ ..] => is_word_byte(*first) && all_in_tags(others),
        [] => false,
    }
}

fn all_in_tags(bytes: &[u8]) -> bool
    ensures { result ≡ list_all tag_byte bytes.now }
{
    bytes.iter().all(|b| is_tag_byte(*b))
}

#[tactic(auto, unfolding(crate::specs::TagNames::is_word_byte))]
fn is_word_byte(byte: u8) -> bool
    ensures { result ≡ word_byte byte }
{
    byte.is_ascii_alphanumeric() || byte == b'_'
}

#[tactic(auto, unfolding(crate::specs::TagNames::is_tag_byte))]
fn is_tag_byte(byte: u8) -> bool
    ensures { result ≡ tag_byte byte }
{
    is_word_byte(byte) || byte == b':' || byte == b'.' || byte == b'-'
}

fn are_lower(bytes: &[u8]) -> bool
    ensures { result ≡ list_all lower_byte bytes.now }
{
    bytes.iter().all(|b| !b.is_ascii_uppercase())
}

/// The name in lower case. A short one takes memory only where it was not in lower case before.
#[tactic(auto, using(crate::proofs::NameLemmas::lowered_stays))]
fn lowered(alloc: Global, name: &str) -> Result<Text, Memory>
    ensures { IfOk result (λ t. t ≡ lowered name.now) }
{
    if are_lower(name.as_bytes()) {
        return Text::from_str(alloc, name);
    }
    let mut tag = String::from_str(alloc, name)?;
    tag.make_ascii_lowercase();
    Text::from_str(alloc, tag.as_str())
}

fn put_tag(alloc: Global, all: &mut Vec<Text>, name: &str) -> Result<(), Memory>
    ensures { OnOk result (all.new.items ≡ all.old.items ++ lowered name.now ∷ []) }
{
    all.push(lowered(alloc, name)?)?;
    Ok(())
}

fn put_all(alloc: Global, all: &mut Vec<Text>, names: &[Text]) -> Result<(), Memory>
    ensures { OnOk result (all.new.items ≡ all.old.items ++ map lowered names.now) }
{
    for name in names {
        put_tag(alloc, all, name.as_str())?;
    }
    Ok(())
}

fn put_title(alloc: Global, all: &mut Vec<Text>, title: &str) -> Result<(), Memory>
    ensures { OnOk result (AddsTexts all.old.items all.new.items
        (map lowered (if taggable title.now then with_segments title.now else []))) }
{
    if is_taggable(title) {
        return put_with_segments(alloc, all, title);
    }
    Ok(())
}

/// A name without `::` is its only segment, and is put once.
fn put_with_segments(alloc: Global, all: &mut Vec<Text>, name: &str) -> Result<(), Memory>
    ensures { OnOk result (AddsTexts all.old.items all.new.items (map lowered (with_segments name.now))) }
{
    put_tag(alloc, all, name)?;
    if let Some((first, others)) = name.split_once("::") {
        put_if_filled(alloc, all, first)?;
        put_segments(alloc, all, others)?;
    }
    Ok(())
}

fn put_segments(alloc: Global, all: &mut Vec<Text>, name: &str) -> Result<(), Memory>
    ensures { OnOk result (all.new.items
        ≡ all.old.items ++ map lowered (filter is_filled (segments name.now))) }
{
    let mut rest = name;
    while let Some((segment, after)) = rest.split_once("::") {
        put_if_filled(alloc, all, segment)?;
        rest = after;
    }
    put_if_filled(alloc, all, rest)?;
    Ok(())
}

fn put_if_filled(alloc: Global, all: &mut Vec<Text>, segment: &str) -> Result<(), Memory>
    ensures { OnOk result (all.new.items
        ≡ all.old.items ++ map lowered (filter is_filled (segment.now ∷ []))) }
{
    if segment.is_empty() {
        return Ok(());
    }
    put_tag(alloc, all, segment)
}
