//! The options of look-ups, read once for a site.
ghost use Rattle.std.specs.Prelude.{◌≡◌, ℕ, true, List, [], ◌∷◌, IfOk, IfSome, OnOk, option_map};
ghost use Rattle.pp_values.specs.Views.{view};
ghost use Rattle.hiera_config.specs.Found.{source_views};
ghost use Rattle.hiera_config.specs.FileOptions.{is_table, kept_option, option_among};
ghost use Rattle.hiera_config.specs.OptionTables.{KeepsOptions, KeepsTables, PutsOver, are_tables, first_options};
ghost use Rattle.hiera_merge.specs.Digging.{member};
ghost use Rattle.hiera_merge.specs.Merges.{pairs_in};

use crate::literals::is_table;
use crate::planned::sound_sources;
use crate::searching::Source;
use crate::site_data::SiteData;
use pp_values::{Memory, Pairs, Text, Value};
use std::alloc::Global;
use std::collections::BTreeMap;
use std::mem;

/// The key under which data files keep the options of look-ups.
pub const OPTIONS: &str = "lookup_options";

/// For each key what the highest source of the options has for it.
pub struct OptionTable {
    by_key: BTreeMap<Text, Value>,
}

// By hand, so that callers drop it by one call.
impl Drop for OptionTable {
    fn drop(self) {
        let OptionTable { by_key: _by_key } = self;
    }
}

impl OptionTable {
    pub fn get(&self, key: &Text) -> Option<&Value>
        ensures { option_map (λ v. view v.now) result ≡ kept_option self.now key.now }
    {
        self.by_key.get(key)
    }
}

/// The table of a hash.
pub fn table_of(alloc: Global, hash: Value) -> Result<OptionTable, Memory>
    requires { is_table (view hash) ≡ true }
    ensures { IfOk result (λ t. (root : List ℕ) → kept_option t root ≡ member root (view hash)) }
{
    let mut by_key = BTreeMap::new(alloc);
    put_table(alloc, &mut by_key, hash)?;
    Ok(OptionTable { by_key })
}

/// The options of these files, where they are plain from the plans of the layers.
pub fn options_in(alloc: Global, files: &SiteData) -> Result<Option<OptionTable>, Memory>
    ensures { IfOk result (λ o. IfSome o (λ t. KeepsOptions files.now t)) }
{
    match sound_sources(alloc, files, OPTIONS)? {
        Some(sources) => joined_table(alloc, sources),
        None => Ok(None),
    }
}

fn joined_table(alloc: Global, sources: Vec<Source>) -> Result<Option<OptionTable>, Memory>
    ensures { IfOk result (λ o. IfSome o (λ t. KeepsTables (source_views sources.items) t)) }
{
    if are_tables(sources.as_slice()) {
        let by_key = joined(alloc, sources)?;
        Ok(Some(OptionTable { by_key }))
    } else {
        Ok(None)
    }
}

/// Whether the value of each source is a hash in which nothing is interpolated.
fn are_tables(sources: &[Source]) -> bool
    ensures { result ≡ are_tables (source_views sources.now) }
{
    for source in sources {
        if !is_table(&source.value) {
            return false;
        }
    }
    true
}

/// From the lowest table up, so that what a higher one has for a key counts.
fn joined(alloc: Global, sources: Vec<Source>) -> Result<BTreeMap<Text, Value>, Memory>
    requires { are_tables (source_views sources.items) ≡ true }
    ensures { IfOk result (λ m. (root : List ℕ)
        → option_among m.entries root ≡ first_options root (source_views sources.items)) }
{
    let mut by_key = BTreeMap::new(alloc);
    let mut left = sources;
    while let Some(source) = left.pop() {
        put_table(alloc, &mut by_key, source.into_value())?;
    }
    Ok(by_key)
}

fn put_table(alloc: Global, by_key: &mut BTreeMap<Text, Value>, table: Value) -> Result<(), Memory>
    ensures { OnOk result (PutsOver (pairs_in (view table)) by_key.old.entries by_key.new.entries) }
{
    let mut table = table;
    match &mut table {
        Value::Hash(pairs) => put_pairs(alloc, by_key, mem::replace(pairs, Pairs::new(alloc))),
        _ => Ok(()),
    }
}

fn put_pairs(alloc: Global, by_key: &mut BTreeMap<Text, Value>, pairs: Pairs) -> Result<(), Memory>
    ensures { OnOk result (PutsOver pairs by_key.old.entries by_key.new.entries) }
{
    let mut left = pairs.into_vec();
    while let Some((key, value)) = left.pop() {
        put_option(alloc, by_key, &key, value)?;
    }
    Ok(())
}

fn put_option(
    alloc: Global,
    by_key: &mut BTreeMap<Text, Value>,
    key: &Value,
    value: Value,
) -> Result<(), Memory>
    ensures { OnOk result (PutsOver ((view key.now, view value) ∷ []) by_key.old.entries by_key.new.entries) }
{
    match key {
        Value::Text(text) => {
            drop(by_key.insert(text.copy(alloc)?, value)?);
            Ok(())
        }
        _ => Ok(()),
    }
}
