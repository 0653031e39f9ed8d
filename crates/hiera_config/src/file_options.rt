//! The options of look-ups that one file has.
ghost use Rattle.std.specs.Prelude.{◌≡◌, false, IfOk, Some, option_map, option_and_then};
ghost use Rattle.pp_values.specs.Views.{view};
ghost use Rattle.serde_json.specs.View.{view as json_view};
ghost use Rattle.hiera_config.specs.Documents.{strict};
ghost use Rattle.hiera_config.specs.FileOptions.{KeepsFile, Keeps, is_plain_member, is_table};

use crate::literals::is_table;
use crate::option_table::{OPTIONS, OptionTable, table_of};
use json_values::{DataStop, Numbers, from_data};
use pp_values::{Memory, Value};
use serde_json::Value as Json;
use std::alloc::Global;

/// The options of look-ups that a file has, where it is plain what they say.
pub struct FileOptions {
    /// The file is a document, and its options, if it has any, are a hash in which nothing is interpolated.
    pub are_plain: bool,
    /// That hash, for each key.
    pub table: Option<OptionTable>,
}

// By hand, so that callers drop it by one call.
impl Drop for FileOptions {
    fn drop(self) {
        let FileOptions {
            are_plain: _are_plain,
            table: _table,
        } = self;
    }
}

pub fn options_of(alloc: Global, json: &Option<Json>) -> Result<FileOptions, Memory>
    ensures { IfOk result (λ o. KeepsFile (option_map json_view json.now) o) }
{
    match json {
        Some(json) => options_of_json(alloc, json),
        None => Ok(not_plain()),
    }
}

fn options_of_json(alloc: Global, json: &Json) -> Result<FileOptions, Memory>
    ensures { IfOk result (λ o. KeepsFile (Some (json_view json.now)) o) }
{
    if json.is_object() {
        options_of_member(alloc, json.get(OPTIONS))
    } else {
        Ok(not_plain())
    }
}

fn options_of_member(alloc: Global, member: Option<&Json>) -> Result<FileOptions, Memory>
    ensures { IfOk result (λ o. Keeps (is_plain_member (option_map (λ j. json_view j.now) member.entry))
        (option_and_then strict (option_map (λ j. json_view j.now) member.entry)) o) }
{
    match member {
        Some(member) => match from_data(alloc, member, Numbers::Strict) {
            Ok(value) => options_of_value(alloc, value),
            Err(DataStop::Number) => Ok(not_plain()),
            Err(DataStop::Memory) => Err(Memory),
        },
        None => Ok(FileOptions {
            are_plain: true,
            table: None,
        }),
    }
}

fn options_of_value(alloc: Global, value: Value) -> Result<FileOptions, Memory>
    ensures { IfOk result (λ o. Keeps (is_table (view value)) (Some (view value)) o) }
{
    if is_table(&value) {
        Ok(FileOptions {
            are_plain: true,
            table: Some(table_of(alloc, value)?),
        })
    } else {
        Ok(not_plain())
    }
}

fn not_plain() -> FileOptions
    ensures { result.are_plain ≡ false }
{
    FileOptions {
        are_plain: false,
        table: None,
    }
}
