//! Texts as lines.
ghost use Rattle.std.specs.Prelude.{◌≡◌, ◌∷◌, [], ◌++◌, false, map, option_map, IfOk};
ghost use Rattle.serde_json.specs.Data.{string};
ghost use Rattle.serde_json.specs.Read.{read};
ghost use Rattle.serde_json.specs.View.{view as json_view};
ghost use Rattle.serde_json.specs.Written.{compact_text, has_float};
ghost use Rattle.json_documents.specs.LinesOfText.{cut_line};

use pp_values::{Memory, Text};
use serde_json::Value as Json;
use std::alloc::Global;

/// The text with a line feed at its end.
pub fn ended(alloc: Global, text: Text) -> Result<Text, Memory>
    ensures { IfOk result (λ t. t ≡ text ++ 10 ∷ []) }
{
    let mut string = text.into_string(alloc)?;
    string.push('\n')?;
    Ok(Text::new(string))
}

/// The line up to the first line feed, and what stands behind it.
pub fn cut_line(text: &str) -> Option<(&str, &str)>
    ensures { option_map (λ p. (p.0.now, p.1.now)) result ≡ cut_line text.now }
{
    text.split_once('\n')
}

/// The JSON as compact text.
pub fn json_text(alloc: Global, value: &Json) -> Result<Text, Memory>
    requires { has_float (json_view value.now) ≡ false }
    ensures { IfOk result (λ t. t ≡ compact_text (json_view value.now)) }
{
    Ok(Text::new(value.to_string(alloc)?))
}

/// Each text as JSON.
pub fn text_forms(alloc: Global, texts: &[Text]) -> Result<Vec<Json>, Memory>
    ensures { IfOk result (λ v. map json_view v.items ≡ map string texts.now) }
{
    let mut values = Vec::new(alloc);
    let mut left = texts;
    while let [text, after @ ..] = left {
        values.push(Json::try_from_str(alloc, text.as_str())?)?;
        left = after;
    }
    Ok(values)
}

/// The JSON value that a line is.
pub fn read_json(alloc: Global, line: &str) -> Result<Option<Json>, Memory>
    ensures { IfOk result (λ o. option_map json_view o ≡ read line.now) }
{
    match Json::from_str(alloc, line) {
        Ok(value) => Ok(Some(value)),
        Err(error) if error.is_memory() => Err(Memory),
        Err(_) => Ok(None),
    }
}
