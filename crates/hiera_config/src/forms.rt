//! What stands between `%{` and `}`.
ghost use Rattle.std.specs.Prelude.{◌≡◌, ◌<◌, ◌++◌, length, option_map, codes};
ghost use Rattle.hiera_config.specs.FormView.{form_view};
ghost use Rattle.hiera_config.specs.Pieces.{quoted, argument, argument_of, method_of, form_of};

use crate::cutting::{after_prefix, before_suffix, cut_at};

/// What stands between `%{` and `}`.
#[derive(Clone, Copy)]
pub enum Form<'a> {
    Variable(&'a str),
    LookedUp(&'a str),
    Said(&'a str),
    Alias(&'a str),
    Unlawful,
}

fn quoted<'a>(text: &'a str, quote: &str, end: &str) -> Option<&'a str>
    requires full { 0 < length quote.now }
    requires end { end.now ≡ quote.now ++ codes ")" }
    ensures { option_map (λ t. t.now) result ≡ quoted quote.now text.now }
{
    let inner = before_suffix(after_prefix(text, quote)?, end)?;
    if cut_at(inner, quote).is_some() {
        return None;
    }
    Some(inner)
}

fn argument(text: &str) -> Option<&str>
    ensures { option_map (λ t. t.now) result ≡ argument text.now }
{
    match quoted(text, "'", "')") {
        Some(inner) => Some(inner),
        None => quoted(text, "\"", "\")"),
    }
}

fn argument_of<'a>(text: &'a str, method: &str) -> Option<&'a str>
    ensures { option_map (λ t. t.now) result ≡ argument_of method.now text.now }
{
    argument(after_prefix(text, method)?)
}

#[tactic(auto, unfolding(crate::specs::Pieces::method_of))]
fn method_of(text: &str) -> Form<'_>
    ensures { form_view result ≡ method_of text.now }
{
    if let Some(name) = argument_of(text, "scope(") {
        return Form::Variable(name);
    }
    if let Some(key) = argument_of(text, "lookup(") {
        return Form::LookedUp(key);
    }
    if let Some(key) = argument_of(text, "hiera(") {
        return Form::LookedUp(key);
    }
    if let Some(text) = argument_of(text, "literal(") {
        return Form::Said(text);
    }
    match argument_of(text, "alias(") {
        Some(key) => Form::Alias(key),
        None => Form::Unlawful,
    }
}

#[tactic(auto, unfolding(crate::specs::Pieces::form_of))]
pub fn form_of(text: &str) -> Form<'_>
    ensures { form_view result ≡ form_of text.now }
{
    if cut_at(text, "(").is_some() {
        method_of(text)
    } else {
        Form::Variable(text)
    }
}
