//! Requests in words.
ghost use Rattle.std.specs.Prelude.{IfOk, IsTrue, option_map};
ghost use Rattle.res_core.specs.RequestViews.{asked};
ghost use Rattle.pp_values.specs.Views.{view};
ghost use Rattle.res_core.specs.AskedFacts.{has_facts, asks_with_facts, give_facts};

use pp_values::{Memory, Text, Value};
use res_core::{CompileRequest, Request, Requests};
use sample_values::no_facts;
use std::alloc::Global;

/// A node of this name asks for its catalog.
pub fn compile(
    alloc: Global,
    node: &str,
    facts: Option<Value>,
    seen: u32,
) -> Result<Request, Memory>
    requires { IsTrue (has_facts (option_map view facts)) }
    ensures { IfOk result (λ r. IsTrue (asks_with_facts (asked r))) }
{
    let node = Text::from_str(alloc, node)?;
    Ok(Request::Compile(CompileRequest { node, facts, seen }))
}

/// A request: `a` with no facts, `+a` with facts that are given, `a/2` by one who has seen 2 entries, `-a` to deactivate.
pub fn request(alloc: Global, words: &str) -> Result<Request, Memory>
    ensures { IfOk result (λ r. IsTrue (asks_with_facts (asked r))) }
{
    if let Some(node) = words.strip_prefix("-") {
        return Ok(Request::Deactivate(Text::from_str(alloc, node)?));
    }
    if let Some(node) = words.strip_prefix("+") {
        return compile(alloc, node, Some(no_facts(alloc)), 0);
    }
    match words.split_once('/') {
        Some((node, seen)) => compile(alloc, node, None, seen.parse().unwrap_or(0)),
        None => compile(alloc, words, None, 0),
    }
}

/// A request for each word.
pub fn requests(alloc: Global, words: &str) -> Result<Requests, Memory>
    ensures { IfOk result (λ r. IsTrue (give_facts r)) }
{
    let mut requests = Requests::new(alloc);
    for word in words.split_whitespace() {
        requests.push(request(alloc, word)?)?;
    }
    Ok(requests)
}
