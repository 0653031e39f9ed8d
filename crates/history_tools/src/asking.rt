//! What a round asks a site for.
ghost use Rattle.std.specs.Prelude.{◌≡◌, take, IfOk};
ghost use Rattle.res_core.specs.Asked.{compile};
ghost use Rattle.res_core.specs.RequestViews.{asked};
ghost use Rattle.history_tools.specs.Rounds.{wanted_of, asked_of};

use pp_values::{Memory, Text, Texts};
use res_core::{CompileRequest, Request, Requests};
use std::alloc::Global;

/// A request for each of the first so many nodes, by the facts that the site lists.
pub fn compile_requests(alloc: Global, nodes: &Texts, most: usize) -> Result<Requests, Memory>
    ensures { IfOk result (λ r. r ≡ asked_of (take most nodes.now)) }
{
    let mut requests = Requests::new(alloc);
    for node in first_of(nodes.as_slice(), most) {
        requests.push(compile_request(alloc, node)?)?;
    }
    Ok(requests)
}

fn first_of(nodes: &[Text], most: usize) -> &[Text]
    ensures { result.now ≡ take most nodes.now }
{
    if nodes.len() <= most {
        nodes
    } else {
        &nodes[..most]
    }
}

fn compile_request(alloc: Global, node: &Text) -> Result<Request, Memory>
    ensures { IfOk result (λ r. asked r ≡ compile (wanted_of node.now)) }
{
    Ok(Request::Compile(CompileRequest {
        node: node.copy(alloc)?,
        facts: None,
        seen: 0,
    }))
}
