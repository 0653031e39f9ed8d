//! The demo site, and what is asked of it.
ghost use Rattle.std.specs.Prelude.{◌≡◌, ◌++◌, IfOk, OnOk, IsTrue};
ghost use Rattle.pp_values.specs.Facts.{are_facts};
ghost use Rattle.pp_values.specs.Views.{view};
ghost use Rattle.res_core.specs.AskedFacts.{give_facts};
ghost use Rattle.res_core.specs.RequestViews.{asked};
ghost use Rattle.command_outputs.specs.Demo as spec;

use pp_values::{Memory, Pairs, Text, Value};
use res_core::{CompileRequest, Request, Requests};
use site_bundle::{ListedNodes, Site, site_of_main};
use std::alloc::Global;

/// Each node exports itself as a host with the tag of its group, and collects the hosts of its group.
pub const DEMO_MANIFEST: &str =
    "node default { @@host { $trusted['certname']: ip => $facts['ip'], tag => \"g${facts['group']}\" } Host <<| tag == \"g${facts['group']}\" |>> }\n";

/// The most nodes that a demo has.
pub const MOST_DEMO_NODES: u32 = 4096;

/// The demo site of so many nodes.
pub fn demo_site(alloc: Global, nodes: u32) -> Result<Site, Memory>
    ensures { IfOk result (λ s. s ≡ spec.demo_site nodes) }
{
    let manifest = Text::from_str(alloc, DEMO_MANIFEST)?;
    let nodes = demo_nodes(alloc, nodes)?;
    site_of_main(alloc, manifest, nodes)
}

#[tactic(auto, unfolding(crate::specs::Demo::demo_nodes))]
fn demo_nodes(alloc: Global, count: u32) -> Result<ListedNodes, Memory>
    ensures { IfOk result (λ nodes. nodes ≡ spec.demo_nodes count) }
{
    let mut nodes = ListedNodes::new(alloc);
    let mut number = 0;
    while number < count {
        let name = demo_name(alloc, number)?;
        nodes.list(name, demo_facts(alloc, number)?)?;
        number += 1;
    }
    Ok(nodes)
}

fn demo_name(alloc: Global, number: u32) -> Result<Text, Memory>
    ensures { IfOk result (λ name. name ≡ spec.demo_name number) }
{
    Ok(Text::new(format!(in alloc; "n{number}")?))
}

fn demo_facts(alloc: Global, number: u32) -> Result<Value, Memory>
    ensures facts { IfOk result (λ facts. view facts ≡ spec.demo_facts number) }
    ensures shape { IfOk result (λ facts. IsTrue (are_facts (view facts))) }
{
    let mut facts = Pairs::new(alloc);
    let group = Value::Text(Text::from_str(alloc, "group")?);
    facts.put(group, Value::Int(i64::from(number % 16)))?;
    let ip = Value::Text(Text::from_str(alloc, "ip")?);
    facts.put(ip, Value::Text(demo_ip(alloc, number)?))?;
    Ok(Value::Hash(facts))
}

fn demo_ip(alloc: Global, number: u32) -> Result<Text, Memory>
    ensures { IfOk result (λ ip. ip ≡ spec.demo_ip number) }
{
    let higher = number / 256;
    let lower = number % 256;
    Ok(Text::new(format!(in alloc; "10.0.{higher}.{lower}")?))
}

/// What is asked of it: the catalogs of all nodes, in the order of their numbers, and all of them once more.
pub fn demo_requests(alloc: Global, nodes: u32) -> Result<Requests, Memory>
    ensures requests { IfOk result (λ requests. requests ≡ spec.demo_requests nodes) }
    ensures facts { IfOk result (λ requests. IsTrue (give_facts requests)) }
{
    let mut requests = Requests::new(alloc);
    ask_each(alloc, &mut requests, nodes)?;
    ask_each(alloc, &mut requests, nodes)?;
    Ok(requests)
}

#[tactic(auto, unfolding(crate::specs::Demo::once_each))]
fn ask_each(alloc: Global, requests: &mut Requests, nodes: u32) -> Result<(), Memory>
    requires { IsTrue (give_facts requests.old) }
    ensures asked { OnOk result (requests.new ≡ requests.old ++ spec.once_each nodes) }
    ensures facts { OnOk result (IsTrue (give_facts requests.new)) }
{
    let mut number = 0;
    while number < nodes {
        requests.push(demo_request(alloc, number)?)?;
        number += 1;
    }
    Ok(())
}

fn demo_request(alloc: Global, number: u32) -> Result<Request, Memory>
    ensures { IfOk result (λ request. asked request ≡ spec.demo_request number) }
{
    Ok(Request::Compile(CompileRequest {
        node: demo_name(alloc, number)?,
        facts: None,
        seen: 0,
    }))
}
