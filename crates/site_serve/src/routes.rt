//! Which path names what.
ghost use Rattle.std.specs.Prelude.{◌≡◌, IfOk};
ghost use Rattle.site_serve.specs.Endpoints.{endpoint_of, node_behind, site_at};
ghost use Rattle.site_serve.specs.Steps.{known_routes, route_of, named_by};

use crate::endpoint::Endpoint;
use matchit::{InsertError, Router};
use pp_values::{Memory, Text};
use site_io::after_front;
use std::alloc::Global;
use word_rules::is_node_name;

/// Which form a path has.
#[derive(Clone, Copy, Debug, PartialEq, Eq)]
pub(crate) enum Route {
    Catalog,
    Node,
    Report,
    Site,
}

/// The forms of paths.
#[derive(Drop)]
pub(crate) struct Routes {
    router: Router<Route>,
    ghost known: { router ≡ known_routes },
}

impl Routes {
    pub(crate) fn new(alloc: Global) -> Result<Routes, InsertError> {
        let router = router(alloc)?;
        Ok(Routes { router })
    }

    /// What the path names.
    pub(crate) fn endpoint(&self, alloc: Global, path: &str) -> Result<Option<Endpoint>, Memory>
        ensures { IfOk result (λ endpoint. endpoint ≡ endpoint_of path.now) }
    {
        named_by(alloc, self.route(path), path)
    }

    fn route(&self, path: &str) -> Option<Route>
        ensures { result ≡ route_of path.now }
    {
        match self.router.at(path) {
            Ok(found) => Some(*found.value),
            Err(_) => None,
        }
    }
}

fn router(alloc: Global) -> Result<Router<Route>, InsertError>
    ensures { IfOk result (λ router. router ≡ known_routes) }
{
    let mut router = Router::new(alloc);
    router.insert("/catalog/{node}", Route::Catalog)?;
    router.insert("/node/{node}", Route::Node)?;
    router.insert("/report/{node}", Route::Report)?;
    router.insert("/site", Route::Site)?;
    Ok(router)
}

/// What a path of this form names: nothing where the name of a node is due and there is none.
fn named_by(alloc: Global, route: Option<Route>, path: &str) -> Result<Option<Endpoint>, Memory>
    ensures { IfOk result (λ endpoint. endpoint ≡ named_by route path.now) }
{
    match route {
        Some(Route::Catalog) => match node_behind(alloc, "/catalog/", path)? {
            Some(node) => Ok(Some(Endpoint::Catalog(node))),
            None => Ok(None),
        },
        Some(Route::Node) => match node_behind(alloc, "/node/", path)? {
            Some(node) => Ok(Some(Endpoint::Node(node))),
            None => Ok(None),
        },
        Some(Route::Report) => match node_behind(alloc, "/report/", path)? {
            Some(node) => Ok(Some(Endpoint::Report(node))),
            None => Ok(None),
        },
        Some(Route::Site) => Ok(site_at(path)),
        None => Ok(None),
    }
}

fn site_at(path: &str) -> Option<Endpoint>
    ensures { result ≡ site_at path.now }
{
    if path == "/site" {
        Some(Endpoint::Site)
    } else {
        None
    }
}

/// The name of a node that is all that stands behind this front.
fn node_behind(alloc: Global, front: &str, path: &str) -> Result<Option<Text>, Memory>
    ensures { IfOk result (λ node. node ≡ node_behind front.now path.now) }
{
    match after_front(path, front) {
        Some(node) if is_node_name(node) => Ok(Some(Text::from_str(alloc, node)?)),
        _ => Ok(None),
    }
}
