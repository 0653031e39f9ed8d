ghost use Rattle.std.specs.Prelude.{◌≡◌};
ghost use Rattle.site_serve.specs.Endpoints.{method_of};

use pp_values::Text;

/// What a path names.
#[derive(Drop)]
pub(crate) enum Endpoint {
    /// The catalog of this node.
    Catalog(Text),
    Node(Text),
    /// The reports of this node.
    Report(Text),
    /// The site in force.
    Site,
}

impl Endpoint {
    /// The one method that it takes.
    pub(crate) fn method(&self) -> &'static str
        ensures { result.now ≡ method_of self.now }
    {
        match self {
            Endpoint::Catalog(_) => "POST",
            Endpoint::Node(_) => "DELETE",
            Endpoint::Report(_) => "POST",
            Endpoint::Site => "PUT",
        }
    }
}
