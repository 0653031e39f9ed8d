ghost use Rattle.std.specs.Prelude.{◌≡◌};
ghost use Rattle.site_serve.specs.Replies.{seen_of};
ghost use Rattle.site_serve.specs.Steps.{asked};

use agent_machine::Report;
use pp_values::Text;
use res_core::CompileRequest;

/// What a request asks of a site.
#[derive(Drop)]
pub(crate) enum Call<S> {
    Compile(CompileRequest),
    Deactivate(Text),
    Deploy(S),
    File(Report),
}

impl<S> Call<S> {
    /// How many entries the sender says that it has seen.
    pub(crate) fn seen(&self) -> u32
        ensures { result ≡ seen_of (asked self.now) }
    {
        match self {
            Call::Compile(request) => request.seen,
            Call::Deactivate(_) => 0,
            Call::Deploy(_) => 0,
            Call::File(_) => 0,
        }
    }
}
