//! What all workers come back with, as one.
ghost use Rattle.std.specs.Prelude.{◌≡◌, IfOk};
ghost use Rattle.site_core.specs.Each.{Each};
ghost use Rattle.site_batch.specs.Gathered.{IsOf, AreGathered};

use crate::answered::Answered;
use crate::finished::Finished;
use crate::worker::FinishedOf;
use pp_values::Memory;
use shared_site::{SharedSite, SitePass};
use site_core::{Language, Reply};
use work_pool::{ClaimSeat, Claims};

/// A pass and a seat that stand for those of all workers, and all answers, where memory was had to keep each of them.
pub fn gather<L: Language + Drop>(
    site: &SharedSite<L>,
    claims: &Claims,
    mut works: Vec<FinishedOf<L>>,
) -> Result<(SitePass<L>, ClaimSeat, Vec<Answered<Reply<L>>>), Memory>
    requires { Each (IsOf site.now claims.now) works.items }
    ensures gathered { IfOk result (λ r. AreGathered works.items r.0 r.1 r.2.items) }
    ensures of { IfOk result (λ r. (r.0.site ≡ site.now) × (r.1.claims ≡ claims.now)) }
{
    let Some(first) = works.pop() else {
        return Err(Memory);
    };
    let Finished {
        mut pass,
        mut seat,
        answers: kept,
    } = first;
    let Some(mut answers) = kept else {
        return Err(Memory);
    };
    while let Some(next) = works.pop() {
        let Finished {
            pass: other,
            seat: spent,
            answers: given,
        } = next;
        let Some(mut more) = given else {
            return Err(Memory);
        };
        site.join(&mut pass, other);
        claims.join(&mut seat, spent);
        answers.append(&mut more)?;
    }
    Ok((pass, seat, answers))
}
