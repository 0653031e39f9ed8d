//! What the callers of a site hold.
ghost use Rattle.std.specs.Prelude.{◌≡◌, ◌≤◌, ◌+◌, length, Some, slice_get};
ghost use Rattle.hist_lock.specs.Calls.{AreCalls};
ghost use Rattle.site_core.specs.declared.history.TheConstants.{MOST_ENTRIES};
ghost use Rattle.site_core.specs.Events.{author_of};
ghost use Rattle.site_core.specs.Legal.{Legal};
ghost use Rattle.shared_site.specs.Known.{held};

use crate::locked::Locked;
use hist_lock::{Note, Pass};
use site_core::Language;
use std::marker::Model;

/// The right to call a site as one author, and what its holder has seen of the history and added to it. What it has
/// seen is legal. A pass that is dropped keeps the site from being closed.
#[derive(Drop)]
pub struct SitePass<L: Language> {
    pub(crate) pass: Pass<Locked<L>>,
    pub(crate) count: u32,
    pub(crate) author: u32,
}

impl<L: Language> Model for SitePass<L> {
    ghost use Rattle.shared_site.specs.Known.{Known, coded_known};

    ghost Value = { Known L.Site };

    ghost coded = { coded_known L.Site.code };

    ghost use Rattle.shared_site.specs.Seats.{known, IsReady};

    ghost view = { λ p. known p.pass };

    ghost invariant = { λ p. IsReady L.meaning p.pass p.count p.author };
}

impl<L: Language> SitePass<L> {
    /// What is true of every pass. It does nothing.
    pub fn keeps(&self)
        ensures legal { Legal L.meaning self.now.front }
        ensures few { length self.now.front ≤ self.now.terms.limit }
        ensures bounded { self.now.terms.limit ≤ MOST_ENTRIES }
        ensures given { self.now.terms.given ≤ length self.now.front }
        ensures own { AreCalls author_of self.now.own self.now.numbers self.now.front }
        ensures author { slice_get self.now.numbers 0 ≡ Some self.now.author }
        ensures authors { self.now.room + held self.now ≤ 65536 }
    {
        self.pass.keeps();
    }

    /// The number of its own author.
    pub fn author(&self) -> u32
        ensures { result ≡ self.now.author }
    {
        self.author
    }

    /// How many entries it has seen. It takes no turn.
    pub fn seen(&self) -> u32
        ensures { result ≡ length self.now.front }
    {
        self.count
    }
}

/// What a pass had seen, for another pass.
#[derive(Drop)]
pub struct SiteNote<L: Language> {
    pub(crate) note: Note<Locked<L>>,
    pub(crate) count: u32,
}

impl<L: Language> Model for SiteNote<L> {
    ghost use Rattle.shared_site.specs.Known.{Told, coded_told};

    ghost Value = { Told L.Site };

    ghost coded = { coded_told L.Site.code };

    ghost use Rattle.shared_site.specs.Seats.{noted, IsHeard};

    ghost view = { λ n. noted n.note };

    ghost invariant = { λ n. IsHeard L.meaning n.note n.count };
}
