//! Entries: changes of the registrations, and the observers that they make due (RFC 9176 section 5,
//! RFC 7641 section 1.3).
ghost use Rattle.std.specs.Prelude.{◌≡◌, ◌∷◌, [], ℕ, Bool, List};
ghost use Rattle.std.specs.Arc.{arc_value};
ghost use Rattle.rd_base.specs.declared.peers.Peer.{Peer};
ghost use Rattle.history_model.specs.declared.entries.Entry.{Entry};
ghost use Rattle.event_model.specs.declared.notes.Note.TheVariants as note;
ghost use Rattle.journal_model.specs.declared.steps.Step.{Step};
ghost use Rattle.journal_model.specs.declared.rows.Row.{Row};
ghost use Rattle.journal_model.specs.Effects.{Effects, joined, noting};
ghost use Rattle.journal_model.specs.Journal.{entries};
ghost use Rattle.journal_model.specs.Rows.{row_moment};
ghost use Rattle.coap_answers.specs.declared.mids.Mids.{Mids};
ghost use Rattle.rd_desk.specs.parts.Outcomes.{IsEntering, IsReadyAt};
ghost use Rattle.rd_desk.specs.parts.UnderWay.{UnderWay};

use crate::tables::Tables;
use crate::write::outcomes::Entering;
use std::mem;

impl Tables {
    /// Makes an entry that is ready: the version with it replaces the one before. An observer
    /// becomes due if the registration of the entry now contributes other lines to its query. Does
    /// not allocate.
    pub(crate) fn enter(&mut self, entering: Entering)
        requires { IsReadyAt self.old.moment entering }
        ensures way { (rows : List Row) (s : Step) (starved : Bool) (done : Effects) (entry : Entry)
            (out : List (Peer
            × List ℕ)) (mids : Mids)
            → done.notes ≡ []
            → entry.moment.0 ≡ row_moment rows s
            → IsEntering (entries rows) self.old.version.swept entry entering
            → UnderWay rows s starved done self.old out mids
            → UnderWay rows s starved (joined done (noting (note.Entered entry ∷ []))) self.new out
            mids }
        ensures version { self.new.version ≡ arc_value entering.version }
    {
        let Entering {
            version,
            number,
            kind,
        } = entering;
        let before = mem::replace(&mut self.version, version);
        self.watching.enter(
            kind,
            before.record_of(number, self.moment),
            self.version.record_of(number, self.moment),
        );
    }
}
