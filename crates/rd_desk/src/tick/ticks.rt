//! The tick, which does what becomes due as time passes (RFC 7252 section 4.2, RFC 7641 sections
//! 1.3 and 4.5, RFC 9176 section 5).
ghost use Rattle.std.specs.Prelude.{◌≡◌, ◌<◌, ◌≤◌, ◌^◌, [], ℕ, Bool, false, List, IfOk};
ghost use Rattle.std.specs.Arc.{arc_value};
ghost use Rattle.rd_base.specs.declared.peers.Peer.{Peer as Endpoint};
ghost use Rattle.history_model.specs.declared.entries.Entry.{Entry};
ghost use Rattle.history_model.specs.Versions.{VersionStandsFor};
ghost use Rattle.journal_model.specs.declared.steps.Step.{Step};
ghost use Rattle.journal_model.specs.declared.steps.StepKind.TheVariants as step;
ghost use Rattle.journal_model.specs.declared.rows.Row.{Row};
ghost use Rattle.journal_model.specs.Rows.{row, row_moment};
ghost use Rattle.journal_model.specs.Effects.{Effects};
ghost use Rattle.coap_answers.specs.declared.mids.Mids.{Mids as Drawn};
ghost use Rattle.rd_desk.specs.calls.Stepping.{is_starved_step};
ghost use Rattle.rd_desk.specs.calls.Ticking.{tick_takes_memory};
ghost use Rattle.rd_desk.specs.parts.UnderWay.{UnderWay};
ghost use Rattle.rd_desk.specs.calls.Steps.{IsCalled, Made};

use crate::tables::Tables;
use crate::{Mids, Outbox, Stepped};
use directory_core::Directory;
use rd_base::{Moment, Starved, Steps};
use std::alloc::Global;
use std::marker::Brand;
use std::sync::Arc;
use std::sync::ledger::{Blank, Ledger};

/// Returns the version without registrations that have lapsed at a moment.
fn swept<L: Ledger>(
    blank: Blank,
    alloc: Global,
    version: &Directory,
    now: Moment,
) -> Result<Arc<Directory>, Starved>
    requires name { blank.name ≡ L.name }
    requires parts { blank.parts ≡ L.parts }
    requires some { 0 < L.parts }
    requires after_at { version.now.at ≤ now.0 }
    requires after_sweep { version.now.swept ≤ now.0 }
    ensures stands { (history : List Entry)
        → VersionStandsFor 0 history version.now
        → IfOk result (λ shared. VersionStandsFor 0 history (arc_value shared)) }
    ensures at { IfOk result (λ shared. (arc_value shared).at ≡ version.now.at) }
    ensures swept { IfOk result (λ shared. (arc_value shared).swept ≡ now.0) }
{
    let mut steps = Steps::<L>::new(blank);
    let left = version.sweep(now, &mut steps)?;
    let shared = Arc::new(alloc, left)?;
    Ok(shared)
}

impl Tables {
    /// Drops exchanges that have expired. Also drops registrations that have lapsed, if memory
    /// suffices.
    fn drop_old(&mut self)
        ensures { (rows : List Row) (s : Step) (starved : Bool) (done : Effects)
            (out : List (Endpoint
            × List ℕ)) (mids : Drawn)
            → UnderWay rows s starved done self.old out mids
            → UnderWay rows s starved done self.new out mids }
    {
        self.exchanges.age(self.moment);
        let Ok(version) = swept::<Brand>(Blank::new(1), self.alloc, &*self.version, self.moment)
        else {
            return;
        };
        self.version = version;
    }

    /// Does the step of a tick. `now` is at most 10^15 milliseconds; one earlier than the tables'
    /// moment is raised to it. `out` is empty.
    ///
    /// Retransmits notifications, sends new ones to observers that are due, and retransmits
    /// requests of fetches. Then drops what has expired or lapsed. After `Starved`, no new
    /// notification was sent.
    ///
    /// Needs no memory unless an observer is due to whose peer no notification is in flight. If
    /// memory for the sweep is missing, lapsed registrations remain stored.
    pub(crate) fn tick(
        &mut self,
        now: Moment,
        word: u32,
        mids: &mut Mids,
        out: &mut Outbox,
    ) -> Stepped
        requires moment { now.0 ≤ 10 ^ 15 }
        requires empty { out.old ≡ [] }
        ensures made { (rows : List Row) (s : Step)
            → s.kind ≡ step.Tick
            → s.word ≡ word
            → IsCalled rows s now mids.old self.old
            → Made rows (row rows s (is_starved_step result)) self.new out.new mids.old mids.new }
        ensures unstarved { (rows : List Row) (s : Step)
            → s.kind ≡ step.Tick
            → IsCalled rows s now mids.old self.old
            → tick_takes_memory rows (row_moment rows s) s ≡ false
            → is_starved_step result ≡ false }
    {
        self.pass(now);
        self.notifications_again(out);
        let stepped = self.notifications(word, mids, out);
        self.requests_again(out);
        self.drop_old();
        stepped
    }
}
