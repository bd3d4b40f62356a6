//! The tables of a desk, and what holds between them (RFC 9176, RFC 7252, RFC 7641, RFC 7959, RFC
//! 9175).
ghost use Rattle.std.specs.Prelude.{◌≡◌, ◌≤◌, ◌^◌, ℕ, Bool, [], List, IfOk, max};
ghost use Rattle.rd_base.specs.declared.peers.Peer.{Peer};
ghost use Rattle.journal_model.specs.declared.steps.Step.{Step};
ghost use Rattle.journal_model.specs.declared.rows.Row.{Row};
ghost use Rattle.journal_model.specs.Effects.{nothing};
ghost use Rattle.coap_answers.specs.declared.mids.Mids.{Mids};
ghost use Rattle.rd_desk.specs.calls.Desks.{StandsFor};
ghost use Rattle.rd_desk.specs.parts.UnderWay.{UnderWay};
ghost use Rattle.rd_desk.specs.calls.Steps.{IsCalled};

use directory_core::Directory;
use exchange_core::Exchanges;
use observation::Watching;
use rd_base::{Moment, Starved};
use simple_registration::{Echoes, Fetches};
use std::alloc::Global;
use std::marker::Model;
use std::sync::Arc;
use transfers::Transfers;

/// The state of a desk between its steps. Contracts say which journal it stands for. During a step,
/// they say how much of its row is done.
#[derive(Drop)]
pub(crate) struct Tables {
    /// The allocator.
    pub(crate) alloc: Global,
    /// The latest moment passed in so far, in milliseconds, at most 10^15.
    pub(crate) moment: Moment,
    /// The registrations.
    pub(crate) version: Arc<Directory>,
    /// The exchanges of admitted writes.
    pub(crate) exchanges: Exchanges,
    /// The uploads and the kept answers.
    pub(crate) transfers: Transfers,
    /// The observed queries and their observers.
    pub(crate) watching: Watching,
    /// The fetches of simple registrations.
    pub(crate) fetches: Fetches,
    /// The challenges of simple registrations.
    pub(crate) echoes: Echoes,
    /// The number of Observe values given so far, modulo 2^64.
    pub(crate) observed: u64,
}

impl Model for Tables {
    ghost use Rattle.std.specs.Prelude.{◌≤◌, ◌^◌};
    ghost use Rattle.std.specs.Arc.{arc_value};
    ghost use Rattle.rd_desk.specs.calls.Desks.{Seen};

    ghost Value = { Seen };

    ghost view = { λ t. record {
      moment = t.moment.0;
      version = arc_value t.version;
      exchanges = t.exchanges;
      transfers = t.transfers;
      watching = t.watching;
      fetches = t.fetches;
      challenges = t.echoes;
      observed = t.observed;
    } };

    ghost invariant = { λ t. (t.moment.0 ≤ 10 ^ 15)
        × (t.exchanges.moment ≤ t.moment.0)
        × ((arc_value t.version).at ≤ t.moment.0)
        × ((arc_value t.version).swept ≤ t.moment.0) };
}

impl Tables {
    /// Creates the tables of an empty directory, at moment 0 and with their full capacity.
    pub(crate) fn make(alloc: Global) -> Result<Tables, Starved>
        ensures { IfOk result (StandsFor []) }
    {
        let version = Arc::new(alloc, Directory::empty(alloc, 0)?)?;
        let exchanges = Exchanges::make(alloc)?;
        let transfers = Transfers::make(alloc)?;
        let watching = Watching::make(alloc)?;
        let fetches = Fetches::make(alloc)?;
        let echoes = Echoes::make(alloc)?;
        Ok(Tables {
            alloc,
            moment: Moment(0),
            version,
            exchanges,
            transfers,
            watching,
            fetches,
            echoes,
            observed: 0,
        })
    }

    /// Lets time pass to a moment, which is at most 10^15 milliseconds. A moment earlier than the
    /// tables' own changes nothing. An observer whose listing a lapse changed meanwhile becomes
    /// due. Each step begins with this call. Does not allocate.
    pub(crate) fn pass(&mut self, now: Moment)
        requires { now.0 ≤ 10 ^ 15 }
        ensures way { (rows : List Row) (s : Step) (starved : Bool) (out : List (Peer
            × List ℕ)) (mids : Mids)
            → out ≡ []
            → IsCalled rows s now mids self.old
            → UnderWay rows s starved nothing self.new out mids }
        ensures version { self.new.version ≡ self.old.version }
    {
        let to = self.moment.later(now);
        self.watching.pass(&*self.version, self.moment, to);
        self.moment = to;
    }
}
