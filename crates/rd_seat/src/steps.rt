//! The steps of a worker, each at a turn.
ghost use Rattle.std.specs.Prelude.{◌≡◌, ◌≤◌, ◌^◌, ℕ, []};
ghost use Rattle.rd_desk.specs.calls.Stepping.{is_starved_step};
ghost use Rattle.turn_lock.specs.Shown.{id_of, lock_of};
ghost use Rattle.rd_seat.specs.Actions.{IsReady, OpensAt};
ghost use Rattle.rd_seat.specs.Shares.{Rests, HasTurned, HasTakenAction, share_shown};
ghost use Rattle.rd_seat.specs.Steps.{begin_step};

use crate::actions::{Action, act, is_starved, wake_after};
use crate::gates::Gate;
use crate::shared_desk::SharedDesk;
use crate::shares::Share;
use rd_base::Moment;
use rd_desk::{Admitted, Mids, Outbox, Stepped};
use std::marker::Brand;
use std::snapshot::Snapshot;
use std::sync::Wait;
use turn_lock::{TurnLock, Wake};

/// All parts of the row of an action, except the place of an admission, which only contracts see.
#[derive(Drop)]
struct ActionParts<'a> {
    mids: Snapshot<Mids>,
    action: Snapshot<Action<'a>>,
    is_starved: bool,
}

/// All parts of the row in which a run begins.
#[derive(Drop)]
struct BeginningParts {
    mids: Snapshot<Mids>,
    now: Moment,
    first: u64,
    stepped: Stepped,
}

impl Share {
    /// Takes an action, at a turn. The admission of a write has a place in the journal that the
    /// seat has seen.
    #[inline(always)]
    pub(crate) fn act<R: Wait, G: Gate>(
        &mut self,
        rt: &R,
        lock: &TurnLock<SharedDesk>,
        gate: &G,
        action: Action<'_>,
        out: &mut Outbox,
    ) -> Admitted
        ghost place: { ℕ }
        requires lock { lock_of self.old.pass ≡ id_of lock.now }
        requires rest { Rests self.old }
        requires ready { IsReady action }
        requires empty { out.old ≡ [] }
        requires opened { OpensAt place (share_shown self.old) action }
        ensures { HasTakenAction self.old place action.entry result out.new self.new }
    {
        let mut shared = self.take(rt, lock, gate);
        let mids = Snapshot::of(&self.mids);
        let kept = Snapshot::of(&action);
        let admitted = act(&mut shared.desk, &mut self.mids, action, out);
        let wake = wake_after(&admitted);
        let parts = ActionParts {
            mids,
            action: kept,
            is_starved: is_starved(&admitted),
        };
        self.give::<Brand, Brand, R, G, ActionParts>(rt, lock, gate, shared, wake, &parts);
        admitted
    }

    /// Does the step in which a run begins above `first`, at a turn.
    pub(crate) fn begin<R: Wait, G: Gate>(
        &mut self,
        rt: &R,
        lock: &TurnLock<SharedDesk>,
        gate: &G,
        now: Moment,
        first: u64,
    ) -> Stepped
        requires lock { lock_of self.old.pass ≡ id_of lock.now }
        requires rest { Rests self.old }
        requires moment { now.0 ≤ 10 ^ 15 }
        ensures { HasTurned self.old (begin_step self.old.mids.worker now first self.old.mids.drawn)
            (is_starved_step result) [] self.new }
    {
        let mut shared = self.take(rt, lock, gate);
        let mids = Snapshot::of(&self.mids);
        let stepped = shared.desk.begin(now, first, &self.mids);
        let parts = BeginningParts {
            mids,
            now,
            first,
            stepped,
        };
        self.give::<Brand, Brand, R, G, BeginningParts>(rt, lock, gate, shared, Wake::One, &parts);
        stepped
    }
}
