//! The beginning and the end of a turn, for any step.
ghost use Rattle.std.specs.Prelude.{◌≡◌, true, IsSome, IfSome};
ghost use Rattle.journal_model.specs.declared.rows.Row.{Row};
ghost use Rattle.turn_lock.specs.Shown.{id_of, lock_of, number_of, label_of};
ghost use Rattle.turn_lock.specs.Shown.{is_holding, seen_of};
ghost use Rattle.rd_seat.specs.Shares.{Rests, HasTaken, HasGiven};
ghost use Rattle.rd_seat.specs.Turns.{HasStepped};

use crate::gates::{Gate, Place};
use crate::publishing::{meet, publish_made};
use crate::shared_desk::SharedDesk;
use crate::shares::Share;
use journal_model::Row;
use std::sync::Wait;
use turn_lock::{Added, TurnLock, Wake};
use version_board::Entering;

impl Share {
    /// Takes the turn, and meets what is published.
    pub(crate) fn take<R: Wait, G: Gate>(
        &mut self,
        rt: &R,
        lock: &TurnLock<SharedDesk>,
        gate: &G,
    ) -> SharedDesk
        requires lock { lock_of self.old.pass ≡ id_of lock.now }
        requires rest { Rests self.old }
        ensures { HasTaken self.old self.new result.desk.value }
    {
        gate.pass(rt, Place::BeforeTake);
        let mut shared = lock.take(rt, &mut self.pass);
        meet(&mut self.looker, &mut shared.desk);
        gate.pass(rt, Place::Holding);
        shared
    }

    /// Publishes what the step made, meets it, and gives the turn back with the row. `_parts` has
    /// all parts of the row: the caller's contract names the row from them.
    pub(crate) fn give<S: Added<Row>, E: Entering, R: Wait, G: Gate, P>(
        &mut self,
        rt: &R,
        lock: &TurnLock<SharedDesk>,
        gate: &G,
        shared: SharedDesk,
        wake: Wake,
        _parts: &P,
    )
        requires lock { lock_of self.old.pass ≡ id_of lock.now }
        requires holding { is_holding self.old.pass ≡ true }
        requires board { self.old.looker.name ≡ label_of self.old.pass }
        requires label { shared.desk.value.board.name ≡ label_of self.old.pass }
        requires added { IsSome S.added }
        requires stepped { IfSome S.added (λ row. HasStepped E.entered row
            (number_of self.old.pass) (seen_of self.old.pass) shared.desk.value) }
        ensures { IfSome S.added (λ row. HasGiven row self.old self.new shared.desk.value) }
    {
        self.last = self.last.later(shared.desk.moment());
        let mut shared = shared;
        publish_made::<E, R>(rt, &mut shared.desk);
        meet(&mut self.looker, &mut shared.desk);
        lock.give_back::<S>(&mut self.pass, shared, wake);
        gate.pass(rt, Place::AfterGive);
    }
}
