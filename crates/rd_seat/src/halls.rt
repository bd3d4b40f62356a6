//! A hall: a desk and its board, which up to 16 workers share.
ghost use Rattle.std.specs.Prelude.{◌≡◌, ◌≤◌, [], length, IfOk, All, replicate};
ghost use Rattle.std.specs.Vec.{vec_capacity};
ghost use Rattle.turn_lock.specs.Shown.{list_of};
ghost use Rattle.version_board.specs.Ends.{new_looker};
ghost use Rattle.rd_seat.specs.Seats.{new_seats};
ghost use Rattle.rd_seat.specs.Insides.{AreNewFrom, hall_at};
ghost use Rattle.rd_seat.specs.Turns.{StandsAtTurn};

use crate::seat_lists::Seats;
use crate::seats::Seat;
use crate::shared_desk::SharedDesk;
use directory_core::Directory;
use rd_base::Starved;
use rd_desk::Desk;
use std::alloc::Global;
use std::marker::Model;
use std::sync::{Arc, Wait};
use turn_lock::{Ended, Passes, TurnLock};
use version_board::{Lookers, Publisher, board};

/// A directory that workers share, each with a seat of its own. Contracts see which hall it is, and
/// how many workers it has. It cannot be dropped: [`Hall::end`] ends it.
pub struct Hall {
    lock: TurnLock<SharedDesk>,
}

impl Model for Hall {
    ghost use Rattle.rd_seat.specs.Seats.{HallSeen};
    ghost use Rattle.rd_seat.specs.Insides.{hall_at};

    ghost Value = { HallSeen };

    ghost view = { λ h. hall_at h.lock };
}

/// Ends a desk that is no longer shared, and its board.
fn end_shared<R: Wait>(rt: &R, shared: SharedDesk) {
    let SharedDesk { desk } = shared;
    Box::into_inner(desk).into_board().end(rt);
}

/// Prepares a desk to be shared. If memory runs out, its board ends.
fn shared<R: Wait>(alloc: Global, rt: &R, desk: Desk<Publisher>) -> Result<SharedDesk, Starved>
    ensures { IfOk result (λ shared. shared.desk.value ≡ desk) }
{
    match Box::new(alloc, desk) {
        Ok(desk) => Ok(SharedDesk { desk }),
        Err(unmade) => {
            unmade.value.into_board().end(rt);
            Err(Starved)
        }
    }
}

/// Returns the desk of a new hall, and a looker for each worker.
fn shared_desk<R: Wait>(
    alloc: Global,
    rt: &R,
    workers: u32,
) -> Result<(SharedDesk, Lookers), Starved>
    requires workers { (1 ≤ workers) × (workers ≤ 16) }
    ensures stands { IfOk result (λ made. StandsAtTurn [] made.0.desk.value) }
    ensures lookers { IfOk result (λ made.
        made.1 ≡ replicate workers (new_looker made.0.desk.value.board.name)) }
{
    let empty = Directory::empty(alloc, 0)?;
    let first = Arc::new(alloc, empty)?;
    let (publisher, lookers) = board(alloc, rt, workers, first)?;
    match Desk::make_or_return(alloc, publisher) {
        Ok(desk) => Ok((shared(alloc, rt, desk)?, lookers)),
        Err(unmade) => {
            unmade.board.end(rt);
            Err(Starved)
        }
    }
}

/// Returns a seat for each pass, with a looker.
fn seats_of(
    alloc: Global,
    lock: &TurnLock<SharedDesk>,
    room: Vec<Seat>,
    passes: Passes<SharedDesk>,
    lookers: Lookers,
    workers: u32,
) -> Vec<Seat>
    requires none { room.items ≡ [] }
    requires room { workers ≤ vec_capacity room }
    requires workers { workers ≤ 16 }
    requires count { length (list_of passes) ≡ workers }
    requires new { AreNewFrom (hall_at lock.now) 0 (list_of passes) lookers }
    ensures { result.items ≡ new_seats (hall_at lock.now) workers }
{
    let mut seats = room;
    let mut passes = passes;
    let mut lookers = lookers;
    'workers: for worker in 0..workers {
        let Some(pass) = passes.take_first() else {
            unreachable!()
        };
        let Some(looker) = lookers.take_first() else {
            unreachable!()
        };
        seats.push_reserved(Seat::new(alloc, pass, looker, worker as u8));
    }
    seats
}

impl Hall {
    /// Creates an empty hall for `workers` workers, and a seat for each, numbered from 0. Waits
    /// while the first version is published.
    ///
    /// # Requires
    ///
    /// `workers` is 1 to 16.
    ///
    /// # Errors
    ///
    /// `Starved` if memory runs out.
    pub fn make<R: Wait>(alloc: Global, rt: &R, workers: u32) -> Result<(Hall, Seats), Starved>
        requires workers { (1 ≤ workers) × (workers ≤ 16) }
        ensures workers { IfOk result (λ made. made.0.workers ≡ workers) }
        ensures seats { IfOk result (λ made. made.1 ≡ new_seats made.0 workers) }
        ensures hall { IfOk result (λ made. All (λ seat. seat.hall ≡ made.0) made.1) }
    {
        let room = Vec::with_capacity(alloc, workers as usize)?;
        let (shared, lookers) = shared_desk(alloc, rt, workers)?;
        match TurnLock::make_or_return(alloc, workers, shared) {
            Ok((lock, passes)) => {
                let seats = seats_of(alloc, &lock, room, passes, lookers, workers);
                Ok((Hall { lock }, Seats::of(seats)))
            }
            Err(unmade) => {
                end_shared(rt, unmade.value);
                Err(Starved)
            }
        }
    }

    /// Returns its lock.
    pub(crate) fn lock(&self) -> &TurnLock<SharedDesk>
        ensures { hall_at result.now ≡ self.now }
    {
        &self.lock
    }

    /// Ends the hall and its board, after waiting for looks in progress.
    ///
    /// The seats stay with their owners, but any later look returns `Starved`.
    pub fn end<R: Wait>(self, rt: &R) {
        let Hall { lock } = self;
        let found = match lock.into_inner() {
            Ended::Free(shared) => Some(shared),
            Ended::Held(found) => found,
        };
        if let Some(shared) = found {
            end_shared(rt, shared);
        }
    }
}
