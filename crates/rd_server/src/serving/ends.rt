//! Ends of a server: each worker with its link and its clock.
ghost use Rattle.std.specs.Prelude.{◌≡◌, ◌≤◌, ◌<◌, ◌^◌, ℕ, None, Err};
ghost use Rattle.std.specs.Prelude.{All, IfNone, IfOk, IfSome, length, slice_get};
ghost use Rattle.std.specs.Prelude.{slice_index_or};
ghost use Rattle.rd_server.specs.declared.serving.served.ServeFault.TheVariants as fault;
ghost use Rattle.rd_server.specs.serving.Sums.{IsBelow, worker_most};
ghost use Rattle.rd_server.specs.serving.Servers.{AreOfHall, EndServes, IsUnserved, seated};

use crate::serving::served::{ServeFault, Served};
use crate::serving::workers::serve_worker;
use journal_model::limits::MAX_WORKERS;
use rd_seat::{Gate, Hall, Seat, Seats};
use std::sync::Wait;
use std::thread;
use std::thread::Threads;
use udp_link::{Clock, Link};

/// The maximum number of threads that serve: one for each end.
const MOST_THREADS: usize = MAX_WORKERS as usize;

/// What one worker of a server has: its link and its clock. The server gives it a seat, and leaves
/// the seat and the result of the service here.
#[derive(Drop)]
pub struct End<L, C> {
    /// The link that its datagrams come from and go to.
    pub link: L,
    /// The clock that gives its moments and random words.
    pub clock: C,
    /// The seat by which it was served, or `None` if it was not served.
    pub seat: Option<Seat>,
    /// The result of its service: `Memory` if it was not served.
    pub outcome: Result<Served, ServeFault>,
}

impl<L, C> End<L, C> {
    /// Creates an end that has not been served.
    pub fn of(link: L, clock: C) -> End<L, C>
        ensures link { result.link ≡ link }
        ensures clock { result.clock ≡ clock }
        ensures seat { result.seat ≡ None }
        ensures outcome { result.outcome ≡ Err fault.Memory }
    {
        End {
            link,
            clock,
            seat: None,
            outcome: Err(ServeFault::Memory),
        }
    }
}

/// Gives each end the seat of its number.
pub(crate) fn seat_ends<L, C>(ends: &mut [End<L, C>], seats: Seats)
    ensures { (i : ℕ) (d : End L C) → i < length ends.old
        → slice_index_or ends.new i d ≡ seated (slice_index_or ends.old i d) (slice_get seats i) }
{
    let mut seats = seats;
    'ends: for end in ends {
        end.seat = seats.take_first();
        end.outcome = Err(ServeFault::Memory);
    }
}

/// Leaves each end without a seat.
pub(crate) fn unseat_ends<L, C>(ends: &mut [End<L, C>])
    ensures unserved { All IsUnserved ends.new }
    ensures left { (i : ℕ) (d : End L C) → i < length ends.old
        → slice_index_or ends.new i d ≡ seated (slice_index_or ends.old i d) None }
{
    'ends: for end in ends {
        end.seat = None;
        end.outcome = Err(ServeFault::Memory);
    }
}

/// Serves one end if it has a seat.
fn work<R: Wait + AllocGlobal, L: Link, C: Clock, G: Gate>(
    rt: &R,
    hall: &Hall,
    end: &mut End<L, C>,
    gate: &G,
    turns: u64,
)
    requires hall { IfSome end.old.seat (λ seat. seat.hall ≡ hall.now) }
    requires turns { turns ≤ 10 ^ 12 }
    ensures few { IfOk end.new.outcome (IsBelow worker_most) }
    ensures served { IfSome end.old.seat
        (λ seat. EndServes L.Link.own C.Clock.own turns seat end.old end.new) }
    ensures unserved { IfNone end.old.seat (end.new ≡ seated end.old None) }
{
    end.outcome = Err(ServeFault::Memory);
    if let Some(seat) = &mut end.seat {
        end.outcome = serve_worker(rt, hall, seat, &mut end.link, &mut end.clock, gate, turns);
    }
}

/// Serves all ends at the same time, and waits for all.
pub(crate) fn serve_ends<
    R: Threads + Wait + Sync + AllocGlobal,
    L: Link + Send,
    C: Clock + Send,
    G: Gate + Sync,
>(rt: &R, hall: &Hall, ends: &mut [End<L, C>], gate: &G, turns: u64)
    requires hall { AreOfHall hall.now ends.old }
    requires turns { turns ≤ 10 ^ 12 }
    ensures few { All (λ end. IfOk end.outcome (IsBelow worker_most)) ends.new }
    ensures served { (i : ℕ) (d : End L C) → i < length ends.old
        → IfSome (slice_index_or ends.old i d).seat (λ seat. EndServes L.Link.own C.Clock.own
        turns seat (slice_index_or ends.old i d) (slice_index_or ends.new i d)) }
    ensures unserved { (i : ℕ) (d : End L C) → i < length ends.old
        → IfNone (slice_index_or ends.old i d).seat
        (slice_index_or ends.new i d ≡ seated (slice_index_or ends.old i d) None) }
{
    thread::for_each_mut(
        rt,
        ends,
        MOST_THREADS,
        &|_, end: &mut End<L, C>| { work(rt, hall, end, gate, turns) },
    );
}
