//! A server: many workers over one directory.
ghost use Rattle.std.specs.Prelude.{◌≤◌, ◌^◌, IfOk, OnErr, length, map};
ghost use Rattle.rd_server.specs.serving.Endings.{Concludes, joined};
ghost use Rattle.rd_server.specs.serving.Servers.{AreLeft, AreOfHall, AreSeated, AreServed};
ghost use Rattle.rd_server.specs.serving.Servers.{EachGoesOn, PrintsSums};

use crate::serving::conclusions::{conclude, joined};
use crate::serving::ends::{End, seat_ends, serve_ends, unseat_ends};
use crate::serving::serve_status::ServeStatus;
use rd_base::{Sink, Starved};
use rd_seat::{Gate, Hall};
use std::sync::Wait;
use std::thread::Threads;
use udp_link::{Clock, Link};

/// Makes a hall for the ends and gives each end the seat of its number. Nothing is registered in
/// the hall.
///
/// Seats can be called before the ends are served ([`serve_seats`]).
///
/// # Requires
///
/// There are 1 to 16 ends.
///
/// # Errors
///
/// `Starved` if memory runs out. No end then has a seat.
pub fn make_hall<R: Wait + AllocGlobal, L, C>(
    rt: &R,
    ends: &mut [End<L, C>],
) -> Result<Hall, Starved>
    requires ends { (1 ≤ length ends.old) × (length ends.old ≤ 16) }
    ensures seated { IfOk result (λ hall. AreSeated hall ends.old ends.new) }
    ensures hall { IfOk result (λ hall. AreOfHall hall ends.new) }
    ensures left { OnErr result (AreLeft ends.old ends.new) }
{
    let Ok((hall, seats)) = Hall::make(rt.alloc(), rt, ends.len() as u32) else {
        unseat_ends(ends);
        return Err(Starved);
    };
    seat_ends(ends, seats);
    Ok(hall)
}

/// Serves by the seats that the ends have in a hall.
///
/// Each end makes `turns` receives, as [`serve_worker`] does, and its seat goes on from its present
/// state. All ends serve at the same time. If a thread cannot be started, the caller does its work.
/// When all have finished, the hall ends. If all were served to the end, the line `served HEARD
/// SENT LOST` with their sums is written. Each end keeps its seat and the result of its service. An
/// end without a seat is not served.
///
/// Returns the first of these that applies:
/// - `Memory` if memory ran out or an end has no seat. An end whose outcome is `Memory` has
///   received nothing. If no outcome is, all ends were served to the end, and only the line was not
///   written.
/// - `Link` if a receive of one of the ends failed.
/// - `Write` if the output failed. A prefix of the line was then written, but not all of it.
/// - `Done` otherwise.
///
/// # Requires
///
/// There are at most 16 ends, `turns` is at most 10^12, and each seat is one of this hall.
///
/// [`serve_worker`]: crate::serve_worker
pub fn serve_seats<
    R: Threads + Wait + Sync + AllocGlobal,
    L: Link + Send,
    C: Clock + Send,
    G: Gate + Sync,
    K: Sink,
>(rt: &R, hall: Hall, ends: &mut [End<L, C>], gate: &G, turns: u64, out: &mut K) -> ServeStatus
    requires ends { length ends.old ≤ 16 }
    requires turns { turns ≤ 10 ^ 12 }
    requires hall { AreOfHall hall ends.old }
    // Each end was served by the seat that it had.
    ensures served { EachGoesOn L.Link.own C.Clock.own turns hall ends.old ends.new }
    // What was written, and the status, follow from the outcomes of the ends.
    ensures concludes { Concludes (joined (map (λ end. end.outcome) ends.new))
        (K.holds out.old) (K.holds out.new) (K.faults out.old) (K.faults out.new) result }
    // The sums that were written are those of all ends.
    ensures sums { PrintsSums L.Link.own ends.old ends.new (K.holds out.old) (K.holds out.new)
        result }
{
    serve_ends(rt, &hall, ends, gate, turns);
    hall.end(rt);
    conclude(rt.alloc(), joined(ends), out)
}

/// Serves one directory, in which nothing is registered at first, over the ends. It makes a hall
/// for them ([`make_hall`]) and serves by its seats ([`serve_seats`]).
///
/// Returns the first of these that applies:
/// - `Memory` if memory ran out. If no end has a seat, nothing was received. Otherwise an end whose
///   outcome is `Memory` has received nothing, whatever the others did. If no outcome is, all ends
///   were served to the end, and only the line was not written.
/// - `Link` if a receive of one of the ends failed.
/// - `Write` if the output failed. A prefix of the line was then written, but not all of it.
/// - `Done` otherwise.
///
/// # Requires
///
/// There are 1 to 16 ends, and `turns` is at most 10^12.
pub fn serve<
    R: Threads + Wait + Sync + AllocGlobal,
    L: Link + Send,
    C: Clock + Send,
    G: Gate + Sync,
    K: Sink,
>(rt: &R, ends: &mut [End<L, C>], gate: &G, turns: u64, out: &mut K) -> ServeStatus
    requires ends { (1 ≤ length ends.old) × (length ends.old ≤ 16) }
    requires turns { turns ≤ 10 ^ 12 }
    // All ends were served by the seats of one new hall, or memory ran out before.
    ensures served { AreServed L.Link.own C.Clock.own turns ends.old ends.new result }
    // What was written, and the status, follow from the outcomes of the ends.
    ensures concludes { Concludes (joined (map (λ end. end.outcome) ends.new))
        (K.holds out.old) (K.holds out.new) (K.faults out.old) (K.faults out.new) result }
    // The sums that were written are those of all ends.
    ensures sums { PrintsSums L.Link.own ends.old ends.new (K.holds out.old) (K.holds out.new)
        result }
{
    let Ok(hall) = make_hall(rt, ends) else {
        return ServeStatus::Memory;
    };
    serve_seats(rt, hall, ends, gate, turns, out)
}
