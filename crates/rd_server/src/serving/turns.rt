//! One receive, and the calls that follow it.
ghost use Rattle.std.specs.Prelude.{◌≡◌, ◌≤◌, ◌*◌, ◌^◌, List, length};
ghost use Rattle.udp_link.specs.declared.links.TheConstants.{MAX_DATAGRAM};
ghost use Rattle.rd_seat.specs.Callers.{Hears};
ghost use Rattle.rd_server.specs.serving.Calls.{Call};
ghost use Rattle.rd_server.specs.serving.Workers.{CallsMade, worker_seen};
ghost use Rattle.rd_server.specs.serving.Turns.{HearsAt, Turn};
ghost use Rattle.rd_server.specs.serving.Sums.{CountsCalls, CountsTurn};
ghost use Rattle.rd_server.specs.serving.Sums.{GrowsBy, IsBelow, worker_most};
ghost use Rattle.rd_server.specs.serving.Service.{GoesOn, TurnMade};

use crate::serving::calls::{go, hear, tick};
use crate::serving::contexts::{Context, Tally};
use rd_base::Peer;
use rd_seat::{Gate, Seat};
use std::sync::Wait;
use udp_link::{Came, Clock, Link, MAX_DATAGRAM};

/// The number of handled datagrams after which time passes.
const HEARD_BEFORE_TICK: u64 = 16;

/// Has the seat handle a datagram, and does its job at once.
fn answer<R: Wait, L: Link, C: Clock, G: Gate>(
    context: &Context<R, G>,
    seat: &mut Seat,
    link: &mut L,
    clock: &mut C,
    tally: &mut Tally,
    peer: Peer,
    datagram: &[u8],
)
    requires hall { seat.old.hall ≡ context.now.hall.now }
    requires room { IsBelow (5 * 10 ^ 16) tally.old.served }
    ensures hall { seat.new.hall ≡ seat.old.hall }
    ensures grows { GrowsBy (2 * 1_153) tally.old.served tally.new.served }
    ensures made { (calls : List Call) × Hears peer datagram.now calls
        × CallsMade calls (worker_seen L.Link.own C.Clock.own seat.old link.old clock.old)
        (worker_seen L.Link.own C.Clock.own seat.new link.new clock.new)
        × CountsCalls calls tally.old.served tally.new.served }
{
    let job = hear(context, seat, link, clock, tally, peer, datagram);
    if let Some(job) = job {
        go(context, seat, link, clock, tally, job);
    }
}

/// Has the seat handle a datagram, which is already counted. Lets time pass after each sixteenth.
fn hear_datagram<R: Wait, L: Link, C: Clock, G: Gate>(
    context: &Context<R, G>,
    seat: &mut Seat,
    link: &mut L,
    clock: &mut C,
    tally: &mut Tally,
    peer: Peer,
    datagram: &[u8],
)
    requires hall { seat.old.hall ≡ context.now.hall.now }
    requires room { IsBelow (2 * 10 ^ 16) tally.old.served }
    requires within { length datagram.now ≤ MAX_DATAGRAM }
    ensures hall { seat.new.hall ≡ seat.old.hall }
    ensures grows { GrowsBy (3 * 1_153) tally.old.served tally.new.served }
    ensures made { (calls : List Call) × HearsAt tally.old.served.heard peer datagram.now calls
        × CallsMade calls (worker_seen L.Link.own C.Clock.own seat.old link.old clock.old)
        (worker_seen L.Link.own C.Clock.own seat.new link.new clock.new)
        × CountsCalls calls tally.old.served tally.new.served }
{
    answer(context, seat, link, clock, tally, peer, datagram);
    if tally.served.heard % HEARD_BEFORE_TICK == 0 {
        tick(context, seat, link, clock, tally);
    }
}

/// Makes one receive and the calls that follow it. Returns false if the receive failed.
pub(crate) fn turn<R: Wait, L: Link, C: Clock, G: Gate>(
    context: &Context<R, G>,
    seat: &mut Seat,
    link: &mut L,
    clock: &mut C,
    tally: &mut Tally,
    room: &mut [u8; MAX_DATAGRAM],
) -> bool
    requires hall { seat.old.hall ≡ context.now.hall.now }
    requires room { IsBelow worker_most tally.old.served }
    ensures hall { seat.new.hall ≡ seat.old.hall }
    ensures grows { GrowsBy 4_000 tally.old.served tally.new.served }
    ensures made { (t : Turn)
        × TurnMade tally.old.served.heard t
        (worker_seen L.Link.own C.Clock.own seat.old link.old clock.old)
        (worker_seen L.Link.own C.Clock.own seat.new link.new clock.new)
        × CountsTurn t tally.old.served tally.new.served
        × GoesOn result t (L.recv_faults link.old) (L.recv_faults link.new) }
{
    match link.recv(room) {
        Came::Datagram(peer, n) => {
            tally.served.heard += 1;
            hear_datagram(context, seat, link, clock, tally, peer, &room[..n]);
            true
        }
        Came::TooLong => {
            tally.served.too_long += 1;
            tick(context, seat, link, clock, tally);
            true
        }
        Came::Nothing => {
            tick(context, seat, link, clock, tally);
            true
        }
        Came::Failed => false,
    }
}
