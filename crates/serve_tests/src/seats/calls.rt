//! Halls and their seats, and calls of a seat.
ghost use Rattle.std.specs.Prelude.{◌≡◌, IfOk};

use crate::requests::CLIENT;
use rd_base::{Moment, Peer, Starved};
use rd_desk::{Looked, Outbox, Stepped, is_look};
use rd_seat::{Gate, Hall, OpenGate, Seat, SeatHeard};
use std::alloc::Global;
use std::sync::Wait;

/// Returns whether one datagram is sent, and begins like this.
pub(crate) fn answers(out: &Outbox, beginning: &[u8]) -> bool {
    match out.at(0) {
        Some((_, octets)) => out.len() == 1 && octets.starts_with(beginning),
        None => false,
    }
}

/// Registers an endpoint by a seat. Returns whether it is answered by a location, and nothing else
/// is sent.
pub(crate) fn register<R: Wait, G: Gate>(
    rt: &R,
    hall: &Hall,
    gate: &G,
    seat: &mut Seat,
    peer: Peer,
    datagram: &[u8],
    out: &mut Outbox,
) -> bool
    requires hall { seat.old.hall ≡ hall.now }
    ensures hall { seat.new.hall ≡ seat.old.hall }
{
    out.clear();
    let heard = seat.hear(rt, hall, &OpenGate, Moment(1000), 0, peer, datagram, out);
    let SeatHeard::Held(job) = heard else {
        return false;
    };
    out.clear();
    seat.go(rt, hall, gate, Moment(1000), job, out) == Stepped::Done && answers(out, b"\x61\x41")
}

/// Looks by a seat, with a clock that is behind. Returns whether the answer begins like this.
pub(crate) fn looks(seat: &mut Seat, datagram: &[u8], beginning: &[u8], out: &mut Outbox) -> bool
    ensures hall { seat.new.hall ≡ seat.old.hall }
{
    out.clear();
    if !is_look(datagram) {
        return false;
    }
    let looked = seat.lookup(Moment(1), CLIENT, datagram, out);
    matches!(looked, Looked::Done) && answers(out, beginning)
}

/// Returns a new hall of one worker, and its seat.
pub(crate) fn one_seat<R: Wait>(alloc: Global, rt: &R) -> Result<(Hall, Seat), Starved>
    ensures hall { IfOk result (λ made. made.1.hall ≡ made.0) }
{
    let (hall, mut seats) = Hall::make(alloc, rt, 1)?;
    let Some(seat) = seats.take_first() else {
        unreachable!()
    };
    Ok((hall, seat))
}

/// Returns a new hall and its two seats.
pub(crate) fn two_seats<R: Wait>(alloc: Global, rt: &R) -> Result<(Hall, Seat, Seat), Starved>
    ensures first { IfOk result (λ made. made.1.hall ≡ made.0) }
    ensures second { IfOk result (λ made. made.2.hall ≡ made.0) }
{
    let (hall, mut seats) = Hall::make(alloc, rt, 2)?;
    let Some(first) = seats.take_first() else {
        unreachable!()
    };
    let Some(second) = seats.take_first() else {
        unreachable!()
    };
    Ok((hall, first, second))
}
