//! A hall and its seat if one allocation fails, as with `rt try --test --fail-alloc N`. A request
//! that runs out of memory is answered 5.00, and the seat goes on. With ample memory nothing is
//! refused.
ghost use Rattle.std.specs.Prelude.{◌≡◌, IfOk};

use super::calls::{answers, looks, one_seat};
use crate::requests::{CLIENT, ENDPOINT, LISTED, LOOKUP};
use rd_base::{Moment, Starved};
use rd_desk::{Outbox, Stepped};
use rd_seat::{Hall, OpenGate, Seat, SeatHeard};
use std::alloc::Global;
use std::sync::Wait;

/// A request to observe the links (RFC 7641 section 3), with room for its Message ID.
const OBSERVE: &[u8; 33] = b"\x41\x01\x00\x00\xc0\x60\x59rd-lookup\x03res\x4crt=light-lux";

/// The registration of the next link, with room for its Message ID (RFC 9176 section 5).
const REGISTER: &[u8; 53] =
    b"\x41\x02\x00\x00\xa1\xb2rd\x48ep=node1\xff</light>;rt=\"light-lux\";if=\"sensor\"";

/// Returns whether the one answer is 5.00 (RFC 7252 section 5.9.3.1).
fn is_excused(out: &Outbox) -> bool {
    answers(out, b"\x61\xa0")
}

/// Makes a hall with one seat, at the second attempt if the first runs out of memory.
fn hall_of_one<R: Wait>(alloc: Global, rt: &R) -> Result<(Hall, Seat), Starved>
    ensures hall { IfOk result (λ made. made.1.hall ≡ made.0) }
{
    match one_seat(alloc, rt) {
        Ok(made) => Ok(made),
        Err(Starved) => one_seat(alloc, rt),
    }
}

/// Makes the client observe. Returns whether it is answered, at the second attempt if the first
/// runs out of memory.
fn observes<R: Wait>(rt: &R, hall: &Hall, seat: &mut Seat, out: &mut Outbox) -> bool
    requires hall { seat.old.hall ≡ hall.now }
    ensures hall { seat.new.hall ≡ seat.old.hall }
{
    let mut request = *OBSERVE;
    'tries: for number in 1..3 {
        out.clear();
        request[3] = number;
        let heard = seat.hear(rt, hall, &OpenGate, Moment(1), 0, CLIENT, &request, out);
        if let SeatHeard::Done = heard {
            return answers(out, b"\x61\x45");
        }
        if !is_excused(out) {
            return false;
        }
    }
    false
}

/// Registers the endpoint. Returns whether it is answered, at a later attempt if one runs out of
/// memory.
fn registers<R: Wait>(rt: &R, hall: &Hall, seat: &mut Seat, out: &mut Outbox) -> bool
    requires hall { seat.old.hall ≡ hall.now }
    ensures hall { seat.new.hall ≡ seat.old.hall }
{
    let mut request = *REGISTER;
    'tries: for number in 1..4 {
        out.clear();
        request[3] = number;
        let heard = seat.hear(rt, hall, &OpenGate, Moment(2), 0, ENDPOINT, &request, out);
        if let SeatHeard::Held(job) = heard {
            out.clear();
            if seat.go(rt, hall, &OpenGate, Moment(2), job, out) == Stepped::Done {
                return answers(out, b"\x61\x41");
            }
        }
        if !is_excused(out) {
            return false;
        }
    }
    false
}

/// Lets time pass, at the second attempt if the first runs out of memory. Returns whether the
/// observer gets a notification.
fn tells<R: Wait>(rt: &R, hall: &Hall, seat: &mut Seat, out: &mut Outbox) -> bool
    requires hall { seat.old.hall ≡ hall.now }
    ensures hall { seat.new.hall ≡ seat.old.hall }
{
    out.clear();
    if seat.tick(rt, hall, &OpenGate, Moment(3), 0, out) == Stepped::Starved {
        if !out.is_empty() {
            return false;
        }
        seat.tick(rt, hall, &OpenGate, Moment(3), 0, out);
    }
    answers(out, b"\x41\x45")
}

/// Does all of this, one after another, and looks. Returns whether all was answered as expected.
fn goes_on<R: Wait>(rt: &R, hall: &Hall, seat: &mut Seat, out: &mut Outbox) -> bool
    requires hall { seat.old.hall ≡ hall.now }
{
    if !observes(rt, hall, seat, out) || !registers(rt, hall, seat, out) {
        return false;
    }
    if !tells(rt, hall, seat, out) {
        return false;
    }
    looks(seat, LOOKUP, LISTED, out) || (is_excused(out) && looks(seat, LOOKUP, LISTED, out))
}

#[test]
fn goes_on_without_memory(rt: HostRuntime) -> Result<(), Starved> {
    let mut out = match Outbox::make(rt.alloc()) {
        Ok(out) => out,
        Err(Starved) => Outbox::make(rt.alloc())?,
    };
    let (hall, mut seat) = hall_of_one(rt.alloc(), &rt)?;
    let goes = goes_on(&rt, &hall, &mut seat, &mut out);
    hall.end(&rt);
    assert!(rt; goes);
    Ok(())
}
