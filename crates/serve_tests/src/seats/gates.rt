//! One seat sees what another did, and is answered while another holds the turn.
ghost use Rattle.std.specs.Prelude.{◌≡◌};

use super::calls::{answers, looks, register, two_seats};
use crate::gates::UntilAnswered;
use crate::requests::{CREATED, ENDPOINT, LISTED, LOOKUP, NOTHING, REGISTRATION};
use rd_base::{Moment, Starved};
use rd_desk::{Looked, Outbox};
use rd_seat::{Hall, Seat};
use std::sync::Wait;
use std::thread::{Threads, join_mut};
use std::time::Clock;

/// Looks after the hall has ended. Returns whether the look finds nothing and is answered 5.00.
fn finds_no_board(seat: &mut Seat, out: &mut Outbox) -> bool {
    out.clear();
    if !rd_desk::is_look(LOOKUP) {
        return false;
    }
    let looked = seat.lookup(Moment(1), ENDPOINT, LOOKUP, out);
    matches!(looked, Looked::Starved) && answers(out, b"\x61\xa0\x00\x02\xb2")
}

/// Looks while the turn is held. Returns whether it is held, and nothing is registered then.
fn look_meanwhile<C: Clock>(
    gate: &UntilAnswered<'_, C>,
    seat: &mut Seat,
    out: &mut Outbox,
) -> bool {
    let is_held = gate.awaits_holder();
    let is_none = looks(seat, LOOKUP, NOTHING, out);
    gate.tell_answered();
    is_held && is_none
}

/// Registers by one seat, and holds it in its turn until a look of the other was answered. Returns
/// whether the other finds nothing before; the registration is answered; the look meanwhile is
/// answered; and the next look sees the registration, although its clock is behind.
fn held_meanwhile<R: Threads + Wait + Clock + Sync>(
    rt: &R,
    hall: &Hall,
    gate: &UntilAnswered<'_, R>,
    first: &mut Seat,
    second: &mut Seat,
    out: &mut Outbox,
    other: &mut Outbox,
) -> [bool; 4]
    requires first { first.old.hall ≡ hall.now }
{
    let is_none = looks(second, LOOKUP, NOTHING, other);
    let (is_made, is_answered) = join_mut(
        rt,
        &mut || register(rt, hall, gate, first, ENDPOINT, REGISTRATION, out),
        &mut || look_meanwhile(gate, second, other),
    );
    let is_located = answers(out, CREATED);
    let is_seen = looks(second, LOOKUP, LISTED, other);
    [
        is_none,
        is_made && is_located,
        is_answered && gate.was_seen(),
        is_seen,
    ]
}

/// Asserts what the other seat sees before, while and after one registers, and that the board ends
/// with the hall.
#[test]
fn other_seat_sees_and_is_answered_meanwhile(rt: HostRuntime) -> Result<(), Starved> {
    let mut out = Outbox::make(rt.alloc())?;
    let mut other = Outbox::make(rt.alloc())?;
    let gate = UntilAnswered::new(&rt);
    let (hall, mut first, mut second) = two_seats(rt.alloc(), &rt)?;
    let held = held_meanwhile(
        &rt,
        &hall,
        &gate,
        &mut first,
        &mut second,
        &mut out,
        &mut other,
    );
    hall.end(&rt);
    assert_eq!(rt; held, [true; 4]);
    assert!(rt; finds_no_board(&mut second, &mut out));
    Ok(())
}
