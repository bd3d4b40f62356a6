//! The service of one worker that accepts connections.
ghost use Rattle.std.specs.Prelude.{◌≡◌, ◌≤◌, ◌^◌, IfOk, IfSome};
ghost use Rattle.rd_seat.specs.Callers.{caller_seen};
ghost use Rattle.joint_server.specs.Standing.{AttendsDoor, IsFew, TakesTurn, counted};

use crate::attended::Attended;
use crate::turns::{Context, turn};
use rd_seat::{Gate, Hall, Seat};
use rd_server::ServeFault;
use std::sync::Wait;
use tcp_door::Entrance;
use udp_link::Clock;

/// Counts a connection, if one was served, and the requests that its conversation passed to the
/// seat.
fn count(attended: &mut Attended, turned: Option<u64>)
    requires few { IsFew (10 ^ 12) attended.old }
    requires asked { IfSome turned (λ asked. asked ≤ 65_536) }
    ensures { attended.new ≡ counted attended.old turned }
{
    if let Some(asked) = turned {
        attended.connections += 1;
        attended.asked += asked;
    }
}

/// Asks the door for a connection, serves it if there is one, and counts it.
fn take_turn<R: Wait + AllocGlobal, E: Entrance, C: Clock, G: Gate>(
    context: &Context<R, G>,
    seat: &mut Seat,
    door: &mut E,
    clock: &mut C,
    attended: &mut Attended,
) -> Result<(), ServeFault>
    requires hall { seat.old.hall ≡ context.now.hall.now }
    requires few { IsFew (10 ^ 12) attended.old }
    ensures hall { seat.new.hall ≡ seat.old.hall }
    ensures made { TakesTurn (E.seen door.old) (E.seen door.new)
        (caller_seen C.Clock.own seat.old clock.old)
        (caller_seen C.Clock.own seat.new clock.new) attended.old attended.new result }
{
    match turn(context, seat, door, clock) {
        Ok(turned) => {
            count(attended, turned);
            Ok(())
        }
        Err(fault) => Err(fault),
    }
}

/// Serves the connections that come to a door, one after another, with a seat of the hall. Asks the
/// door `turns` times.
///
/// Each connection is served as [`attend`](coap_stream::attend) does it. The worker waits for its
/// turns at the hall, and as long as the door waits for a connection.
///
/// # Requires
///
/// The seat is one of this hall, and `turns` is at most 10^12.
///
/// # Errors
///
/// `Link` if the door failed, which ends the service.
pub fn attend_door<R: Wait + AllocGlobal, E: Entrance, C: Clock, G: Gate>(
    rt: &R,
    hall: &Hall,
    seat: &mut Seat,
    door: &mut E,
    clock: &mut C,
    gate: &G,
    turns: u64,
) -> Result<Attended, ServeFault>
    requires hall { seat.old.hall ≡ hall.now }
    requires turns { turns ≤ 10 ^ 12 }
    ensures hall { seat.new.hall ≡ seat.old.hall }
    // Each connection has a peer of its own lane, and the calls that its octets lead to.
    ensures attends { AttendsDoor (E.seen door.old) (E.seen door.new)
        (caller_seen C.Clock.own seat.old clock.old)
        (caller_seen C.Clock.own seat.new clock.new) result }
    ensures few { IfOk result (IsFew turns) }
{
    let context = Context { rt, hall, gate };
    let mut attended = Attended::default();
    let mut done = 0u64;
    'turns: while done < turns {
        match take_turn(&context, seat, door, clock, &mut attended) {
            Ok(()) => {}
            Err(fault) => return Err(fault),
        }
        done += 1;
    }
    Ok(attended)
}
