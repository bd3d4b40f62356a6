//! One turn of a worker that accepts connections.
ghost use Rattle.std.specs.Prelude.{◌≡◌, ◌≤◌, IfOk, IfSome};
ghost use Rattle.rd_seat.specs.Callers.{caller_seen};
ghost use Rattle.joint_server.specs.Standing as spec;
ghost use Rattle.joint_server.specs.Standing.{TurnMade};

use coap_stream::{TalkFault, Talked, attend};
use rd_seat::{Gate, Hall, Seat};
use rd_server::ServeFault;
use std::sync::Wait;
use tcp_door::{Entrance, Knock};
use udp_link::Clock;

/// The context of a worker: the runtime, the hall of its seat, and the gate that it passes.
#[derive_where(Clone, Copy)]
pub(crate) struct Context<'a, R, G> {
    pub(crate) rt: &'a R,
    pub(crate) hall: &'a Hall,
    pub(crate) gate: &'a G,
}

/// Returns the number of requests that a conversation passed to the seat, or 0 if it failed.
fn asked_of(talked: Result<Talked, TalkFault>) -> u64
    ensures { result ≡ spec.asked_of talked }
{
    match talked {
        Ok(talked) => talked.asked,
        Err(_) => 0,
    }
}

/// Asks the door for a connection, and serves it if there is one. Returns the number of requests
/// that its conversation passed to the seat.
pub(crate) fn turn<R: Wait + AllocGlobal, E: Entrance, C: Clock, G: Gate>(
    context: &Context<R, G>,
    seat: &mut Seat,
    door: &mut E,
    clock: &mut C,
) -> Result<Option<u64>, ServeFault>
    requires hall { seat.old.hall ≡ context.now.hall.now }
    ensures hall { seat.new.hall ≡ seat.old.hall }
    ensures made { TurnMade (E.seen door.old) (E.seen door.new)
        (caller_seen C.Clock.own seat.old clock.old)
        (caller_seen C.Clock.own seat.new clock.new) result }
    ensures few { IfOk result (λ turned. IfSome turned (λ asked. asked ≤ 65_536)) }
{
    match door.next() {
        Knock::One(peer, source, out) => {
            let (mut source, mut out) = (source, out);
            let (rt, hall, gate) = (context.rt, context.hall, context.gate);
            let talked = attend(rt, hall, seat, peer, &mut source, &mut out, clock, gate);
            Ok(Some(asked_of(talked)))
        }
        Knock::Nothing => Ok(None),
        Knock::Failed => Err(ServeFault::Link),
    }
}
