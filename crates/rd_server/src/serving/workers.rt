//! The service of one worker.
ghost use Rattle.std.specs.Prelude.{◌≡◌, ◌≤◌, ◌^◌, [], IfOk};
ghost use Rattle.rd_server.specs.serving.Workers.{link_seen, worker_seen};
ghost use Rattle.rd_server.specs.serving.Sums.{IsBelow, worker_most};
ghost use Rattle.rd_server.specs.serving.Service.{CountsTold, Serves};

use crate::serving::contexts::{Context, Tally};
use crate::serving::served::{ServeFault, Served};
use crate::serving::turns::turn;
use rd_desk::Outbox;
use rd_seat::{Gate, Hall, Seat};
use std::sync::Wait;
use udp_link::{Clock, Link, MAX_DATAGRAM};

/// Makes `turns` receives, each with its calls, until one fails.
fn run<R: Wait, L: Link, C: Clock, G: Gate>(
    context: &Context<R, G>,
    seat: &mut Seat,
    link: &mut L,
    clock: &mut C,
    out: Outbox,
    turns: u64,
) -> Result<Served, ServeFault>
    requires hall { seat.old.hall ≡ context.now.hall.now }
    requires turns { turns ≤ 10 ^ 12 }
    requires empty { out ≡ [] }
    ensures hall { seat.new.hall ≡ seat.old.hall }
    ensures serves { Serves turns
        (worker_seen L.Link.own C.Clock.own seat.old link.old clock.old)
        (worker_seen L.Link.own C.Clock.own seat.new link.new clock.new) result }
    ensures few { IfOk result (IsBelow worker_most) }
{
    let mut room = [0u8; MAX_DATAGRAM];
    let mut tally = Tally {
        out,
        served: Served::default(),
    };
    let mut done = 0u64;
    'turns: while done < turns {
        if !turn(context, seat, link, clock, &mut tally, &mut room) {
            return Err(ServeFault::Link);
        }
        done += 1;
    }
    Ok(tally.served)
}

/// Serves datagrams that come over a link, by a seat of the hall, for `turns` receives.
///
/// Each datagram is handled, and its job is done at once. Time passes after each receive that gave
/// no datagram, after each datagram that was too long, and after each sixteenth that was handled.
/// Before each call of the seat, the clock is read for a moment; before a call that handles a
/// datagram or lets time pass, also for a random word. The datagrams that come out are sent; one
/// whose send fails is lost. The worker waits for its turns at the hall.
///
/// # Requires
///
/// The seat is one of this hall, and `turns` is at most 10^12.
///
/// # Errors
///
/// - `Link` if a receive failed, which ends the service.
/// - `Memory` if memory runs out before the first receive.
pub fn serve_worker<R: Wait + AllocGlobal, L: Link, C: Clock, G: Gate>(
    rt: &R,
    hall: &Hall,
    seat: &mut Seat,
    link: &mut L,
    clock: &mut C,
    gate: &G,
    turns: u64,
) -> Result<Served, ServeFault>
    requires hall { seat.old.hall ≡ hall.now }
    requires turns { turns ≤ 10 ^ 12 }
    ensures hall { seat.new.hall ≡ seat.old.hall }
    // Each receive has its calls, in order; what they send was sent, and the counts are their sums.
    ensures serves { Serves turns
        (worker_seen L.Link.own C.Clock.own seat.old link.old clock.old)
        (worker_seen L.Link.own C.Clock.own seat.new link.new clock.new) result }
    // If the link exposes its datagrams, the counts say how many were handled and sent.
    ensures told { IfOk result (λ served.
        CountsTold served (link_seen L.Link.own link.old) (link_seen L.Link.own link.new)) }
    ensures few { IfOk result (IsBelow worker_most) }
{
    let Ok(out) = Outbox::make(rt.alloc()) else {
        return Err(ServeFault::Memory);
    };
    let context = Context { rt, hall, gate };
    run(&context, seat, link, clock, out, turns)
}
