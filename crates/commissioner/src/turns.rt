//! One receive, and what it means for the requests in progress.
ghost use Rattle.std.specs.Prelude.{◌≡◌, ◌≤◌, true, List, [], Option, length, take};
ghost use Rattle.udp_link.specs.declared.links.TheConstants.{MAX_DATAGRAM};
ghost use Rattle.udp_link.specs.Told.{Stays};
ghost use Rattle.client_model.specs.declared.asks.Ask.{Ask};
ghost use Rattle.client_model.specs.declared.outcomes.Outcome.{Outcome};
ghost use Rattle.registrant.specs.Turns.{seen};
ghost use Rattle.commissioner.specs.declared.steps.Step.{Step};
ghost use Rattle.commissioner.specs.Lines.{event_of, IsNoLink};
ghost use Rattle.commissioner.specs.Happening.{AreOpen, AllBegun, IsTaken, AreHanded};
ghost use Rattle.commissioner.specs.Happening.{CountsTaken, is_unsaid};

use crate::lines::{Line, Taken};
use registrant::TellFault;
use std::alloc::Global;
use udp_link::{Came, Clock, Link};

/// Passes what was received to each request in progress. The only error is `Starved`.
fn hand_all<L: Link>(
    alloc: Global,
    link: &mut L,
    lines: &mut [Line],
    taken: Taken<'_>,
) -> Result<(), TellFault>
    ensures handed { (asks : List Ask) (past : List Step) (outcomes : List (Option Outcome))
        → AreOpen past asks 0 lines.old outcomes
        → AreHanded asks past outcomes (event_of taken.entry) result lines.new
        (L.gone link.old) (L.send_faults link.old) (L.gone link.new) (L.send_faults link.new) }
    ensures coming { Stays (L.coming link.old) (L.coming link.new) }
    ensures receives { L.recv_faults link.new ≡ L.recv_faults link.old }
    ensures fault { IsNoLink result }
{
    'lines: for line in lines.iter_mut() {
        line.hand(alloc, link, taken)?;
    }
    Ok(())
}

/// Returns the octets of a received datagram.
fn received(room: &[u8], size: usize) -> &[u8]
    requires { size ≤ length room.now }
    ensures { result.now ≡ take size room.now }
{
    &room[..size]
}

/// Makes one receive, reads the clock, and passes the result to each request in progress. `room`
/// has 4,096 octets or more. Returns `Link` if the receive failed.
pub(crate) fn take_event<L: Link, C: Clock>(
    alloc: Global,
    link: &mut L,
    clock: &mut C,
    lines: &mut [Line],
    room: &mut [u8],
) -> Result<(), TellFault>
    requires { MAX_DATAGRAM ≤ length room.old }
    ensures taken { (asks : List Ask) (past : List Step) (outcomes : List (Option Outcome))
        → AreOpen past asks 0 lines.old outcomes
        → AllBegun [] lines.old
        → is_unsaid outcomes ≡ true
        → IsTaken asks past outcomes result lines.new
        (seen L.coming L.gone L.recv_faults L.send_faults C.times C.words link.old clock.old)
        (seen L.coming L.gone L.recv_faults L.send_faults C.times C.words link.new clock.new) }
    ensures counts { CountsTaken (L.recv_faults link.old) (L.recv_faults link.new) result }
{
    let came = link.recv(room);
    let now = clock.now();
    match came {
        Came::Datagram(peer, size) => {
            let datagram = received(room, size);
            hand_all(alloc, link, lines, Taken::Came(now, peer, datagram))
        }
        Came::TooLong => hand_all(alloc, link, lines, Taken::Tick(now)),
        Came::Nothing => hand_all(alloc, link, lines, Taken::Tick(now)),
        Came::Failed => Err(TellFault::Link),
    }
}
