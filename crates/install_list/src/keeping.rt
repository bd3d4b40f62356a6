//! The requests that `keep` repeats, and the lines about their changes.
ghost use Rattle.std.specs.Prelude.{◌≤◌, length};
ghost use Rattle.udp_link.specs.declared.links.TheConstants.{MAX_DATAGRAM};
ghost use Rattle.install_list.specs.Endings as ends;

use crate::fronts::{PutFault, polled, put_line, put_status};
use crate::making::{Making, Outcome};
use crate::{InstallStatus, Verb};
use rd_base::Sink;
use std::alloc::{AllocGlobal, Global};
use std::sync::Wait;
use udp_link::{Clock, Link, MAX_DATAGRAM};

/// Removes and returns the first outcome, with its index.
fn take_change(outcomes: &mut [Option<Outcome>]) -> Option<(usize, Outcome)> {
    'outcomes: for (at, outcome) in outcomes.iter_mut().enumerate() {
        if let Some(outcome) = outcome.take() {
            return Some((at, outcome));
        }
    }
    None
}

/// Returns the number at an index, or 0 if there is none.
fn number_at(numbers: &[u64], at: usize) -> u64 {
    match numbers.get(at) {
        Some(number) => *number,
        None => 0,
    }
}

/// Writes the line of the first request with a new outcome, and returns whether there is one.
fn put_change<K: Sink>(
    alloc: Global,
    numbers: &[u64],
    outcomes: &mut [Option<Outcome>],
    out: &mut K,
) -> Result<bool, PutFault>
    ensures writes { ends.CountsPut (K.faults out.old) (K.faults out.new) result }
{
    let Some((at, outcome)) = take_change(outcomes) else {
        return Ok(false);
    };
    put_line(alloc, out, Verb::Keep, number_at(numbers, at), &outcome)?;
    Ok(true)
}

/// Writes the line of a new outcome, or polls if there is none. Returns a status if the program
/// ends.
fn turn<K: Sink, L: Link, C: Clock>(
    alloc: Global,
    making: &mut Making,
    numbers: &[u64],
    out: &mut K,
    link: &mut L,
    clock: &mut C,
    room: &mut [u8],
) -> Option<InstallStatus>
    requires { MAX_DATAGRAM ≤ length room.old }
    ensures receives { ends.CountsTurn (L.recv_faults link.old) (L.recv_faults link.new) result }
    ensures writes { ends.WritesTurn (K.faults out.old) (K.faults out.new) result }
    ensures kept { ends.IsKept result }
{
    match put_change(alloc, numbers, &mut making.outcomes, out) {
        Ok(true) => None,
        Ok(false) => polled(alloc, making, link, clock, room),
        Err(fault) => Some(put_status(fault)),
    }
}

/// Makes the requests of a list, repeats them when they are due, and writes the line of each new
/// outcome, until the program ends.
pub(crate) fn make_changes<R, K, L, C>(
    rt: &R,
    making: &mut Making,
    numbers: &[u64],
    out: &mut K,
    link: &mut L,
    clock: &mut C,
) -> InstallStatus
where
    R: Wait + AllocGlobal,
    K: Sink,
    L: Link,
    C: Clock,
    ensures receives { ends.CountsReceives (L.recv_faults link.old) (L.recv_faults link.new)
        result }
    ensures writes { ends.CountsWrites (K.faults out.old) (K.faults out.new) result }
    ensures made { ends.IsHalted result }
{
    let mut room = [0u8; MAX_DATAGRAM];
    'turns: for _ in rt.forever() {
        if let Some(status) = turn(rt.alloc(), making, numbers, out, link, clock, &mut room) {
            return status;
        }
    }
    unreachable!()
}
