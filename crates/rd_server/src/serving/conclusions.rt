//! How a server ends: the sums of its workers are written.
ghost use Rattle.std.specs.Prelude.{◌≡◌, ◌≤◌, Ok, All, IfOk, length, map};
ghost use Rattle.rd_server.specs.serving.Sums.{IsBelow, server_most, worker_most};
ghost use Rattle.rd_server.specs.serving.Endings as spec;
ghost use Rattle.rd_server.specs.serving.Endings.{Concludes, served_line};

use crate::serving::ends::End;
use crate::serving::serve_status::ServeStatus;
use crate::serving::served::{ServeFault, Served};
use rd_base::{Bytes, Sink, Starved, write_all};
use std::alloc::Global;

/// Adds two counts, or returns the first fault that applies.
fn join(
    so_far: Result<Served, ServeFault>,
    next: Result<Served, ServeFault>,
) -> Result<Served, ServeFault>
    requires before { IfOk so_far (IsBelow server_most) }
    requires after { IfOk next (IsBelow worker_most) }
    ensures { result ≡ spec.join so_far next }
{
    match (so_far, next) {
        (Ok(a), Ok(b)) => Ok(Served {
            heard: a.heard + b.heard,
            sent: a.sent + b.sent,
            lost: a.lost + b.lost,
            too_long: a.too_long + b.too_long,
            starved: a.starved + b.starved,
        }),
        (Ok(_), Err(fault)) => Err(fault),
        (Err(fault), Ok(_)) => Err(fault),
        (Err(ServeFault::Memory), Err(_)) => Err(ServeFault::Memory),
        (Err(ServeFault::Link), Err(fault)) => Err(fault),
    }
}

/// Returns the sums of all ends, or the first fault that applies.
pub(crate) fn joined<L, C>(ends: &[End<L, C>]) -> Result<Served, ServeFault>
    requires number { length ends.now ≤ 16 }
    requires few { All (λ end. IfOk end.outcome (IsBelow worker_most)) ends.now }
    ensures { result ≡ spec.joined (map (λ end. end.outcome) ends.now) }
{
    let mut sums = Ok(Served::default());
    let mut left = ends;
    'ends: while let Some((end, rest)) = left.split_first() {
        sums = join(sums, end.outcome);
        left = rest;
    }
    sums
}

/// Returns the line of the sums.
fn line_of(alloc: Global, sums: Served) -> Result<Bytes, Starved>
    ensures { IfOk result (λ line. line ≡ served_line sums) }
{
    let Served {
        heard,
        sent,
        lost,
        ..
    } = sums;
    let text = format!(in alloc; "served {heard} {sent} {lost}\n")?;
    Ok(Bytes::of(text.into_bytes()))
}

/// Writes the sums if all were served.
pub(crate) fn conclude<K: Sink>(
    alloc: Global,
    outcome: Result<Served, ServeFault>,
    out: &mut K,
) -> ServeStatus
    ensures { Concludes outcome (K.holds out.old) (K.holds out.new)
        (K.faults out.old) (K.faults out.new) result }
{
    let sums = match outcome {
        Ok(sums) => sums,
        Err(ServeFault::Memory) => return ServeStatus::Memory,
        Err(ServeFault::Link) => return ServeStatus::Link,
    };
    let Ok(line) = line_of(alloc, sums) else {
        return ServeStatus::Memory;
    };
    if write_all(out, line.as_slice()) {
        return ServeStatus::Done;
    }
    ServeStatus::Write
}
