//! Scripts on queues of leases.
ghost use Rattle.std.specs.Prelude.{◌≡◌, ◌<◌};

use crate::draws::{next_drawn, sum_of, summed};
use crate::versions::Versions;
use crate::words::{put_numbers, put_sum};
use lease_queue::{LeaseQueue, Swept};
use rd_base::{Moment, Starved, Steps};
use std::alloc::Global;
use std::marker::Brand;
use std::sync::ledger::{Blank, Ledger};
use vector_words::Line;

/// The versions of a queue of leases.
pub(crate) type Leases = Versions<LeaseQueue>;

/// Returns the numbers of the leases that have lapsed at a moment.
fn lapsed_numbers<L: Ledger>(
    blank: Blank,
    alloc: Global,
    queue: &LeaseQueue,
    now: Moment,
) -> Result<Vec<u64>, Starved>
    requires name { blank.name ≡ L.name }
    requires parts { blank.parts ≡ L.parts }
    requires some { 0 < L.parts }
{
    let mut steps = Steps::<L>::new(blank);
    let mut lapsed = queue.lapsed(now);
    let mut numbers = Vec::new(alloc);
    while let Some(number) = lapsed.step(&mut steps) {
        numbers.push(number)?;
    }
    Ok(numbers)
}

/// Returns what a sweep takes and what it leaves.
fn swept<L: Ledger>(blank: Blank, queue: &LeaseQueue, now: Moment) -> Result<Swept, Starved>
    requires name { blank.name ≡ L.name }
    requires parts { blank.parts ≡ L.parts }
    requires some { 0 < L.parts }
{
    let mut steps = Steps::<L>::new(blank);
    queue.sweep(now, &mut steps)
}

/// Writes the numbers of the leases that have lapsed at the moment that a line gives, or how many
/// there are and their checksum.
fn put_lapsed(queue: &LeaseQueue, line: &mut Line<'_>, verb: &str) -> Result<(), Starved> {
    let now = Moment(line.number(u64::MAX));
    let numbers = lapsed_numbers::<Brand>(Blank::new(1), line.alloc, queue, now)?;
    if verb == "sum" {
        put_sum(line, numbers.len() as u64, sum_of(numbers.as_slice()));
    } else {
        put_numbers(line, numbers.as_slice());
    }
    Ok(())
}

/// Sweeps at the moment that a line gives, and continues with what is left. Writes the numbers of
/// the leases that had lapsed.
fn sweep(queue: &mut LeaseQueue, line: &mut Line<'_>) -> Result<(), Starved> {
    let now = Moment(line.number(u64::MAX));
    let Swept {
        queue: left,
        numbers,
    } = swept::<Brand>(Blank::new(1), queue, now)?;
    *queue = left;
    put_numbers(line, numbers.as_slice());
    Ok(())
}

/// Puts or takes a lease, and writes how many leases there were before and afterwards.
fn change(queue: &mut LeaseQueue, line: &mut Line<'_>, verb: &str) -> Result<(), Starved> {
    let lapse = Moment(line.number(u64::MAX));
    let number = line.number(u64::MAX);
    let next = match verb {
        "put" => queue.put(lapse, number)?,
        _ => queue.take(lapse, number)?,
    };
    line.put_number(queue.count_lapsed(Moment(u64::MAX)));
    line.put(", then ");
    line.put_number(next.count_lapsed(Moment(u64::MAX)));
    *queue = next;
    Ok(())
}

/// Puts and takes pseudo-random leases. Writes the checksum of how many have lapsed at moment 32
/// after each change. One of three changes is a take. A lapse is less than 64, and a number less
/// than 32.
fn change_many(queue: &mut LeaseQueue, line: &mut Line<'_>) -> Result<(), Starved> {
    let count = line.number(u64::MAX);
    let mut drawn = line.number(u64::MAX);
    let mut sum = 0;
    for _ in 0..count {
        drawn = next_drawn(drawn);
        let lapse = Moment((drawn >> 40) % 64);
        let number = (drawn >> 50) % 32;
        *queue = match (drawn >> 60) % 3 {
            0 => queue.take(lapse, number)?,
            _ => queue.put(lapse, number)?,
        };
        sum = summed(sum, queue.count_lapsed(Moment(32)));
    }
    line.put_number(sum);
    Ok(())
}

/// Does what a line says to a queue of leases, and writes the answer.
pub(crate) fn answer(leases: &mut Leases, line: &mut Line<'_>) -> Result<(), Starved> {
    let verb = line.word();
    match verb {
        "new" => {
            leases.now = LeaseQueue::empty(line.alloc)?;
            Ok(())
        }
        "put" | "take" => change(&mut leases.now, line, verb),
        "lapsed" | "sum" => put_lapsed(&leases.now, line, verb),
        "count" => {
            let now = Moment(line.number(u64::MAX));
            line.put_number(leases.now.count_lapsed(now));
            Ok(())
        }
        "sweep" => sweep(&mut leases.now, line),
        "random" => change_many(&mut leases.now, line),
        _ => leases.turn(line, verb),
    }
}
