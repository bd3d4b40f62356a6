//! Writes the outcomes of a list in its order, each as soon as it and all before it are decided.
ghost use Rattle.std.specs.Prelude.{◌≡◌, ◌≤◌, ◌<◌, ◌+◌, ◌||◌, [], false, not, length, drop};
ghost use Rattle.std.specs.Prelude.{IsTrue, OnOk};
ghost use Rattle.udp_link.specs.declared.links.TheConstants.{MAX_DATAGRAM};
ghost use Rattle.install_list.specs.Endings as ends;
ghost use Rattle.install_list.specs.Printing.{is_done, outcome_text};

use crate::making::{Making, Outcome};
use crate::printing::end_line;
use crate::{InstallStatus, Verb};
use rd_base::{Sink, write_all};
use registrant::TellFault;
use std::alloc::{AllocGlobal, Global};
use std::sync::Wait;
use udp_link::{Clock, Link, MAX_DATAGRAM};

/// Why an outcome was not written.
#[derive(Clone, Copy, Debug, PartialEq, Eq)]
pub(crate) enum PutFault {
    /// The output could not be written.
    Unwritten,
    /// Memory ran out.
    Starved,
}

/// The lines of output of a list, and how many of them were written.
#[derive(Drop)]
pub(crate) struct Front {
    /// What the program does with the lines.
    verb: Verb,
    /// The number of the line of each request, in the order of the list.
    numbers: Vec<u64>,
    /// How many of these lines were written.
    written: usize,
    /// Whether the outcome of one of these is not a success.
    is_undone: bool,
}

/// Writes the line of an outcome, with the number of its request.
///
/// # Errors
///
/// `Unwritten` if the output could not be written; `Starved` if memory runs out.
pub(crate) fn put_line<K: Sink>(
    alloc: Global,
    out: &mut K,
    verb: Verb,
    number: u64,
    outcome: &Outcome,
) -> Result<(), PutFault>
    ensures writes { ends.CountsPut (K.faults out.old) (K.faults out.new) result }
    ensures line { ends.IsPut result (outcome_text verb number outcome.now) (K.holds out.old)
        (K.holds out.new) }
{
    let Ok(line) = end_line(alloc, verb, number, &outcome.to, &outcome.end) else {
        return Err(PutFault::Starved);
    };
    if !write_all(out, line.as_slice()) {
        return Err(PutFault::Unwritten);
    }
    Ok(())
}

/// Returns the outcome at an index, if there is one.
fn outcome_at(outcomes: &[Option<Outcome>], at: usize) -> Option<&Outcome> {
    match outcomes.get(at) {
        Some(Some(outcome)) => Some(outcome),
        Some(None) => None,
        None => None,
    }
}

impl Front {
    /// Creates the output of a list of which no line was written yet. Does not allocate.
    pub(crate) fn of(verb: Verb, numbers: Vec<u64>) -> Front
        ensures verb { result.verb ≡ verb }
        ensures left { drop result.written result.numbers.items ≡ numbers.items }
        ensures undone { result.is_undone ≡ false }
    {
        Front {
            verb,
            numbers,
            written: 0,
            is_undone: false,
        }
    }

    /// Writes the line of the next outcome.
    fn put<K: Sink>(
        &mut self,
        alloc: Global,
        number: u64,
        outcome: &Outcome,
        out: &mut K,
    ) -> Result<(), PutFault>
        requires { self.old.written < length self.old.numbers.items }
        ensures writes { ends.CountsPut (K.faults out.old) (K.faults out.new) result }
        ensures line { ends.IsPut result (outcome_text self.old.verb number outcome.now)
            (K.holds out.old) (K.holds out.new) }
        ensures verb { self.new.verb ≡ self.old.verb }
        ensures numbers { self.new.numbers ≡ self.old.numbers }
        ensures written { OnOk result (self.new.written ≡ self.old.written + 1) }
        ensures undone { OnOk result (self.new.is_undone
            ≡ (self.old.is_undone || not (is_done outcome.now.end))) }
    {
        match put_line(alloc, out, self.verb, number, outcome) {
            Ok(()) => {
                self.is_undone = self.is_undone || !outcome.end.is_done();
                self.written += 1;
                Ok(())
            }
            Err(fault) => Err(fault),
        }
    }

    /// Writes the line of the next request, if it is decided, and returns whether it is.
    fn put_next<K: Sink>(
        &mut self,
        alloc: Global,
        outcomes: &[Option<Outcome>],
        out: &mut K,
    ) -> Result<bool, PutFault>
        ensures writes { ends.CountsPut (K.faults out.old) (K.faults out.new) result }
        ensures verb { self.new.verb ≡ self.old.verb }
        ensures next { ends.IsNext result self.old.verb
            (drop self.old.written self.old.numbers.items)
            (drop self.new.written self.new.numbers.items)
            self.old.is_undone self.new.is_undone (K.holds out.old) (K.holds out.new) }
    {
        let Some(outcome) = outcome_at(outcomes, self.written) else {
            return Ok(false);
        };
        let Some(number) = self.numbers.as_slice().get(self.written) else {
            return Ok(false);
        };
        let number = *number;
        match self.put(alloc, number, outcome, out) {
            Ok(()) => Ok(true),
            Err(fault) => Err(fault),
        }
    }

    /// Returns whether all lines were written.
    fn is_over(&self) -> bool
        ensures { IsTrue result → drop self.now.written self.now.numbers.items ≡ [] }
    {
        self.written >= self.numbers.len()
    }

    /// Returns the status of a list of which all lines were written.
    fn status(&self) -> InstallStatus
        ensures { result ≡ ends.whole_status self.now.is_undone }
    {
        if self.is_undone {
            return InstallStatus::Undone;
        }
        InstallStatus::Done
    }
}

/// Returns the status of a list of which a poll failed.
fn tell_status(fault: TellFault) -> InstallStatus
    ensures { result ≡ ends.tell_status fault }
{
    match fault {
        TellFault::Link => InstallStatus::Link,
        TellFault::Starved => InstallStatus::Memory,
    }
}

/// Returns the status of a list of which a line was not written.
pub(crate) fn put_status(fault: PutFault) -> InstallStatus
    ensures { result ≡ ends.put_status fault }
{
    match fault {
        PutFault::Unwritten => InstallStatus::Write,
        PutFault::Starved => InstallStatus::Memory,
    }
}

/// Polls, with a `room` of 4,096 octets. Returns a status if the poll failed, and otherwise `None`.
pub(crate) fn polled<L: Link, C: Clock>(
    alloc: Global,
    making: &mut Making,
    link: &mut L,
    clock: &mut C,
    room: &mut [u8],
) -> Option<InstallStatus>
    requires { MAX_DATAGRAM ≤ length room.old }
    ensures receives { ends.CountsTurn (L.recv_faults link.old) (L.recv_faults link.new) result }
    ensures polled { ends.IsPolled result }
{
    match making.poll(alloc, link, clock, room) {
        Ok(()) => None,
        Err(fault) => Some(tell_status(fault)),
    }
}

/// Returns a status if all lines were written, and otherwise polls. Returns `None` if the program
/// goes on.
fn rest<L: Link, C: Clock>(
    alloc: Global,
    making: &mut Making,
    front: &Front,
    link: &mut L,
    clock: &mut C,
    room: &mut [u8],
) -> Option<InstallStatus>
    requires { MAX_DATAGRAM ≤ length room.old }
    ensures receives { ends.CountsTurn (L.recv_faults link.old) (L.recv_faults link.new) result }
    ensures rest { ends.IsRest result (drop front.now.written front.now.numbers.items)
        front.now.is_undone }
{
    if front.is_over() {
        return Some(front.status());
    }
    polled(alloc, making, link, clock, room)
}

/// Writes the next line, or polls if it is undecided. Returns `None` if the program goes on.
fn turn<K: Sink, L: Link, C: Clock>(
    alloc: Global,
    making: &mut Making,
    front: &mut Front,
    out: &mut K,
    link: &mut L,
    clock: &mut C,
    room: &mut [u8],
) -> Option<InstallStatus>
    requires { MAX_DATAGRAM ≤ length room.old }
    ensures receives { ends.CountsTurn (L.recv_faults link.old) (L.recv_faults link.new) result }
    ensures writes { ends.WritesTurn (K.faults out.old) (K.faults out.new) result }
    ensures verb { front.new.verb ≡ front.old.verb }
    ensures turned { ends.IsTurned front.old.verb result
        (drop front.old.written front.old.numbers.items)
        (drop front.new.written front.new.numbers.items)
        front.old.is_undone front.new.is_undone (K.holds out.old) (K.holds out.new) }
{
    match front.put_next(alloc, making.outcomes.as_slice(), out) {
        Ok(true) => None,
        Ok(false) => rest(alloc, making, front, link, clock, room),
        Err(fault) => Some(put_status(fault)),
    }
}

/// Makes the requests of a list, and writes the line of each outcome.
pub(crate) fn make_front<R, K, L, C>(
    rt: &R,
    making: &mut Making,
    front: &mut Front,
    out: &mut K,
    link: &mut L,
    clock: &mut C,
) -> InstallStatus
where
    R: Wait + AllocGlobal,
    K: Sink,
    L: Link,
    C: Clock,
    ensures receives { ends.CountsReceives (L.recv_faults link.old) (L.recv_faults link.new)
        result }
    ensures writes { ends.CountsWrites (K.faults out.old) (K.faults out.new) result }
    ensures made { ends.Ends front.old.verb result
        (drop front.old.written front.old.numbers.items) front.old.is_undone (K.holds out.old)
        (K.holds out.new) }
{
    let mut room = [0u8; MAX_DATAGRAM];
    'turns: for _ in rt.forever() {
        if let Some(status) = turn(rt.alloc(), making, front, out, link, clock, &mut room) {
            return status;
        }
    }
    unreachable!()
}
