//! A list of requests in progress. What became of each is written as soon as it and all before it
//! are decided.
ghost use Rattle.std.specs.Prelude.{◌≡◌, ◌≤◌, ℕ, false, List, [], Some};
ghost use Rattle.std.specs.Prelude.{IfOk, MatchOption, length};
ghost use Rattle.std.specs.List.{All, slice_get};
ghost use Rattle.udp_link.specs.declared.links.TheConstants.{MAX_DATAGRAM};
ghost use Rattle.client_model.specs.declared.asks.Ask.{Ask};
ghost use Rattle.client_model.specs.Requests.{CanBeSent};
ghost use Rattle.registrant.specs.Turns.{seen};
ghost use Rattle.commissioner.specs.declared.commissioning.TheConstants.{MAX_ASKS};
ghost use Rattle.commissioner.specs.declared.steps.Step.{Step};
ghost use Rattle.commissioner.specs.Commissioning.{StandsFor, StandForSome};
ghost use Rattle.commission_list.specs.Endings.{CountsWrites};
ghost use Rattle.commission_list.specs.Printing.{line_text};
ghost use Rattle.commission_list.specs.Makings as makings;
ghost use Rattle.commission_list.specs.Makings.{Printed, is_there, IsWrittenOn, CountsPrint};
ghost use Rattle.commission_list.specs.Makings.{Prints};
ghost use Rattle.commission_list.specs.Makings.{IsStepped, CountsStep, WritesStep, MakesOut};
ghost use Rattle.commission_list.specs.Makings.{CountsStatus, CountsBack, MakesBack};

use crate::CommissionStatus;
use crate::printing::push_line;
use commissioner::{Asks, Going, Polled, TellFault, poll_once, start};
use rd_base::{Bytes, Sink, Starved, write_all};
use registrant::Outcome;
use std::alloc::{AllocGlobal, Global};
use std::sync::Wait;
use udp_link::{Clock, Link, MAX_DATAGRAM};

/// How a list ended, with the link and the clock.
#[derive(Drop)]
pub struct CommissionEnd<L: Link + Drop, C: Clock + Drop> {
    /// How it ended.
    pub status: CommissionStatus,
    /// The link and the clock; `None` only if memory ran out.
    pub back: Option<(L, C)>,
}

/// Why outcomes were not written.
#[derive(Clone, Copy, Debug, PartialEq, Eq)]
pub(crate) enum PrintFault {
    /// The output failed.
    Unwritten,
    /// Memory ran out.
    Starved,
}

/// Returns the line of an outcome, with the number of its line in the list.
fn line_of(alloc: Global, number: u64, outcome: &Outcome) -> Result<Bytes, Starved>
    ensures { IfOk result (λ line. line ≡ line_text number outcome.now) }
{
    let mut line = Bytes::new(alloc);
    push_line(&mut line, number, outcome)?;
    Ok(line)
}

/// Returns the outcome at an index, or `None` if there is none.
fn outcome_at(outcomes: &[Option<Outcome>], at: usize) -> Option<&Outcome>
    ensures { MatchOption result (is_there (slice_get outcomes.now at) ≡ false)
        (λ o. slice_get outcomes.now at ≡ Some (Some o.now)) }
{
    match outcomes.get(at) {
        Some(Some(outcome)) => Some(outcome),
        Some(None) => None,
        None => None,
    }
}

/// Writes the line of each outcome in order, from the first that is not yet written up to the first
/// that is missing.
fn print_front<K: Sink>(
    alloc: Global,
    out: &mut K,
    outcomes: &[Option<Outcome>],
    printed: &mut usize,
) -> Result<(), PrintFault>
    ensures written { (text : List ℕ)
        → Printed 1 outcomes.now printed.old text
        → IsWrittenOn outcomes.now text result printed.new (K.holds out.old) (K.holds out.new) }
    ensures counts { CountsPrint (K.faults out.old) (K.faults out.new) result }
{
    'outcomes: while let Some(outcome) = outcome_at(outcomes, *printed) {
        let Ok(line) = line_of(alloc, *printed as u64 + 1, outcome) else {
            return Err(PrintFault::Starved);
        };
        if !write_all(out, line.as_slice()) {
            return Err(PrintFault::Unwritten);
        }
        *printed += 1;
    }
    Ok(())
}

/// Returns the status of a list that failed while it was made.
fn status_of(fault: TellFault) -> CommissionStatus
    ensures { result ≡ makings.status_of fault }
{
    match fault {
        TellFault::Link => CommissionStatus::Link,
        TellFault::Starved => CommissionStatus::Memory,
    }
}

/// Returns the status of a list whose outcomes were not written.
fn print_status(fault: PrintFault) -> CommissionStatus
    ensures { result ≡ makings.print_status fault }
{
    match fault {
        PrintFault::Unwritten => CommissionStatus::WriteFault,
        PrintFault::Starved => CommissionStatus::Memory,
    }
}

/// Makes one poll and writes the lines of what is then decided. Returns `None` if a request is
/// undecided. `room` has 4,096 octets or more.
fn step<K: Sink, L: Link + Drop, C: Clock + Drop>(
    alloc: Global,
    going: &mut Going<L, C>,
    room: &mut [u8],
    out: &mut K,
    printed: &mut usize,
) -> Option<CommissionStatus>
    requires room { MAX_DATAGRAM ≤ length room.old }
    requires stands { StandForSome going.old.lines.items going.old.outcomes }
    ensures stepped { (asks : List Ask) (past : List Step) (text : List ℕ)
        → Prints asks past going.old.lines.items going.old.outcomes printed.old text
        → IsStepped asks past text result printed.new
        going.new.lines.items going.new.outcomes
        (seen L.coming L.gone L.recv_faults L.send_faults C.times C.words going.old.link
        going.old.clock)
        (seen L.coming L.gone L.recv_faults L.send_faults C.times C.words going.new.link
        going.new.clock)
        (K.holds out.old) (K.holds out.new) }
    ensures receives { CountsStep (L.recv_faults going.old.link) (L.recv_faults going.new.link)
        result }
    ensures writes { WritesStep (K.faults out.old) (K.faults out.new) result }
{
    match poll_once(alloc, going, room) {
        Polled::Going => match print_front(alloc, out, going.outcomes.as_slice(), printed) {
            Ok(()) => None,
            Err(fault) => Some(print_status(fault)),
        },
        Polled::Over(None) => match print_front(alloc, out, going.outcomes.as_slice(), printed) {
            Ok(()) => Some(CommissionStatus::Done),
            Err(fault) => Some(print_status(fault)),
        },
        Polled::Over(Some(fault)) => Some(status_of(fault)),
    }
}

/// Makes the requests, poll after poll, and writes what became of each as soon as it and all before
/// it are decided.
fn make_all<R: Wait, K: Sink, L: Link + Drop, C: Clock + Drop>(
    rt: &R,
    alloc: Global,
    going: &mut Going<L, C>,
    out: &mut K,
) -> CommissionStatus
    requires { (asks : List Ask) × StandsFor asks [] going.old.lines.items going.old.outcomes }
    ensures made { (asks : List Ask)
        → StandsFor asks [] going.old.lines.items going.old.outcomes
        → MakesOut asks result
        (seen L.coming L.gone L.recv_faults L.send_faults C.times C.words going.old.link
        going.old.clock)
        (seen L.coming L.gone L.recv_faults L.send_faults C.times C.words going.new.link
        going.new.clock)
        (K.holds out.old) (K.holds out.new) }
    ensures receives { CountsStatus (L.recv_faults going.old.link) (L.recv_faults going.new.link)
        result }
    ensures writes { CountsWrites (K.faults out.old) (K.faults out.new) result }
{
    let mut room = [0u8; MAX_DATAGRAM];
    let mut printed = 0;
    'polls: for _ in rt.forever() {
        if let Some(status) = step(alloc, going, &mut room, out, &mut printed) {
            return status;
        }
    }
    unreachable!()
}

/// Makes a list of 1 to 1,024 requests.
fn make_some<R, K, L, C>(rt: &R, out: &mut K, link: L, clock: C, asks: Asks) -> CommissionEnd<L, C>
where
    R: Wait + AllocGlobal,
    K: Sink,
    L: Link + Drop,
    C: Clock + Drop,
    requires some { 1 ≤ length asks }
    requires few { length asks ≤ MAX_ASKS }
    requires sent { All CanBeSent asks }
    ensures made { MakesBack
        (seen L.coming L.gone L.recv_faults L.send_faults C.times C.words) asks
        result.status result.back link clock (K.holds out.old) (K.holds out.new) }
    ensures receives { CountsBack L.recv_faults link result.status result.back }
    ensures writes { CountsWrites (K.faults out.old) (K.faults out.new) result.status }
{
    match start(rt.alloc(), link, clock, asks) {
        Ok(mut going) => {
            let status = make_all(rt, rt.alloc(), &mut going, out);
            CommissionEnd {
                status,
                back: Some(going.into_ends()),
            }
        }
        Err((link, clock, _asks)) => CommissionEnd {
            status: CommissionStatus::Memory,
            back: Some((link, clock)),
        },
    }
}

/// Makes a list of at most 1,024 requests.
pub(crate) fn make_asks<R, K, L, C>(
    rt: &R,
    out: &mut K,
    link: L,
    clock: C,
    asks: Asks,
) -> CommissionEnd<L, C>
where
    R: Wait + AllocGlobal,
    K: Sink,
    L: Link + Drop,
    C: Clock + Drop,
    requires few { length asks ≤ MAX_ASKS }
    requires sent { All CanBeSent asks }
    ensures made { MakesBack
        (seen L.coming L.gone L.recv_faults L.send_faults C.times C.words) asks
        result.status result.back link clock (K.holds out.old) (K.holds out.new) }
    ensures receives { CountsBack L.recv_faults link result.status result.back }
    ensures writes { CountsWrites (K.faults out.old) (K.faults out.new) result.status }
{
    if asks.is_empty() {
        return CommissionEnd {
            status: CommissionStatus::Done,
            back: Some((link, clock)),
        };
    }
    make_some(rt, out, link, clock, asks)
}
