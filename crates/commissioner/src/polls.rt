//! One poll of a list of requests: requests begin, one receive is made, and outcomes are recorded.
ghost use Rattle.std.specs.Prelude.{◌≡◌, ◌≤◌, List, [], Option, None, length};
ghost use Rattle.udp_link.specs.declared.links.TheConstants.{MAX_DATAGRAM};
ghost use Rattle.client_model.specs.declared.asks.Ask.{Ask};
ghost use Rattle.client_model.specs.declared.outcomes.Outcome.{Outcome};
ghost use Rattle.registrant.specs.Turns.{seen};
ghost use Rattle.commissioner.specs.declared.steps.Step.{Step};
ghost use Rattle.commissioner.specs.Happening.{AreOpen, AreLines, KeepsDecided};
ghost use Rattle.commissioner.specs.Commissioning.{StandsFor, StandForSome, IsPolled, CountsPoll};
ghost use Rattle.commissioner.specs.Commissioning.{KeepsPolled};

use crate::Outcomes;
use crate::beginnings::begin_all;
use crate::lines::Line;
use crate::turns::take_event;
use rd_base::Starved;
use registrant::TellFault;
use std::alloc::Global;
use udp_link::{Clock, Link};

/// The result of one poll.
#[derive(Clone, Copy, Debug, PartialEq, Eq)]
pub enum Polled {
    /// A request is undecided.
    Going,
    /// Each request is decided, or the fault says why not.
    Over(Option<TellFault>),
}

/// Moves the outcome of each decided line to the outcomes, and removes the line.
fn put_aside(lines: &mut Vec<Line>, outcomes: &mut Outcomes)
    requires { (asks : List Ask) × (past : List Step)
        × AreLines past asks 0 lines.old.items outcomes.old }
    ensures aside { (asks : List Ask) (past : List Step)
        → AreLines past asks 0 lines.old.items outcomes.old
        → AreOpen past asks 0 lines.new.items outcomes.new }
    ensures keeps { KeepsDecided outcomes.old outcomes.new }
{
    let mut at = 0;
    'lines: while at < lines.len() {
        if lines[at].outcome.is_none() {
            at += 1;
            continue;
        }
        let line = lines.remove(at);
        outcomes.settle(line.number, line.outcome);
    }
}

/// A list of requests in progress.
#[derive(Drop)]
pub struct Going<L: Link + Drop, C: Clock + Drop> {
    /// The link.
    pub link: L,
    /// The clock.
    pub clock: C,
    /// The lines of undecided requests.
    pub(crate) lines: Vec<Line>,
    /// What became of each request.
    pub outcomes: Outcomes,
}

impl<L: Link + Drop, C: Clock + Drop> Going<L, C> {
    /// Ends the list and returns the link and the clock.
    pub fn into_ends(self) -> (L, C)
        ensures { result ≡ (self.link, self.clock) }
    {
        let Going {
            link,
            clock,
            lines: _lines,
            outcomes: _outcomes,
        } = self;
        (link, clock)
    }
}

/// Makes one poll: begins the requests that are to begin, makes one receive, and records outcomes.
///
/// Returns `Over` with a fault if memory runs out or the receive fails. The poll then decides
/// nothing more.
///
/// # Requires
///
/// `room` has 4,096 octets or more. `going` comes from [`start`], and each poll of it so far
/// returned [`Polled::Going`].
pub fn poll_once<L: Link + Drop, C: Clock + Drop>(
    alloc: Global,
    going: &mut Going<L, C>,
    room: &mut [u8],
) -> Polled
    requires room { MAX_DATAGRAM ≤ length room.old }
    requires stands { StandForSome going.old.lines.items going.old.outcomes }
    ensures polled { (asks : List Ask) (past : List Step)
        → StandsFor asks past going.old.lines.items going.old.outcomes
        → IsPolled asks past result going.new.lines.items going.new.outcomes
        (seen L.coming L.gone L.recv_faults L.send_faults C.times C.words going.old.link
        going.old.clock)
        (seen L.coming L.gone L.recv_faults L.send_faults C.times C.words going.new.link
        going.new.clock) }
    ensures counts { CountsPoll (L.recv_faults going.old.link) (L.recv_faults going.new.link)
        result }
    ensures keeps { KeepsPolled result going.old.outcomes going.new.outcomes }
{
    let begun = begin_all(alloc, &mut going.link, &mut going.clock, &mut going.lines);
    if let Err(Starved) = begun {
        return Polled::Over(Some(TellFault::Starved));
    }
    let taken = take_event(
        alloc,
        &mut going.link,
        &mut going.clock,
        &mut going.lines,
        room,
    );
    if let Err(fault) = taken {
        return Polled::Over(Some(fault));
    }
    put_aside(&mut going.lines, &mut going.outcomes);
    if going.lines.is_empty() {
        return Polled::Over(None);
    }
    Polled::Going
}
