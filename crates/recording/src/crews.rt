//! The workers of a server: which of them received each datagram of a capture, and which let time
//! pass.
ghost use Rattle.std.specs.Prelude.{◌≤◌, length, IfOk};
ghost use Rattle.rd_base.specs.Peers.{IsPeer};

use crate::heads::{Head, head_of};
use crate::heard::Heard;
use crate::pages::Pages;
use crate::servers::Way;
use crate::steps::Step;
use coap_message::Kind4;
use line_model::limits::{MAX_DATAGRAM, MAX_MOMENT};
use rd_base::{Moment, Peer, Starved};
use std::alloc::Global;
use std::mem;

/// The number of milliseconds in a second. Time passes at each second in which nothing is received
/// or sent.
const SECOND: u64 = 1_000;

/// The number of milliseconds within which a server sends what is due, whichever worker comes
/// first.
const LATE: u64 = 100;

/// The number of milliseconds within which a server answers.
const ANSWERED: u64 = 1_000;

/// The maximum number of seconds in a gap at each of which time passes. In a longer gap the first
/// are skipped.
const LONGEST_GAP: u64 = 86_400;

/// The maximum number of steps that wait for an answer or a request.
const MAX_WAITING: usize = 64;

/// The maximum number of steps that are stored after a tick that may go on.
const MAX_DONE: usize = 256;

/// The maximum number of messages whose Message IDs are stored.
const MAX_DRAWN: usize = 1_024;

/// The workers of a server, as far as a capture was read.
#[derive(Drop)]
pub(crate) struct Crew {
    /// The allocator of its memory.
    alloc: Global,
    /// Which datagrams are written.
    written: Way,
    /// The moment at which something was last received or sent, if anything was.
    now: Option<Moment>,
    /// The steps that wait for an answer or a request, in the order in which they began.
    waiting: Vec<Step>,
    /// The steps that are done, in order, and not yet written.
    done: Vec<Step>,
    /// The Message IDs that were last drawn for messages that can be retransmitted, with their
    /// peers.
    drawn: Vec<(Peer, u16)>,
}

impl Crew {
    /// Creates the workers of a server at the beginning of a capture. `written` says whether
    /// received or sent datagrams are written.
    pub(crate) fn new(alloc: Global, written: Way) -> Crew {
        Crew {
            alloc,
            written,
            now: None,
            waiting: Vec::new(alloc),
            done: Vec::new(alloc),
            drawn: Vec::new(alloc),
        }
    }

    /// Writes a step.
    fn write_step(&self, step: &Step, pages: &mut Pages) -> Result<(), Starved> {
        let text = match self.written {
            Way::Came => step.trace(self.alloc)?,
            Way::Sent => step.replies(self.alloc)?,
        };
        pages.out.append(text.as_slice())
    }

    /// Writes the steps that are done, up to the first tick that may go on; all of them if there
    /// are too many.
    fn write_done(&mut self, now: Moment, pages: &mut Pages) -> Result<(), Starved> {
        let count = if self.done.len() > MAX_DONE {
            self.done.len()
        } else {
            let first = self.done.iter().position(|step| step.may_go_on(now));
            first.unwrap_or(self.done.len())
        };
        'steps: for _ in 0..count {
            if self.done.is_empty() {
                return Ok(());
            }
            let step = self.done.remove(0);
            self.write_step(&step, pages)?;
        }
        Ok(())
    }

    /// Ends the steps that have waited for too long.
    fn give_up(&mut self, now: Moment) -> Result<(), Starved> {
        'waiting: for _ in 0..self.waiting.len() {
            let old = self
                .waiting
                .iter()
                .position(|step| step.is_older(ANSWERED, now));
            let Some(place) = old else {
                return Ok(());
            };
            let step = self.waiting.remove(place);
            self.done.push(step)?;
        }
        Ok(())
    }

    /// Writes a tick at each whole second of a time in which nothing was received or sent, except
    /// for the first and the last.
    fn idle(&self, from: Moment, until: Moment, pages: &mut Pages) -> Result<(), Starved> {
        let last = until.0.saturating_sub(SECOND + LATE) / SECOND;
        let first = from.0.saturating_add(LATE) / SECOND;
        let first = first.max(last.saturating_sub(LONGEST_GAP));
        'seconds: for second in first..last {
            let step = Step::passed(self.alloc, Moment((second + 1) * SECOND));
            self.write_step(&step, pages)?;
        }
        Ok(())
    }

    /// Lets time pass up to a moment, unless that is past. Returns the moment that it has reached.
    fn reach(&mut self, moment: Moment, pages: &mut Pages) -> Result<Moment, Starved>
        ensures { IfOk result (λ now. now.0 ≤ MAX_MOMENT) }
    {
        let Some(before) = self.now else {
            let now = Moment(moment.0.min(MAX_MOMENT));
            self.now = Some(now);
            return Ok(now);
        };
        let now = Moment(moment.later(before).0.min(MAX_MOMENT));
        self.now = Some(now);
        self.give_up(now)?;
        self.write_done(now, pages)?;
        self.idle(before, now, pages)?;
        Ok(now)
    }

    /// Stores a step as done, or as waiting.
    fn put(&mut self, step: Step) -> Result<(), Starved> {
        if !step.is_awaited() {
            self.done.push(step)?;
            return Ok(());
        }
        if self.waiting.len() >= MAX_WAITING {
            let first = self.waiting.remove(0);
            self.done.push(first)?;
        }
        self.waiting.push(step)?;
        Ok(())
    }

    /// Handles a datagram that the server received.
    pub(crate) fn hear(
        &mut self,
        moment: Moment,
        peer: Peer,
        payload: &[u8],
        pages: &mut Pages,
    ) -> Result<(), Starved>
        requires peer { IsPeer peer }
        requires payload { length payload.now ≤ MAX_DATAGRAM }
    {
        let now = self.reach(moment, pages)?;
        let heard = Heard::new(self.alloc, now, peer, payload)?;
        self.put(Step::heard(self.alloc, heard))?;
        self.write_done(now, pages)
    }

    /// Returns whether a message to this peer with this Message ID was sent before. Stores the
    /// Message ID.
    fn is_again(&mut self, peer: Peer, mid: u16) -> Result<bool, Starved> {
        if self.drawn.contains(&(peer, mid)) {
            return Ok(true);
        }
        if self.drawn.len() >= MAX_DRAWN {
            let _ = self.drawn.remove(0);
        }
        self.drawn.push((peer, mid))?;
        Ok(false)
    }

    /// Handles a message of a tick. It is a retransmission by an unknown worker, one more message
    /// of a tick, or the first message of a new one.
    fn tick(&mut self, now: Moment, peer: Peer, mid: u16, payload: &[u8]) -> Result<(), Starved> {
        let alloc = self.alloc;
        if self.is_again(peer, mid)? {
            let mut step = Step::passed(alloc, now);
            step.send(alloc, now, peer, payload)?;
            self.done.push(step)?;
            return Ok(());
        }
        let place = self
            .done
            .iter()
            .position(|step| step.is_going_on(mid, now, payload));
        if let Some(place) = place {
            let step = &mut self.done[place];
            step.go_on(mid);
            return step.send(alloc, now, peer, payload);
        }
        let mut step = Step::ticked(alloc, mid, now, payload);
        step.send(alloc, now, peer, payload)?;
        self.done.push(step)?;
        Ok(())
    }

    /// Handles a message for which the waiting step at an index waits.
    fn take(
        &mut self,
        place: usize,
        now: Moment,
        peer: Peer,
        message: &Head<'_>,
        payload: &[u8],
    ) -> Result<(), Starved> {
        if place >= self.waiting.len() {
            return Ok(());
        }
        let mut step = self.waiting.remove(place);
        step.take(message, payload);
        step.send(self.alloc, now, peer, payload)?;
        if message.kind == Kind4::Con {
            let _ = self.is_again(peer, message.mid)?;
        }
        self.put(step)
    }

    /// Handles a message that was sent.
    fn send_message(
        &mut self,
        now: Moment,
        peer: Peer,
        message: &Head<'_>,
        payload: &[u8],
    ) -> Result<(), Starved> {
        let place = self
            .waiting
            .iter()
            .position(|step| step.awaits(peer, message));
        if let Some(place) = place {
            return self.take(place, now, peer, message, payload);
        }
        match message.kind {
            Kind4::Con => self.tick(now, peer, message.mid, payload),
            _ => self.send_unknown(now, peer, payload),
        }
    }

    /// Handles a sent datagram that no step explains.
    fn send_unknown(&mut self, now: Moment, peer: Peer, payload: &[u8]) -> Result<(), Starved> {
        let mut step = Step::unknown(self.alloc, now);
        step.send(self.alloc, now, peer, payload)?;
        self.done.push(step)?;
        Ok(())
    }

    /// Handles a datagram that the server sent.
    pub(crate) fn send(
        &mut self,
        moment: Moment,
        peer: Peer,
        payload: &[u8],
        pages: &mut Pages,
    ) -> Result<(), Starved> {
        let now = self.reach(moment, pages)?;
        match head_of(payload) {
            Some(message) => self.send_message(now, peer, &message, payload)?,
            None => self.send_unknown(now, peer, payload)?,
        }
        self.write_done(now, pages)
    }

    /// Ends the capture, so that no step waits any longer.
    pub(crate) fn end(&mut self, pages: &mut Pages) -> Result<(), Starved> {
        let done = mem::replace(&mut self.done, Vec::new(self.alloc));
        'done: for step in &done {
            self.write_step(step, pages)?;
        }
        let waiting = mem::replace(&mut self.waiting, Vec::new(self.alloc));
        'waiting: for step in &waiting {
            self.write_step(step, pages)?;
        }
        Ok(())
    }
}
