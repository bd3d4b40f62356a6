//! A directory with its requests, which are made one after another (RFC 7252 section 4.7).
ghost use Rattle.std.specs.Prelude.{◌≡◌};

use crate::answers::{Answer, answer_in};
use crate::ends::End;
use crate::identifiers::Identifiers;
use crate::items::{Item, Located};
use client_model::{Location, Outcome};
use message_model::codes::{CREATED, NOT_FOUND};
use rd_base::{Bytes, Moment, Peer, Starved};
use registrant::{Talk, TalkAgain, TalkHeard, send};
use std::alloc::Global;
use udp_link::{Clock, Link};

/// A directory with its requests, which are made one after another.
#[derive(Drop)]
pub(crate) struct Directory {
    /// Its address.
    pub(crate) to: Peer,
    /// Its requests, in the order of the list.
    pub(crate) items: Vec<Item>,
    /// The index of the current request.
    pub(crate) at: usize,
    /// The current request, while it waits for its answer.
    talk: Option<Talk>,
    /// The earliest moment at which the next request is sent.
    after: Moment,
    /// Whether anything came from the directory since a request was given up.
    is_heard: bool,
}

/// The result of a step of the current request.
#[derive(Drop)]
pub(crate) enum Step {
    /// The request is undecided.
    Going,
    /// The request has this outcome.
    Decided(End),
}

/// Returns the index of the request that is due first, or of the first in the list if several are.
fn first_due(items: &[Item]) -> usize {
    let mut first = 0;
    let mut due = Moment(u64::MAX);
    'items: for (at, item) in items.iter().enumerate() {
        if item.due.0 < due.0 {
            first = at;
            due = item.due;
        }
    }
    first
}

impl Directory {
    /// Creates a directory without requests. Does not allocate.
    pub(crate) fn of(alloc: Global, to: Peer) -> Directory {
        Directory {
            to,
            items: Vec::new(alloc),
            at: 0,
            talk: None,
            after: Moment(0),
            is_heard: false,
        }
    }

    /// Selects the next request, and returns whether it is due.
    fn pick(&mut self, now: Moment) -> bool {
        if now.0 < self.after.0 {
            return false;
        }
        self.at = first_due(self.items.as_slice());
        match self.items.as_slice().get(self.at) {
            Some(item) => item.due.0 <= now.0,
            None => false,
        }
    }

    /// Builds the message of the next request.
    fn start<C: Clock>(
        &self,
        alloc: Global,
        clock: &mut C,
        now: Moment,
        identifiers: &mut Identifiers,
    ) -> Result<Option<Talk>, Starved> {
        let Some(item) = self.items.as_slice().get(self.at) else {
            return Ok(None);
        };
        let ask = item.ask().again(alloc)?;
        let word = clock.word();
        let (mid, token) = identifiers.next();
        Ok(Some(Talk::start(alloc, ask, mid, token, now, word)?))
    }

    /// Sends the next request, if it is due and no other waits for its answer.
    ///
    /// # Errors
    ///
    /// `Starved` if memory runs out.
    pub(crate) fn begin<L: Link, C: Clock>(
        &mut self,
        alloc: Global,
        link: &mut L,
        clock: &mut C,
        identifiers: &mut Identifiers,
    ) -> Result<(), Starved>
        ensures receives { L.recv_faults link.new ≡ L.recv_faults link.old }
    {
        if self.talk.is_some() {
            return Ok(());
        }
        let now = clock.now();
        if !self.pick(now) {
            return Ok(());
        }
        let Some(talk) = self.start(alloc, clock, now, identifiers)? else {
            return Ok(());
        };
        send(link, self.to, talk.bytes());
        self.talk = Some(talk);
        Ok(())
    }

    /// Makes the next request the same with the Echo value of a challenge, unless two challenges
    /// were answered before.
    fn challenged(&mut self, alloc: Global, code: u8, echo: &Bytes) -> Result<Step, Starved> {
        let is_answered = match self.items.get_mut(self.at) {
            Some(item) => item.challenge(alloc, echo.as_slice())?,
            None => false,
        };
        if is_answered {
            return Ok(Step::Going);
        }
        Ok(Step::Decided(End::Refused(code, Bytes::new(alloc))))
    }

    /// Puts off all further requests for `wait` milliseconds, unless this one was put off eight
    /// times before.
    fn delayed(&mut self, alloc: Global, now: Moment, code: u8, wait: u64) -> Step {
        let is_delayed = match self.items.get_mut(self.at) {
            Some(item) => item.delay(),
            None => false,
        };
        if !is_delayed {
            return Step::Decided(End::Refused(code, Bytes::new(alloc)));
        }
        self.after = Moment(now.0.saturating_add(wait));
        Step::Going
    }

    /// Returns whether a registration that is kept no longer exists. If so, the next request
    /// registers the device again.
    fn is_forgotten(&mut self, code: u8) -> bool {
        if code != NOT_FOUND {
            return false;
        }
        match self.items.get_mut(self.at) {
            Some(item) => item.forget(),
            None => false,
        }
    }

    /// Handles a refusal in a datagram.
    fn refused(
        &mut self,
        alloc: Global,
        now: Moment,
        code: u8,
        datagram: &[u8],
    ) -> Result<Step, Starved> {
        if self.is_forgotten(code) {
            return Ok(Step::Going);
        }
        match answer_in(alloc, code, datagram)? {
            Answer::Challenge(echo) => self.challenged(alloc, code, &echo),
            Answer::Later(wait) => Ok(self.delayed(alloc, now, code, wait)),
            Answer::Refused(reason) => Ok(Step::Decided(End::Refused(code, reason))),
        }
    }

    /// Handles the location of a registration.
    fn located(&mut self, alloc: Global, location: Location) -> Result<Step, Starved> {
        let located = match self.items.get_mut(self.at) {
            Some(item) => item.locate(alloc, &location)?,
            None => Located::Done,
        };
        match located {
            Located::Done => Ok(Step::Decided(End::Created(location.path))),
            Located::Next => Ok(Step::Going),
            Located::Unfit => Ok(Step::Decided(End::Refused(CREATED, Bytes::new(alloc)))),
        }
    }

    /// Handles the verdict on the current request; `datagram` is the one that decided it, if any.
    fn over(
        &mut self,
        alloc: Global,
        now: Moment,
        outcome: Outcome,
        datagram: &[u8],
    ) -> Result<Step, Starved> {
        match outcome {
            Outcome::Located(location) => self.located(alloc, location),
            Outcome::Done => Ok(Step::Decided(End::Done)),
            Outcome::Refused(code) => self.refused(alloc, now, code, datagram),
            Outcome::Reset => Ok(Step::Decided(End::Reset)),
            Outcome::GaveUp => Ok(Step::Decided(End::GaveUp)),
            Outcome::Silent => Ok(Step::Decided(End::Silent)),
        }
    }

    /// Handles a datagram from the directory.
    ///
    /// # Errors
    ///
    /// `Starved` if memory runs out.
    pub(crate) fn hear<L: Link>(
        &mut self,
        alloc: Global,
        link: &mut L,
        now: Moment,
        datagram: &[u8],
    ) -> Result<Step, Starved>
        ensures receives { L.recv_faults link.new ≡ L.recv_faults link.old }
    {
        let Some(talk) = &mut self.talk else {
            return Ok(Step::Going);
        };
        match talk.heard(alloc, now, &self.to, datagram) {
            TalkHeard::Other => Ok(Step::Going),
            TalkHeard::Quiet => {
                self.is_heard = true;
                Ok(Step::Going)
            }
            TalkHeard::Starved => Err(Starved),
            TalkHeard::Over(outcome, octets) => {
                if let Some(octets) = octets {
                    send(link, self.to, &octets);
                }
                self.talk = None;
                self.is_heard = true;
                self.over(alloc, now, outcome, datagram)
            }
        }
    }

    /// Retransmits or gives up the current request, if it is time.
    ///
    /// # Errors
    ///
    /// `Starved` if memory runs out.
    pub(crate) fn tick<L: Link>(
        &mut self,
        alloc: Global,
        link: &mut L,
        now: Moment,
    ) -> Result<Step, Starved>
        ensures receives { L.recv_faults link.new ≡ L.recv_faults link.old }
    {
        let Some(talk) = &mut self.talk else {
            return Ok(Step::Going);
        };
        match talk.at_tick(now) {
            TalkAgain::Wait => Ok(Step::Going),
            TalkAgain::Send => {
                send(link, self.to, talk.bytes());
                Ok(Step::Going)
            }
            TalkAgain::Over(outcome) => {
                self.talk = None;
                self.is_heard = self.is_heard && !self.is_parted(&outcome);
                self.over(alloc, now, outcome, b"")
            }
        }
    }

    /// Returns whether the request belongs to a registration that is kept, and was given up.
    fn is_parted(&self, outcome: &Outcome) -> bool {
        match self.items.as_slice().get(self.at) {
            Some(item) => item.is_kept() && matches!(outcome, Outcome::GaveUp),
            None => false,
        }
    }

    /// Returns whether the directory is given up, since nothing came from it.
    pub(crate) fn is_lost(&self) -> bool {
        !self.is_heard
    }
}
