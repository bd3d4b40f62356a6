//! Steps of the workers of a server, as a capture shows them.

use crate::challenges::{response, word_of};
use crate::heads::{Head, tag_of};
use crate::heard::Heard;
use crate::lines::{WORKER, tick_line};
use coap_message::Kind4;
use line_model::limits::MAX_MOMENT;
use message_model::codes::{CHANGED, EMPTY};
use rd_base::{Bytes, Moment, Peer, Starved};
use std::alloc::Global;
use trace_text::{line_print, out_print};

/// The number of Message IDs of each worker (docs/PROFILE.md).
const WORKER_MIDS: u16 = 4_096;

/// The number of milliseconds after a datagram of a tick within which one more can be of the same
/// tick. A worker waits longer before it lets time pass again.
const TICK: u64 = 40;

/// What a worker did.
#[derive(Drop)]
enum Deed {
    /// It received a datagram, and did the job that this left.
    Heard(Heard),
    /// It let time pass.
    Ticked,
    /// It sent a datagram that no step explains.
    Unknown,
}

/// What a step waits for.
#[derive(Clone, Copy, Debug, PartialEq, Eq)]
enum Awaited {
    /// The answer to the datagram that was received.
    Answer,
    /// The request that the server sends to the peer after that answer.
    Question,
    /// Nothing.
    Nothing,
}

/// A datagram that was sent.
#[derive(Drop)]
struct Sent {
    /// Its receiver.
    peer: Peer,
    /// Its octets.
    datagram: Bytes,
}

/// A step of a worker, with what it sent.
#[derive(Drop)]
pub(crate) struct Step {
    /// What the worker did.
    deed: Deed,
    /// The worker, as far as a drawn Message ID shows it.
    worker: u8,
    /// The random word of the step, as far as a challenge shows it.
    word: u32,
    /// The moment at which its first datagram was received or sent.
    begun: Moment,
    /// The moment of its last datagram.
    last: Moment,
    /// What it waits for.
    awaited: Awaited,
    /// The last Message ID that it drew, if it is a tick.
    drawn: Option<u16>,
    /// The entity tag of its notifications, if it is a tick.
    tag: Option<[u8; 8]>,
    /// The datagrams that it sent.
    sent: Vec<Sent>,
}

/// Returns the worker that drew a Message ID.
fn worker_of(mid: u16) -> u8 {
    (mid / WORKER_MIDS) as u8
}

/// Returns the Message ID that the same worker draws next.
fn next_mid(mid: u16) -> u16 {
    mid / WORKER_MIDS * WORKER_MIDS + (mid % WORKER_MIDS + 1) % WORKER_MIDS
}

/// Returns whether the Message ID of a sent message was drawn, and is not that of the message that
/// it answers.
fn is_drawn(message: &Head<'_>) -> bool {
    message.kind == Kind4::Con || message.kind == Kind4::Non
}

impl Step {
    /// Creates a step that began at a moment.
    fn of(alloc: Global, deed: Deed, worker: u8, begun: Moment, awaited: Awaited) -> Step {
        Step {
            deed,
            worker,
            word: 0,
            begun,
            last: begun,
            awaited,
            drawn: None,
            tag: None,
            sent: Vec::new(alloc),
        }
    }

    /// Creates the step in which a datagram was received.
    pub(crate) fn heard(alloc: Global, heard: Heard) -> Step {
        let moment = heard.moment();
        let awaited = if heard.is_to_be_answered() {
            Awaited::Answer
        } else if heard.may_ask() {
            Awaited::Question
        } else {
            Awaited::Nothing
        };
        Step::of(alloc, Deed::Heard(heard), WORKER, moment, awaited)
    }

    /// Creates the step of a worker that let time pass, and first sent a notification with a
    /// Message ID that it drew.
    pub(crate) fn ticked(alloc: Global, mid: u16, moment: Moment, payload: &[u8]) -> Step {
        let worker = worker_of(mid);
        let mut step = Step::of(alloc, Deed::Ticked, worker, moment, Awaited::Nothing);
        step.drawn = Some(mid);
        step.tag = tag_of(payload);
        step
    }

    /// Creates a step in which time passed, of an unknown worker.
    pub(crate) fn passed(alloc: Global, moment: Moment) -> Step {
        Step::of(alloc, Deed::Ticked, WORKER, moment, Awaited::Nothing)
    }

    /// Creates the step of a datagram that no step explains.
    pub(crate) fn unknown(alloc: Global, moment: Moment) -> Step {
        Step::of(alloc, Deed::Unknown, WORKER, moment, Awaited::Nothing)
    }

    /// Returns whether it waits for a message.
    pub(crate) fn is_awaited(&self) -> bool {
        self.awaited != Awaited::Nothing
    }

    /// Returns whether its last datagram is more than `than` milliseconds old.
    pub(crate) fn is_older(&self, than: u64, now: Moment) -> bool {
        self.last.0.saturating_add(than) < now.0
    }

    /// Returns whether it waits for this message to this peer.
    pub(crate) fn awaits(&self, peer: Peer, message: &Head<'_>) -> bool {
        let Deed::Heard(heard) = &self.deed else {
            return false;
        };
        match self.awaited {
            Awaited::Answer => heard.is_answered(peer, message),
            Awaited::Question => heard.is_asked(peer, message),
            Awaited::Nothing => false,
        }
    }

    /// Returns what it waits for after an answer. A granted simple registration or an acknowledged
    /// block can make the server send a request.
    fn awaited_behind(&self, answer: &Head<'_>) -> Awaited {
        let Deed::Heard(heard) = &self.deed else {
            return Awaited::Nothing;
        };
        let is_granted = answer.code == CHANGED
            || (answer.code == EMPTY && answer.kind == Kind4::Ack);
        if self.awaited == Awaited::Answer && is_granted && heard.may_ask() {
            return Awaited::Question;
        }
        Awaited::Nothing
    }

    /// Returns whether a notification at a moment is one more of this tick: its Message ID is the
    /// next, and its entity tag is the same, since a tick lists all from one state.
    pub(crate) fn is_going_on(&self, mid: u16, now: Moment, payload: &[u8]) -> bool {
        let Some(last) = self.drawn else {
            return false;
        };
        if next_mid(last) != mid || self.is_older(TICK, now) {
            return false;
        }
        self.tag == tag_of(payload)
    }

    /// Returns whether one more notification of this tick can still be sent.
    pub(crate) fn may_go_on(&self, now: Moment) -> bool {
        self.drawn.is_some() && !self.is_older(TICK, now)
    }

    /// Adds a datagram that it sent.
    pub(crate) fn send(
        &mut self,
        alloc: Global,
        moment: Moment,
        peer: Peer,
        payload: &[u8],
    ) -> Result<(), Starved> {
        let datagram = Bytes::copy_of(alloc, payload)?;
        self.sent.push(Sent { peer, datagram })?;
        self.last = moment;
        Ok(())
    }

    /// Records the Message ID of one more notification.
    pub(crate) fn go_on(&mut self, mid: u16) {
        self.drawn = Some(mid);
    }

    /// Records the message that it waited for, which may show its worker and its word.
    pub(crate) fn take(&mut self, message: &Head<'_>, payload: &[u8]) {
        if is_drawn(message) {
            self.worker = worker_of(message.mid);
        }
        if self.awaited == Awaited::Answer {
            self.word = response(payload).map_or(0, |answer| word_of(&answer));
        }
        self.awaited = self.awaited_behind(message);
    }

    /// Returns its lines in a trace.
    pub(crate) fn trace(&self, alloc: Global) -> Result<Bytes, Starved> {
        match &self.deed {
            Deed::Heard(heard) => heard.text(alloc, self.worker, self.word),
            Deed::Ticked => {
                let moment = Moment(self.begun.0.min(MAX_MOMENT));
                let mut text = line_print(alloc, &tick_line(self.worker, moment))?;
                text.push(b'\n')?;
                Ok(text)
            }
            Deed::Unknown => Ok(Bytes::new(alloc)),
        }
    }

    /// Returns the lines of the output for the datagrams that it sent.
    pub(crate) fn replies(&self, alloc: Global) -> Result<Bytes, Starved> {
        let mut text = Bytes::new(alloc);
        'sent: for sent in &self.sent {
            let line = out_print(alloc, self.worker, &sent.peer, sent.datagram.as_slice())?;
            text.append(line.as_slice())?;
            text.push(b'\n')?;
        }
        Ok(text)
    }
}
