//! A datagram that the server received, and which datagram answers it.
ghost use Rattle.std.specs.Prelude.{◌≤◌, length};
ghost use Rattle.rd_base.specs.Peers.{IsPeer};

use crate::heads::{Head, head_of, may_ask};
use crate::lines::{come_line, go_line, is_request};
use coap_message::Kind4;
use line_model::limits::{MAX_DATAGRAM, MAX_MOMENT};
use rd_base::{Bytes, Moment, Peer, Starved};
use std::alloc::Global;
use std::marker::Model;
use trace_text::line_print;

/// A datagram that the server received. Contracts see its sender.
#[derive(Drop)]
pub(crate) struct Heard {
    /// The moment at which it was received.
    moment: Moment,
    /// Its sender.
    peer: Peer,
    /// Its octets.
    datagram: Bytes,
}

impl Model for Heard {
    ghost use Rattle.std.specs.Prelude.{◌≤◌, length};
    ghost use Rattle.rd_base.specs.Peers.{IsPeer};
    ghost use Rattle.rd_base.specs.declared.peers.Peer.{Peer};
    ghost use Rattle.line_model.specs.declared.limits.TheConstants.{MAX_DATAGRAM, MAX_MOMENT};

    ghost Value = { Peer };

    ghost view = { λ heard. heard.peer };

    ghost invariant = { λ heard. (heard.moment.0 ≤ MAX_MOMENT)
        × IsPeer heard.peer
        × (length heard.datagram ≤ MAX_DATAGRAM) };
}

/// Returns whether a message answers another, if both are of the same peer. An acknowledgement or a
/// Reset does by its Message ID; a non-confirmable response answers a non-confirmable message by
/// its token (RFC 7252 sections 4.2 and 5.3.2).
fn answers(message: &Head<'_>, answer: &Head<'_>) -> bool {
    match answer.kind {
        Kind4::Ack | Kind4::Rst => message.mid == answer.mid,
        Kind4::Non => {
            message.kind == Kind4::Non && answer.is_response() && message.token == answer.token
        }
        Kind4::Con => false,
    }
}

impl Heard {
    /// Creates a datagram that was received at a moment from a peer.
    pub(crate) fn new(
        alloc: Global,
        moment: Moment,
        peer: Peer,
        payload: &[u8],
    ) -> Result<Heard, Starved>
        requires moment { moment.0 ≤ MAX_MOMENT }
        requires peer { IsPeer peer }
        requires payload { length payload.now ≤ MAX_DATAGRAM }
    {
        let datagram = Bytes::copy_of(alloc, payload)?;
        Ok(Heard {
            moment,
            peer,
            datagram,
        })
    }

    /// Returns the moment at which it was received.
    pub(crate) fn moment(&self) -> Moment {
        self.moment
    }

    /// Returns whether the server answers it: it is confirmable, or a non-confirmable request.
    pub(crate) fn is_to_be_answered(&self) -> bool {
        match head_of(self.datagram.as_slice()) {
            Some(head) => {
                head.kind == Kind4::Con || (head.kind == Kind4::Non && head.is_request())
            }
            None => false,
        }
    }

    /// Returns whether a datagram to this peer answers it.
    pub(crate) fn is_answered(&self, peer: Peer, answer: &Head<'_>) -> bool {
        match head_of(self.datagram.as_slice()) {
            Some(head) => self.peer == peer && answers(&head, answer),
            None => false,
        }
    }

    /// Returns whether a datagram to this peer can be the request that it made the server send.
    pub(crate) fn is_asked(&self, peer: Peer, question: &Head<'_>) -> bool {
        self.peer == peer && question.kind == Kind4::Con && question.is_request()
    }

    /// Returns whether it can make the server send a request to its sender.
    pub(crate) fn may_ask(&self) -> bool {
        may_ask(self.datagram.as_slice())
    }

    /// Returns the lines of the step in which a worker received it, with this random word. If it
    /// can leave a job, a line that does the job follows.
    pub(crate) fn text(&self, alloc: Global, worker: u8, word: u32) -> Result<Bytes, Starved> {
        let datagram = self.datagram.as_slice();
        let line = come_line(alloc, worker, self.moment, self.peer, datagram, word)?;
        let mut text = line_print(alloc, &line)?;
        text.push(b'\n')?;
        if is_request(datagram) {
            let line = go_line(worker, self.moment);
            text.append(line_print(alloc, &line)?.as_slice())?;
            text.push(b'\n')?;
        }
        Ok(text)
    }
}
