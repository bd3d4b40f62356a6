//! A request that waits for its answer.
ghost use Rattle.std.specs.Prelude.{◌≤◌, length};
ghost use Rattle.rd_base.specs.Peers.{IsPeer};

use crate::lines::{WORKER, come_line};
use line_model::limits::{MAX_DATAGRAM, MAX_MOMENT};
use rd_base::{Bytes, Moment, Peer, Starved};
use std::alloc::Global;
use std::marker::Model;
use trace_text::line_print;

/// The number of octets of lines after a request beyond which it stops waiting for its answer.
const MAX_BEHIND: usize = 65_536;

/// A request that the server received. Its line is written when its answer was sent, since a
/// challenge shows the random word that the server drew. Contracts see its sender.
#[derive(Drop)]
pub(crate) struct Waiting {
    /// The moment at which it was received.
    moment: Moment,
    /// Its sender.
    peer: Peer,
    /// Its octets.
    datagram: Bytes,
    /// Its token.
    token: Bytes,
    /// The lines after its own.
    behind: Bytes,
}

impl Model for Waiting {
    ghost use Rattle.std.specs.Prelude.{◌≤◌, length};
    ghost use Rattle.rd_base.specs.Peers.{IsPeer};
    ghost use Rattle.rd_base.specs.declared.peers.Peer.{Peer};
    ghost use Rattle.line_model.specs.declared.limits.TheConstants.{MAX_DATAGRAM, MAX_MOMENT};

    ghost Value = { Peer };

    ghost view = { λ w. w.peer };

    ghost invariant = { λ w. (w.moment.0 ≤ MAX_MOMENT)
        × IsPeer w.peer
        × (length w.datagram ≤ MAX_DATAGRAM) };
}

impl Waiting {
    /// Creates a request that was received at a moment from a peer, with its octets and its token.
    pub(crate) fn new(
        alloc: Global,
        moment: Moment,
        peer: Peer,
        payload: &[u8],
        token: &[u8],
    ) -> Result<Waiting, Starved>
        requires moment { moment.0 ≤ MAX_MOMENT }
        requires peer { IsPeer peer }
        requires payload { length payload.now ≤ MAX_DATAGRAM }
    {
        let datagram = Bytes::copy_of(alloc, payload)?;
        let token = Bytes::copy_of(alloc, token)?;
        Ok(Waiting {
            moment,
            peer,
            datagram,
            token,
            behind: Bytes::new(alloc),
        })
    }

    /// Returns whether an answer to this peer with this token answers the request.
    pub(crate) fn is_answered(&self, peer: Peer, token: &[u8]) -> bool {
        self.peer == peer && self.token.as_slice() == token
    }

    /// Appends a line after its own.
    pub(crate) fn put_line(&mut self, line: &[u8]) -> Result<(), Starved> {
        self.behind.append(line)?;
        self.behind.push(b'\n')
    }

    /// Appends lines after its own.
    pub(crate) fn put_text(&mut self, text: &[u8]) -> Result<(), Starved> {
        self.behind.append(text)
    }

    /// Returns whether too much text follows its line, so that it must stop waiting.
    pub(crate) fn is_long(&self) -> bool {
        self.behind.len() > MAX_BEHIND
    }

    /// Returns its line with a random word, and the lines after it.
    pub(crate) fn text(&self, alloc: Global, word: u32) -> Result<Bytes, Starved> {
        let line = come_line(
            alloc,
            WORKER,
            self.moment,
            self.peer,
            self.datagram.as_slice(),
            word,
        )?;
        let mut text = line_print(alloc, &line)?;
        text.push(b'\n')?;
        text.append(self.behind.as_slice())?;
        Ok(text)
    }
}
