//! A desk with one worker that receives the datagrams of one device.

ghost use Rattle.std.specs.Prelude.{◌≤◌, ◌^◌};

use coap_message::view;
use directory_core::{Board, Directory};
use rd_base::{Host, Moment, Peer, Starved};
use rd_desk::{Admitted, Desk, Looked, Mids, Outbox, Stepped, is_look, look};
use std::alloc::Global;
use std::sync::Arc;

/// The device.
const DEVICE: Peer = Peer {
    host: Host::V4([192, 0, 2, 10]),
    port: 5683,
};

/// A lookup of all links, non-confirmable (RFC 9176 section 6.1).
const LOOKUP: &[u8] = b"\x50\x01\x00\x09\xb9rd-lookup\x03res";

/// A board that shows nothing.
#[derive(Drop)]
struct NoBoard;

impl Board for NoBoard {
    ghost use Rattle.std.specs.Prelude.{[], false, None};

    ghost name = { λ b. [] };

    ghost told = { λ b. None };

    ghost has_staged = { λ b. false };

    ghost staged = { λ b. None };

    fn stage(&mut self, _version: Arc<Directory>) -> Result<(), Starved> {
        Ok(())
    }
}

/// A desk with its worker, and what its last step sent.
#[derive(Drop)]
pub(crate) struct Fixture {
    desk: Desk<NoBoard>,
    mids: Mids,
    out: Outbox,
}

impl Fixture {
    /// Creates a desk that has received nothing.
    pub(crate) fn new(alloc: Global) -> Result<Fixture, Starved> {
        Ok(Fixture {
            desk: Desk::make(alloc, NoBoard)?,
            mids: Mids::of(0),
            out: Outbox::make(alloc)?,
        })
    }

    /// Handles a datagram of the device that is not a look, and does its job at once. Returns false
    /// if memory ran out.
    pub(crate) fn hears(&mut self, now: Moment, datagram: &[u8]) -> bool
        requires { now.0 ≤ 10 ^ 15 }
    {
        if is_look(datagram) {
            return false;
        }
        self.out.clear();
        let (mids, out) = (&mut self.mids, &mut self.out);
        match self.desk.admit(now, 0, mids, DEVICE, datagram, out) {
            Admitted::Done => true,
            Admitted::Held(job) => {
                out.clear();
                self.desk.commit(now, mids, job, out) == Stepped::Done
            }
            Admitted::Starved => false,
        }
    }

    /// Looks up all links. Returns false if memory ran out.
    fn looks(&mut self, alloc: Global, now: Moment) -> bool {
        if !is_look(LOOKUP) {
            return false;
        }
        self.out.clear();
        let now = self.desk.moment().later(now);
        let version = &**self.desk.version();
        let (mids, out) = (&mut self.mids, &mut self.out);
        matches!(
            look(alloc, version, now, mids, DEVICE, LOOKUP, out),
            Looked::Done
        )
    }

    /// Returns the first datagram that the last step sent, or nothing if it sent none.
    pub(crate) fn answer(&self) -> &[u8] {
        match self.out.at(0) {
            Some((_, answer)) => answer,
            None => b"",
        }
    }

    /// Returns whether this text answers a lookup of all links.
    pub(crate) fn lists(&mut self, alloc: Global, now: Moment, links: &[u8]) -> bool {
        if !self.looks(alloc, now) {
            return false;
        }
        match view(self.answer()) {
            Ok(answer) => answer.payload == links,
            Err(_) => false,
        }
    }
}
