//! Uploads: what is stored of a body that comes in blocks, and the answers to its blocks.
ghost use Rattle.std.specs.Prelude.{◌≡◌, ◌==◌, ◌*◌, OnOk, OnErr, IfOk, length};
ghost use Rattle.message_model.specs.Blocks.{block_size};
ghost use Rattle.event_model.specs.Events.{is_young};
ghost use Rattle.transfers.specs.Uploading.{is_of, is_live_as, first_block, with_block};

use event_model::transmission::EXCHANGE_LIFETIME;
use message_model::Block;
use rd_base::{Bytes, Key, Moment, Peer, Starved};
use std::alloc::Global;
use std::marker::Model;

/// The answer to a block of an upload (RFC 7959 section 2.9).
#[derive(Debug, Drop, PartialEq, Eq)]
pub enum Upload {
    /// The block was stored, and more follow.
    More,
    /// It is the last block of this body. The blocks before it remain stored until the upload is
    /// ended.
    Whole(Bytes),
    /// The block does not begin where the stored octets end.
    OutOfOrder,
    /// The body would have more octets than allowed.
    TooLarge,
    /// It begins an upload that more blocks follow, but the most uploads allowed are in progress.
    FullUploads,
    /// Memory ran out.
    Starved,
}

/// An upload: what is stored of a body that comes in blocks.
#[derive(Debug, Drop)]
pub struct Collected {
    /// The peer that sends the blocks.
    peer: Peer,
    /// The key of their requests.
    key: Key,
    /// The octets of the blocks so far.
    body: Bytes,
    /// The moment at which the last block came.
    last: Moment,
}

impl Model for Collected {
    ghost use Rattle.event_model.specs.Uploads.{Upload};

    ghost Value = { Upload };

    ghost view = { λ u. record { name = (u.peer, u.key); body = u.body; moment = u.last.0 } };
}

impl Collected {
    /// Begins an upload with a first block, now.
    pub(crate) fn begin(
        alloc: Global,
        now: Moment,
        peer: Peer,
        key: &Key,
        piece: &[u8],
    ) -> Result<Collected, Starved>
        ensures { IfOk result (λ u. u ≡ first_block (peer, key.now) piece.now now.0) }
    {
        let key = key.clone()?;
        let body = Bytes::copy_of(alloc, piece)?;
        Ok(Collected {
            peer,
            key,
            body,
            last: now,
        })
    }

    /// Returns whether it is the upload of this peer and request key.
    pub(crate) fn is_of(&self, peer: Peer, key: &Key) -> bool
        ensures { result ≡ is_of (peer, key.now) self.now }
    {
        peer == self.peer && key.as_slice() == self.key.as_slice()
    }

    /// Returns whether it has not expired: its last block came less than `EXCHANGE_LIFETIME`
    /// milliseconds before `now`.
    pub(crate) fn is_young(&self, now: Moment) -> bool
        ensures { result ≡ is_young now.0 self.now.moment }
    {
        now.0.saturating_sub(self.last.0) < EXCHANGE_LIFETIME
    }

    /// Returns whether it is the upload of this peer and request key, and has not expired.
    pub(crate) fn is_live_as(&self, now: Moment, peer: Peer, key: &Key) -> bool
        ensures { result ≡ is_live_as now.0 (peer, key.now) self.now }
    {
        self.is_of(peer, key) && self.is_young(now)
    }

    /// Returns the octets so far.
    pub(crate) fn body(&self) -> &[u8]
        ensures { result.now ≡ self.now.body }
    {
        self.body.as_slice()
    }

    /// Appends a further block, which comes now. `Starved` leaves the upload unchanged.
    pub(crate) fn go_on(&mut self, now: Moment, piece: &[u8]) -> Result<(), Starved>
        ensures ok { OnOk result (self.new ≡ with_block piece.now now.0 self.old) }
        ensures err { OnErr result (self.new ≡ self.old) }
    {
        self.body.append(piece)?;
        self.last = now;
        Ok(())
    }
}

/// Returns whether a block begins after `length` octets (RFC 7959 section 2.2).
pub(crate) fn begins_at(block: &Block, length: u64) -> bool
    ensures { result ≡ (length == block.now.num * block_size block.now.szx) }
{
    let Some(size) = 2u64.checked_pow(block.szx as u32 + 4) else {
        return block.num == 0 && length == 0;
    };
    let Some(begin) = (block.num as u64).checked_mul(size) else {
        return false;
    };
    length == begin
}
