//! The table of transfers.
ghost use Rattle.std.specs.Prelude.{◌≡◌, ◌≢◌, ℕ, ◌≤◌, [], ◌∷◌, List, map, option_map, IfOk};
ghost use Rattle.std.specs.Borrow.{sem};
ghost use Rattle.event_model.specs.declared.notes.Note.TheVariants as note;
ghost use Rattle.event_model.specs.Events.{Event, noted};
ghost use Rattle.event_model.specs.KeptAnswers.{kept_answer};
ghost use Rattle.transfers.specs.TransferEvents.{TransfersStandFor, UploadsStandFor};
ghost use Rattle.transfers.specs.TransferEvents.{AnswersStandFor, block_answer, kept_note};
ghost use Rattle.transfers.specs.TransferEvents.{answer_read, AfterReading};
ghost use Rattle.transfers.specs.Ends.{ends_so};

use crate::caching::Cache;
use crate::{Answers, Collected, Ready, Upload, caching, uploading};
use message_model::{Block, MAX_UPLOADS};
use rd_base::{Bytes, Key, Moment, Peer, Starved, Tag};
use std::alloc::Global;
use std::marker::Model;

/// The uploads in progress, and the answers that are kept for their later blocks (RFC 7959 sections
/// 2.4 and 2.5).
#[derive(Drop)]
pub struct Transfers {
    /// The uploads, in the order in which they began.
    uploads: Vec<Collected>,
    /// The kept answers.
    answers: Cache,
}

impl Model for Transfers {
    ghost use Rattle.std.specs.Prelude.{◌≡◌, ◌≤◌};
    ghost use Rattle.std.specs.Vec.{vec_len, vec_capacity};
    ghost use Rattle.message_model.specs.Uploads.{max_uploads};
    ghost use Rattle.event_model.specs.KeptAnswers.{max_answers};
    ghost use Rattle.transfers.specs.Keeping.{values};
    ghost use Rattle.transfers.specs.TransferEvents.{Table};

    ghost Value = { Table };

    ghost view = { λ t. record { uploads = t.uploads.items; answers = values t.answers.entries } };

    ghost invariant = { λ t. (max_uploads ≤ vec_capacity t.uploads)
        × (vec_len t.uploads ≤ max_uploads)
        × (t.answers.cap ≡ max_answers) };
}

impl Transfers {
    /// Creates an empty table, with room for the most uploads that can be in progress, 64.
    ///
    /// # Errors
    ///
    /// `Starved` if memory runs out.
    pub fn make(alloc: Global) -> Result<Transfers, Starved>
        ensures { IfOk result (λ t. (at : ℕ) → TransfersStandFor at [] t) }
    {
        let uploads = Vec::with_capacity(alloc, MAX_UPLOADS)?;
        let answers = caching::empty(alloc)?;
        Ok(Transfers { uploads, answers })
    }

    /// Adds a block to the upload of this peer and request key (RFC 7959 sections 2.5 and 2.9).
    ///
    /// Returns `More` if the block was stored and more follow. Any other answer leaves the table
    /// unchanged. So the last block, answered by `Whole` with the complete body, can come again
    /// until [`Transfers::end_upload`].
    pub fn upload(
        &mut self,
        alloc: Global,
        now: Moment,
        peer: Peer,
        key: &Key,
        block: &Block,
        piece: &[u8],
    ) -> Upload
        ensures answer { (at : ℕ) (events : List Event)
            → at ≤ now.0
            → TransfersStandFor at events self.old
            → result ≢ Upload.Starved
            → result ≡ block_answer now.0 (peer, key.now) block.now piece.now events }
        ensures more { (at : ℕ) (events : List Event) (e : Event)
            → at ≤ now.0
            → result ≡ Upload.More
            → e.note ≡ note.Piece peer key.now block.now.num piece.now
            → e.moment ≡ now.0
            → TransfersStandFor at events self.old
            → TransfersStandFor now.0 (e ∷ events) self.new }
        ensures other { result ≢ Upload.More → self.new ≡ self.old }
        ensures answers { self.new.answers ≡ self.old.answers }
    {
        uploading::upload(&mut self.uploads, alloc, now, peer, key, block, piece)
    }

    /// Ends the upload of this peer and request key, if there is one. Does not allocate.
    pub fn end_upload(&mut self, peer: Peer, key: &Key)
        ensures stands { (at : ℕ) (events : List Event) (e : Event)
            → e.note ≡ note.Finished peer key.now
            → TransfersStandFor at events self.old
            → TransfersStandFor at (e ∷ events) self.new }
        ensures answers { self.new.answers ≡ self.old.answers }
    {
        uploading::drop_upload(&mut self.uploads, peer, key);
    }

    /// Prepares the kept answers with each of these kept after them, one after the other, as used
    /// now. The table does not change until [`Transfers::adopt`].
    ///
    /// # Errors
    ///
    /// `Starved` if memory runs out.
    pub fn ready(&self, alloc: Global, now: Moment, more: Answers) -> Result<Ready, Starved>
        ensures { IfOk result (λ r.
            (events : List Event) (place word : ℕ)
            → AnswersStandFor events self.now.answers
            → AnswersStandFor (noted place now.0 word (map kept_note more) events) r) }
    {
        let answers = caching::with_more(alloc, &self.answers, now, more)?;
        Ok(Ready { answers })
    }

    /// Replaces the kept answers by those that are ready. Does not allocate.
    pub fn adopt(&mut self, ready: Ready)
        ensures uploads { self.new.uploads ≡ self.old.uploads }
        ensures answers { self.new.answers ≡ ready }
        ensures stands { (at : ℕ) (events : List Event)
            → UploadsStandFor at events self.old.uploads
            → AnswersStandFor events ready
            → TransfersStandFor at events self.new }
    {
        let Ready { answers } = ready;
        self.answers = answers;
    }

    /// Returns the body and the entity tag that are kept for this peer and request key, or `None`
    /// if there is no such answer or it has expired (RFC 7959 section 2.4). Reading counts as a use
    /// of the answer, even if the requested block lies past its end. Does not allocate.
    pub fn kept_block(&mut self, now: Moment, peer: Peer, key: &Key) -> Option<(&Bytes, Tag)>
        ensures* ends { sem 𝓛 (ends_so self.entry
            (λ n. AfterReading (option_map answer_read result) now.0 peer key.now self.old
            n)) }
        ensures answer { (at : ℕ) (events : List Event)
            → TransfersStandFor at events self.old
            → option_map answer_read result ≡ kept_answer now.0 (peer, key.now) events }
    {
        let number = caching::read(&mut self.answers, now, peer, key)?;
        let kept = self.answers.peek(&number)?;
        Some((kept.body(), kept.tag()))
    }
}
