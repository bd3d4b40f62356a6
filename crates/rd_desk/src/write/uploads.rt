//! Links whose body comes in blocks (RFC 7959 sections 2.3, 2.5 and 2.9).
ghost use Rattle.std.specs.Prelude.{◌≡◌, ◌≢◌, ◌<◌, ◌≤◌, ◌^◌, ℕ, Bool, [], ◌∷◌, List, length};
ghost use Rattle.std.specs.Prelude.{None, IfOk, false};
ghost use Rattle.rd_base.specs.declared.peers.Peer.{Peer};
ghost use Rattle.message_model.specs.Blocks.{IsBlock};
ghost use Rattle.message_model.specs.Codes as codes_of;
ghost use Rattle.history_model.specs.declared.entries.Entry.{Entry};
ghost use Rattle.history_model.specs.Versions.{VersionStandsFor};
ghost use Rattle.event_model.specs.declared.notes.Note.{Note};
ghost use Rattle.event_model.specs.declared.notes.Note.TheVariants as note;
ghost use Rattle.event_model.specs.AdmissionOrder.{IsOpen};
ghost use Rattle.journal_model.specs.declared.steps.Step.{Step};
ghost use Rattle.journal_model.specs.declared.rows.Row.{Row};
ghost use Rattle.journal_model.specs.Changes as changes;
ghost use Rattle.journal_model.specs.Changes.{body_used};
ghost use Rattle.journal_model.specs.Commits.{settling};
ghost use Rattle.journal_model.specs.Effects.{Effects, nothing, joined, noting};
ghost use Rattle.journal_model.specs.Journal.{events, entries};
ghost use Rattle.journal_model.specs.Registrations.{block1_option, block_uploaded};
ghost use Rattle.journal_model.specs.Rows.{row_moment};
ghost use Rattle.transfers.specs.TransferEvents.{block_answer};
ghost use Rattle.coap_answers.specs.declared.mids.Mids.{Mids};
ghost use Rattle.coap_answers.specs.Outboxes.{most_datagrams};
ghost use Rattle.rd_request.specs.Accepted.{message_of};
ghost use Rattle.rd_desk.specs.parts.Committing.{unless_failing};
ghost use Rattle.rd_desk.specs.parts.Replies.{short_said};
ghost use Rattle.rd_desk.specs.parts.Outcomes.{IsTimely, IsPlanned, IsMadeAt};
ghost use Rattle.rd_desk.specs.parts.Purposes.{purpose_of};
ghost use Rattle.rd_desk.specs.calls.Stepping.{is_starved_step};
ghost use Rattle.rd_desk.specs.parts.UnderWay.{UnderWay};
ghost use Rattle.rd_desk.specs.calls.Shown.{AreToldOf};
ghost use Rattle.rd_desk.specs.parts.Laying.{IsLaid, IsLeftBy, IsNextOf};

use crate::tables::Tables;
use crate::write::asked::{BringingLinks, Write};
use crate::write::links::whole_outcome;
use crate::write::outcomes::Outcome;
use crate::write::short_replies::ShortReply;
use crate::write::staging::staged;
use crate::{Mids, Outbox, Stepped};
use coap_options::request_key;
use directory_core::Board;
use message_model::Block;
use message_model::codes::{
    CONTINUE, REQUEST_ENTITY_INCOMPLETE, REQUEST_ENTITY_TOO_LARGE, SERVICE_UNAVAILABLE,
};
use rd_base::{Key, Peer};
use rd_request::Request;
use transfers::Upload;

/// Returns 2.31 for a block that was stored and that more blocks follow.
fn continued(block: Block) -> ShortReply
    requires { IsBlock block }
    ensures { short_said result
        ≡ record { code = codes_of.continue; options = block1_option block; payload = [] } }
{
    ShortReply {
        code: CONTINUE,
        location: None,
        block1: Some(block),
        diagnostic: b"",
    }
}

/// The body of links whose last block came.
#[derive(Clone, Copy)]
pub(crate) struct WholeBody<'a> {
    /// The key of the requests that brought its blocks (RFC 7959 section 2.5).
    pub key: &'a Key,
    /// Its last block.
    pub last: Block,
    /// Its octets.
    pub octets: &'a [u8],
}

impl Tables {
    /// Adds a block from a peer to the upload under the key of its request. After `More`, the block
    /// is stored and more follow. Any other answer leaves everything unchanged.
    fn take_block(&mut self, peer: Peer, key: &Key, block: &Block, piece: &[u8]) -> Upload
        ensures answer { (rows : List Row) (s : Step) (starved : Bool) (out : List (Peer
            × List ℕ)) (mids : Mids)
            → s.peer ≡ peer
            → UnderWay rows s starved nothing self.old out mids
            → result ≢ Upload.Starved
            → result
            ≡ block_answer (row_moment rows s) (s.peer, key.now) block.now piece.now
            (events rows) }
        ensures more { (rows : List Row) (s : Step) (starved : Bool) (out : List (Peer
            × List ℕ)) (mids : Mids)
            → s.peer ≡ peer
            → result ≡ Upload.More
            → UnderWay rows s starved nothing self.old out mids
            → UnderWay rows s starved (joined nothing
            (noting (note.Piece s.peer key.now block.now.num piece.now ∷ []))) self.new out
            mids }
        ensures other { result ≢ Upload.More → self.new ≡ self.old }
        ensures version { self.new.version ≡ self.old.version }
    {
        self.transfers
            .upload(self.alloc, self.moment, peer, key, block, piece)
    }

    /// Ends the upload of a body whose links were accepted. Does not allocate.
    fn end_upload(&mut self, peer: Peer, key: &Key)
        ensures way { (rows : List Row) (s : Step) (starved : Bool) (done : Effects)
            (out : List (Peer
            × List ℕ)) (mids : Mids)
            → s.peer ≡ peer
            → UnderWay rows s starved done self.old out mids
            → UnderWay rows s starved (joined done (noting (note.Finished s.peer key.now ∷ [])))
            self.new out mids }
        ensures version { self.new.version ≡ self.old.version }
    {
        self.transfers.end_upload(peer, key);
    }

    /// Does what is planned of links after the last of their blocks. If they are accepted, makes
    /// their entry and ends the upload. Otherwise the upload stays, so that the block can come
    /// again. In both cases, the answer settles the write. Does not allocate.
    fn settle_upload(
        &mut self,
        mids: &mut Mids,
        write: &Write<'_>,
        key: &Key,
        outcome: Outcome,
        out: &mut Outbox,
    )
        requires timely { IsTimely self.old.moment outcome }
        requires room { length out.old < most_datagrams }
        ensures way { (rows : List Row) (s : Step) (starved : Bool) (place : ℕ)
            (meant : changes.Outcome)
            → s.peer ≡ write.now.peer
            → IsOpen place write.now.peer (message_of write.now.request).mid
            write.now.admitted.0 (events rows)
            → IsMadeAt (row_moment rows s) meant
            → IsPlanned (entries rows) self.old.version.swept (note.Finished s.peer key.now ∷ [])
            meant outcome
            → UnderWay rows s starved nothing self.old out.old mids.old
            → UnderWay rows s starved (settling place s (message_of write.now.request) meant)
            self.new
            out.new mids.new }
        ensures version { IsLeftBy self.old.version self.new.version outcome.entering }
    {
        let Outcome { reply, entering } = outcome;
        let Some(entering) = entering else {
            self.settle(mids, write, &reply, out);
            return;
        };
        self.enter(entering);
        self.end_upload(write.peer, key);
        self.settle(mids, write, &reply, out);
    }

    /// Uses links whose last block came, with their whole body. Everything that allocates comes
    /// before anything changes. If memory runs out, the write fails.
    fn commit_body<B: Board>(
        &mut self,
        board: &mut B,
        mids: &mut Mids,
        bringing: &BringingLinks<'_>,
        body: &WholeBody<'_>,
        out: &mut Outbox,
    ) -> Stepped
        requires block { IsBlock body.now.last }
        requires room { length out.old < most_datagrams }
        requires free { B.has_staged board.old ≡ false }
        requires told { AreToldOf self.old.version (B.told board.old) }
        ensures way { (rows : List Row) (s : Step) (place : ℕ)
            → s.peer ≡ bringing.now.write.peer
            → IsOpen place bringing.now.write.peer (message_of bringing.now.write.request).mid
            bringing.now.write.admitted.0 (events rows)
            → UnderWay rows s (is_starved_step result) nothing self.old out.old mids.old
            → UnderWay rows s (is_starved_step result)
            (unless_failing (is_starved_step result) place s
            (message_of bringing.now.write.request)
            (settling place s (message_of bringing.now.write.request)
            (body_used (purpose_of bringing.now.purpose (message_of bringing.now.write.request))
            (entries rows) (row_moment rows s) s body.now.octets.now
            (block1_option body.now.last)
            (note.Finished s.peer body.now.key.now ∷ [])))) self.new out.new mids.new }
        ensures laid { IsLaid self.old.version self.new.version (B.staged board.old)
            (B.staged board.new) (B.has_staged board.new) }
        ensures name { B.name board.new ≡ B.name board.old }
        ensures told { B.told board.new ≡ B.told board.old }
    {
        let planned = whole_outcome(
            self.alloc,
            &*self.version,
            self.moment,
            bringing,
            body.octets,
            Some(body.last),
        );
        match staged(board, planned) {
            Ok(outcome) => {
                self.settle_upload(mids, &bringing.write, body.key, outcome, out);
                return Stepped::Done;
            }
            Err(_) => {
                self.fail(mids, &bringing.write, out);
                return Stepped::Starved;
            }
        }
    }

    /// Does an admitted block of links (RFC 7959 sections 2.5 and 2.9). Everything that allocates
    /// comes before anything changes. If memory runs out, the write fails.
    pub(crate) fn commit_block<B: Board>(
        &mut self,
        board: &mut B,
        mids: &mut Mids,
        bringing: &BringingLinks<'_>,
        block: &Block,
        out: &mut Outbox,
    ) -> Stepped
        requires block { IsBlock block.now }
        requires room { length out.old < most_datagrams }
        requires free { B.has_staged board.old ≡ false }
        requires told { AreToldOf self.old.version (B.told board.old) }
        ensures way { (rows : List Row) (s : Step) (place : ℕ)
            → s.peer ≡ bringing.now.write.peer
            → IsOpen place s.peer (message_of bringing.now.write.request).mid
            bringing.now.write.admitted.0 (events rows)
            → UnderWay rows s (is_starved_step result) nothing self.old out.old mids.old
            → UnderWay rows s (is_starved_step result)
            (unless_failing (is_starved_step result) place s
            (message_of bringing.now.write.request)
            (settling place s (message_of bringing.now.write.request)
            (block_uploaded
            (purpose_of bringing.now.purpose (message_of bringing.now.write.request)) rows
            (row_moment rows s) s (message_of bringing.now.write.request) block.now)))
            self.new out.new mids.new }
        ensures laid { IsLaid self.old.version self.new.version (B.staged board.old)
            (B.staged board.new) (B.has_staged board.new) }
        ensures name { B.name board.new ≡ B.name board.old }
        ensures told { B.told board.new ≡ B.told board.old }
    {
        let write = &bringing.write;
        let Ok(key) = request_key(self.alloc, &write.request.meaning) else {
            self.fail(mids, write, out);
            return Stepped::Starved;
        };
        match self.take_block(write.peer, &key, block, write.request.meaning.view.payload) {
            Upload::More => {
                self.settle(mids, write, &continued(*block), out);
                return Stepped::Done;
            }
            Upload::Whole(octets) => {
                let body = WholeBody {
                    key: &key,
                    last: *block,
                    octets: octets.as_slice(),
                };
                return self.commit_body(board, mids, bringing, &body, out);
            }
            Upload::OutOfOrder => {
                self.refuse_write(mids, write, REQUEST_ENTITY_INCOMPLETE, b"order", out);
                return Stepped::Done;
            }
            Upload::TooLarge => {
                self.refuse_write(mids, write, REQUEST_ENTITY_TOO_LARGE, b"size", out);
                return Stepped::Done;
            }
            Upload::FullUploads => {
                self.refuse_write(mids, write, SERVICE_UNAVAILABLE, b"uploads", out);
                return Stepped::Done;
            }
            Upload::Starved => {
                self.fail(mids, write, out);
                return Stepped::Starved;
            }
        }
    }
}
