//! Links of a new registration, or replaced links of an existing one. The body comes whole or in
//! blocks (RFC 9176 sections 5 and 5.3.3, RFC 7959 section 2.5).
ghost use Rattle.std.specs.Prelude.{◌≡◌, ◌<◌, ◌≤◌, ◌^◌, ℕ, []};
ghost use Rattle.std.specs.Prelude.{List, length, None, IfOk, false};
ghost use Rattle.std.specs.Option.{ForSome};
ghost use Rattle.message_model.specs.Blocks.{IsBlock};
ghost use Rattle.history_model.specs.Versions.{VersionStandsFor};
ghost use Rattle.event_model.specs.declared.notes.Note.{Note};
ghost use Rattle.event_model.specs.AdmissionOrder.{IsOpen};
ghost use Rattle.journal_model.specs.declared.steps.Step.{Step};
ghost use Rattle.journal_model.specs.declared.rows.Row.{Row};
ghost use Rattle.journal_model.specs.Changes.{body_used};
ghost use Rattle.journal_model.specs.Commits.{settling};
ghost use Rattle.journal_model.specs.Effects.{nothing};
ghost use Rattle.journal_model.specs.Journal.{events, entries};
ghost use Rattle.journal_model.specs.Registrations.{links_outcome};
ghost use Rattle.journal_model.specs.Requests.{sent_block};
ghost use Rattle.journal_model.specs.Rows.{row_moment};
ghost use Rattle.coap_answers.specs.Outboxes.{most_datagrams};
ghost use Rattle.coap_answers.specs.Replies.{block1_options};
ghost use Rattle.rd_request.specs.Accepted.{message_of};
ghost use Rattle.rd_desk.specs.parts.Committing.{unless_failing};
ghost use Rattle.rd_desk.specs.parts.Outcomes.{IsTimely, IsPlanned};
ghost use Rattle.rd_desk.specs.parts.Purposes.{purpose_of};
ghost use Rattle.rd_desk.specs.calls.Stepping.{is_starved_step};
ghost use Rattle.rd_desk.specs.parts.UnderWay.{UnderWay};
ghost use Rattle.rd_desk.specs.calls.Shown.{AreToldOf};
ghost use Rattle.history_model.specs.declared.entries.Entry.{Entry};
ghost use Rattle.rd_desk.specs.parts.Laying.{IsLaid, IsNextOf};

use crate::tables::Tables;
use crate::write::asked::{BringingLinks, Purpose};
use crate::write::outcomes::{Outcome, registered, replaced};
use crate::{Mids, Outbox, Stepped};
use directory_core::{Board, Directory};
use message_model::Block;
use rd_base::{Moment, Starved};
use rd_request::{Request, given_params};
use std::alloc::Global;

/// Returns the outcome of links with their whole body, by their purpose. The answer names `block1`,
/// if there is one.
pub(crate) fn whole_outcome(
    alloc: Global,
    version: &Directory,
    now: Moment,
    bringing: &BringingLinks<'_>,
    body: &[u8],
    block1: Option<Block>,
) -> Result<Outcome, Starved>
    requires after_at { version.now.at ≤ now.0 }
    requires after_sweep { version.now.swept ≤ now.0 }
    requires moment { now.0 ≤ 10 ^ 15 }
    requires block1 { ForSome block1 IsBlock }
    ensures moments { IfOk result (IsTimely now.0) }
    ensures next { (history : List Entry)
        → VersionStandsFor 0 history version.now
        → IfOk result (IsNextOf history) }
    ensures planned { (history : List Entry) (s : Step) (further : List Note)
        → VersionStandsFor 0 history version.now
        → s.peer ≡ bringing.now.write.peer
        → IfOk result (IsPlanned history version.now.swept further
        (body_used (purpose_of bringing.now.purpose (message_of bringing.now.write.request)) history
        now.0 s body.now (block1_options block1) further)) }
{
    let write = &bringing.write;
    match bringing.purpose {
        Purpose::Register => {
            let params = given_params(alloc, &write.request.meaning)?;
            registered(alloc, version, now, write.peer, params, body, block1)
        }
        Purpose::Replace(number) => replaced(alloc, version, now, number, body, block1),
    }
}

impl Tables {
    /// Uses links whose body came whole, by their purpose. The write fails if memory runs out.
    fn commit_whole<B: Board>(
        &mut self,
        board: &mut B,
        mids: &mut Mids,
        bringing: &BringingLinks<'_>,
        out: &mut Outbox,
    ) -> Stepped
        requires room { length out.old < most_datagrams }
        requires free { B.has_staged board.old ≡ false }
        requires told { AreToldOf self.old.version (B.told board.old) }
        ensures way { (rows : List Row) (s : Step) (place : ℕ)
            → s.peer ≡ bringing.now.write.peer
            → IsOpen place s.peer (message_of bringing.now.write.request).mid
            bringing.now.write.admitted.0 (events rows)
            → UnderWay rows s (is_starved_step result) nothing self.old out.old mids.old
            → UnderWay rows s (is_starved_step result)
            (unless_failing (is_starved_step result) place s
            (message_of bringing.now.write.request)
            (settling place s (message_of bringing.now.write.request)
            (links_outcome None
            (purpose_of bringing.now.purpose (message_of bringing.now.write.request)) rows
            (row_moment rows s) s (message_of bringing.now.write.request))))
            self.new out.new mids.new }
        ensures laid { IsLaid self.old.version self.new.version (B.staged board.old)
            (B.staged board.new) (B.has_staged board.new) }
        ensures name { B.name board.new ≡ B.name board.old }
        ensures told { B.told board.new ≡ B.told board.old }
    {
        let planned = whole_outcome(
            self.alloc,
            &*self.version,
            self.moment,
            bringing,
            bringing.write.request.meaning.view.payload,
            None,
        );
        self.finish(board, mids, &bringing.write, planned, out)
    }

    /// Does an admitted write that brings links, with its whole body or as a block.
    pub(crate) fn commit_links<B: Board>(
        &mut self,
        board: &mut B,
        mids: &mut Mids,
        bringing: &BringingLinks<'_>,
        out: &mut Outbox,
    ) -> Stepped
        requires room { length out.old < most_datagrams }
        requires free { B.has_staged board.old ≡ false }
        requires told { AreToldOf self.old.version (B.told board.old) }
        ensures way { (rows : List Row) (s : Step) (place : ℕ)
            → s.peer ≡ bringing.now.write.peer
            → IsOpen place s.peer (message_of bringing.now.write.request).mid
            bringing.now.write.admitted.0 (events rows)
            → UnderWay rows s (is_starved_step result) nothing self.old out.old mids.old
            → UnderWay rows s (is_starved_step result)
            (unless_failing (is_starved_step result) place s
            (message_of bringing.now.write.request)
            (settling place s (message_of bringing.now.write.request)
            (links_outcome (sent_block (message_of bringing.now.write.request))
            (purpose_of bringing.now.purpose (message_of bringing.now.write.request)) rows
            (row_moment rows s) s (message_of bringing.now.write.request))))
            self.new out.new mids.new }
        ensures laid { IsLaid self.old.version self.new.version (B.staged board.old)
            (B.staged board.new) (B.has_staged board.new) }
        ensures name { B.name board.new ≡ B.name board.old }
        ensures told { B.told board.new ≡ B.told board.old }
    {
        match bringing.write.request.sent {
            None => return self.commit_whole(board, mids, bringing, out),
            Some(block) => {
                return self.commit_block(board, mids, bringing, &block, out);
            }
        }
    }
}
