//! Writes to a registration: updates, removals and replacements of its links (RFC 9176 sections
//! 5.3.1, 5.3.2 and 5.3.3).
ghost use Rattle.std.specs.Prelude.{◌≡◌, ◌<◌, ◌≤◌, ◌^◌, ℕ, [], List, length, IfOk};
ghost use Rattle.std.specs.Prelude.{true, false};
ghost use Rattle.message_model.specs.Request.{path_in, queries_in};
ghost use Rattle.message_model.specs.declared.requests.Path.TheVariants as path;
ghost use Rattle.record_model.specs.AllowedParameters.{IsAllowedChange};
ghost use Rattle.record_model.specs.Parameters.{update_values};
ghost use Rattle.history_model.specs.Versions.{VersionStandsFor};
ghost use Rattle.event_model.specs.AdmissionOrder.{IsOpen};
ghost use Rattle.journal_model.specs.declared.steps.Step.{Step};
ghost use Rattle.journal_model.specs.declared.rows.Row.{Row};
ghost use Rattle.journal_model.specs.Commits as commits_of;
ghost use Rattle.journal_model.specs.Effects.{nothing};
ghost use Rattle.journal_model.specs.Journal.{events, entries};
ghost use Rattle.journal_model.specs.Requests.{method_of};
ghost use Rattle.journal_model.specs.Rows.{row_moment};
ghost use Rattle.coap_answers.specs.Outboxes.{most_datagrams};
ghost use Rattle.rd_request.specs.Accepted.{message_of};
ghost use Rattle.rd_request.specs.WriteRequests.{writes_to_registrations};
ghost use Rattle.rd_desk.specs.parts.Committing.{unless_failing};
ghost use Rattle.rd_desk.specs.parts.Outcomes.{IsTimely, IsPlanned};
ghost use Rattle.rd_desk.specs.calls.Stepping.{is_starved_step};
ghost use Rattle.rd_desk.specs.parts.UnderWay.{UnderWay};
ghost use Rattle.rd_desk.specs.calls.Shown.{AreToldOf};
ghost use Rattle.history_model.specs.declared.entries.Entry.{Entry};
ghost use Rattle.rd_desk.specs.parts.Laying.{IsLaid, IsNextOf};

use crate::tables::Tables;
use crate::write::asked::{BringingLinks, Purpose, Updating, Write};
use crate::write::outcomes::{Outcome, removed, updated};
use crate::{Mids, Outbox, Stepped};
use coap_options::queries;
use directory_core::{Board, Directory};
use message_model::codes::{POST, PUT};
use query_text::faultless_update_params;
use rd_base::{Moment, Starved, UpdateParams};
use std::alloc::Global;

/// Returns the parameters of an update. Does not check them again.
fn given_change(alloc: Global, updating: &Updating<'_>) -> Result<UpdateParams, Starved>
    ensures value { IfOk result (λ change. change
        ≡ update_values (queries_in (message_of updating.now.write.request))) }
    ensures allowed { IfOk result IsAllowedChange }
{
    faultless_update_params(alloc, queries(&updating.write.request.meaning))
}

/// Returns the outcome of a request to update the registration with a number.
fn update_outcome(
    alloc: Global,
    version: &Directory,
    now: Moment,
    updating: &Updating<'_>,
) -> Result<Outcome, Starved>
    requires after_at { version.now.at ≤ now.0 }
    requires after_sweep { version.now.swept ≤ now.0 }
    requires moment { now.0 ≤ 10 ^ 15 }
    ensures moments { IfOk result (IsTimely now.0) }
    ensures next { (history : List Entry)
        → VersionStandsFor 0 history version.now
        → IfOk result (IsNextOf history) }
    ensures planned { (rows : List Row) (s : Step)
        → VersionStandsFor 0 (entries rows) version.now
        → s.peer ≡ updating.now.write.peer
        → IfOk result (IsPlanned (entries rows) version.now.swept []
        (commits_of.updating rows now.0 s (message_of updating.now.write.request)
        updating.now.number)) }
{
    let change = given_change(alloc, updating)?;
    updated(
        alloc,
        version,
        now,
        updating.number,
        change,
        updating.write.peer,
    )
}

impl Tables {
    /// Does an admitted update of a registration. It fails if memory runs out.
    fn commit_update<B: Board>(
        &mut self,
        board: &mut B,
        mids: &mut Mids,
        updating: &Updating<'_>,
        out: &mut Outbox,
    ) -> Stepped
        requires room { length out.old < most_datagrams }
        requires free { B.has_staged board.old ≡ false }
        requires told { AreToldOf self.old.version (B.told board.old) }
        ensures way { (rows : List Row) (s : Step) (place : ℕ)
            → s.peer ≡ updating.now.write.peer
            → IsOpen place s.peer (message_of updating.now.write.request).mid
            updating.now.write.admitted.0 (events rows)
            → UnderWay rows s (is_starved_step result) nothing self.old out.old mids.old
            → UnderWay rows s (is_starved_step result)
            (unless_failing (is_starved_step result) place s (message_of updating.now.write.request)
            (commits_of.settling place s (message_of updating.now.write.request)
            (commits_of.updating rows (row_moment rows s) s
            (message_of updating.now.write.request) updating.now.number)))
            self.new out.new mids.new }
        ensures laid { IsLaid self.old.version self.new.version (B.staged board.old)
            (B.staged board.new) (B.has_staged board.new) }
        ensures name { B.name board.new ≡ B.name board.old }
        ensures told { B.told board.new ≡ B.told board.old }
    {
        let planned = update_outcome(self.alloc, &*self.version, self.moment, updating);
        self.finish(board, mids, &updating.write, planned, out)
    }

    /// Does an admitted removal of the registration with a number. It fails if memory runs out.
    fn commit_removal<B: Board>(
        &mut self,
        board: &mut B,
        mids: &mut Mids,
        write: &Write<'_>,
        number: u64,
        out: &mut Outbox,
    ) -> Stepped
        requires room { length out.old < most_datagrams }
        requires free { B.has_staged board.old ≡ false }
        requires told { AreToldOf self.old.version (B.told board.old) }
        ensures way { (rows : List Row) (s : Step) (place : ℕ)
            → s.peer ≡ write.now.peer
            → IsOpen place s.peer (message_of write.now.request).mid write.now.admitted.0
            (events rows)
            → UnderWay rows s (is_starved_step result) nothing self.old out.old mids.old
            → UnderWay rows s (is_starved_step result)
            (unless_failing (is_starved_step result) place s (message_of write.now.request)
            (commits_of.settling place s (message_of write.now.request)
            (commits_of.removing rows (row_moment rows s) s number))) self.new out.new mids.new }
        ensures laid { IsLaid self.old.version self.new.version (B.staged board.old)
            (B.staged board.new) (B.has_staged board.new) }
        ensures name { B.name board.new ≡ B.name board.old }
        ensures told { B.told board.new ≡ B.told board.old }
    {
        let planned = removed(self.alloc, &*self.version, self.moment, number);
        self.finish(board, mids, write, planned, out)
    }

    /// Does an admitted write to the registration with a number, by its method: POST updates it,
    /// PUT replaces its links, and DELETE removes it.
    pub(crate) fn commit_location<B: Board>(
        &mut self,
        board: &mut B,
        mids: &mut Mids,
        write: &Write<'_>,
        number: u64,
        out: &mut Outbox,
    ) -> Stepped
        requires at { path_in (message_of write.now.request) ≡ path.Location number }
        requires writes { writes_to_registrations (message_of write.now.request) ≡ true }
        requires room { length out.old < most_datagrams }
        requires free { B.has_staged board.old ≡ false }
        requires told { AreToldOf self.old.version (B.told board.old) }
        ensures way { (rows : List Row) (s : Step) (place : ℕ)
            → s.peer ≡ write.now.peer
            → IsOpen place s.peer (message_of write.now.request).mid write.now.admitted.0
            (events rows)
            → UnderWay rows s (is_starved_step result) nothing self.old out.old mids.old
            → UnderWay rows s (is_starved_step result)
            (unless_failing (is_starved_step result) place s (message_of write.now.request)
            (commits_of.settling place s (message_of write.now.request)
            (commits_of.location_outcome (method_of (message_of write.now.request).code) rows
            (row_moment rows s) s (message_of write.now.request) number)))
            self.new out.new mids.new }
        ensures laid { IsLaid self.old.version self.new.version (B.staged board.old)
            (B.staged board.new) (B.has_staged board.new) }
        ensures name { B.name board.new ≡ B.name board.old }
        ensures told { B.told board.new ≡ B.told board.old }
    {
        let write = *write;
        let code = write.request.meaning.view.code;
        if code == POST {
            return self.commit_update(board, mids, &Updating { write, number }, out);
        }
        if code == PUT {
            let purpose = Purpose::Replace(number);
            return self.commit_links(board, mids, &BringingLinks { write, purpose }, out);
        }
        self.commit_removal(board, mids, &write, number, out)
    }
}
