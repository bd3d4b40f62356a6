//! Admitted writes, as they are done. The directory makes the requested change and answers (RFC
//! 9176 section 5, RFC 7252 section 4.5).
ghost use Rattle.std.specs.Prelude.{◌≡◌, ◌+◌, ◌<◌, ◌≤◌, ◌^◌, ℕ, Bool, [], List, length, Ok, IfOk};
ghost use Rattle.std.specs.Prelude.{false};
ghost use Rattle.message_model.specs.Message.{Message};
ghost use Rattle.message_model.specs.Reading.{reading};
ghost use Rattle.event_model.specs.AdmissionOrder.{IsOpen};
ghost use Rattle.journal_model.specs.declared.steps.Step.{Step};
ghost use Rattle.journal_model.specs.declared.steps.StepKind.TheVariants as step;
ghost use Rattle.journal_model.specs.declared.rows.Row.{Row};
ghost use Rattle.journal_model.specs.Changes as changes;
ghost use Rattle.journal_model.specs.Commits.{settling};
ghost use Rattle.journal_model.specs.Effects.{nothing};
ghost use Rattle.journal_model.specs.Journal.{events, entries};
ghost use Rattle.journal_model.specs.Rows.{row_moment, done, row};
ghost use Rattle.coap_answers.specs.Outboxes.{most_datagrams};
ghost use Rattle.rd_request.specs.Accepted.{message_of};
ghost use Rattle.rd_desk.specs.parts.Committing.{unless_failing};
ghost use Rattle.rd_desk.specs.parts.Outcomes.{IsTimely, IsPlanned, IsMadeAt};
ghost use Rattle.rd_desk.specs.calls.Stepping.{is_starved_step};
ghost use Rattle.rd_desk.specs.parts.UnderWay.{UnderWay};
ghost use Rattle.rd_desk.specs.calls.Steps.{IsCalled, Made};
ghost use Rattle.rd_desk.specs.calls.Shown.{AreToldOf};
ghost use Rattle.history_model.specs.declared.entries.Entry.{Entry};
ghost use Rattle.history_model.specs.Versions.{VersionStandsFor};
ghost use Rattle.rd_desk.specs.parts.Laying.{IsLaid, IsLeftBy, IsNextOf};

use crate::tables::Tables;
use crate::write::asked::{BringingLinks, Purpose, RegisteringSimply, Write};
use crate::write::outcomes::Outcome;
use crate::write::staging::staged;
use crate::{Mids, Outbox, Stepped, WriteJob};
use directory_core::Board;
use rd_base::{Moment, Starved};
use rd_request::Resource;

impl Tables {
    /// Does what is planned of a write: makes its entry, if it has one, and settles it by its
    /// answer. Does not allocate.
    fn conclude(&mut self, mids: &mut Mids, write: &Write<'_>, outcome: Outcome, out: &mut Outbox)
        requires timely { IsTimely self.old.moment outcome }
        requires room { length out.old < most_datagrams }
        ensures way { (rows : List Row) (s : Step) (starved : Bool) (place : ℕ)
            (meant : changes.Outcome)
            → s.peer ≡ write.now.peer
            → IsOpen place write.now.peer (message_of write.now.request).mid
            write.now.admitted.0 (events rows)
            → IsMadeAt (row_moment rows s) meant
            → IsPlanned (entries rows) self.old.version.swept [] meant outcome
            → UnderWay rows s starved nothing self.old out.old mids.old
            → UnderWay rows s starved (settling place s (message_of write.now.request) meant)
            self.new
            out.new mids.new }
        ensures version { IsLeftBy self.old.version self.new.version outcome.entering }
    {
        let Outcome { reply, entering } = outcome;
        let Some(entering) = entering else {
            self.settle(mids, write, &reply, out);
            return;
        };
        self.enter(entering);
        self.settle(mids, write, &reply, out);
    }

    /// Does an admitted write as planned, or lets it fail if memory ran out meanwhile. Does not
    /// allocate.
    pub(crate) fn finish<B: Board>(
        &mut self,
        board: &mut B,
        mids: &mut Mids,
        write: &Write<'_>,
        planned: Result<Outcome, Starved>,
        out: &mut Outbox,
    ) -> Stepped
        requires timely { IfOk planned (IsTimely self.old.moment) }
        requires room { length out.old < most_datagrams }
        requires free { B.has_staged board.old ≡ false }
        requires told { AreToldOf self.old.version (B.told board.old) }
        requires next { (history : List Entry)
            → VersionStandsFor 0 history self.old.version
            → IfOk planned (IsNextOf history) }
        ensures way { (rows : List Row) (s : Step) (place : ℕ) (meant : changes.Outcome)
            → s.peer ≡ write.now.peer
            → IsOpen place s.peer (message_of write.now.request).mid write.now.admitted.0
            (events rows)
            → IsMadeAt (row_moment rows s) meant
            → IfOk planned (IsPlanned (entries rows) self.old.version.swept [] meant)
            → UnderWay rows s (is_starved_step result) nothing self.old out.old mids.old
            → UnderWay rows s (is_starved_step result)
            (unless_failing (is_starved_step result) place s (message_of write.now.request)
            (settling place s (message_of write.now.request) meant)) self.new out.new mids.new }
        ensures laid { IsLaid self.old.version self.new.version (B.staged board.old)
            (B.staged board.new) (B.has_staged board.new) }
        ensures name { B.name board.new ≡ B.name board.old }
        ensures told { B.told board.new ≡ B.told board.old }
    {
        match staged(board, planned) {
            Ok(outcome) => {
                self.conclude(mids, write, outcome, out);
                return Stepped::Done;
            }
            Err(Starved) => {
                self.fail(mids, write, out);
                return Stepped::Starved;
            }
        }
    }

    /// Does the write of a job, by the resource that it writes to.
    fn commit_write<B: Board>(
        &mut self,
        board: &mut B,
        mids: &mut Mids,
        job: WriteJob,
        out: &mut Outbox,
    ) -> Stepped
        requires room { length out.old + 1 < most_datagrams }
        requires free { B.has_staged board.old ≡ false }
        requires told { AreToldOf self.old.version (B.told board.old) }
        ensures way { (rows : List Row) (s : Step) (place : ℕ) (m : Message)
            → s.peer ≡ job.peer
            → s.word ≡ 0
            → reading job.datagram ≡ Ok m
            → IsOpen place s.peer m.mid job.admitted (events rows)
            → UnderWay rows s (is_starved_step result) nothing self.old out.old mids.old
            → UnderWay rows s (is_starved_step result)
            (done (is_starved_step result) rows (row_moment rows s) place s
            (reading job.datagram)) self.new out.new mids.new }
        ensures laid { IsLaid self.old.version self.new.version (B.staged board.old)
            (B.staged board.new) (B.has_staged board.new) }
        ensures name { B.name board.new ≡ B.name board.old }
        ensures told { B.told board.new ≡ B.told board.old }
    {
        let request = job.request();
        let write = Write {
            peer: job.peer,
            admitted: job.admitted,
            request,
        };
        match request.resource {
            Resource::Registration => {
                let purpose = Purpose::Register;
                return self.commit_links(board, mids, &BringingLinks { write, purpose }, out);
            }
            Resource::SimpleRegistration => {
                return self.commit_simple(0, mids, &RegisteringSimply { write }, out);
            }
            Resource::Location(number) => {
                return self.commit_location(board, mids, &write, number, out);
            }
            Resource::Core | Resource::Lookup(_) => unreachable!(),
        }
    }

    /// Does the step of an admitted write. `now` is at most 10^15 milliseconds; one earlier than
    /// the tables' moment is raised to it. `out` is empty.
    pub(crate) fn commit<B: Board>(
        &mut self,
        board: &mut B,
        now: Moment,
        mids: &mut Mids,
        job: WriteJob,
        out: &mut Outbox,
    ) -> Stepped
        requires moment { now.0 ≤ 10 ^ 15 }
        requires empty { out.old ≡ [] }
        requires free { B.has_staged board.old ≡ false }
        requires told { AreToldOf self.old.version (B.told board.old) }
        ensures made { (rows : List Row) (s : Step) (place : ℕ) (m : Message)
            → s.kind ≡ step.Commit place
            → s.peer ≡ job.peer
            → s.datagram ≡ job.datagram
            → s.word ≡ 0
            → reading job.datagram ≡ Ok m
            → IsOpen place s.peer m.mid job.admitted (events rows)
            → IsCalled rows s now mids.old self.old
            → Made rows (row rows s (is_starved_step result)) self.new out.new mids.old mids.new }
        ensures laid { IsLaid self.old.version self.new.version (B.staged board.old)
            (B.staged board.new) (B.has_staged board.new) }
        ensures name { B.name board.new ≡ B.name board.old }
        ensures told { B.told board.new ≡ B.told board.old }
    {
        self.pass(now);
        self.commit_write(board, mids, job, out)
    }
}
