//! The workers of a replay. Each draws its own Message IDs, and holds at most one job.
ghost use Rattle.std.specs.Prelude.{◌≡◌, ◌≤◌, ◌<◌, ◌^◌, ℕ, true, false, [], List, IfOk, IfSome};
ghost use Rattle.std.specs.Prelude.{Some, Ok, is_some};
ghost use Rattle.message_model.specs.Reading.{reading};
ghost use Rattle.message_model.specs.Spelling.{spelling};
ghost use Rattle.journal_model.specs.declared.rows.Row.{Row};
ghost use Rattle.journal_model.specs.declared.steps.Step.{Step};
ghost use Rattle.journal_model.specs.declared.steps.StepKind.TheVariants as step;
ghost use Rattle.journal_model.specs.DeskJournal.{max_workers};
ghost use Rattle.journal_model.specs.Machine.{is_look_datagram, job_of, hearing};
ghost use Rattle.rd_request.specs.Accepted.{message_of};
ghost use Rattle.rd_request.specs.Incoming.{IsIncoming};
ghost use Rattle.rd_desk.specs.calls.Stepping.{is_starved_step};
ghost use Rattle.trace_replay.specs.Machines.{IsWorkerAt, MayStep, Steps};

use directory_core::NoBoard;
use rd_base::{Moment, Peer, Starved};
use rd_desk::{
    Admitted, Arrival, Desk, Incoming, Job, Looked, Mids, Outbox, Request, Stepped, answer_look,
};
use std::alloc::Global;
use std::mem;

/// A worker.
#[derive(Drop)]
pub struct Worker {
    /// The Message IDs that it draws.
    mids: Mids,
    /// The job that it holds.
    job: Option<Job>,
}

/// Returns `Starved` if memory ran out in a step.
fn unstarved(stepped: Stepped) -> Result<(), Starved>
    ensures { IfOk result (λ _. is_starved_step stepped ≡ false) }
{
    match stepped {
        Stepped::Done => Ok(()),
        Stepped::Starved => Err(Starved),
    }
}

impl Worker {
    /// Creates a worker that has received nothing.
    ///
    /// # Requires
    ///
    /// `number` is less than 16.
    #[rattlefmt::skip]
    #[tactic(
        auto,
        unfolding(journal_model::specs::Machine::mids_drawn, journal_model::specs::Machine::job_of)
    )]
    pub fn of(number: u8) -> Worker
        requires { number < max_workers }
        ensures { IsWorkerAt [] number result }
    {
        Worker {
            mids: Mids::of(number),
            job: None,
        }
    }

    /// Returns whether it holds a job, which stops it from receiving datagrams.
    pub fn is_busy(&self) -> bool
        ensures { (rows : List Row) (number : ℕ)
            → IsWorkerAt rows number self.now
            → result ≡ is_some (job_of number rows) }
    {
        self.job.is_some()
    }

    /// Answers a look from the version of the desk.
    fn look(
        &mut self,
        alloc: Global,
        desk: &Desk<NoBoard>,
        now: Moment,
        peer: Peer,
        request: &Request<'_>,
        out: &mut Outbox,
    ) -> Result<(), Starved>
        requires read { reading (spelling (message_of request.now))
            ≡ Ok (message_of request.now) }
        requires looks { is_look_datagram (spelling (message_of request.now)) ≡ true }
        requires after_at { desk.now.tables.version.at ≤ now.0 }
        requires after_sweep { desk.now.tables.version.swept ≤ now.0 }
        requires empty { out.old ≡ [] }
        ensures { IfOk result (λ _. (rows : List Row) (s : Step)
            → s.kind ≡ step.Look
            → s.peer ≡ peer
            → s.datagram ≡ spelling (message_of request.now)
            → MayStep rows s now desk.now.tables self.old
            → Steps rows s desk.now.tables self.new out.new) }
    {
        match answer_look(
            alloc,
            &**desk.version(),
            now,
            &mut self.mids,
            peer,
            request,
            out,
        ) {
            Looked::Done => Ok(()),
            Looked::Held(job) => {
                self.job = Some(Job::Keep(job));
                Ok(())
            }
            Looked::Starved => Err(Starved),
        }
    }

    /// Has the desk admit a datagram that is not a look.
    fn admit(
        &mut self,
        desk: &mut Desk<NoBoard>,
        arrival: Arrival<'_>,
        out: &mut Outbox,
    ) -> Result<(), Starved>
        requires moment { arrival.moment.0 ≤ 10 ^ 15 }
        requires read { IsIncoming arrival.datagram.now arrival.incoming }
        requires other { is_look_datagram arrival.datagram.now ≡ false }
        requires empty { out.old ≡ [] }
        ensures { IfOk result (λ _. (rows : List Row) (s : Step)
            → s.kind ≡ step.Admit
            → s.peer ≡ arrival.entry.peer
            → s.datagram ≡ arrival.entry.datagram.now
            → s.word ≡ arrival.entry.word
            → MayStep rows s arrival.entry.moment desk.old.tables self.old
            → Steps rows s desk.new.tables self.new out.new) }
    {
        match desk.admit_arrival(&mut self.mids, arrival, out) {
            Admitted::Done => Ok(()),
            Admitted::Held(job) => {
                self.job = Some(Job::Write(job));
                Ok(())
            }
            Admitted::Starved => Err(Starved),
        }
    }

    /// Handles a datagram, while it holds no job.
    ///
    /// # Requires
    ///
    /// The moment is at most 10^15 milliseconds, and no earlier than the version's last entry and
    /// last sweep. The datagram was read as `arrival.incoming`, and `out` is empty.
    ///
    /// # Errors
    ///
    /// `Starved` if memory runs out in the step.
    pub fn hear(
        &mut self,
        alloc: Global,
        desk: &mut Desk<NoBoard>,
        arrival: Arrival<'_>,
        out: &mut Outbox,
    ) -> Result<(), Starved>
        requires moment { arrival.moment.0 ≤ 10 ^ 15 }
        requires read { IsIncoming arrival.datagram.now arrival.incoming }
        requires after_at { desk.old.tables.version.at ≤ arrival.moment.0 }
        requires after_sweep { desk.old.tables.version.swept ≤ arrival.moment.0 }
        requires empty { out.old ≡ [] }
        ensures { IfOk result (λ _. (rows : List Row) (s : Step)
            → s.kind ≡ hearing arrival.entry.datagram.now
            → s.peer ≡ arrival.entry.peer
            → s.datagram ≡ arrival.entry.datagram.now
            → s.word ≡ arrival.entry.word
            → MayStep rows s arrival.entry.moment desk.old.tables self.old
            → Steps rows s desk.new.tables self.new out.new) }
    {
        let Incoming::Look(request) = arrival.incoming else {
            return self.admit(desk, arrival, out);
        };
        self.look(alloc, &*desk, arrival.moment, arrival.peer, &request, out)
    }

    /// Does the job that it holds. Without a job, nothing happens.
    ///
    /// # Requires
    ///
    /// `now` is at most 10^15 milliseconds, and `out` is empty.
    ///
    /// # Errors
    ///
    /// `Starved` if memory runs out in the step.
    pub fn go(
        &mut self,
        desk: &mut Desk<NoBoard>,
        now: Moment,
        out: &mut Outbox,
    ) -> Result<(), Starved>
        requires moment { now.0 ≤ 10 ^ 15 }
        requires empty { out.old ≡ [] }
        ensures { IfOk result (λ _. (rows : List Row) (s : Step)
            → job_of s.worker rows
            ≡ Some (record { kind = s.kind; peer = s.peer; datagram = s.datagram })
            → s.word ≡ 0
            → MayStep rows s now desk.old.tables self.old
            → Steps rows s desk.new.tables self.new out.new) }
    {
        match mem::replace(&mut self.job, None) {
            Some(Job::Write(job)) => unstarved(desk.commit(now, &mut self.mids, job, out)),
            Some(Job::Keep(job)) => unstarved(desk.keep(now, &mut self.mids, job, out)),
            None => Ok(()),
        }
    }

    /// Lets time pass.
    ///
    /// # Requires
    ///
    /// `now` is at most 10^15 milliseconds, and `out` is empty.
    ///
    /// # Errors
    ///
    /// `Starved` if memory runs out in the step.
    pub fn tick(
        &mut self,
        desk: &mut Desk<NoBoard>,
        now: Moment,
        word: u32,
        out: &mut Outbox,
    ) -> Result<(), Starved>
        requires moment { now.0 ≤ 10 ^ 15 }
        requires empty { out.old ≡ [] }
        ensures { IfOk result (λ _. (rows : List Row) (s : Step)
            → s.kind ≡ step.Tick
            → s.word ≡ word
            → MayStep rows s now desk.old.tables self.old
            → Steps rows s desk.new.tables self.new out.new) }
    {
        unstarved(desk.tick(now, word, &mut self.mids, out))
    }

    /// Begins a run above a number.
    ///
    /// # Requires
    ///
    /// `now` is at most 10^15 milliseconds.
    ///
    /// # Errors
    ///
    /// `Starved` if memory runs out in the step.
    pub fn begin(&self, desk: &mut Desk<NoBoard>, now: Moment, first: u64) -> Result<(), Starved>
        requires { now.0 ≤ 10 ^ 15 }
        ensures { IfOk result (λ _. (rows : List Row) (s : Step)
            → s.kind ≡ step.Begin first
            → MayStep rows s now desk.old.tables self.now
            → Steps rows s desk.new.tables self.now []) }
    {
        unstarved(desk.begin(now, first, &self.mids))
    }
}
