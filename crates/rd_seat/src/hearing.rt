//! A datagram that a seat handles, and the job that it leaves.
ghost use Rattle.std.specs.Prelude.{◌≡◌, ◌≤◌, ◌^◌, ℕ, [], true, false, List};
ghost use Rattle.history_model.specs.Live.{IsFront};
ghost use Rattle.journal_model.specs.Machine.{is_look_datagram};
ghost use Rattle.journal_model.specs.declared.rows.Row.{Row};
ghost use Rattle.rd_look.specs.Looking.{is_starved_look};
ghost use Rattle.rd_desk.specs.calls.Admitting.{is_starved_admission};
ghost use Rattle.rd_desk.specs.calls.Stepping.{is_starved_step};
ghost use Rattle.rd_seat.specs.Calls.{job_held};
ghost use Rattle.rd_seat.specs.Jobs.{LeavesJob, OpensJob};
ghost use Rattle.rd_seat.specs.Looks.{answer_held, IsJobOf};
ghost use Rattle.rd_seat.specs.Heard.{is_starved_hearing, answer_left, go_step};
ghost use Rattle.rd_seat.specs.Heard.{LeavesWrite, IsKeepOf, IsOpenWrite, MayBeDone};
ghost use Rattle.rd_seat.specs.Seats.{SeatSeen, IsOfHall, MakesStep, LooksAtMet};
ghost use Rattle.rd_seat.specs.Steps.{admit_step, look_step};

use crate::actions::{Action, without_job};
use crate::gates::{Gate, Place};
use crate::halls::Hall;
use crate::seats::Seat;
use rd_base::{Moment, Peer};
use rd_desk::{Admitted, Arrival, Incoming, Job, Looked, Outbox, Stepped, read_datagram};
use std::sync::Wait;

/// The result of a datagram that a seat handled.
#[derive(Drop)]
pub enum SeatHeard {
    /// The datagram is done with. It leaves no job.
    Done,
    /// The worker has this job. The seat's next step other than a tick does it.
    Held(Job),
    /// Memory ran out. A request has been answered 5.00.
    Starved,
}

impl SeatHeard {
    /// Returns the job that is left, if there is one.
    pub fn into_job(self) -> Option<Job>
        ensures { result ≡ job_held self }
    {
        match self {
            SeatHeard::Held(job) => Some(job),
            SeatHeard::Done | SeatHeard::Starved => None,
        }
    }
}

/// Returns the result of an admission.
#[inline(always)]
fn of_admission(admitted: Admitted) -> SeatHeard
    ensures starved { is_starved_hearing result ≡ is_starved_admission admitted }
    ensures left { (rows : List Row) → LeavesJob admitted rows → LeavesWrite result rows }
    ensures open { (seat : SeatSeen) → OpensJob admitted seat → MayBeDone result seat }
{
    match admitted {
        Admitted::Done => SeatHeard::Done,
        Admitted::Held(job) => SeatHeard::Held(Job::Write(job)),
        Admitted::Starved => SeatHeard::Starved,
    }
}

/// Returns the result of a look.
fn of_look(looked: Looked) -> SeatHeard
    ensures starved { is_starved_hearing result ≡ is_starved_look looked }
    ensures answer { answer_left result ≡ answer_held looked }
    ensures keeps { (peer : Peer) (datagram : List ℕ) → IsJobOf peer datagram looked
        → IsKeepOf peer datagram result }
    ensures open { (seat : SeatSeen) → MayBeDone result seat }
{
    match looked {
        Looked::Done => SeatHeard::Done,
        Looked::Held(job) => SeatHeard::Held(Job::Keep(job)),
        Looked::Starved => SeatHeard::Starved,
    }
}

impl Seat {
    /// Handles a datagram from a peer, and puts the responses into `out`.
    ///
    /// A look ([`rd_desk::is_look`]) does not wait. Any other datagram takes a step at a turn of
    /// the seat, and waits for the turn. `word` determines initial timeouts and the values of
    /// challenges. Returns `Held` with a job if the datagram is a write that was admitted, or if a
    /// listing or source is to be kept. After `Starved` (out of memory), a request has been
    /// answered 5.00.
    ///
    /// # Requires
    ///
    /// The seat is of this hall, `now` is at most 10^15 milliseconds, and `out` is empty.
    pub fn hear<R: Wait, G: Gate>(
        &mut self,
        rt: &R,
        hall: &Hall,
        gate: &G,
        now: Moment,
        word: u32,
        peer: Peer,
        datagram: &[u8],
        out: &mut Outbox,
    ) -> SeatHeard
        requires hall { self.old.hall ≡ hall.now }
        requires moment { now.0 ≤ 10 ^ 15 }
        requires empty { out.old ≡ [] }
        ensures hall { self.new.hall ≡ self.old.hall }
        ensures of_hall { IsOfHall self.old.hall self.new }
        ensures met { IsFront self.old.met self.new.met }
        ensures made { is_look_datagram datagram.now ≡ false → MakesStep self.old
            (admit_step self.old.worker now word peer datagram.now self.old.drawn)
            (is_starved_hearing result) out.new self.new }
        ensures left { is_look_datagram datagram.now ≡ false → LeavesWrite result self.new.seen }
        ensures open { MayBeDone result self.new }
        ensures looks { is_look_datagram datagram.now ≡ true → LooksAtMet self.old
            (look_step self.old.worker now 0 peer datagram.now self.old.drawn)
            (is_starved_hearing result) out.new (answer_left result) self.new }
        ensures keeps { is_look_datagram datagram.now ≡ true → IsKeepOf peer datagram.now result }
    {
        let incoming = read_datagram(datagram);
        let Incoming::Look(request) = incoming else {
            let arrival = Arrival {
                moment: now,
                word,
                peer,
                datagram,
                incoming,
            };
            let action = Action::Admit(arrival);
            return of_admission(self.act(rt, hall, gate, action, out));
        };
        gate.pass(rt, Place::BeforeLook);
        of_look(self.answer_look(now, peer, &request, out))
    }

    /// Does a job at a turn of the seat, after waiting for the turn, and puts the response into
    /// `out`.
    ///
    /// A `now` (in milliseconds) earlier than the directory's moment is raised to it. After
    /// `Starved` (out of memory), the request has been answered 5.00 and the registrations have not
    /// changed (RFC 7252 section 5.9.3.1).
    ///
    /// # Requires
    ///
    /// The seat is of this hall, `now` is at most 10^15 milliseconds, and `out` is empty. If the
    /// job is a write, its admission has a place in the journal that the seat has seen, and nothing
    /// there has ended it.
    pub fn go<R: Wait, G: Gate>(
        &mut self,
        rt: &R,
        hall: &Hall,
        gate: &G,
        now: Moment,
        job: Job,
        out: &mut Outbox,
    ) -> Stepped
        ghost place: { ℕ }
        requires hall { self.old.hall ≡ hall.now }
        requires moment { now.0 ≤ 10 ^ 15 }
        requires empty { out.old ≡ [] }
        requires opened { IsOpenWrite place self.old job }
        ensures hall { self.new.hall ≡ self.old.hall }
        ensures of_hall { IsOfHall self.old.hall self.new }
        ensures met { IsFront self.old.met self.new.met }
        ensures made { MakesStep self.old (go_step self.old.worker place now job self.old.drawn)
            (is_starved_step result) out.new self.new }
    {
        match job {
            Job::Write(job) => without_job(self.act(rt, hall, gate, Action::Commit(now, job), out)),
            Job::Keep(job) => without_job(self.act(rt, hall, gate, Action::Keep(now, job), out)),
        }
    }
}
