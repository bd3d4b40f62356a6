//! A seat: one worker's handle to a hall, as it is between two calls.
ghost use Rattle.std.specs.Prelude.{◌≡◌, ◌<◌, ◌≤◌, ◌^◌, ℕ};
ghost use Rattle.std.specs.Prelude.{[], false, true, Ok};
ghost use Rattle.message_model.specs.Reading.{reading};
ghost use Rattle.message_model.specs.Spelling.{spelling};
ghost use Rattle.history_model.specs.Live.{IsFront};
ghost use Rattle.journal_model.specs.DeskJournal.{max_workers};
ghost use Rattle.journal_model.specs.Machine.{is_look_datagram};
ghost use Rattle.rd_request.specs.Accepted.{message_of};
ghost use Rattle.rd_look.specs.Looking.{is_starved_look};
ghost use Rattle.rd_desk.specs.calls.Admitting.{is_starved_admission};
ghost use Rattle.rd_desk.specs.calls.Stepping.{is_starved_step};
ghost use Rattle.turn_lock.specs.Shown.{number_of, label_of, is_holding, seen_of, mine_of};
ghost use Rattle.version_board.specs.Ends.{new_looker};
ghost use Rattle.rd_seat.specs.Actions.{action_step, IsReady, OpensAt, LeavesJobOf};
ghost use Rattle.rd_seat.specs.Looks.{answer_held, IsJobOf};
ghost use Rattle.rd_seat.specs.Insides.{hall_of};
ghost use Rattle.rd_seat.specs.Seats.{new_seat, IsOfHall, MakesStep, LooksAtMet};
ghost use Rattle.rd_seat.specs.Steps.{tick_step, begin_step, look_step};

use crate::actions::{Action, without_job};
use crate::gates::Gate;
use crate::halls::Hall;
use crate::shared_desk::SharedDesk;
use crate::shares::Share;
use rd_base::{Moment, Peer};
use rd_desk::{Admitted, Looked, Mids, Outbox, Request, Stepped, look_request};
use std::alloc::Global;
use std::marker::Model;
use std::sync::Wait;
use turn_lock::Pass;
use version_board::Looker;

/// One worker's seat in a hall. Contracts see the journal that it has seen, its own rows in it, and
/// the history that it has met.
#[derive(Drop)]
pub struct Seat {
    /// The worker's share of the hall.
    pub(crate) share: Share,
}

impl Model for Seat {
    ghost use Rattle.rd_seat.specs.Seats.{SeatSeen};
    ghost use Rattle.rd_seat.specs.Shares.{Rests, share_shown};

    ghost Value = { SeatSeen };

    ghost view = { λ s. share_shown s.share };

    ghost invariant = { λ s. Rests s.share };
}

impl Seat {
    /// Creates a seat that has made no step.
    pub(crate) fn new(alloc: Global, pass: Pass<SharedDesk>, looker: Looker, worker: u8) -> Seat
        requires worker { worker < max_workers }
        requires number { number_of pass ≡ worker }
        requires idle { is_holding pass ≡ false }
        requires seen { seen_of pass ≡ [] }
        requires mine { mine_of pass ≡ [] }
        requires looker { looker ≡ new_looker (label_of pass) }
        ensures { result ≡ new_seat (hall_of pass) worker }
    {
        let share = Share {
            alloc,
            pass,
            looker,
            mids: Mids::of(worker),
            last: Moment(0),
        };
        Seat { share }
    }

    /// Lets time pass at a turn of the seat, after waiting for the turn, and puts what becomes due
    /// into `out` (RFC 7252 section 4.2, RFC 7641 sections 4.2 and 4.5).
    ///
    /// Retransmits messages whose timeouts have expired, sends notifications to observers that are
    /// due, and drops what has expired or lapsed. `word` determines the initial timeouts. A `now`
    /// (in milliseconds) earlier than the directory's moment is raised to it. After `Starved` (out
    /// of memory), no new notification was sent, but the rest is done.
    ///
    /// # Requires
    ///
    /// The seat is of this hall, `now` is at most 10^15 milliseconds, and `out` is empty.
    pub fn tick<R: Wait, G: Gate>(
        &mut self,
        rt: &R,
        hall: &Hall,
        gate: &G,
        now: Moment,
        word: u32,
        out: &mut Outbox,
    ) -> Stepped
        requires hall { self.old.hall ≡ hall.now }
        requires moment { now.0 ≤ 10 ^ 15 }
        requires empty { out.old ≡ [] }
        ensures hall { self.new.hall ≡ self.old.hall }
        ensures of_hall { IsOfHall self.old.hall self.new }
        ensures met { IsFront self.old.met self.new.met }
        ensures made { MakesStep self.old (tick_step self.old.worker now word self.old.drawn)
            (is_starved_step result) out.new self.new }
    {
        without_job(self.act(rt, hall, gate, Action::Tick(now, word), out))
    }

    /// Begins a run above `first` at a turn of the seat, after waiting for the turn (this project's
    /// profile; RFC 9176 section 5, RFC 7252 section 5.10.6). The seat's worker may hold a job.
    ///
    /// From then on, each registration of a new name gets a number above `first`, and entries are
    /// counted above it too. So no later location or entity tag is one of an earlier run, if that
    /// run gave and counted none above `first`. Numbers and the count never fall: those above
    /// `first` already stay.
    ///
    /// The run does not begin if 2^48 - 1 entries are counted, or if `first` is at least that. The
    /// step sends nothing. A `now` (in milliseconds) earlier than the directory's moment is raised
    /// to it. After `Starved` (out of memory), the run has not begun.
    ///
    /// # Requires
    ///
    /// The seat is of this hall, and `now` is at most 10^15 milliseconds.
    pub fn begin<R: Wait, G: Gate>(
        &mut self,
        rt: &R,
        hall: &Hall,
        gate: &G,
        now: Moment,
        first: u64,
    ) -> Stepped
        requires hall { self.old.hall ≡ hall.now }
        requires moment { now.0 ≤ 10 ^ 15 }
        ensures hall { self.new.hall ≡ self.old.hall }
        ensures of_hall { IsOfHall self.old.hall self.new }
        ensures met { IsFront self.old.met self.new.met }
        ensures made { MakesStep self.old (begin_step self.old.worker now first self.old.drawn)
            (is_starved_step result) [] self.new }
    {
        self.share.begin(rt, hall.lock(), gate, now, first)
    }

    /// Takes an action, at a turn of the seat.
    #[inline(always)]
    pub(crate) fn act<R: Wait, G: Gate>(
        &mut self,
        rt: &R,
        hall: &Hall,
        gate: &G,
        action: Action<'_>,
        out: &mut Outbox,
    ) -> Admitted
        ghost place: { ℕ }
        requires hall { self.old.hall ≡ hall.now }
        requires ready { IsReady action }
        requires empty { out.old ≡ [] }
        requires opened { OpensAt place self.old action }
        ensures hall { self.new.hall ≡ self.old.hall }
        ensures of_hall { IsOfHall self.old.hall self.new }
        ensures met { IsFront self.old.met self.new.met }
        ensures made { MakesStep self.old
            (action_step self.old.worker place action.entry self.old.drawn)
            (is_starved_admission result) out.new self.new }
        ensures left { LeavesJobOf action.entry result self.new }
    {
        self.share.act(rt, hall.lock(), gate, action, out)
    }

    /// Answers a look ([`rd_desk::is_look`]) from the latest published version, without waiting.
    ///
    /// The version has every entry that this seat has seen or has answered an earlier look from
    /// (RFC 9176 sections 4.1, 5.3.3 and 6). Returns `Held` if the listing or source is longer than
    /// the requested block; the worker then has the job to keep it. After `Starved` (out of
    /// memory), the request has been answered 5.00. A `now` earlier than the seat's last row or
    /// look, or than the version's last entry, is raised to that moment.
    ///
    /// # Requires
    ///
    /// `datagram` is a look, `now` is at most 10^15 milliseconds, and `out` is empty.
    pub fn lookup(&mut self, now: Moment, peer: Peer, datagram: &[u8], out: &mut Outbox) -> Looked
        requires look { is_look_datagram datagram.now ≡ true }
        requires moment { now.0 ≤ 10 ^ 15 }
        requires empty { out.old ≡ [] }
        ensures hall { self.new.hall ≡ self.old.hall }
        ensures of_hall { IsOfHall self.old.hall self.new }
        ensures met { IsFront self.old.met self.new.met }
        ensures looks { LooksAtMet self.old
            (look_step self.old.worker now 0 peer datagram.now self.old.drawn)
            (is_starved_look result) out.new (answer_held result) self.new }
        ensures job { IsJobOf peer datagram.now result }
    {
        let request = look_request(datagram);
        self.answer_look(now, peer, &request, out)
    }

    /// Answers a look that was already read, as [`Seat::lookup`] answers its datagram.
    pub(crate) fn answer_look(
        &mut self,
        now: Moment,
        peer: Peer,
        request: &Request<'_>,
        out: &mut Outbox,
    ) -> Looked
        requires read { reading (spelling (message_of request.now))
            ≡ Ok (message_of request.now) }
        requires look { is_look_datagram (spelling (message_of request.now)) ≡ true }
        requires moment { now.0 ≤ 10 ^ 15 }
        requires empty { out.old ≡ [] }
        ensures hall { self.new.hall ≡ self.old.hall }
        ensures of_hall { IsOfHall self.old.hall self.new }
        ensures met { IsFront self.old.met self.new.met }
        ensures looks { LooksAtMet self.old
            (look_step self.old.worker now 0 peer (spelling (message_of request.now))
            self.old.drawn)
            (is_starved_look result) out.new (answer_held result) self.new }
        ensures job { IsJobOf peer (spelling (message_of request.now)) result }
    {
        self.share.look(now, peer, request, out)
    }
}
