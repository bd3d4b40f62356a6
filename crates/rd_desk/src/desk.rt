//! The directory as a state machine. Each call makes one step, and does what the journal says of
//! its row (RFC 9176, RFC 7252, RFC 7641, RFC 7959).
ghost use Rattle.std.specs.Prelude.{◌≡◌, ◌≤◌, ◌^◌, ℕ, true, false, [], ◌∷◌, List, Some, Ok, IfOk};
ghost use Rattle.std.specs.Prelude.{IfErr, IfSome, length, slice_get};
ghost use Rattle.std.specs.Arc.{arc_value};
ghost use Rattle.std.specs.Borrow.{Lends, sem};
ghost use Rattle.message_model.specs.Message.{Message};
ghost use Rattle.message_model.specs.Reading.{reading};
ghost use Rattle.event_model.specs.AdmissionOrder.{IsOpen};
ghost use Rattle.event_model.specs.declared.notes.Observer.{Observer as Observed};
ghost use Rattle.event_model.specs.Observers.{observers};
ghost use Rattle.journal_model.specs.declared.steps.Step.{Step};
ghost use Rattle.journal_model.specs.declared.steps.StepKind.TheVariants as step;
ghost use Rattle.journal_model.specs.declared.rows.Row.{Row};
ghost use Rattle.journal_model.specs.Journal.{is_look, events};
ghost use Rattle.journal_model.specs.Machine.{is_look_datagram};
ghost use Rattle.journal_model.specs.Rows.{row, row_moment};
ghost use Rattle.rd_request.specs.Incoming.{IsIncoming};
ghost use Rattle.rd_desk.specs.calls.Admitting.{is_starved_admission, takes_memory, IsHeldFor};
ghost use Rattle.rd_desk.specs.calls.Desks.{StandsFor};
ghost use Rattle.rd_desk.specs.calls.Shown.{AreToldOf};
ghost use Rattle.rd_desk.specs.calls.Staging.{LeavesStaged};
ghost use Rattle.rd_desk.specs.calls.Stepping.{is_starved_step};
ghost use Rattle.rd_desk.specs.calls.Ticking.{tick_takes_memory};
ghost use Rattle.rd_desk.specs.calls.Steps.{IsCalled, Made};
ghost use Rattle.rd_desk.specs.calls.ShownObservers.{IsShown, IsObserverAfter};

use crate::tables::Tables;
use crate::{Admitted, Arrival, KeepJob, Mids, Outbox, Stepped, Watcher, WriteJob};
use directory_core::{Board, Directory};
use rd_base::{Moment, Peer, Starved};
use rd_request::read_datagram;
use std::alloc::Global;
use std::marker::Model;
use std::sync::Arc;

/// A directory. Contracts see its tables, which determine the journals that it stands for, and the
/// board on which it stages versions.
#[derive(Drop)]
pub struct Desk<B: Board> {
    /// The tables, which hold all state between steps.
    tables: Tables,
    /// The board, on which a step stages the version with its entry. The caller publishes it after
    /// the step.
    board: B,
}

impl<B: Board> Model for Desk<B> {
    ghost use Rattle.rd_desk.specs.calls.Shown.{Shown};

    ghost Value = { Shown B };

    ghost view = { λ d. record { tables = d.tables; board = d.board } };
}

/// A board that came back because there was no memory for its desk.
#[derive(Drop)]
pub struct Unmade<B> {
    /// The board that was passed in.
    pub board: B,
}

impl<B: Board + Drop> Desk<B> {
    /// Creates an empty directory, as [`Desk::make_or_return`] does, for a board that may be
    /// dropped.
    ///
    /// # Requires
    ///
    /// Nothing is staged on the board. If the board exposes its entries, it has none.
    ///
    /// # Errors
    ///
    /// `Starved` if memory runs out. The board is dropped then.
    pub fn make(alloc: Global, board: B) -> Result<Desk<B>, Starved>
        requires free { B.has_staged board ≡ false }
        requires told { IfSome (B.told board) (λ history. history ≡ []) }
        ensures stands { IfOk result (λ desk. StandsFor [] desk.tables) }
        ensures board { IfOk result (λ desk. desk.board ≡ board) }
    {
        match Desk::make_or_return(alloc, board) {
            Ok(desk) => Ok(desk),
            Err(Unmade { board: _ }) => Err(Starved),
        }
    }
}

impl<B: Board> Desk<B> {
    ghost use Rattle.rd_desk.specs.contracts.desk.Desk.{the_row};

    /// Creates an empty directory with tables at their full capacity.
    ///
    /// # Requires
    ///
    /// Nothing is staged on the board. If the board exposes its entries, it has none.
    ///
    /// # Errors
    ///
    /// `Unmade` with the board if memory runs out.
    pub fn make_or_return(alloc: Global, board: B) -> Result<Desk<B>, Unmade<B>>
        requires free { B.has_staged board ≡ false }
        requires told { IfSome (B.told board) (λ history. history ≡ []) }
        ensures stands { IfOk result (λ desk. StandsFor [] desk.tables) }
        ensures board { IfOk result (λ desk. desk.board ≡ board) }
        ensures back { IfErr result (λ unmade. unmade.board ≡ board) }
    {
        let Ok(tables) = Tables::make(alloc) else {
            return Err(Unmade { board });
        };
        Ok(Desk { tables, board })
    }

    /// Handles a datagram that is not a look ([`crate::is_look`]), and puts the responses into
    /// `out`.
    ///
    /// Returns `Held` with a job if the datagram is a write that was admitted. Pass the job to
    /// [`Desk::commit`]. If the step makes an entry, the new version is staged on the board. `word`
    /// determines initial timeouts and the values of challenges. A `now` (in milliseconds) earlier
    /// than the desk's own moment is raised to it.
    ///
    /// After `Starved` (out of memory), a request has been answered 5.00; a response counts as not
    /// received (RFC 7252 section 4).
    ///
    /// # Requires
    ///
    /// `now` is at most 10^15 milliseconds and `out` is empty. Nothing is staged on the board, and
    /// any entries that it exposes are those of the directory.
    pub fn admit(
        &mut self,
        now: Moment,
        word: u32,
        mids: &mut Mids,
        peer: Peer,
        datagram: &[u8],
        out: &mut Outbox,
    ) -> Admitted
        requires moment { now.0 ≤ 10 ^ 15 }
        requires other { is_look_datagram datagram.now ≡ false }
        requires empty { out.old ≡ [] }
        requires free { B.has_staged self.old.board ≡ false }
        requires told { AreToldOf self.old.tables.version (B.told self.old.board) }
        // The desk stands for the journal with the row of the step, and the call sent and drew what
        // the row says.
        ensures made { (rows : List Row) (s : Step)
            → s.kind ≡ step.Admit
            → s.peer ≡ peer
            → s.datagram ≡ datagram.now
            → s.word ≡ word
            → IsCalled rows s now mids.old self.old.tables
            → Made rows (row rows s (is_starved_admission result)) self.new.tables out.new mids.old
            mids.new }
        // The worker has the job of the write that the row admits, if it admits one.
        ensures held { (rows : List Row) (s : Step)
            → s.kind ≡ step.Admit
            → s.peer ≡ peer
            → s.datagram ≡ datagram.now
            → IsCalled rows s now mids.old self.old.tables
            → IsHeldFor result (row rows s (is_starved_admission result)).notes s
            (row_moment rows s) }
        // Refusals, duplicates, empty messages, and responses that belong to no fetch do not
        // allocate.
        ensures unstarved { (rows : List Row) (s : Step)
            → s.peer ≡ peer
            → s.datagram ≡ datagram.now
            → IsCalled rows s now mids.old self.old.tables
            → takes_memory rows (row_moment rows s) s (reading datagram.now) ≡ false
            → is_starved_admission result ≡ false }
        // If the step makes an entry, its version is staged. Otherwise nothing is.
        ensures staged { (rows : List Row) (s : Step)
            → s.kind ≡ step.Admit
            → s.peer ≡ peer
            → s.datagram ≡ datagram.now
            → s.word ≡ word
            → IsCalled rows s now mids.old self.old.tables
            → LeavesStaged (row rows s (is_starved_admission result)).notes self.new.tables.version
            (B.staged self.old.board) (B.staged self.new.board) (B.has_staged self.new.board) }
        ensures name { B.name self.new.board ≡ B.name self.old.board }
        ensures told { B.told self.new.board ≡ B.told self.old.board }
    {
        let arrival = Arrival {
            moment: now,
            word,
            peer,
            datagram,
            incoming: read_datagram(datagram),
        };
        self.admit_arrival(mids, arrival, out)
    }

    /// Handles a datagram that was already read. Each clause says the same as that of
    /// [`Desk::admit`].
    ///
    /// # Requires
    ///
    /// The moment of the arrival is at most 10^15 milliseconds, and `out` is empty.
    /// `arrival.incoming` is what [`read_datagram`] returns for the datagram, which is not a look.
    /// Nothing is staged on the board, and any entries that it exposes are those of the directory.
    pub fn admit_arrival(
        &mut self,
        mids: &mut Mids,
        arrival: Arrival<'_>,
        out: &mut Outbox,
    ) -> Admitted
        requires moment { arrival.moment.0 ≤ 10 ^ 15 }
        requires read { IsIncoming arrival.datagram.now arrival.incoming }
        requires other { is_look_datagram arrival.datagram.now ≡ false }
        requires empty { out.old ≡ [] }
        requires free { B.has_staged self.old.board ≡ false }
        requires told { AreToldOf self.old.tables.version (B.told self.old.board) }
        ensures made { (rows : List Row) (s : Step)
            → s.kind ≡ step.Admit
            → s.peer ≡ arrival.entry.peer
            → s.datagram ≡ arrival.entry.datagram.now
            → s.word ≡ arrival.entry.word
            → IsCalled rows s arrival.entry.moment mids.old self.old.tables
            → Made rows
            (row rows s (is_starved_admission result)) self.new.tables out.new mids.old
            mids.new }
        ensures held { (rows : List Row) (s : Step)
            → s.kind ≡ step.Admit
            → s.peer ≡ arrival.entry.peer
            → s.datagram ≡ arrival.entry.datagram.now
            → IsCalled rows s arrival.entry.moment mids.old self.old.tables
            → IsHeldFor result (row rows s (is_starved_admission result)).notes s
            (row_moment rows s) }
        ensures unstarved { (rows : List Row) (s : Step)
            → s.peer ≡ arrival.entry.peer
            → s.datagram ≡ arrival.entry.datagram.now
            → IsCalled rows s arrival.entry.moment mids.old self.old.tables
            → takes_memory rows (row_moment rows s) s (reading arrival.entry.datagram.now)
            ≡ false
            → is_starved_admission result ≡ false }
        ensures staged { (rows : List Row) (s : Step)
            → s.kind ≡ step.Admit
            → s.peer ≡ arrival.entry.peer
            → s.datagram ≡ arrival.entry.datagram.now
            → s.word ≡ arrival.entry.word
            → IsCalled rows s arrival.entry.moment mids.old self.old.tables
            → LeavesStaged
            (row rows s (is_starved_admission result)).notes self.new.tables.version
            (B.staged self.old.board) (B.staged self.new.board) (B.has_staged self.new.board) }
        ensures name { B.name self.new.board ≡ B.name self.old.board }
        ensures told { B.told self.new.board ≡ B.told self.old.board }
    {
        self.tables.admit(&mut self.board, mids, arrival, out)
    }

    /// Does an admitted write, and puts the response into `out` (RFC 9176 section 5, RFC 7252
    /// section 4.5).
    ///
    /// The job comes from an admission of this directory that nothing has ended since. If the step
    /// makes an entry, the new version is staged on the board. A `now` (in milliseconds) earlier
    /// than the desk's own moment is raised to it.
    ///
    /// After `Starved` (out of memory), the request has been answered 5.00 and the registrations
    /// have not changed. The write may come again as a new one.
    ///
    /// # Requires
    ///
    /// `now` is at most 10^15 milliseconds and `out` is empty. Nothing is staged on the board, and
    /// any entries that it exposes are those of the directory.
    pub fn commit(
        &mut self,
        now: Moment,
        mids: &mut Mids,
        job: WriteJob,
        out: &mut Outbox,
    ) -> Stepped
        requires moment { now.0 ≤ 10 ^ 15 }
        requires empty { out.old ≡ [] }
        requires free { B.has_staged self.old.board ≡ false }
        requires told { AreToldOf self.old.tables.version (B.told self.old.board) }
        // The desk stands for the journal with the row of the step, and the call sent and drew what
        // the row says.
        ensures made { (rows : List Row) (s : Step) (place : ℕ) (m : Message)
            → s.kind ≡ step.Commit place
            → s.peer ≡ job.peer
            → s.datagram ≡ job.datagram
            → s.word ≡ 0
            → reading job.datagram ≡ Ok m
            → IsOpen place s.peer m.mid job.admitted (events rows)
            → IsCalled rows s now mids.old self.old.tables
            → Made rows (row rows s (is_starved_step result)) self.new.tables out.new mids.old
            mids.new }
        // If the step makes an entry, its version is staged. Otherwise nothing is.
        ensures staged { (rows : List Row) (s : Step) (place : ℕ) (m : Message)
            → s.kind ≡ step.Commit place
            → s.peer ≡ job.peer
            → s.datagram ≡ job.datagram
            → s.word ≡ 0
            → reading job.datagram ≡ Ok m
            → IsOpen place s.peer m.mid job.admitted (events rows)
            → IsCalled rows s now mids.old self.old.tables
            → LeavesStaged (row rows s (is_starved_step result)).notes self.new.tables.version
            (B.staged self.old.board) (B.staged self.new.board) (B.has_staged self.new.board) }
        ensures name { B.name self.new.board ≡ B.name self.old.board }
        ensures told { B.told self.new.board ≡ B.told self.old.board }
    {
        self.tables.commit(&mut self.board, now, mids, job, out)
    }

    /// Keeps a listing or a source that a look built, and puts the requested block of it into `out`
    /// (RFC 7959 section 2.4).
    ///
    /// A `now` (in milliseconds) earlier than the desk's own moment is raised to it. After
    /// `Starved` (out of memory), nothing is kept and the request has been answered 5.00.
    ///
    /// # Requires
    ///
    /// `now` is at most 10^15 milliseconds and `out` is empty.
    pub fn keep(&mut self, now: Moment, mids: &mut Mids, job: KeepJob, out: &mut Outbox) -> Stepped
        requires moment { now.0 ≤ 10 ^ 15 }
        requires empty { out.old ≡ [] }
        // The desk stands for the journal with the row of the step, and the call sent and drew what
        // the row says.
        ensures made { (rows : List Row) (s : Step)
            → s.kind ≡ step.Keep job.answer.body job.answer.tag
            → s.peer ≡ job.peer
            → s.datagram ≡ job.datagram
            → IsCalled rows s now mids.old self.old.tables
            → Made rows (row rows s (is_starved_step result)) self.new.tables out.new mids.old
            mids.new }
        ensures board { self.new.board ≡ self.old.board }
    {
        self.tables.keep(now, mids, job, out)
    }

    /// Lets time pass, and puts what becomes due into `out` (RFC 7252 section 4.2, RFC 7641
    /// sections 4.2 and 4.5).
    ///
    /// Retransmits notifications and requests of fetches whose timeouts have expired. Sends
    /// notifications to observers that are due, at most 64. Then drops exchanges that have expired
    /// and registrations that have lapsed. `word` determines the initial timeouts. A `now` (in
    /// milliseconds) earlier than the desk's own moment is raised to it.
    ///
    /// After `Starved` (out of memory), no new notification was sent, but the rest is done. Only
    /// new notifications need memory. If memory for the sweep is missing, lapsed registrations
    /// remain stored, but they are not listed.
    ///
    /// # Requires
    ///
    /// `now` is at most 10^15 milliseconds and `out` is empty.
    pub fn tick(&mut self, now: Moment, word: u32, mids: &mut Mids, out: &mut Outbox) -> Stepped
        requires moment { now.0 ≤ 10 ^ 15 }
        requires empty { out.old ≡ [] }
        // The desk stands for the journal with the row of the step, and the call sent and drew what
        // the row says.
        ensures made { (rows : List Row) (s : Step)
            → s.kind ≡ step.Tick
            → s.word ≡ word
            → IsCalled rows s now mids.old self.old.tables
            → Made rows (row rows s (is_starved_step result)) self.new.tables out.new mids.old
            mids.new }
        // The tick does not allocate unless an observer is due to whose peer no notification is in
        // flight.
        ensures unstarved { (rows : List Row) (s : Step)
            → s.kind ≡ step.Tick
            → IsCalled rows s now mids.old self.old.tables
            → tick_takes_memory rows (row_moment rows s) s ≡ false
            → is_starved_step result ≡ false }
        ensures board { self.new.board ≡ self.old.board }
    {
        self.tables.tick(now, word, mids, out)
    }

    /// Begins a run above `first` (this project's profile; RFC 9176 section 5, RFC 7252 section
    /// 5.10.6).
    ///
    /// From then on, each registration of a new name gets a number above `first`, and entries are
    /// counted above it too. So no later location or entity tag is one of an earlier run, if that
    /// run gave and counted none above `first`. Numbers and the count never fall: those above
    /// `first` already stay.
    ///
    /// The run does not begin if 2^48 - 1 entries are counted, or if `first` is at least that. If
    /// the step makes its entry, the new version is staged on the board. The step sends nothing and
    /// draws no Message ID. A `now` (in milliseconds) earlier than the desk's own moment is raised
    /// to it. After `Starved` (out of memory), the run has not begun.
    ///
    /// # Requires
    ///
    /// `now` is at most 10^15 milliseconds. Nothing is staged on the board, and any entries that it
    /// exposes are those of the directory.
    pub fn begin(&mut self, now: Moment, first: u64, mids: &Mids) -> Stepped
        requires moment { now.0 ≤ 10 ^ 15 }
        requires free { B.has_staged self.old.board ≡ false }
        requires told { AreToldOf self.old.tables.version (B.told self.old.board) }
        // The desk stands for the journal with the row of the step, which sent and drew nothing.
        ensures made { (rows : List Row) (s : Step)
            → s.kind ≡ step.Begin first
            → IsCalled rows s now mids.now self.old.tables
            → Made rows (row rows s (is_starved_step result)) self.new.tables [] mids.now
            mids.now }
        // If the step makes its entry, its version is staged. Otherwise nothing is.
        ensures staged { (rows : List Row) (s : Step)
            → s.kind ≡ step.Begin first
            → IsCalled rows s now mids.now self.old.tables
            → LeavesStaged (row rows s (is_starved_step result)).notes self.new.tables.version
            (B.staged self.old.board) (B.staged self.new.board) (B.has_staged self.new.board) }
        ensures name { B.name self.new.board ≡ B.name self.old.board }
        ensures told { B.told self.new.board ≡ B.told self.old.board }
    {
        self.tables.begin(&mut self.board, now, first, mids)
    }

    /// Returns the current version of the registrations, from which looks are answered
    /// ([`crate::look`]). A desk that stands for a journal also stands for it with one more look.
    pub fn version(&self) -> &Arc<Directory>
        ensures value { arc_value result.now ≡ self.now.tables.version }
        ensures looked { (rows : List Row) (r : Row) → is_look r.step.kind ≡ true → r.notes ≡ []
            → StandsFor rows self.now.tables → StandsFor (r ∷ rows) self.now.tables }
    {
        &self.tables.version
    }

    /// Returns the latest moment passed in so far, in milliseconds, at most 10^15. It is no earlier
    /// than the last entry and the last sweep of the version, so that the version can be queried at
    /// it.
    pub fn moment(&self) -> Moment
        ensures value { result.0 ≡ self.now.tables.moment }
        ensures most { result.0 ≤ 10 ^ 15 }
        ensures after_at { self.now.tables.version.at ≤ result.0 }
        ensures after_sweep { self.now.tables.version.swept ≤ result.0 }
    {
        self.tables.moment
    }

    /// Returns the observer with an index, in the order in which they joined, or `None` if the
    /// index is not below their number.
    pub fn observer(&self, index: usize) -> Option<Watcher>
        ensures shown { IsShown (slice_get self.now.tables.watching.observers index) result }
        ensures observer { (rows : List Row) (o : Observed)
            → StandsFor rows self.now.tables
            → slice_get (observers (events rows)) index ≡ Some o
            → IfSome result (IsObserverAfter rows o) }
    {
        self.tables.observer(index)
    }

    /// Returns the number of observers.
    pub fn watchers(&self) -> usize
        ensures kept { result ≡ length self.now.tables.watching.observers }
        ensures observers { (rows : List Row)
            → StandsFor rows self.now.tables
            → result ≡ length (observers (events rows)) }
    {
        self.tables.watchers()
    }

    /// Lends the board. The rest of the desk does not change.
    pub fn board(&mut self) -> &mut B
        ensures value { result.now ≡ self.old.board }
        ensures* writes_back { sem 𝓛 (Lends (the_row B.row B.Board) B.row self.entry result
            (λ (board : B). record { tables = self.old.tables; board = board })) }
    {
        &mut self.board
    }

    /// Ends the desk, and returns its board.
    pub fn into_board(self) -> B
        ensures { result ≡ self.board }
    {
        let Desk {
            tables: _tables,
            board,
        } = self;
        board
    }
}
