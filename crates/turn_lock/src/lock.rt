//! The lock: a value protected by one word and one slot.
ghost use Rattle.std.specs.Prelude.{◌≡◌, ℕ, ◌+◌, false, [], ◌∷◌, Some};
ghost use Rattle.std.specs.Mem.{manually_drop_value};
ghost use Rattle.turn_lock.specs.Rule.{word_of, SeenInOrder, HistoryOfPasses};

use crate::rows::{Added, Replays};
use crate::seats::{Pass, Passes};
use crate::views::{About, Give, Next, Take, Turn, View};
use atomic_table::{Closed, Refused, Seat, Table};
use rd_base::Starved;
use std::alloc::Global;
use std::mem::ManuallyDrop;
use std::snapshot::Snapshot;
use std::sync::Wait;
use std::sync::atomic::{AtomicU64, Ordering};
use std::time::Duration;

/// For how long a worker sleeps at most before it looks for the turn again, in microseconds.
const LONGEST_SLEEP: u64 = 250;

/// The number of gives that find a sleeper, of which one wakes it.
const GIVES: u64 = 8;

/// A value that many workers change in turn. A lock may be dropped if its value may be. Any other
/// lock is taken apart by [`TurnLock::end`] or [`TurnLock::into_inner`].
#[derive(Drop)]
pub struct TurnLock<T: Replays> {
    table: Table<Option<T>, View<T::Row, T::Label>, About<T>, Turn<T>, Global>,
    /// How many workers sleep until the turn is given back, or are about to. If it is 0, giving the
    /// turn back wakes no worker.
    sleepers: AtomicU64,
    /// How often a give that may wake a worker found one asleep, modulo 2^64.
    found: AtomicU64,
    ghost words: { table.shared.table_id.words ≡ 1 },
    ghost slots: { table.shared.table_id.slots ≡ 1 },
}

/// Which worker is woken when the turn is given back.
#[derive(Clone, Copy, Debug, PartialEq, Eq)]
pub enum Wake {
    /// One of those that sleep until the turn is free.
    One,
    /// None of them: the giver takes the turn again at once. A worker that was woken would find
    /// the turn taken, and sleep again.
    Nobody,
}

/// A value that came back because there was no memory for its lock.
#[derive(Drop)]
pub struct Unmade<T> {
    /// The value that was passed in.
    pub value: T,
}

/// The result of taking a lock apart.
#[derive(Drop)]
pub enum Ended<T> {
    /// The turn was free, and this is the value.
    Free(T),
    /// A pass held the turn, and has the value. This is what was in the slot, of which no contract
    /// speaks.
    Held(Option<T>),
}

/// Returns the word of a history that has one more row.
fn next_word(word: u64) -> u64
    ensures { (n : ℕ) → word ≡ word_of n false → result ≡ word_of (n + 1) false }
{
    if word >= 0x7fff_ffff_ffff_fffe {
        0
    } else {
        word + 2
    }
}

/// Returns the value of the only slot.
fn only<T>(mut slots: Vec<Option<T>>) -> T
    requires { (value : T) × (slots.items ≡ Some value ∷ []) }
    ensures { slots.items ≡ Some result ∷ [] }
{
    let Some(Some(value)) = slots.pop() else {
        unreachable!()
    };
    slots.destroy_empty();
    value
}

/// Returns a pass that has seen nothing.
fn new_pass<T: Replays>(seat: Seat<Option<T>, View<T::Row, T::Label>>) -> Pass<T>
    requires idle { seat.me.0.holding ≡ false }
    requires seen { seat.me.0.seen ≡ [] }
    requires slot { seat.me.1 ≡ [] }
    ensures { manually_drop_value result.seat ≡ seat }
{
    let seat = ManuallyDrop::new(seat);
    Pass { seat, word: 0 }
}

impl<T: Replays> TurnLock<T> {
    ghost use Rattle.std.specs.Prelude.{◌%◌, ◌<◌, ◌≤◌, List, length, true, None, IfOk, IfErr};
    ghost use Rattle.std.specs.Prelude.{IfSome, IsSome, slice_get, slice_index_or, All};
    ghost use Rattle.std.specs.Bool.{MatchBool};
    ghost use Rattle.std.specs.Vec.{vec_capacity};
    ghost use Rattle.turn_lock.specs.Histories.{Extends, rows_of, AllBelow};
    ghost use Rattle.std.specs.Mem.Slots.{slots_len, IsFull};
    ghost use Rattle.turn_lock.specs.Endings.{IfFree, HasValueWhereFree, IsFreeWith};
    ghost use Rattle.turn_lock.specs.Steps.{Took, DidNotTake, CameOut, WentIn, IsReady, Gave};
    ghost use Rattle.turn_lock.specs.Steps.{WasSplit};
    ghost use Rattle.turn_lock.specs.Passes.{IsFresh};
    ghost use Rattle.turn_lock.specs.Shown.{id_of, lock_of, number_of, label_of, is_holding};
    ghost use Rattle.turn_lock.specs.Shown.{count_of, passes_of, seen_of, mine_of, list_of, IsNew};

    /// Waits for the turn and takes the value out. The value stands for all rows that the pass has
    /// seen then.
    ///
    /// # Requires
    ///
    /// The pass is of this lock, and does not hold the turn.
    pub fn take<R: Wait>(&self, rt: &R, pass: &mut Pass<T>) -> T
        requires lock { lock_of pass.old ≡ id_of self.now }
        requires idle { is_holding pass.old ≡ false }
        ensures lock { lock_of pass.new ≡ lock_of pass.old }
        ensures holding { is_holding pass.new ≡ true }
        ensures number { number_of pass.new ≡ number_of pass.old }
        ensures label { label_of pass.new ≡ label_of pass.old }
        ensures passes { passes_of pass.new ≡ passes_of pass.old }
        ensures seen { Extends (seen_of pass.old) (seen_of pass.new) }
        ensures below { AllBelow T.number (passes_of pass.new) (seen_of pass.new) }
        ensures mine { mine_of pass.new ≡ mine_of pass.old }
        ensures own { mine_of pass.new ≡ rows_of T.number (number_of pass.new) (seen_of pass.new) }
        ensures value { T.stands (seen_of pass.new) result }
        ensures value_label { T.label result ≡ label_of pass.old }
    {
        let word = self.win(rt, &mut pass.seat);
        pass.word = word;
        self.slot_out(&mut pass.seat)
    }

    /// Waits until the turn is taken. Returns the word as it was found.
    fn win<R: Wait>(&self, rt: &R, seat: &mut Seat<Option<T>, View<T::Row, T::Label>>) -> u64
        requires lock { seat.old.table_id ≡ self.now.table.shared.table_id }
        requires bare { seat.old.me.1 ≡ [] }
        ensures lock { seat.new.table_id ≡ seat.old.table_id }
        ensures took { Took T.stands T.number T.label seat.old.me seat.new.me result }
    {
        let shared = &self.table.shared;
        for _ in rt.forever() {
            let word = shared.peek(0);
            if word % 2 == 0 {
                if self.try_take(seat, word) {
                    return word;
                }
            } else {
                self.sleep(rt, word);
            }
        }
        unreachable!()
    }

    /// Sleeps while the word is this one, for at most 250 µs.
    ///
    /// The sleeper is counted before the word is compared. A give changes the word before it reads
    /// the count. So if it finds no sleeper, it changed the word before the comparison, and no
    /// worker sleeps through it. A give that wakes nobody leaves the turn free. Then a sleeper
    /// finds it when it looks again by itself.
    fn sleep<R: Wait>(&self, rt: &R, word: u64) {
        self.sleepers.fetch_add(1, Ordering::SeqCst);
        let expected = (word & 0xffff_ffff) as u32;
        let most = Duration::from_micros(LONGEST_SLEEP);
        self.table.shared.park_timeout(rt, 0, expected, most);
        self.sleepers.fetch_sub(1, Ordering::SeqCst);
    }

    /// Takes the turn if the word is this one, and returns whether it did.
    fn try_take(&self, seat: &mut Seat<Option<T>, View<T::Row, T::Label>>, word: u64) -> bool
        requires lock { seat.old.table_id ≡ self.now.table.shared.table_id }
        requires bare { seat.old.me.1 ≡ [] }
        requires free { word % 2 ≡ 0 }
        ensures lock { seat.new.table_id ≡ seat.old.table_id }
        ensures took { MatchBool result
            (Took T.stands T.number T.label seat.old.me seat.new.me word)
            (DidNotTake T.stands T.number T.label seat.old.me seat.new.me) }
    {
        let shared = &self.table.shared;
        shared.compare_exchange::<Take<T>>(seat, 0, word, word + 1) == word
    }

    /// Moves the value out of the slot, and returns it.
    fn slot_out(&self, seat: &mut Seat<Option<T>, View<T::Row, T::Label>>) -> T
        requires lock { seat.old.table_id ≡ self.now.table.shared.table_id }
        requires full { (value : T) × (seat.old.me.1 ≡ (0, Some value) ∷ []) }
        ensures lock { seat.new.table_id ≡ seat.old.table_id }
        ensures came_out { CameOut T.stands T.number T.label seat.old.me seat.new.me result }
    {
        self.table.shared.exchange(seat, 0, None).unwrap()
    }

    /// Moves the value into the slot.
    fn slot_in(&self, seat: &mut Seat<Option<T>, View<T::Row, T::Label>>, value: T)
        requires lock { seat.old.table_id ≡ self.now.table.shared.table_id }
        requires empty { seat.old.me.1 ≡ (0, None) ∷ [] }
        ensures lock { seat.new.table_id ≡ seat.old.table_id }
        ensures went_in { WentIn T.stands T.number T.label seat.old.me seat.new.me value }
    {
        let out = self.table.shared.exchange(seat, 0, Some(value));
        let None = out else { unreachable!() };
    }

    /// Gives the turn back with the value and one more row, which the caller's contract names
    /// (`S`), and may wake a worker that sleeps.
    ///
    /// # Requires
    ///
    /// The pass is of this lock, and holds the turn. The row has the number of the pass. The value
    /// has the lock's label, and stands for what the pass has seen with this row added.
    pub fn give<S: Added<T::Row>>(&self, pass: &mut Pass<T>, value: T)
        requires lock { lock_of pass.old ≡ id_of self.now }
        requires holding { is_holding pass.old ≡ true }
        requires added { IsSome S.added }
        requires number { IfSome S.added (λ row. T.number row ≡ number_of pass.old) }
        requires value { IfSome S.added (λ row. T.stands (row ∷ seen_of pass.old) value) }
        requires value_label { T.label value ≡ label_of pass.old }
        ensures lock { lock_of pass.new ≡ lock_of pass.old }
        ensures idle { is_holding pass.new ≡ false }
        ensures number { number_of pass.new ≡ number_of pass.old }
        ensures label { label_of pass.new ≡ label_of pass.old }
        ensures passes { passes_of pass.new ≡ passes_of pass.old }
        ensures below { AllBelow T.number (passes_of pass.new) (seen_of pass.new) }
        ensures seen { IfSome S.added (λ row. seen_of pass.new ≡ row ∷ seen_of pass.old) }
        ensures mine { IfSome S.added (λ row. mine_of pass.new ≡ row ∷ mine_of pass.old) }
        ensures own { mine_of pass.new ≡ rows_of T.number (number_of pass.new) (seen_of pass.new) }
    {
        self.give_back::<S>(pass, value, Wake::One);
    }

    /// Gives the turn back as [`TurnLock::give`] does, and may wake one worker, or wakes nobody.
    ///
    /// # Requires
    ///
    /// What [`TurnLock::give`] requires.
    pub fn give_back<S: Added<T::Row>>(&self, pass: &mut Pass<T>, value: T, wake: Wake)
        requires lock { lock_of pass.old ≡ id_of self.now }
        requires holding { is_holding pass.old ≡ true }
        requires added { IsSome S.added }
        requires number { IfSome S.added (λ row. T.number row ≡ number_of pass.old) }
        requires value { IfSome S.added (λ row. T.stands (row ∷ seen_of pass.old) value) }
        requires value_label { T.label value ≡ label_of pass.old }
        ensures lock { lock_of pass.new ≡ lock_of pass.old }
        ensures idle { is_holding pass.new ≡ false }
        ensures number { number_of pass.new ≡ number_of pass.old }
        ensures label { label_of pass.new ≡ label_of pass.old }
        ensures passes { passes_of pass.new ≡ passes_of pass.old }
        ensures below { AllBelow T.number (passes_of pass.new) (seen_of pass.new) }
        ensures seen { IfSome S.added (λ row. seen_of pass.new ≡ row ∷ seen_of pass.old) }
        ensures mine { IfSome S.added (λ row. mine_of pass.new ≡ row ∷ mine_of pass.old) }
        ensures own { mine_of pass.new ≡ rows_of T.number (number_of pass.new) (seen_of pass.new) }
    {
        self.slot_in(&mut pass.seat, value);
        let word = next_word(pass.word);
        self.release::<S>(&mut pass.seat, word);
        pass.word = word;
        self.wake(wake);
    }

    /// Wakes a worker that sleeps, if one sleeps and one is to be woken: by every eighth give.
    ///
    /// A worker that is woken by each give would mostly find the turn taken again, or take it from
    /// a worker that has all it needs in the caches of its processor. Either way one of the two
    /// sleeps again.
    fn wake(&self, wake: Wake) {
        if wake == Wake::One
            && self.sleepers.load(Ordering::SeqCst) != 0
            && self.found.fetch_add(1, Ordering::Relaxed) % GIVES == 0
        {
            self.table.shared.wake_one(0);
        }
    }

    /// Makes the turn free.
    fn release<S: Added<T::Row>>(
        &self,
        seat: &mut Seat<Option<T>, View<T::Row, T::Label>>,
        word: u64,
    )
        requires lock { seat.old.table_id ≡ self.now.table.shared.table_id }
        requires word { word ≡ word_of (length seat.old.me.0.seen + 1) false }
        requires ready { (row : T.Row)
            × (S.added ≡ Some row)
            × IsReady T.stands T.number T.label row seat.old.me }
        ensures lock { seat.new.table_id ≡ seat.old.table_id }
        ensures gave { (row : T.Row)
            × (S.added ≡ Some row)
            × Gave T.stands T.number T.label row seat.old.me seat.new.me }
    {
        let shared = &self.table.shared;
        shared.swap::<Give<T, S>>(seat, 0, word);
    }

    /// Splits a pass with the next number off the pass that was made last.
    fn next(
        &self,
        last: &mut Seat<Option<T>, View<T::Row, T::Label>>,
    ) -> Seat<Option<T>, View<T::Row, T::Label>>
        requires lock { last.old.table_id ≡ self.now.table.shared.table_id }
        requires last { last.old.me.0.last ≡ true }
        requires idle { last.old.me.0.holding ≡ false }
        requires room { last.old.me.0.number + 1 < count_of self.now }
        ensures lock { (last.new.table_id ≡ last.old.table_id)
            × (result.table_id ≡ last.old.table_id) }
        ensures split { WasSplit last.old.me last.new.me result.me }
    {
        self.table.shared.split_seat::<Next>(last)
    }

    /// Returns the passes, each split off the one before it.
    fn cut(
        &self,
        mut passes: Vec<Pass<T>>,
        first: Seat<Option<T>, View<T::Row, T::Label>>,
        seats: usize,
    ) -> Vec<Pass<T>>
        requires none { passes.items ≡ [] }
        requires room { seats ≤ vec_capacity passes }
        requires some { 0 < seats }
        requires all { seats ≡ count_of self.now }
        requires lock { first.table_id ≡ self.now.table.shared.table_id }
        requires fresh { IsFresh (T.label self.now.table.shared.key.value.value) seats 0 first.me }
        requires last { first.me.0.last ≡ true }
        ensures count { length result.items ≡ seats }
        ensures passes { (i : ℕ) (pass : _) → slice_get result.items i ≡ Some pass
            → IsNew (T.label self.now.table.shared.key.value.value) seats i pass
            × (lock_of pass ≡ id_of self.now) }
    {
        let mut last = first;
        for _ in 1..seats {
            let next = self.next(&mut last);
            passes.push_reserved(new_pass(last));
            last = next;
        }
        passes.push_reserved(new_pass(last));
        passes
    }

    /// Creates a lock for the value, and its passes, numbered from 0.
    ///
    /// # Requires
    ///
    /// `seats` is 1 to 16, and the value stands for the empty history.
    ///
    /// # Errors
    ///
    /// `Unmade` with the value if memory runs out.
    pub fn make_or_return(
        alloc: Global,
        seats: u32,
        value: T,
    ) -> Result<(TurnLock<T>, Passes<T>), Unmade<T>>
        requires seats { (1 ≤ seats) × (seats ≤ 16) }
        requires value { T.stands [] value }
        ensures count { IfOk result (λ made. length (list_of made.1) ≡ seats) }
        ensures passes { IfOk result (λ made. count_of made.0 ≡ seats) }
        ensures fresh { IfOk result (λ made.
            (i : ℕ) (d : _)
            → i < length (list_of made.1)
            → IsNew (T.label value) seats i (slice_index_or (list_of made.1) i d)) }
        ensures lock { IfOk result
            (λ made. All (λ pass. lock_of pass ≡ id_of made.0) (list_of made.1)) }
        ensures back { IfErr result (λ unmade. unmade.value ≡ value) }
    {
        let Ok(passes) = Vec::with_capacity(alloc, seats as usize) else {
            return Err(Unmade { value });
        };
        let Ok(mut slots) = Vec::with_capacity(alloc, 1) else {
            return Err(Unmade { value });
        };
        let first = Snapshot::of(&value);
        let about = About {
            value: first,
            passes: seats,
        };
        slots.push_reserved(Some(value));
        let (table, seat) = match Table::new(alloc, &[0], slots, &about) {
            Ok(made) => made,
            Err(Refused { slots }) => {
                return Err(Unmade { value: only(slots) });
            }
        };
        let lock = TurnLock {
            table,
            sleepers: AtomicU64::new(0),
            found: AtomicU64::new(0),
        };
        let passes = lock.cut(passes, seat, seats as usize);
        Ok((lock, Passes::of(passes)))
    }

    /// Returns what is left of a closed table.
    fn left(mut closed: Closed<Option<T>, Global>) -> Ended<T>
        requires counts { (slots_len closed.words ≡ 1) × (slots_len closed.slots ≡ 1) }
        requires full { IsFull closed.words × IsFull closed.slots }
        requires value { HasValueWhereFree closed }
        ensures free { IfFree result (IsFreeWith closed) }
    {
        let word = closed.word(0);
        let found = closed.take(0);
        closed.free();
        if word % 2 != 0 {
            return Ended::Held(found);
        }
        let Some(value) = found else { unreachable!() };
        Ended::Free(value)
    }

    /// Takes the lock apart, with one of its passes. If the turn is free, returns the value, which
    /// stands for a history that continues what this pass has seen.
    ///
    /// # Requires
    ///
    /// The pass is of this lock.
    pub fn end(self, pass: Pass<T>) -> Ended<T>
        requires lock { lock_of pass ≡ id_of self }
        ensures value { IfFree result (λ value. (history : List T.Row) ×
            Extends (seen_of pass) history ×
            (mine_of pass ≡ rows_of T.number (number_of pass) history) ×
            AllBelow T.number (passes_of pass) history ×
            T.stands history value) }
        ensures value_label { IfFree result (λ value. T.label value ≡ label_of pass) }
    {
        let TurnLock {
            table,
            sleepers: _,
            found: _,
        } = self;
        let Pass { seat, word: _ } = pass;
        let seat = ManuallyDrop::into_inner(seat);
        TurnLock::left(table.close_with(seat))
    }

    /// Takes the lock apart, without a pass. If the turn is free, returns the value, which stands
    /// for some history.
    pub fn into_inner(self) -> Ended<T>
        ensures value { IfFree result (λ value. (history : List T.Row) × T.stands history value) }
    {
        let TurnLock {
            table,
            sleepers: _,
            found: _,
        } = self;
        TurnLock::left(table.close())
    }
}

/// States a law: of what two passes of one lock have seen, one is an earlier state of the other.
pub fn seen_in_order<T: Replays>()
    ensures { SeenInOrder T.stands T.number T.label }
{}

/// States a law: the history of a lock is that of its passes. Each row is of one of them. The rows
/// of a pass are exactly its own, in order. Until a pass has a row of its own, the history is
/// empty.
pub fn history_is_of_passes<T: Replays>()
    ensures { HistoryOfPasses T.stands T.number T.label }
{}

impl<T: Replays + Drop> TurnLock<T> {
    ghost use Rattle.std.specs.Prelude.{◌≤◌, ◌<◌, length, IfOk, slice_index_or, All};
    ghost use Rattle.turn_lock.specs.Shown.{id_of, lock_of, count_of, list_of, IsNew};

    /// Creates a lock for the value, and its passes, numbered from 0.
    ///
    /// # Requires
    ///
    /// `seats` is 1 to 16, and the value stands for the empty history.
    ///
    /// # Errors
    ///
    /// `Starved` if memory runs out. The value is dropped then.
    pub fn make(alloc: Global, seats: u32, value: T) -> Result<(TurnLock<T>, Passes<T>), Starved>
        requires seats { (1 ≤ seats) × (seats ≤ 16) }
        requires value { T.stands [] value }
        ensures count { IfOk result (λ made. length (list_of made.1) ≡ seats) }
        ensures passes { IfOk result (λ made. count_of made.0 ≡ seats) }
        ensures fresh { IfOk result (λ made.
            (i : ℕ) (d : _)
            → i < length (list_of made.1)
            → IsNew (T.label value) seats i (slice_index_or (list_of made.1) i d)) }
        ensures lock { IfOk result
            (λ made. All (λ pass. lock_of pass ≡ id_of made.0) (list_of made.1)) }
    {
        match TurnLock::make_or_return(alloc, seats, value) {
            Ok(made) => Ok(made),
            Err(Unmade { value: _ }) => Err(Starved),
        }
    }
}
