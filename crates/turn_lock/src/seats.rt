//! The passes of a lock, one for each worker.
ghost use Rattle.std.specs.Prelude.{◌≡◌, length};
ghost use Rattle.std.specs.Mem.{manually_drop_value};
ghost use Rattle.turn_lock.specs.Rule.{word_of};
ghost use Rattle.turn_lock.specs.Passes.{slots_of};
ghost use Rattle.std.specs.Prelude.{false};

use crate::rows::Replays;
use crate::views::View;
use atomic_table::Seat;
use std::mem::ManuallyDrop;

/// The right of one worker to take the turn of one lock. It may be dropped, whatever value the lock
/// has.
#[derive(Drop)]
pub struct Pass<T: Replays> {
    /// What the pass knows. It has no bytes, so nothing is lost although it is never dropped.
    /// Dropping it would need a destructor of the locked value, which may have none.
    pub(crate) seat: ManuallyDrop<Seat<Option<T>, View<T::Row, T::Label>>>,
    /// The lock's word while the turn is free and the history is what the pass has seen.
    pub(crate) word: u64,
    ghost slot_fits: { (manually_drop_value seat).me.1
        ≡ slots_of (manually_drop_value seat).me.0.holding },
    ghost word_fits: { word ≡ word_of (length (manually_drop_value seat).me.0.seen) false },
}

/// The passes of one lock in the order of their numbers.
#[derive(Drop)]
pub struct Passes<T: Replays> {
    passes: Vec<Pass<T>>,
}

impl<T: Replays> Passes<T> {
    ghost use Rattle.std.specs.Prelude.{◌∷◌, [], IfSome, IfNone};
    ghost use Rattle.turn_lock.specs.Shown.{list_of};

    /// Returns the list of these passes.
    pub fn of(passes: Vec<Pass<T>>) -> Passes<T>
        ensures { list_of result ≡ passes.items }
    {
        Passes { passes }
    }

    /// Returns the passes as a vector, in the same order.
    pub fn into_vec(self) -> Vec<Pass<T>>
        ensures { result.items ≡ list_of self }
    {
        let Passes { passes } = self;
        passes
    }

    /// Returns how many passes are left.
    pub fn len(&self) -> usize
        ensures { result ≡ length (list_of self.now) }
    {
        self.passes.len()
    }

    /// Removes and returns the pass with the smallest number, or returns `None` if none is left.
    pub fn take_first(&mut self) -> Option<Pass<T>>
        ensures some { IfSome result (λ pass. list_of self.old ≡ pass ∷ list_of self.new) }
        ensures none { IfNone result ((list_of self.old ≡ []) × (list_of self.new ≡ [])) }
    {
        if self.passes.is_empty() {
            return None;
        }
        Some(self.passes.remove(0))
    }
}
