//! A count of steps, which only contracts see.
ghost use Rattle.std.specs.Prelude.{◌≡◌, ◌+◌, ◌<◌};

use std::marker::Model;
use std::sync::ledger::{Blank, Book, Ledger, Share};

/// A count of steps. It has no bytes at run time, and only contracts see its number.
///
/// A counted call takes it by `&mut` and calls [`Steps::tick`] for each step. Nothing else changes
/// the number. `L` is the ledger that holds it, and any ledger serves.
#[derive(Drop)]
pub struct Steps<L: Ledger> {
    book: Book<L>,
    share: Share<L>,
}

impl<L: Ledger> Model for Steps<L> {
    ghost use Rattle.std.specs.Prelude.{ℕ, ◌<◌};

    ghost Value = { ℕ };

    ghost view = { λ s. s.book.total };

    ghost invariant = { λ s. 0 < s.share.parts };
}

impl<L: Ledger> Steps<L> {
    /// Creates a count at 0. Does not allocate.
    ///
    /// A count cannot begin out of nothing, so this call takes a blank page for its ledger, which
    /// has no bytes either. A function that counts for itself takes a `blank` with these
    /// conditions. Its caller passes `Blank::new(1)` at the ledger `Brand`.
    ///
    /// # Requires
    ///
    /// The blank page has the name and the parts of the ledger, which has some parts.
    pub fn new(blank: Blank) -> Steps<L>
        requires name { blank.name ≡ L.name }
        requires parts { blank.parts ≡ L.parts }
        requires some { 0 < L.parts }
        ensures { result ≡ 0 }
    {
        let (book, share) = blank.open();
        Steps { book, share }
    }

    /// Counts one step. Does nothing at run time.
    pub fn tick(&mut self)
        ensures { self.new ≡ self.old + 1 }
    {
        self.book.add(&mut self.share, 1);
    }
}
