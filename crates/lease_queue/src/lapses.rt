//! An iterator over leases that have lapsed.
ghost use Rattle.std.specs.Prelude.{◌≡◌, ◌+◌, ◌<◌, ◌≤◌, ◌∷◌, [], length, IfSome, IfNone};
ghost use Rattle.std.specs.Map.{keys_of};
ghost use Rattle.lease_queue.specs.Leases.{IsAscending, lapsed_at};

use crate::Lease;
use crate::leases::has_lapsed;
use chunk_map::RangeIter;
use rd_base::{Moment, Steps};
use std::marker::Model;
use std::sync::ledger::{Blank, Ledger};

/// A cursor over numbers of leases. Contracts see the remaining numbers, in order.
#[derive(Drop)]
pub struct LapsedIter<'a> {
    /// The remaining leases, including those that have not lapsed.
    left: RangeIter<'a, Lease, ()>,
    /// The moment at which to tell whether a lease has lapsed.
    now: Moment,
}

impl<'a> Model for LapsedIter<'a> {
    ghost use Rattle.std.specs.Prelude.{ℕ, List};
    ghost use Rattle.std.specs.Map.{keys_of};
    ghost use Rattle.lease_queue.specs.Leases.{IsAscending, lapsed_at};

    ghost Value = { List ℕ };

    ghost view = { λ c. lapsed_at c.now.0 (keys_of c.left) };

    ghost invariant = { λ c. IsAscending (keys_of c.left) };
}

impl<'a> LapsedIter<'a> {
    /// Returns a cursor over the numbers of those leases that have lapsed at this moment.
    pub(crate) fn over(left: RangeIter<'a, Lease, ()>, now: Moment) -> LapsedIter<'a>
        requires { IsAscending (keys_of left) }
        ensures { result ≡ lapsed_at now.0 (keys_of left.entry) }
    {
        LapsedIter { left, now }
    }

    /// Returns the next number, or `None` at the end. Each call counts one step, including the one
    /// at the end. Does not allocate.
    pub fn step<L: Ledger>(&mut self, steps: &mut Steps<L>) -> Option<u64>
        ensures next { IfSome result (λ number. self.old ≡ number ∷ self.new) }
        ensures end { IfNone result ((self.old ≡ []) × (self.new ≡ [])) }
        ensures counted { steps.new ≡ steps.old + 1 }
    {
        let (lease, _) = self.left.step(steps)?;
        if !has_lapsed(lease, self.now) {
            return None;
        }
        Some(lease.number)
    }

    /// Returns how many numbers are left, at most `most`.
    pub(crate) fn count<L: Ledger>(mut self, most: u64, blank: Blank) -> u64
        requires bound { length self ≤ most }
        requires name { blank.name ≡ L.name }
        requires parts { blank.parts ≡ L.parts }
        requires some { 0 < L.parts }
        ensures { result ≡ length self.entry }
    {
        let mut steps = Steps::<L>::new(blank);
        let mut count = 0;
        while let Some(_) = self.step(&mut steps) {
            count += 1;
        }
        count
    }
}
