//! Chains, by which exchanges are found: each bucket's exchanges, from the latest on.
ghost use Rattle.std.specs.Prelude.{◌≡◌, ◌+◌, ◌-◌, ◌<◌, ◌≤◌, ◌^◌, ◌∷◌, [], ℕ, length, take};
ghost use Rattle.std.specs.Prelude.{slice_index, slice_set, IfOk, EachIndex};
ghost use Rattle.std.specs.VecDeque.{deque_len, deque_capacity};
ghost use Rattle.exchange_core.specs.Buckets.{buckets};

use crate::buckets::BUCKETS;
use rd_base::Starved;
use std::alloc::Global;
use std::collections::VecDeque;

/// The numbers of exchanges, in the order of their admission.
#[derive(Drop)]
pub(crate) struct Chains {
    /// The number of the oldest exchange.
    pub(crate) first: u64,
    /// For each bucket, the number of its latest exchange, or a number below `first` if it has
    /// none.
    pub(crate) latest: Vec<u64>,
    /// For each exchange, the latest first, the number of the next older one in its bucket, or a
    /// number below `first` if there is none.
    pub(crate) older: VecDeque<u64>,
}

impl Chains {
    /// Creates chains without exchanges, with room for `room` of them.
    pub(crate) fn make(alloc: Global, room: usize) -> Result<Chains, Starved>
        ensures first { IfOk result (λ c. c.first ≡ 1) }
        ensures buckets { IfOk result (λ c. length c.latest.items ≡ buckets) }
        ensures none { IfOk result
            (λ c. EachIndex c.latest.items (λ b. slice_index c.latest.items b ≡ 0)) }
        ensures empty { IfOk result (λ c. c.older.items ≡ []) }
        ensures room { IfOk result (λ c. room ≤ deque_capacity c.older) }
    {
        let older = VecDeque::with_capacity(alloc, room)?;
        let latest = vec![in alloc; 0; BUCKETS]?;
        Ok(Chains {
            first: 1,
            latest,
            older,
        })
    }

    /// Returns the number of the next exchange.
    pub(crate) fn next(&self) -> u64
        requires { self.now.first + length self.now.older.items < 2 ^ 64 }
        ensures { result ≡ self.now.first + length self.now.older.items }
    {
        self.first + self.older.len() as u64
    }

    /// Adds an exchange to this bucket.
    pub(crate) fn push(&mut self, bucket: usize)
        requires within { bucket < length self.old.latest.items }
        requires counted { self.old.first + length self.old.older.items < 2 ^ 64 }
        requires room { length self.old.older.items < deque_capacity self.old.older }
        ensures first { self.new.first ≡ self.old.first }
        ensures older { self.new.older.items
            ≡ slice_index self.old.latest.items bucket ∷ self.old.older.items }
        ensures latest { self.new.latest.items
            ≡ slice_set self.old.latest.items bucket
            (self.old.first + length self.old.older.items) }
        ensures room { deque_capacity self.new.older ≡ deque_capacity self.old.older }
    {
        let number = self.next();
        let before = self.latest[bucket];
        self.latest[bucket] = number;
        self.older.push_front_reserved(before);
    }

    /// Removes the oldest exchange.
    pub(crate) fn pop(&mut self)
        requires { self.old.first + 1 < 2 ^ 64 }
        ensures first { self.new.first ≡ self.old.first + 1 }
        ensures older { self.new.older.items
            ≡ take (length self.old.older.items - 1) self.old.older.items }
        ensures latest { self.new.latest.items ≡ self.old.latest.items }
        ensures room { deque_capacity self.new.older ≡ deque_capacity self.old.older }
    {
        let _ = self.older.pop_back();
        self.first += 1;
    }

    /// Removes all exchanges.
    pub(crate) fn clear(&mut self)
        ensures first { self.new.first ≡ 1 }
        ensures buckets { length self.new.latest.items ≡ length self.old.latest.items }
        ensures none { EachIndex self.new.latest.items
            (λ b. slice_index self.new.latest.items b ≡ 0) }
        ensures empty { self.new.older.items ≡ [] }
        ensures room { deque_capacity self.new.older ≡ deque_capacity self.old.older }
    {
        self.first = 1;
        self.older.clear();
        none_in(&mut self.latest);
    }
}

/// Removes the exchanges of all buckets.
fn none_in(latest: &mut [u64])
    ensures { EachIndex latest.new (λ b. slice_index latest.new b ≡ 0) }
{
    'buckets: for number in latest.iter_mut() {
        *number = 0;
    }
}
