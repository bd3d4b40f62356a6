//! Versions of the queue of leases.
ghost use Rattle.std.specs.Prelude.{◌≡◌, ◌≢◌, ◌↔◌, ◌+◌, ◌<◌, ◌≤◌, [], length, Some, IfOk, Contains};
ghost use Rattle.std.specs.Map.{keys_of};
ghost use Rattle.lease_queue.specs.declared.leases.Lease.{Lease};
ghost use Rattle.lease_queue.specs.Leases.{IsAscending, with_lease, without_lease, lapsed_at};
ghost use Rattle.lease_queue.specs.Leases.{unlapsed_at};

use crate::leases::has_lapsed;
use crate::{LapsedIter, Lease};
use chunk_map::{Change, ChunkMap, RangeIter};
use rd_base::{Moment, Starved, Steps};
use std::alloc::Global;
use std::marker::{Brand, Model};
use std::sync::ledger::{Blank, Ledger};

/// A set of leases in the order in which they lapse. Those that lapse at the same moment are in the
/// order of their numbers. A queue never changes: [`LeaseQueue::put`] and [`LeaseQueue::take`] make
/// another one. Contracts see the list of its leases.
#[derive(Drop)]
pub struct LeaseQueue {
    /// The leases as keys, so that versions share those that do not change.
    leases: ChunkMap<Lease, ()>,
    /// The allocator of the queues made from this one.
    alloc: Global,
}

/// The change that adds a lease, or keeps it if it exists.
#[derive(Drop)]
struct Comes;

impl Change<()> for Comes {
    ghost gives = { λ _ _ new. new ≡ Some tt };

    fn begin(self) -> Result<Option<()>, Starved> {
        Ok(Some(()))
    }

    fn follow(self, _: &()) -> Result<Option<()>, Starved> {
        Ok(Some(()))
    }
}

/// Consumes these leases as keys, and returns them with one more. Changes in place what no other
/// map shares.
fn with_key(leases: ChunkMap<Lease, ()>, lease: Lease) -> Result<ChunkMap<Lease, ()>, Starved>
    requires { IsAscending (keys_of leases) }
    ensures { IfOk result (λ map. keys_of map ≡ with_lease (keys_of leases) lease) }
{
    leases.changed(&lease, Comes)
}

/// The result of a sweep.
#[derive(Drop)]
pub struct Swept {
    /// The queue of the leases that have not lapsed.
    pub queue: LeaseQueue,
    /// The numbers of those that have lapsed, in order.
    pub numbers: Vec<u64>,
}

impl Model for LeaseQueue {
    ghost use Rattle.std.specs.Prelude.{List};
    ghost use Rattle.std.specs.Map.{keys_of};
    ghost use Rattle.lease_queue.specs.declared.leases.Lease.{Lease};
    ghost use Rattle.lease_queue.specs.Leases.{IsAscending};

    ghost Value = { List Lease };

    ghost view = { λ q. keys_of q.leases };

    ghost invariant = { λ q. IsAscending (keys_of q.leases) };
}

impl LeaseQueue {
    /// Returns the queue without leases. It stores `alloc` for the queues made from it.
    ///
    /// # Errors
    ///
    /// `Starved` if memory runs out.
    pub fn empty(alloc: Global) -> Result<LeaseQueue, Starved>
        ensures { IfOk result (λ queue. queue ≡ []) }
    {
        Ok(LeaseQueue {
            leases: ChunkMap::empty(alloc)?,
            alloc,
        })
    }

    /// Returns an equal queue, which shares all leases.
    ///
    /// # Errors
    ///
    /// `Starved` if memory runs out.
    pub fn share(&self) -> Result<LeaseQueue, Starved>
        ensures same { IfOk result (λ queue. queue ≡ self.now) }
        ensures ascends { IsAscending self.now }
    {
        Ok(LeaseQueue {
            leases: self.leases.share()?,
            alloc: self.alloc,
        })
    }

    /// Returns the queue with this lease, or an equal one if it has the lease already.
    ///
    /// # Errors
    ///
    /// `Starved` if memory runs out.
    pub fn put(&self, lapse: Moment, number: u64) -> Result<LeaseQueue, Starved>
        ensures queue { IfOk result (λ queue. queue ≡ with_lease self.now
            (record { lapse = lapse; number = number })) }
        ensures ascends { IfOk result (λ queue. IsAscending queue) }
        ensures same { IfOk result (λ queue. Contains self.now
            (record { lapse = lapse; number = number })
            → queue ≡ self.now) }
        ensures there { IfOk result (λ queue. Contains queue
            (record { lapse = lapse; number = number })) }
        ensures others { IfOk result (λ queue. (other : Lease)
            → other ≢ record { lapse = lapse; number = number }
            → Contains queue other ↔ Contains self.now other) }
    {
        let lease = Lease { lapse, number };
        Ok(LeaseQueue {
            leases: self.leases.put(lease, ())?,
            alloc: self.alloc,
        })
    }

    /// Consumes this queue and returns it with this lease, as [`LeaseQueue::put`] does. Changes in
    /// place what no other queue shares.
    ///
    /// # Errors
    ///
    /// `Starved` if memory runs out. This queue is lost then; the others are unaffected.
    pub fn with(self, lapse: Moment, number: u64) -> Result<LeaseQueue, Starved>
        ensures queue { IfOk result (λ queue. queue
            ≡ with_lease self (record { lapse = lapse; number = number })) }
        ensures ascends { IfOk result (λ queue. IsAscending queue) }
    {
        let LeaseQueue { leases, alloc } = self;
        let leases = with_key(leases, Lease { lapse, number })?;
        Ok(LeaseQueue { leases, alloc })
    }

    /// Returns the queue without this lease, or an equal one if it does not have the lease.
    ///
    /// # Errors
    ///
    /// `Starved` if memory runs out.
    pub fn take(&self, lapse: Moment, number: u64) -> Result<LeaseQueue, Starved>
        ensures queue { IfOk result (λ queue. queue ≡ without_lease self.now
            (record { lapse = lapse; number = number })) }
        ensures ascends { IfOk result (λ queue. IsAscending queue) }
        ensures same { IfOk result (λ queue. (Contains self.now
            (record { lapse = lapse; number = number })
            → ⊥)
            → queue ≡ self.now) }
        ensures gone { IfOk result (λ queue. Contains queue
            (record { lapse = lapse; number = number })
            → ⊥) }
        ensures others { IfOk result (λ queue. (other : Lease)
            → other ≢ record { lapse = lapse; number = number }
            → Contains queue other ↔ Contains self.now other) }
    {
        let lease = Lease { lapse, number };
        Ok(LeaseQueue {
            leases: self.leases.take(&lease)?,
            alloc: self.alloc,
        })
    }

    /// Returns a cursor over the leases, in order.
    fn all(&self) -> RangeIter<'_, Lease, ()>
        ensures leases { keys_of result ≡ self.now }
        ensures ascends { IsAscending (keys_of result) }
    {
        self.leases.all()
    }

    /// Returns a cursor over the numbers of the leases that have lapsed at this moment, in order.
    pub fn lapsed(&self, now: Moment) -> LapsedIter<'_>
        ensures { result ≡ lapsed_at now.0 self.now }
    {
        LapsedIter::over(self.all(), now)
    }

    /// Returns how many leases have lapsed at this moment. Goes through those that have.
    pub fn count_lapsed(&self, now: Moment) -> u64
        ensures { result ≡ length (lapsed_at now.0 self.now) }
    {
        let most = self.leases.len();
        self.lapsed(now).count::<Brand>(most, Blank::new(1))
    }

    /// Removes all leases that have lapsed at this moment, in one pass. Counts one step for each of
    /// them, and at most one more. `self` does not change.
    ///
    /// # Errors
    ///
    /// `Starved` if memory runs out.
    pub fn sweep<L: Ledger>(&self, now: Moment, steps: &mut Steps<L>) -> Result<Swept, Starved>
        ensures queue { IfOk result (λ swept. swept.queue ≡ unlapsed_at now.0 self.now) }
        ensures ascends { IfOk result (λ swept. IsAscending swept.queue) }
        ensures numbers { IfOk result (λ swept. swept.numbers.items ≡ lapsed_at now.0 self.now) }
        ensures counted { steps.new ≤ steps.old + (length (lapsed_at now.0 self.now) + 1) }
    {
        let mut queue = self.share()?;
        let mut numbers = Vec::new(self.alloc);
        let mut all = self.all();
        while let Some((lease, _)) = all.step(steps) {
            if !has_lapsed(lease, now) {
                break;
            }
            queue = queue.take(lease.lapse, lease.number)?;
            numbers.push(lease.number)?;
        }
        Ok(Swept { queue, numbers })
    }
}
