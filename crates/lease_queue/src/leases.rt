//! Leases and their order.
ghost use Rattle.std.specs.Prelude.{◌≡◌, IfOk};
ghost use Rattle.lease_queue.specs.Leases as order;

use chunk_map::Shared;
use rd_base::{Moment, Starved};

/// A lease: the moment at which it lapses, and the number of its registration. Leases are in the
/// order of their lapse. Those that lapse at the same moment are in the order of their numbers.
#[derive(Clone, Copy, Debug, PartialEq, Eq, PartialOrd, Ord)]
pub struct Lease {
    /// The moment at which it lapses, in milliseconds.
    pub lapse: Moment,
    /// The number of the registration.
    pub number: u64,
}

/// A lease is two numbers: sharing it copies them.
impl Shared for Lease {
    fn share(&self) -> Result<Lease, Starved> {
        Ok(*self)
    }

    fn is_plain() -> bool {
        true
    }
}

/// Returns whether the lease has lapsed at this moment, which may be that of its lapse.
pub(crate) fn has_lapsed(lease: &Lease, now: Moment) -> bool
    ensures { result ≡ order.has_lapsed now.0 lease.now }
{
    lease.lapse <= now
}
