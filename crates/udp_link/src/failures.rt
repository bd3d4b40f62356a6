//! Planned failures of calls, and the count of faults.
ghost use Rattle.std.specs.Prelude.{◌≡◌, ◌≤◌};
ghost use Rattle.rd_base.specs.Outside.{Rose};
ghost use Rattle.udp_link.specs.Plans.{is_planned, Advanced};

use rd_base::Bytes;

/// The calls that are planned to fail: a counter of calls, and the numbers, from 0, of those that
/// do.
#[derive(Debug, Drop)]
pub(crate) struct Plan {
    calls: u64,
    fail: Bytes,
}

impl Plan {
    /// Returns a plan before the first call.
    pub(crate) fn of(fail: Bytes) -> Plan
        ensures { result ≡ record { calls = 0; fail = fail } }
    {
        Plan { calls: 0, fail }
    }

    /// Counts a call, and returns whether it is one of those that fail.
    pub(crate) fn fails_now(&mut self) -> bool
        ensures value { result ≡ is_planned self.old }
        ensures advanced { Advanced self.old self.new }
    {
        let call = self.calls;
        self.calls = call.saturating_add(1);
        self.fail.as_slice().iter().any(|n| u64::from(*n) == call)
    }
}

/// Returns a count of faults after one more. It stays at 2^64 - 1 once it has reached that.
pub(crate) fn raised(faults: u64) -> u64
    ensures kept { faults ≤ result }
    ensures rose { Rose faults result }
{
    faults.saturating_add(1)
}
