//! The reasons why a query is not watched.

use rd_base::Starved;
use std::alloc::{AllocError, AllocFailed};

/// The reason why a query is not watched.
#[derive(Clone, Copy, Debug, PartialEq, Eq)]
pub enum WatchFault {
    /// The table is full: 256 other queries are watched, the most there can be.
    FullWatches,
    /// Memory ran out.
    Starved,
}

impl From<Starved> for WatchFault {
    ghost use Rattle.std.specs.Prelude.{◌≡◌};
    ghost use Rattle.watch_table.specs.declared.watch_fault.WatchFault.TheVariants as fault;

    ghost from_gives = { λ _ e. e ≡ fault.Starved };

    /// Returns `Starved`.
    fn from(_: Starved) -> WatchFault {
        WatchFault::Starved
    }
}

impl From<AllocError> for WatchFault {
    ghost use Rattle.std.specs.Prelude.{◌≡◌};
    ghost use Rattle.watch_table.specs.declared.watch_fault.WatchFault.TheVariants as fault;

    ghost from_gives = { λ _ e. e ≡ fault.Starved };

    /// Returns `Starved`.
    fn from(_: AllocError) -> WatchFault {
        WatchFault::Starved
    }
}
