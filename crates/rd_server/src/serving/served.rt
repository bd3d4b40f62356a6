//! What a worker counts, and why it does not serve to the end.
ghost use Rattle.std.specs.Prelude.{◌≡◌};
ghost use Rattle.rd_desk.specs.calls.Stepping.{is_starved_step};
ghost use Rattle.rd_seat.specs.Heard.{is_starved_hearing};

use rd_desk::Stepped;
use rd_seat::SeatHeard;

/// What a worker served.
#[derive(Clone, Copy, Debug, PartialEq, Eq, Default)]
pub struct Served {
    /// The number of datagrams that were received and handled.
    pub heard: u64,
    /// The number of datagrams that were sent.
    pub sent: u64,
    /// The number of datagrams that were lost because their send failed.
    pub lost: u64,
    /// The number of received datagrams that were too long to be handled.
    pub too_long: u64,
    /// The number of calls of the seat that ran out of memory.
    pub starved: u64,
}

/// Why a worker does not serve to the end.
#[derive(Clone, Copy, Debug, PartialEq, Eq)]
pub enum ServeFault {
    /// A receive failed.
    Link,
    /// Memory ran out before the first receive.
    Memory,
}

/// Returns whether a step ran out of memory.
pub(crate) fn is_starved(stepped: Stepped) -> bool
    ensures { result ≡ is_starved_step stepped }
{
    stepped == Stepped::Starved
}

/// Returns whether memory ran out while a datagram was handled.
pub(crate) fn is_starved_hearing(heard: &SeatHeard) -> bool
    ensures { result ≡ is_starved_hearing heard.now }
{
    matches!(heard, SeatHeard::Starved)
}
