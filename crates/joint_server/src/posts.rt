//! Workers of a server over UDP and TCP.
ghost use Rattle.std.specs.Prelude.{◌≡◌, None, Err};
ghost use Rattle.rd_server.specs.declared.serving.served.ServeFault.TheVariants as fault;

use crate::attended::Attended;
use rd_seat::Seat;
use rd_server::{End, ServeFault};

/// The resources of a worker that accepts connections: a door and a clock. The server gives it a
/// seat, and leaves the seat and the result of the service here.
#[derive(Drop)]
pub struct Stand<E, C> {
    /// The door at which it accepts connections.
    pub door: E,
    /// The clock that gives its moments and random words.
    pub clock: C,
    /// The seat by which it was served, or `None` if it was not served.
    pub seat: Option<Seat>,
    /// The result of its service: `Memory` if it was not served.
    pub outcome: Result<Attended, ServeFault>,
}

impl<E, C> Stand<E, C> {
    /// Creates a stand that has not been served.
    pub fn of(door: E, clock: C) -> Stand<E, C>
        ensures door { result.door ≡ door }
        ensures clock { result.clock ≡ clock }
        ensures seat { result.seat ≡ None }
        ensures outcome { result.outcome ≡ Err fault.Memory }
    {
        Stand {
            door,
            clock,
            seat: None,
            outcome: Err(ServeFault::Memory),
        }
    }
}

/// The resources of one worker of a server.
#[derive(Drop)]
pub enum Post<L, E, C> {
    /// A link over which it serves datagrams.
    Udp(End<L, C>),
    /// A door at which it accepts connections.
    Tcp(Stand<E, C>),
}
