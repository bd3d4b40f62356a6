//! The reasons for which a fetch does not start.
use rd_base::{Peer, Starved};

/// The reason for which a fetch does not start (RFC 9176 section 5.1).
#[derive(Debug, Drop, PartialEq, Eq)]
pub enum StartFault {
    /// A fetch of this peer is in progress.
    Fetching(Peer),
    /// The most fetches allowed, 64, are in progress.
    FullFetches,
    /// Memory ran out.
    Starved,
}

impl From<Starved> for StartFault {
    ghost use Rattle.std.specs.Prelude.{◌≡◌};
    ghost use Rattle.simple_registration.specs.declared.starts.StartFault.TheVariants as fault;

    ghost from_gives = { λ _ given. given ≡ fault.Starved };

    fn from(_: Starved) -> StartFault {
        StartFault::Starved
    }
}
