//! A network, as a prefix of its addresses.
ghost use Rattle.std.specs.Prelude.{◌≡◌};
ghost use Rattle.hosting.specs.Widths as spec;

use rd_base::Host;

/// A network (RFC 4632 section 3.1, RFC 4291 section 2.3): the addresses whose first `bits` bits
/// are those of `host`.
#[derive(Clone, Copy, Debug, PartialEq, Eq)]
pub struct Network {
    /// The address.
    pub host: Host,
    /// How many of its bits count, at most 32 or 128.
    pub bits: u8,
}

/// Returns how many bits an address has.
pub(crate) fn width_of(host: Host) -> u8
    ensures { result ≡ spec.width_of host }
{
    match host {
        Host::V4(_) => 32,
        Host::V6(_) => 128,
    }
}
