//! The datagrams that are measured.
ghost use Rattle.std.specs.Prelude.{◌≡◌, true, false};
ghost use Rattle.journal_model.specs.Machine.{is_look_datagram};

use bench_rows::Trouble;
use rd_base::{Host, Peer};
use rd_desk::is_look;

/// The number of calls in a round.
pub const CALLS: u64 = 20_000;

/// The number of lookups that each seat makes in a round. It is so great that the system spreads
/// the threads of the seats over its processors long before the round ends.
pub const LOOKUPS: u64 = 200_000;

/// The peer that sends.
pub const PEER: Peer = Peer {
    host: Host::V4([192, 0, 2, 10]),
    port: 5683,
};

/// The registration of `node` with one link (RFC 9176 section 5).
const REGISTRATION: &[u8] = b"\x41\x02\x00\x01\xa1\xb2rd\x47ep=node\xff</light>;rt=\"light-lux\"";

/// A lookup of that link (RFC 9176 section 6.2).
pub const LOOKUP: &[u8] = b"\x41\x01\x00\x02\xb2\xb9rd-lookup\x03res\x4crt=light-lux";

/// A ping (RFC 7252 section 4.3).
const PING: &[u8] = b"\x40\x00\x00\x03";

/// A look.
#[derive(Drop)]
pub struct Look {
    /// Its datagram.
    pub datagram: &'static [u8],
    ghost look: { is_look_datagram datagram.now ≡ true },
}

/// A datagram that is not a look.
#[derive(Drop)]
pub struct Other {
    /// The datagram.
    pub datagram: &'static [u8],
    ghost other: { is_look_datagram datagram.now ≡ false },
}

impl Look {
    /// Returns the lookup.
    ///
    /// # Errors
    ///
    /// `Outside` if it is not a look.
    pub fn lookup() -> Result<Look, Trouble> {
        if is_look(LOOKUP) {
            return Ok(Look { datagram: LOOKUP });
        }
        Err(Trouble::Outside)
    }
}

impl Other {
    /// Returns a datagram that is not a look.
    fn of(datagram: &'static [u8]) -> Result<Other, Trouble> {
        if is_look(datagram) {
            return Err(Trouble::Outside);
        }
        Ok(Other { datagram })
    }

    /// Returns the registration.
    ///
    /// # Errors
    ///
    /// `Outside` if it is a look.
    pub fn registration() -> Result<Other, Trouble> {
        Other::of(REGISTRATION)
    }

    /// Returns the ping.
    ///
    /// # Errors
    ///
    /// `Outside` if it is a look.
    pub fn ping() -> Result<Other, Trouble> {
        Other::of(PING)
    }
}
