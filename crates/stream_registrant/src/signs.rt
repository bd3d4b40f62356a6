//! The signals that a client heeds (RFC 8323 section 5).
ghost use Rattle.std.specs.Prelude.{◌≡◌};
ghost use Rattle.stream_registrant.specs.Answers as spec;

use stream_model::signals::{ABORT, PING, RELEASE};

/// What the code of a message says to a client (RFC 8323 section 5).
#[derive(Clone, Copy, Debug, PartialEq, Eq)]
pub(crate) enum Sign {
    /// The message is a Ping.
    Ping,
    /// The message is a Release.
    Release,
    /// The message is an Abort.
    Abort,
    /// The message is any other.
    Other,
}

/// Returns what a code says.
pub(crate) fn sign_of(code: u8) -> Sign
    ensures { result ≡ spec.sign_of code }
{
    if code == PING {
        return Sign::Ping;
    }
    if code == RELEASE {
        return Sign::Release;
    }
    if code == ABORT {
        return Sign::Abort;
    }
    Sign::Other
}
