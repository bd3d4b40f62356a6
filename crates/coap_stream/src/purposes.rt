//! The purpose of a message of a connection.
ghost use Rattle.std.specs.Prelude.{◌≡◌};
ghost use Rattle.coap_stream.specs.Requests as spec;

use message_model::codes::{EMPTY, LAST_REQUEST};
use stream_model::signals::{ABORT, PING, RELEASE};

/// The purpose of a message of a connection, by its code (RFC 8323 sections 3.4 and 5).
#[derive(Clone, Copy, Debug, PartialEq, Eq)]
pub enum Meant {
    /// It needs no response: it is a CSM, a Pong, an empty message, or a response.
    Passed,
    /// It is a Ping, which is answered by a Pong with its token (RFC 8323 section 5.4).
    Ping,
    /// It is a Release, which ends the connection (RFC 8323 section 5.5).
    Release,
    /// It is an Abort, which ends the connection (RFC 8323 section 5.6).
    Abort,
    /// It is a request (RFC 7252 section 12.1.1).
    Request,
}

/// Returns the purpose of a message with this code, if it is not a bad message (RFC 8323 sections
/// 3.4 and 5).
pub fn meant_by(code: u8) -> Meant
    ensures { result ≡ spec.meant_by code }
{
    if code == PING {
        return Meant::Ping;
    }
    if code == RELEASE {
        return Meant::Release;
    }
    if code == ABORT {
        return Meant::Abort;
    }
    if EMPTY < code && code <= LAST_REQUEST {
        return Meant::Request;
    }
    Meant::Passed
}
