//! What a message that a server sends reports as done.
ghost use Rattle.std.specs.Prelude.{◌≡◌};
ghost use Rattle.message_model.specs.Reading as reading;
ghost use Rattle.hosting.specs.Deeds as spec;

use coap_message::Kind4;
use message_model::codes::{BAD_REQUEST, CHANGED, CONTENT, CREATED, DELETED, VALID};

/// What a message reports as done.
#[derive(Clone, Copy, Debug, PartialEq, Eq)]
pub(crate) enum Deed {
    /// A registration was made (2.01).
    Registered,
    /// A registration was changed or refreshed (2.04).
    Updated,
    /// A registration was removed (2.02).
    Removed,
    /// A lookup or a read was answered (2.05, 2.03).
    Found,
    /// An observer was sent a confirmable notification (RFC 7641 section 4.5).
    Notified,
    /// A request was refused (4.00 and above).
    Refused,
    /// Anything else.
    Other,
}

/// Returns what a message with content reports as done.
fn found_by(kind: Kind4) -> Deed
    ensures { result ≡ spec.found_by kind }
{
    match kind {
        Kind4::Con => Deed::Notified,
        Kind4::Non | Kind4::Ack => Deed::Found,
        Kind4::Rst => Deed::Other,
    }
}

/// Returns what a message of this type and code reports as done.
fn deed_by(kind: Kind4, code: u8) -> Deed
    ensures { result ≡ spec.deed_by kind code }
{
    match code {
        CREATED => Deed::Registered,
        CHANGED => Deed::Updated,
        DELETED => Deed::Removed,
        VALID => Deed::Found,
        CONTENT => found_by(kind),
        _ if BAD_REQUEST <= code => Deed::Refused,
        _ => Deed::Other,
    }
}

/// Returns the type that these two bits of a message are (RFC 7252 section 3).
fn kind_of(bits: u8) -> Kind4
    ensures { result ≡ reading.kind_of bits }
{
    match bits {
        0 => Kind4::Con,
        1 => Kind4::Non,
        2 => Kind4::Ack,
        _ => Kind4::Rst,
    }
}

/// Returns what a message reports as done, by its first two octets. No message has fewer.
pub(crate) fn deed_in(octets: &[u8]) -> Option<Deed>
    ensures { result ≡ spec.deed_in octets.now }
{
    match octets {
        [first, code, ..] => Some(deed_by(kind_of(*first / 16 % 4), *code)),
        _ => None,
    }
}
