//! The names of types and roles, and codes.
ghost use Rattle.std.specs.Prelude.{◌≡◌};
ghost use Rattle.message_model.specs.Codes as codes_of;

use coap_message::{Kind4, Role};
use vector_words::Line;

/// Returns the name of a type (RFC 7252 section 1.2).
pub(crate) fn kind_name(kind: Kind4) -> &'static str {
    match kind {
        Kind4::Con => "CON",
        Kind4::Non => "NON",
        Kind4::Ack => "ACK",
        Kind4::Rst => "RST",
    }
}

/// Returns the type with a name.
pub(crate) fn kind_of(name: &str) -> Option<Kind4> {
    match name {
        "CON" => Some(Kind4::Con),
        "NON" => Some(Kind4::Non),
        "ACK" => Some(Kind4::Ack),
        "RST" => Some(Kind4::Rst),
        _ => None,
    }
}

/// Returns the name of the purpose of a message.
pub(crate) fn role_name(role: Role) -> &'static str {
    match role {
        Role::Ping => "ping",
        Role::Acknowledgement => "acknowledgement",
        Role::Reset => "reset",
        Role::Request => "request",
        Role::Response => "response",
        Role::Ignored => "ignored",
    }
}

/// Reads a code that is written as its class and its detail, such as 2.05.
pub(crate) fn code_of(line: &mut Line<'_>) -> u8 {
    let word = line.word();
    let (class, detail) = word.split_once('.').unwrap_or((word, ""));
    let class = line.number_in(class, 7);
    let detail = line.number_in(detail, 31);
    (class * 32 + detail) as u8
}

/// Returns whether the class of a code is reserved (RFC 7252 section 3).
pub(crate) fn is_reserved(code: u8) -> bool
    ensures { result ≡ codes_of.is_reserved code }
{
    let class = code / 32;
    class == 1 || class == 6 || class == 7
}
