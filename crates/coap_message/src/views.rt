//! The view of a message.

ghost use Rattle.std.specs.Prelude.{◌≤◌, length};
ghost use Rattle.message_model.specs.Message.{longest_token};

use message_model::Kind4;

/// A token, of at most eight octets (RFC 7252 section 3).
#[derive(Clone, Copy, Debug)]
pub struct TokenRef<'a> {
    /// The octets.
    pub octets: &'a [u8],
    pub ghost short: { length octets.now ≤ longest_token },
}

/// A message in a datagram: its type, code and Message ID, and the octets of its other parts (RFC
/// 7252 section 3).
#[derive(Clone, Copy, Debug)]
pub struct View<'a> {
    /// The type.
    pub kind: Kind4,
    /// The code: class and detail in one octet.
    pub code: u8,
    /// The Message ID.
    pub mid: u16,
    /// The token.
    pub token: TokenRef<'a>,
    /// The options as they are spelled, which [`options_of`](crate::options_of) reads.
    pub options: &'a [u8],
    /// The payload, which may be empty.
    pub payload: &'a [u8],
}
