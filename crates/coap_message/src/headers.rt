//! The header: the four octets that each message begins with (RFC 7252 section 3).

ghost use Rattle.std.specs.Prelude.{◌≡◌};
ghost use Rattle.std.specs.Result.{result_map_both};
ghost use Rattle.message_model.specs.Codes as codes_of;
ghost use Rattle.message_model.specs.Reading as reading;
ghost use Rattle.coap_message.specs.Headers.{header_in};

use message_model::codes::EMPTY;
use message_model::{Kind4, Unread};

/// The parts of a header.
#[derive(Clone, Copy)]
pub(crate) struct Header {
    pub kind: Kind4,
    pub token_length: u8,
    pub code: u8,
    pub mid: u16,
}

/// Returns the type with these two bits (RFC 7252 section 3).
fn kind_of(bits: u8) -> Kind4
    ensures { result ≡ reading.kind_of bits }
{
    match bits {
        0 => Kind4::Con,
        1 => Kind4::Non,
        2 => Kind4::Ack,
        _ => Kind4::Rst,
    }
}

/// Reads the header, and returns it with the octets after it (RFC 7252 section 3).
#[tactic(auto, unfolding(message_model::specs::Reading::header_at))]
pub(crate) fn header_at(bytes: &[u8]) -> Result<(Header, &[u8]), Unread>
    ensures { result_map_both (λ x. (header_in x.0, x.1.now)) (λ fault. fault) result
        ≡ reading.header_at bytes.now }
{
    match bytes {
        [first, code, high, low, rest @ ..] => {
            if *first / 64 != 1 {
                return Err(Unread::Version);
            }
            let header = Header {
                kind: kind_of(*first / 16 % 4),
                token_length: *first % 16,
                code: *code,
                mid: u16::from(*high) * 256 + u16::from(*low),
            };
            Ok((header, rest))
        }
        _ => Err(Unread::Short),
    }
}

/// Returns whether a code is of class 1, 6 or 7, which are reserved (RFC 7252 section 3).
fn is_reserved(code: u8) -> bool
    ensures { result ≡ codes_of.is_reserved code }
{
    let class = code / 32;
    class == 1 || class == 6 || class == 7
}

/// Returns whether there is more than a header: a token, or octets after the header (RFC 7252
/// section 4.1).
fn is_filled(header: &Header, bytes: &[u8]) -> bool
    ensures { result ≡ reading.is_filled (header_in header.now) bytes.now }
{
    !(header.token_length == 0 && bytes.len() == 0)
}

/// Returns whether no message has this header: the class is reserved, the token has nine octets or
/// more, or more than a header has the code 0.00 (RFC 7252 sections 3 and 4.1).
pub(crate) fn is_bad_header(header: &Header, bytes: &[u8]) -> bool
    ensures { result ≡ reading.is_bad_header (header_in header.now) bytes.now }
{
    is_reserved(header.code)
        || header.token_length > 8
        || (header.code == EMPTY && is_filled(header, bytes))
}
