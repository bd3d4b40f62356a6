//! The beginning of a message, and which messages can make a server send a request.

use coap_message::{Kind4, View, options_of, view};
use message_model::codes::{EMPTY, LAST_REQUEST, POST};
use message_model::options::{BLOCK2, ETAG, URI_PATH};

/// The first segment of the path of a simple registration (RFC 9176 section 5.1).
const WELL_KNOWN: &[u8] = b".well-known";

/// The bit of a block option that is set if more blocks follow (RFC 7959 section 2.2).
const MORE: u8 = 8;

/// The beginning of a message, whatever follows it (RFC 7252 section 3).
#[derive(Clone, Copy, Debug)]
pub(crate) struct Head<'a> {
    /// Its type.
    pub kind: Kind4,
    /// Its code.
    pub code: u8,
    /// Its Message ID.
    pub mid: u16,
    /// Its token, as far as its octets exist.
    pub token: &'a [u8],
}

impl Head<'_> {
    /// Returns whether it is a request by its code.
    pub(crate) fn is_request(&self) -> bool {
        self.code > EMPTY && self.code <= LAST_REQUEST
    }

    /// Returns whether it is a response by its code.
    pub(crate) fn is_response(&self) -> bool {
        self.code > LAST_REQUEST
    }
}

/// Returns the type in the first octet of a message.
fn kind_of(first: u8) -> Kind4 {
    match first / 16 % 4 {
        0 => Kind4::Con,
        1 => Kind4::Non,
        2 => Kind4::Ack,
        _ => Kind4::Rst,
    }
}

/// Returns the beginning of a message in a datagram, or `None` if the datagram is too short or of
/// another version.
pub(crate) fn head_of(payload: &[u8]) -> Option<Head<'_>> {
    let [first, code, high, low, rest @ ..] = payload else {
        return None;
    };
    if *first / 64 != 1 {
        return None;
    }
    let length = usize::from(*first % 16).min(rest.len());
    Some(Head {
        kind: kind_of(*first),
        code: *code,
        mid: u16::from_be_bytes([*high, *low]),
        token: &rest[..length],
    })
}

/// Returns whether a message has a path segment of a simple registration.
fn is_well_known(message: &View<'_>) -> bool {
    options_of(message).any(|option| option.number == URI_PATH && option.value == WELL_KNOWN)
}

/// Returns whether more blocks follow that of a response.
fn has_more(response: &View<'_>) -> bool {
    let Some(block) = options_of(response).find(|option| option.number == BLOCK2) else {
        return false;
    };
    match block.value.last() {
        Some(octet) => *octet & MORE != 0,
        None => false,
    }
}

/// Returns the entity tag of a message if it has one of eight octets, as this server's have.
pub(crate) fn tag_of(payload: &[u8]) -> Option<[u8; 8]> {
    let message = view(payload).ok()?;
    let tag = options_of(&message).find(|option| option.number == ETAG)?;
    match tag.value {
        [a, b, c, d, e, f, g, h] => Some([*a, *b, *c, *d, *e, *f, *g, *h]),
        _ => None,
    }
}

/// Returns whether a datagram can make the server request links from its peer: a simple
/// registration, or a response that more blocks follow (RFC 9176 section 5.1, RFC 7959 section
/// 2.4).
pub(crate) fn may_ask(payload: &[u8]) -> bool {
    match view(payload) {
        Ok(message) if message.code == POST => is_well_known(&message),
        Ok(message) => message.code > LAST_REQUEST && has_more(&message),
        Err(_) => false,
    }
}
