//! Challenges of a recording: the random words from which the server made them (RFC 9175 section
//! 2.2).

use coap_message::{View, options_of, view};
use message_model::codes::{LAST_REQUEST, POST, UNAUTHORIZED};
use message_model::options::ECHO;

/// Returns the word of a challenge, the first four octets of its value of eight.
fn word_in(value: &[u8]) -> Option<u32> {
    match value {
        [a, b, c, d, _, _, _, _] => Some(u32::from_be_bytes([*a, *b, *c, *d])),
        _ => None,
    }
}

/// Returns the word of the challenge in an answer, or 0 if the answer is not a challenge.
pub(crate) fn word_of(answer: &View<'_>) -> u32 {
    if answer.code != UNAUTHORIZED {
        return 0;
    }
    let Some(challenge) = options_of(answer).find(|option| option.number == ECHO) else {
        return 0;
    };
    word_in(challenge.value).unwrap_or(0)
}

/// Returns the message of a datagram if it is a response by its code (RFC 7252 section 3).
pub(crate) fn response(payload: &[u8]) -> Option<View<'_>> {
    match view(payload) {
        Ok(view) if view.code > LAST_REQUEST => Some(view),
        _ => None,
    }
}

/// Returns the message of a datagram if it is a request that can be challenged: a POST.
pub(crate) fn challengeable(payload: &[u8]) -> Option<View<'_>> {
    match view(payload) {
        Ok(view) if view.code == POST => Some(view),
        _ => None,
    }
}
