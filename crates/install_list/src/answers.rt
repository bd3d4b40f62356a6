//! The contents of a refusal: a challenge, the time until the next attempt, or a reason.
ghost use Rattle.std.specs.Prelude.{◌≤◌};

use coap_message::{View, options_of, view};
use message_model::codes::{SERVICE_UNAVAILABLE, UNAUTHORIZED};
use message_model::options::ECHO;
use rd_base::{Bytes, Starved};
use std::alloc::Global;

/// The code 4.29, Too Many Requests (RFC 8516).
const TOO_MANY_REQUESTS: u8 = (4 << 5) | 29;

/// The number of the option Max-Age (RFC 7252 section 5.10.5).
const MAX_AGE: u32 = 14;

/// The Max-Age of an answer without this option, in seconds (RFC 7252 section 5.10.5).
const DEFAULT_AGE: u64 = 60;

/// The maximum time until a request is repeated, in seconds.
const LONGEST_AGE: u64 = 3_600;

/// The maximum number of octets of a reason.
const MAX_REASON: usize = 64;

/// What an answer that is no success contains.
#[derive(Debug, Drop)]
pub(crate) enum Answer {
    /// The request is to be repeated with this Echo value (RFC 9175 section 2.3).
    Challenge(Bytes),
    /// The request is to be repeated after this many milliseconds (RFC 7252 section 5.9.3.4, RFC
    /// 8516).
    Later(u64),
    /// The request is refused, for this reason.
    Refused(Bytes),
}

/// Returns the value of the first option with this number.
fn value_of<'a>(view: &View<'a>, number: u32) -> Option<&'a [u8]> {
    let mut options = options_of(view);
    'options: while let Some(option) = options.next() {
        if option.number == number {
            return Some(option.value);
        }
    }
    None
}

/// Returns the number that octets encode in network byte order (RFC 7252 section 3.2), at most
/// 3,600.
fn age_of(octets: &[u8]) -> u64
    ensures { result ≤ 3600 }
{
    let mut age = 0;
    'octets: for octet in octets {
        age = (age * 256 + u64::from(*octet)).min(LONGEST_AGE);
    }
    age
}

/// Returns the time until the request is to be repeated, in milliseconds.
fn later_of(view: &View<'_>) -> u64 {
    match value_of(view, MAX_AGE) {
        Some(octets) => age_of(octets) * 1_000,
        None => DEFAULT_AGE * 1_000,
    }
}

/// Returns whether an octet is a printable character of ASCII.
fn is_shown(octet: u8) -> bool {
    (32..127).contains(&octet)
}

/// Returns a prefix of a diagnostic payload (RFC 7252 section 5.5.2): at most 64 octets, up to the
/// first that is not printable.
fn reason_of(alloc: Global, payload: &[u8]) -> Result<Bytes, Starved> {
    let mut reason = Bytes::new(alloc);
    'octets: for octet in payload {
        if !is_shown(*octet) || reason.len() >= MAX_REASON {
            return Ok(reason);
        }
        reason.push(*octet)?;
    }
    Ok(reason)
}

/// Returns what the answer in a datagram, which is no success, contains.
///
/// # Errors
///
/// `Starved` if memory runs out.
pub(crate) fn answer_in(alloc: Global, code: u8, datagram: &[u8]) -> Result<Answer, Starved> {
    let Ok(view) = view(datagram) else {
        return Ok(Answer::Refused(Bytes::new(alloc)));
    };
    if code == UNAUTHORIZED {
        if let Some(echo) = value_of(&view, ECHO) {
            return Ok(Answer::Challenge(Bytes::copy_of(alloc, echo)?));
        }
    }
    if code == SERVICE_UNAVAILABLE || code == TOO_MANY_REQUESTS {
        return Ok(Answer::Later(later_of(&view)));
    }
    Ok(Answer::Refused(reason_of(alloc, view.payload)?))
}
