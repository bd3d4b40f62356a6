//! The verdict on octets that may become a message.
ghost use Rattle.std.specs.Prelude.{◌≡◌, ◌<◌, ◌≤◌, ◌+◌, ◌^◌, length};
ghost use Rattle.stream_model.specs.Judging as judging;

use crate::tails::message_fault;
use message_model::MAX_TOKEN;
use stream_model::{
    FIRST_EXTENDED, FIRST_LONG, FIRST_LONGEST, Judged, MAX_STREAM_MESSAGE, StreamBad,
};

/// Returns how many octets extend a nibble (RFC 8323 section 3.2).
#[tactic(auto, unfolding(stream_model::specs::Judging::extension_size))]
pub(crate) fn extension_size(nibble: u8) -> usize
    ensures value { result ≡ judging.extension_size nibble }
    ensures few { result ≤ 4 }
{
    if nibble < 13 {
        return 0;
    }
    if nibble == 13 {
        return 1;
    }
    if nibble == 14 {
        return 2;
    }
    4
}

/// Returns the length that a nibble and the octets that extend it encode (RFC 8323 section 3.2).
#[tactic(auto, unfolding(stream_model::specs::Judging::length_said))]
pub(crate) fn length_said(nibble: u8, extension: &[u8]) -> usize
    ensures value { result ≡ judging.length_said nibble extension.now }
    ensures most { result < 2 ^ 33 }
{
    match extension {
        [] => usize::from(nibble),
        [a] => FIRST_EXTENDED + usize::from(*a),
        [a, b] => FIRST_LONG + (usize::from(*a) * 256 + usize::from(*b)),
        [_, _, _] => usize::from(nibble),
        [a, b, c, d] => {
            FIRST_LONGEST
                + (((usize::from(*a) * 256 + usize::from(*b)) * 256 + usize::from(*c)) * 256
                    + usize::from(*d))
        }
        _ => usize::from(nibble),
    }
}

/// Judges the octets after the lengths: the code, the token and the tail.
fn judge_body(is_first: bool, token: usize, octets: &[u8]) -> Judged
    requires { token < length octets.now }
    ensures { result ≡ judging.judge_body is_first token octets.now }
{
    let [code, rest @ ..] = octets else {
        return Judged::More;
    };
    match message_fault(is_first, *code, &rest[token..]) {
        None => Judged::Whole,
        Some(why) => Judged::Bad(why),
    }
}

/// Judges the octets after the first one, by the lengths.
fn judge_lengths(
    is_first: bool,
    extension: usize,
    token: usize,
    size: usize,
    octets: &[u8],
) -> Judged
    requires extension { extension ≤ 4 }
    requires token { token < 16 }
    requires size { size < 2 ^ 33 }
    ensures { result ≡ judging.judge_lengths is_first extension token size octets.now }
{
    if token > MAX_TOKEN {
        return Judged::Bad(StreamBad::Format);
    }
    let rest = extension + token + size;
    if rest + 2 > MAX_STREAM_MESSAGE {
        return Judged::Bad(StreamBad::Size);
    }
    if octets.len() < rest + 1 {
        return Judged::More;
    }
    judge_body(is_first, token, &octets[extension..])
}

/// Judges the octets after the first one, by its nibbles.
fn judge_after(is_first: bool, nibble: u8, token: u8, octets: &[u8]) -> Judged
    requires { token < 16 }
    ensures { result ≡ judging.judge_after is_first nibble token octets.now }
{
    let extension = extension_size(nibble);
    if octets.len() < extension {
        return Judged::More;
    }
    let size = length_said(nibble, &octets[..extension]);
    judge_lengths(is_first, extension, token as usize, size, octets)
}

/// Judges octets none of whose proper prefixes is a message or a bad one (RFC 8323 section 3.2).
#[tactic(auto, unfolding(stream_model::specs::Judging::judge))]
pub(crate) fn judge(is_first: bool, octets: &[u8]) -> Judged
    ensures { result ≡ judging.judge is_first octets.now }
{
    let [first, rest @ ..] = octets else {
        return Judged::More;
    };
    judge_after(is_first, *first / 16, *first % 16, rest)
}
