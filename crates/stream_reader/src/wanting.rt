//! How many octets may be taken before a message has to be judged again.
ghost use Rattle.std.specs.Prelude.{◌≡◌, ◌<◌, ◌≤◌, ◌+◌};
ghost use Rattle.std.specs.Prelude.{◌^◌, Bool, length, take};
ghost use Rattle.stream_reader.specs.Wanting as wanting;
ghost use Rattle.stream_model.specs.Judging.{FrontsMore};

use crate::judging::{extension_size, length_said};
use message_model::MAX_TOKEN;
use stream_model::{Judged, MAX_STREAM_MESSAGE};

/// Returns how many octets a message that begins with these octets has at least: up to the end of
/// its lengths, and then all (RFC 8323 section 3.2).
#[tactic(auto, unfolding(crate::specs::Wanting::wanted_of))]
pub(crate) fn wanted_of(octets: &[u8]) -> usize
    ensures { result ≡ wanting.wanted_of octets.now }
{
    let [first, rest @ ..] = octets else {
        return 1;
    };
    let extension = extension_size(*first / 16);
    if rest.len() < extension {
        return extension + 1;
    }
    let size = length_said(*first / 16, &rest[..extension]);
    extension + (*first % 16) as usize + size + 2
}

/// Returns how many octets are wanted of a message that was judged: none if it is whole or bad.
pub(crate) fn wanted_by(judged: Judged, octets: &[u8]) -> usize
    ensures { result ≡ wanting.wanted_by judged octets.now }
{
    match judged {
        Judged::More => wanted_of(octets),
        Judged::Whole => 0,
        Judged::Bad(_) => 0,
    }
}

/// Returns whether the token in octets that begin a message is no longer than a token may be.
fn has_short_token(octets: &[u8]) -> bool
    ensures { result ≡ wanting.has_short_token octets.now }
{
    let [first, ..] = octets else {
        return false;
    };
    (*first % 16) as usize <= MAX_TOKEN
}

/// Returns how many octets of a piece that begins a message may be taken at once. These are all of
/// the message if they are there, and otherwise the first.
pub(crate) fn leap(piece: &[u8]) -> usize
    requires { 0 < length piece.now }
    ensures some { 0 < result }
    ensures within { result ≤ length piece.now }
    ensures most { result ≤ 1152 }
    ensures fronts { (is_first : Bool) → FrontsMore is_first (take result piece.now) }
{
    let wanted = wanted_of(piece);
    if wanted > MAX_STREAM_MESSAGE {
        return 1;
    }
    if wanted > piece.len() {
        return 1;
    }
    if !has_short_token(piece) {
        return 1;
    }
    wanted
}
