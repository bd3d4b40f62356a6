//! What a message of the directory means for a request.
ghost use Rattle.std.specs.Prelude.{◌≡◌, ◌&&◌, Some, None};
ghost use Rattle.std.specs.Prelude.{true, false, IfOk, MatchOption};
ghost use Rattle.std.specs.Prelude.{bytes_eq, if◌then◌else◌};
ghost use Rattle.message_model.specs.Request.{locations_in};
ghost use Rattle.coap_message.specs.Views.{message_in};
ghost use Rattle.client_model.specs.Verdicts as verdicts;
ghost use Rattle.client_model.specs.Sending as sending;
ghost use Rattle.registrant.specs.Hearing.{is_answer_to};

use coap_message::{Kind4, View};
use coap_options::{Meaning, locations, meaning};
use rd_base::{Starved, Text, Texts};
use std::alloc::Global;
use std::str;

/// Returns whether a response has the token of a request and, if it is an acknowledgement, its
/// Message ID (RFC 7252 section 5.3.2).
fn is_matched(view: &View<'_>, token: &[u8], mid: u16) -> bool
    ensures { result
        ≡ (bytes_eq view.now.token.octets.now token.now
        && verdicts.has_mid_of view.now.kind view.now.mid mid) }
{
    if view.token.octets != token {
        return false;
    }
    if view.kind != Kind4::Ack {
        return true;
    }
    view.mid == mid
}

/// Returns what a response means if it answers the request, or `None` if it does not (RFC 7252
/// sections 5.3.2 and 5.4.1).
pub(crate) fn answer_to<'a>(view: &View<'a>, token: &[u8], mid: u16) -> Option<Meaning<'a>>
    ensures { MatchOption result (is_answer_to token.now mid (message_in view.now) ≡ false)
        (λ meaning. (is_answer_to token.now mid (message_in view.now) ≡ true) ×
        (message_in meaning.view ≡ message_in view.now)) }
{
    if !is_matched(view, token, mid) {
        return None;
    }
    match meaning(view) {
        Ok(meaning) => Some(meaning),
        Err(_) => None,
    }
}

/// Returns the path of the location that an answer names (RFC 7252 section 5.10.7), or `None` if it
/// has no segment or a segment is not text.
pub(crate) fn path_of(alloc: Global, meaning: &Meaning<'_>) -> Result<Option<Texts>, Starved>
    ensures { let path = locations_in (message_in meaning.now.view) in
        IfOk result (λ found. found ≡ (if verdicts.is_path path then Some path else None)) }
{
    let mut path = Texts::new(alloc);
    'segments: for octets in locations(meaning) {
        let Ok(segment) = str::from_utf8(octets) else {
            return Ok(None);
        };
        let segment = Text::copy_of(alloc, segment)?;
        path.push(segment)?;
    }
    if path.is_empty() {
        return Ok(None);
    }
    Ok(Some(path))
}

/// Returns the empty acknowledgement of a message, or `None` if the message is not confirmable (RFC
/// 7252 section 4.2).
#[rattlefmt::skip]
#[tactic(
    auto,
    unfolding(
        client_model::specs::Sending::empty_acknowledgement,
        message_model::specs::Spelling::spelling,
        message_model::specs::Spelling::header_spelling,
        message_model::specs::Spelling::options_spelling,
        message_model::specs::Spelling::payload_spelling
    )
)]
pub(crate) fn acknowledgement_of(view: &View<'_>) -> Option<[u8; 4]>
    ensures { result ≡ sending.acknowledgement view.now.kind view.now.mid }
{
    match view.kind {
        Kind4::Con => Some([0x60, 0, (view.mid / 256) as u8, (view.mid % 256) as u8]),
        _ => None,
    }
}
