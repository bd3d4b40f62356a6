//! The reading of the message in a datagram.

ghost use Rattle.std.specs.Prelude.{◌≡◌, ◌-◌, ◌≤◌, [], length, take, IfOk, IfSome, OnErr};
ghost use Rattle.std.specs.Option.{option_map};
ghost use Rattle.std.specs.Result.{result_map_both};
ghost use Rattle.message_model.specs.Message.{Message, IsMessage};
ghost use Rattle.message_model.specs.Spelling.{spelling};
ghost use Rattle.message_model.specs.Reading as reading;
ghost use Rattle.coap_message.specs.OptionsAt.{options_at, AreOptionsAlone};
ghost use Rattle.coap_message.specs.Views.{message_in};
ghost use Rattle.coap_message.specs.Headers.{header_in};

use super::headers::{Header, header_at, is_bad_header};
use super::prefixes::{byte_at, bytes_at, option_at};
use super::views::{TokenRef, View};
use message_model::{PAYLOAD_MARKER, Unread};

/// Returns the octets of `whole` before those that it ends with.
fn before_end<'a>(whole: &'a [u8], end: &[u8]) -> &'a [u8]
    requires { length end.now ≤ length whole.now }
    ensures { result.now ≡ take (length whole.now - length end.now) whole.now }
{
    &whole[..whole.len() - end.len()]
}

/// Reads what follows the marker: a payload of at least one octet (RFC 7252 section 3).
fn payload_at(bytes: &[u8]) -> Option<&[u8]>
    ensures { option_map (λ payload. ([], payload.now)) result ≡ reading.payload_at bytes.now }
{
    if bytes.is_empty() {
        return None;
    }
    Some(bytes)
}

/// Returns the octets of the options that follow a token, and the payload (RFC 7252 section 3).
///
/// Returns `None` if an option is cut off, begins with a nibble of 15, or has a number above
/// 65,535, or if nothing follows the marker.
pub fn tail_at(bytes: &[u8]) -> Option<(&[u8], &[u8])>
    ensures parts { option_map (λ x. (options_at 0 x.0.now, x.1.now)) result
        ≡ reading.tail_at 0 bytes.now }
    ensures alone { IfSome result (λ x. AreOptionsAlone x.0.now) }
{
    let mut before = 0u16;
    let mut rest = bytes;
    'options: while let Some((first, following)) = byte_at(rest) {
        if first == PAYLOAD_MARKER {
            let payload = payload_at(following)?;
            return Some((before_end(bytes, rest), payload));
        }
        let (option, after) = option_at(before, rest)?;
        before = option.number as u16;
        rest = after;
    }
    Some((bytes, rest))
}

/// Reads the message that a header and the octets after it spell (RFC 7252 sections 3 and 4.1).
#[tactic(auto, unfolding(message_model::specs::Reading::body_at))]
fn body_at<'a>(header: &Header, bytes: &'a [u8]) -> Option<View<'a>>
    ensures message { option_map message_in result
        ≡ reading.body_at (header_in header.now) bytes.now }
    ensures options { IfSome result (λ v. AreOptionsAlone v.options.now) }
{
    if is_bad_header(header, bytes) {
        return None;
    }
    let (octets, rest) = bytes_at(header.token_length as usize, bytes)?;
    let (options, payload) = tail_at(rest)?;
    Some(View {
        kind: header.kind,
        code: header.code,
        mid: header.mid,
        token: TokenRef { octets },
        options,
        payload,
    })
}

/// Returns the message in a datagram, which it borrows (RFC 7252 section 3).
///
/// # Errors
///
/// - `Short` if the datagram has fewer than four octets.
/// - `Version` if its version is not 1.
/// - `Format`, with the type and the Message ID, if it has a format error.
///
/// A format error is one of these (RFC 7252 sections 3, 3.1, 4.1 and 4.2):
///
/// - the class of the code is reserved, or the code is 0.00 and there is more than a header;
/// - the token is longer than eight octets or cut off;
/// - an option is cut off, begins with a nibble of 15, or has a number above 65,535;
/// - nothing follows the marker.
#[tactic(auto, unfolding(message_model::specs::Reading::reading))]
pub fn view(datagram: &[u8]) -> Result<View<'_>, Unread>
    ensures message { result_map_both message_in (λ fault. fault) result
        ≡ reading.reading datagram.now }
    ensures sound { IfOk result (λ v. IsMessage (message_in v)) }
    ensures spelled { IfOk result (λ v. spelling (message_in v) ≡ datagram.now) }
    ensures options { IfOk result (λ v. AreOptionsAlone v.options.now) }
    ensures unread { OnErr result ((m : Message) → IsMessage m → spelling m ≡ datagram.now → ⊥) }
{
    let (header, rest) = header_at(datagram)?;
    match body_at(&header, rest) {
        Some(view) => Ok(view),
        None => Err(Unread::Format(header.kind, header.mid)),
    }
}
