//! The rules of the form of a message that octets break.
ghost use Rattle.std.specs.Prelude.{◌≤◌, IfOk, length};

use message_model::codes::EMPTY;
use message_model::{MAX_OPTION_NUMBER, MAX_TOKEN, PAYLOAD_MARKER};

/// A rule that octets with the header of a message break (RFC 7252 sections 3, 3.1 and 4.1).
#[derive(Clone, Copy, Debug, PartialEq, Eq)]
pub(crate) enum FormatFault {
    /// The class of the code is reserved.
    Class,
    /// The token has more than 8 octets.
    TokenLength,
    /// The token is cut off.
    TokenEnd,
    /// An Empty message is more than a header.
    Filled,
    /// The delta or the length of an option is the reserved nibble 15.
    Nibble,
    /// An option is cut off.
    OptionEnd,
    /// The number of an option is above the greatest.
    Number,
    /// No payload follows the marker.
    Payload,
}

impl FormatFault {
    /// Returns the fault in words.
    pub(crate) fn text(self) -> &'static str {
        match self {
            FormatFault::Class => "reserved class of code",
            FormatFault::TokenLength => "token longer than 8 octets",
            FormatFault::TokenEnd => "token cut off",
            FormatFault::Filled => "Empty message with more than a header",
            FormatFault::Nibble => "reserved nibble 15 in an option",
            FormatFault::OptionEnd => "option cut off",
            FormatFault::Number => "option number above 65535",
            FormatFault::Payload => "marker without a payload",
        }
    }
}

/// Reads a delta or a length: its nibble, extended by the octets after it (RFC 7252 section 3.1).
fn extended(nibble: u8, octets: &[u8]) -> Result<(usize, &[u8]), FormatFault>
    ensures { IfOk result (λ x. length x.1.now ≤ length octets.now) }
{
    match (nibble, octets) {
        (0..=12, _) => Ok((usize::from(nibble), octets)),
        (13, [more, rest @ ..]) => Ok((13 + usize::from(*more), rest)),
        (14, [high, low, rest @ ..]) => {
            let more = u16::from_be_bytes([*high, *low]);
            Ok((269 + usize::from(more), rest))
        }
        (13 | 14, _) => Err(FormatFault::OptionEnd),
        _ => Err(FormatFault::Nibble),
    }
}

/// Reads an option after one with the number `before`, and returns its number and the octets after
/// it.
fn option_after(before: usize, first: u8, octets: &[u8]) -> Result<(usize, &[u8]), FormatFault>
    ensures { IfOk result (λ x. length x.1.now ≤ length octets.now) }
{
    let (delta, rest) = extended(first / 16, octets)?;
    let (size, rest) = extended(first % 16, rest)?;
    if rest.len() < size {
        return Err(FormatFault::OptionEnd);
    }
    let number = before.saturating_add(delta);
    if number > MAX_OPTION_NUMBER as usize {
        return Err(FormatFault::Number);
    }
    Ok((number, &rest[size..]))
}

/// Reads the options and the payload.
fn tail_read(octets: &[u8]) -> Result<(), FormatFault> {
    let mut number = 0;
    let mut rest = octets;
    'options: while let Some((first, following)) = rest.split_first() {
        if *first == PAYLOAD_MARKER && following.is_empty() {
            return Err(FormatFault::Payload);
        }
        if *first == PAYLOAD_MARKER {
            return Ok(());
        }
        (number, rest) = option_after(number, *first, following)?;
    }
    Ok(())
}

/// Reads what follows the code and the Message ID.
fn body_read(code: u8, token_length: usize, octets: &[u8]) -> Result<(), FormatFault> {
    if matches!(code / 32, 1 | 6 | 7) {
        return Err(FormatFault::Class);
    }
    if token_length > MAX_TOKEN {
        return Err(FormatFault::TokenLength);
    }
    if code == EMPTY && (token_length > 0 || !octets.is_empty()) {
        return Err(FormatFault::Filled);
    }
    if octets.len() < token_length {
        return Err(FormatFault::TokenEnd);
    }
    tail_read(&octets[token_length..])
}

/// Returns the first rule that octets with the header of a message break (RFC 7252 sections 3, 3.1
/// and 4.1).
///
/// Returns `None` if they break none, or have no header.
pub(crate) fn format_fault(datagram: &[u8]) -> Option<FormatFault> {
    match datagram {
        [first, code, _, _, rest @ ..] => body_read(*code, usize::from(*first % 16), rest).err(),
        _ => None,
    }
}
