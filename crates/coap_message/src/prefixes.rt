//! What octets begin with: each function returns a value and the octets after it.

ghost use Rattle.std.specs.Prelude.{◌≡◌, ◌≤◌, IfSome};
ghost use Rattle.std.specs.Option.{option_map};
ghost use Rattle.message_model.specs.Reading as reading;
ghost use Rattle.message_model.specs.Message.{last_number, longest_value};

use super::options::Opt;

/// Reads one octet.
pub(crate) fn byte_at(bytes: &[u8]) -> Option<(u8, &[u8])>
    ensures { option_map (λ x. (x.0, x.1.now)) result ≡ reading.byte_at bytes.now }
{
    match bytes {
        [byte, rest @ ..] => Some((*byte, rest)),
        [] => None,
    }
}

/// Reads this many octets.
pub(crate) fn bytes_at(count: usize, bytes: &[u8]) -> Option<(&[u8], &[u8])>
    ensures { option_map (λ x. (x.0.now, x.1.now)) result ≡ reading.bytes_at count bytes.now }
{
    if bytes.len() < count {
        return None;
    }
    Some(bytes.split_at(count))
}

/// Reads a delta or a length: its nibble, extended by the octets after it (RFC 7252 section 3.1).
#[tactic(auto, unfolding(message_model::specs::Reading::extended_at))]
pub(crate) fn extended_at(nibble: u8, bytes: &[u8]) -> Option<(u32, &[u8])>
    ensures value { option_map (λ x. (x.0, x.1.now)) result ≡ reading.extended_at nibble bytes.now }
    ensures most { IfSome result (λ x. x.0 ≤ longest_value) }
{
    if nibble < 13 {
        return Some((u32::from(nibble), bytes));
    }
    if nibble == 13 {
        let (more, rest) = byte_at(bytes)?;
        return Some((13 + u32::from(more), rest));
    }
    if nibble == 14 {
        let (high, rest) = byte_at(bytes)?;
        let (low, rest) = byte_at(rest)?;
        return Some((269 + (u32::from(high) * 256 + u32::from(low)), rest));
    }
    None
}

/// Reads an option after an option of the number before (RFC 7252 section 3.1).
#[tactic(auto, unfolding(message_model::specs::Reading::option_at))]
pub(crate) fn option_at(before: u16, bytes: &[u8]) -> Option<(Opt<'_>, &[u8])>
    ensures value { option_map (λ x. ((x.0.number, x.0.value.now), x.1.now)) result
        ≡ reading.option_at before bytes.now }
    ensures most { IfSome result (λ x. x.0.number ≤ last_number) }
{
    let (nibbles, rest) = byte_at(bytes)?;
    let (delta, rest) = extended_at(nibbles / 16, rest)?;
    let (size, rest) = extended_at(nibbles % 16, rest)?;
    let (value, rest) = bytes_at(size as usize, rest)?;
    let number = u32::from(before) + delta;
    if number > 65535 {
        return None;
    }
    Some((Opt { number, value }, rest))
}
