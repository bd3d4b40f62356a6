//! Numbers in decimal.
ghost use Rattle.std.specs.Prelude.{◌≡◌, ◌≤◌, ◌==◌, ◌||◌};
ghost use Rattle.std.specs.Prelude.{IfSome, length, nat_lt, slice_index};
ghost use Rattle.line_model.specs.Numbers as numbers;

use std::str;

/// Returns whether a text has one octet, or begins above the digit 0. A number in decimal has no
/// sign and no leading zero.
fn is_plain(text: &[u8]) -> bool
    ensures { result ≡ (length text.now == 1 || nat_lt 48 (slice_index text.now 0)) }
{
    if text.len() == 1 {
        return true;
    }
    match text.first() {
        Some(first) => *first > b'0',
        None => false,
    }
}

/// Returns the number that a text prints in decimal, if it prints one that is at most `limit`.
pub fn number_read(limit: u64, text: &[u8]) -> Option<u64>
    ensures value { result ≡ numbers.number_of limit text.now }
    ensures within { IfSome result (λ n. n ≤ limit) }
{
    if !is_plain(text) {
        return None;
    }
    let Ok(digits) = str::from_utf8(text) else {
        return None;
    };
    let Ok(n) = digits.parse::<u64>() else {
        return None;
    };
    if n > limit {
        return None;
    }
    Some(n)
}
