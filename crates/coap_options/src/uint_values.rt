//! Numbers that values encode (RFC 7252 section 3.2).

ghost use Rattle.std.specs.Prelude.{◌≡◌, ◌≤◌, length};
ghost use Rattle.message_model.specs.Numbers as numbers;

/// Returns the number that at most two octets encode, the most significant first.
pub(crate) fn short_uint_of(value: &[u8]) -> u16
    requires { length value.now ≤ 2 }
    ensures { result ≡ numbers.uint_of value.now }
{
    match value {
        [] => 0,
        [a] => u16::from(*a),
        [a, b] => u16::from(*a) * 256 + u16::from(*b),
        _ => unreachable!(),
    }
}
