//! Numbers as the values of options (RFC 7252 section 3.2).

ghost use Rattle.std.specs.Prelude.{◌≡◌, ◌+◌, ◌≤◌, ◌<◌, ◌^◌, [], ◌∷◌, ◌++◌, length, take};
ghost use Rattle.message_model.specs.Numbers as numbers;

/// Returns the number that octets encode, the most significant octet first (RFC 7252 section 3.2).
///
/// # Requires
///
/// There are at most three octets.
pub fn uint_of(value: &[u8]) -> u32
    requires { length value.now ≤ 3 }
    ensures value { result ≡ numbers.uint_of value.now }
    ensures small { result < 2 ^ 24 }
{
    match value {
        [] => 0,
        [a] => u32::from(*a),
        [a, b] => u32::from(*a) * 256 + u32::from(*b),
        [a, b, c] => (u32::from(*a) * 256 + u32::from(*b)) * 256 + u32::from(*c),
        _ => unreachable!(),
    }
}

/// Puts one octet after those that are there, and returns the offset after it.
fn put_byte(octets: &mut [u8], at: usize, byte: u8) -> usize
    requires { at < length octets.old }
    ensures end { result ≡ at + 1 }
    ensures put { take result octets.new ≡ take at octets.old ++ byte ∷ [] }
{
    octets[at] = byte;
    at + 1
}

/// Puts the fewest octets that encode a number at the beginning, and returns how many these are
/// (RFC 7252 section 3.2).
#[tactic(auto, unfolding(message_model::specs::Numbers::uint_bytes))]
pub(crate) fn put_uint(octets: &mut [u8], n: u32) -> usize
    requires room { 3 ≤ length octets.old }
    requires small { n < 2 ^ 24 }
    ensures few { result ≤ 3 }
    ensures put { take result octets.new ≡ numbers.uint_bytes n }
{
    if n == 0 {
        return 0;
    }
    if n < 256 {
        return put_byte(octets, 0, n as u8);
    }
    if n < 65536 {
        let first = put_byte(octets, 0, (n / 256) as u8);
        return put_byte(octets, first, (n % 256) as u8);
    }
    let first = put_byte(octets, 0, (n / 65536) as u8);
    let second = put_byte(octets, first, (n / 256 % 256) as u8);
    put_byte(octets, second, (n % 256) as u8)
}

/// Puts a number as the value of an option, in the fewest octets, and returns how many these are
/// (RFC 7252 section 3.2).
///
/// The number 0 has no octets. [`uint_of`] reads the number back.
///
/// # Requires
///
/// The number is below 2^24, as those of Observe, Content-Format and the Block options are.
pub fn uint_write(n: u32, into: &mut [u8; 3]) -> usize
    requires { n < 2 ^ 24 }
    ensures few { result ≤ 3 }
    ensures value { take result into.new ≡ numbers.uint_bytes n }
    ensures read_back { numbers.uint_of (take result into.new) ≡ n }
{
    put_uint(into, n)
}
