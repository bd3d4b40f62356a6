//! The spelling of options and payloads into a buffer, from an offset on. Each function returns the
//! offset after what it put.

ghost use Rattle.std.specs.Prelude.{◌≡◌, ◌+◌, ◌-◌, ◌<◌, ◌≤◌, [], ◌∷◌, ◌++◌, length, take};
ghost use Rattle.message_model.specs.Numbers.{AreBytes};
ghost use Rattle.message_model.specs.Message.{last_number, longest_value};
ghost use Rattle.message_model.specs.Spelling as spelling_of;

use message_model::PAYLOAD_MARKER;

/// Puts one octet.
pub(crate) fn put_byte(octets: &mut [u8], at: usize, byte: u8) -> usize
    requires { at < length octets.old }
    ensures end { result ≡ at + 1 }
    ensures put { take result octets.new ≡ take at octets.old ++ byte ∷ [] }
{
    octets[at] = byte;
    at + 1
}

/// Puts several octets.
pub(crate) fn put_bytes(octets: &mut [u8], at: usize, bytes: &[u8]) -> usize
    requires { at + length bytes.now ≤ length octets.old }
    ensures end { result ≡ at + length bytes.now }
    ensures put { take result octets.new ≡ take at octets.old ++ bytes.now }
    ensures bytes { AreBytes bytes.now }
{
    let end = at + bytes.len();
    octets[at..end].copy_from_slice(bytes);
    end
}

/// Returns the nibble of an option's delta or length (RFC 7252 section 3.1).
#[tactic(auto, unfolding(message_model::specs::Spelling::nibble_of))]
fn nibble_of(n: u32) -> u8
    ensures value { result ≡ spelling_of.nibble_of n }
    ensures most { result ≤ 14 }
{
    if n < 13 {
        return n as u8;
    }
    if n < 269 {
        return 13;
    }
    14
}

/// Returns how many octets extend that nibble (RFC 7252 section 3.1).
#[tactic(auto, unfolding(message_model::specs::Spelling::extension_of))]
fn extension_size(n: u32) -> usize
    ensures value { result ≡ length (spelling_of.extension_of n) }
    ensures few { result ≤ 2 }
{
    if n < 13 {
        return 0;
    }
    if n < 269 {
        return 1;
    }
    2
}

/// Puts the octets that extend that nibble (RFC 7252 section 3.1).
#[tactic(auto, unfolding(message_model::specs::Spelling::extension_of))]
fn put_extension(octets: &mut [u8], at: usize, n: u32) -> usize
    requires room { at + length (spelling_of.extension_of n) ≤ length octets.old }
    requires most { n ≤ longest_value }
    ensures end { result ≡ at + length (spelling_of.extension_of n) }
    ensures put { take result octets.new ≡ take at octets.old ++ spelling_of.extension_of n }
{
    if n < 13 {
        return at;
    }
    if n < 269 {
        return put_byte(octets, at, (n - 13) as u8);
    }
    let end = put_byte(octets, at, ((n - 269) / 256) as u8);
    put_byte(octets, end, ((n - 269) % 256) as u8)
}

/// Returns how many octets spell an option after an option of the number before (RFC 7252 section
/// 3.1).
#[tactic(auto, unfolding(message_model::specs::Spelling::option_spelling))]
pub(crate) fn option_size(before: u16, number: u32, value: &[u8]) -> usize
    requires ascends { before ≤ number }
    requires value { length value.now ≤ longest_value }
    ensures { result ≡ length (spelling_of.option_spelling before (number, value.now)) }
{
    let delta = extension_size(number - u32::from(before));
    let size = extension_size(value.len() as u32);
    1 + delta + size + value.len()
}

/// Puts an option after an option of the number before (RFC 7252 section 3.1).
#[tactic(auto, unfolding(message_model::specs::Spelling::option_spelling))]
pub(crate) fn put_option(
    octets: &mut [u8],
    at: usize,
    before: u16,
    number: u32,
    value: &[u8],
) -> usize
    requires room { at + length (spelling_of.option_spelling before (number, value.now))
        ≤ length octets.old }
    requires ascends { before ≤ number }
    requires number { number ≤ last_number }
    requires value { length value.now ≤ longest_value }
    ensures end { result ≡ at + length (spelling_of.option_spelling before (number, value.now)) }
    ensures put { take result octets.new
        ≡ take at octets.old ++ spelling_of.option_spelling before (number, value.now) }
{
    let delta = number - u32::from(before);
    let size = value.len() as u32;
    let first = put_byte(octets, at, nibble_of(delta) * 16 + nibble_of(size));
    let second = put_extension(octets, first, delta);
    let third = put_extension(octets, second, size);
    put_bytes(octets, third, value)
}

/// Returns how many octets a payload takes with its marker; an empty payload takes none (RFC 7252
/// section 3).
#[tactic(auto, unfolding(message_model::specs::Spelling::payload_spelling))]
pub(crate) fn payload_size(payload: &[u8]) -> usize
    ensures { result ≡ length (spelling_of.payload_spelling payload.now) }
{
    match payload {
        [] => 0,
        [_, rest @ ..] => 2 + rest.len(),
    }
}

/// Puts a payload after its marker; an empty payload has no marker (RFC 7252 section 3).
#[tactic(auto, unfolding(message_model::specs::Spelling::payload_spelling))]
pub(crate) fn put_payload(octets: &mut [u8], at: usize, payload: &[u8]) -> usize
    requires { at + length (spelling_of.payload_spelling payload.now) ≤ length octets.old }
    ensures end { result ≡ at + length (spelling_of.payload_spelling payload.now) }
    ensures put { take result octets.new
        ≡ take at octets.old ++ spelling_of.payload_spelling payload.now }
{
    match payload {
        [] => at,
        [_, ..] => {
            let first = put_byte(octets, at, PAYLOAD_MARKER);
            put_bytes(octets, first, payload)
        }
    }
}
