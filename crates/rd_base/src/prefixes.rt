//! What follows the prefix of a text.
ghost use Rattle.std.specs.Prelude.{◌≡◌, ◌<◌, option_map, decimal};
ghost use Rattle.std.specs.Char.{digit_char};
ghost use Rattle.std.specs.Net.Text.{hex, leading_zero_digits};
ghost use Rattle.rd_base.specs.Prefixes.{after_prefix};

use itoa::Buffer;

/// Returns what follows a prefix, if the text begins with it.
#[rattlefmt::skip]
#[tactic(
    auto,
    using(crate::proofs::PrefixLemmas::after_taken, crate::proofs::PrefixLemmas::after_other)
)]
pub fn after_prefix<'a>(prefix: &[u8], text: &'a [u8]) -> Option<&'a [u8]>
    ensures { option_map (λ t. t.now) result ≡ after_prefix prefix.now text.now }
{
    text.strip_prefix(prefix)
}

/// Returns what follows a number in decimal, if the text begins with it.
pub fn after_number(n: u16, text: &[u8]) -> Option<&[u8]>
    ensures { option_map (λ t. t.now) result ≡ after_prefix (decimal n) text.now }
{
    let mut buffer = Buffer::new();
    after_prefix(buffer.format(n).as_bytes(), text)
}

/// Returns the hexadecimal digit of a number below 16, in lower case.
fn hex_digit(n: u16) -> u8
    requires { n < 16 }
    ensures { result ≡ digit_char n }
{
    if n < 10 {
        b'0' + n as u8
    } else {
        b'a' + (n - 10) as u8
    }
}

/// Returns how many of the four hexadecimal digits of a number are leading zeros. The last digit
/// never counts.
fn leading_zeros(n: u16) -> usize
    ensures value { result ≡ leading_zero_digits n }
    ensures within { result < 4 }
{
    if n >= 0x1000 {
        return 0;
    }
    if n >= 0x100 {
        return 1;
    }
    if n >= 0x10 {
        return 2;
    }
    3
}

/// Returns what follows a number in lower-case hexadecimal digits without leading zeros, if the
/// text begins with it.
#[tactic(auto, unfolding(std::specs::Net::Text::hex))]
pub fn after_hex(n: u16, text: &[u8]) -> Option<&[u8]>
    ensures { option_map (λ t. t.now) result ≡ after_prefix (hex n) text.now }
{
    let digits = [
        hex_digit(n / 0x1000),
        hex_digit(n / 0x100 % 16),
        hex_digit(n / 0x10 % 16),
        hex_digit(n % 16),
    ];
    after_prefix(&digits[leading_zeros(n)..], text)
}
