//! The checksum of the Internet (RFC 1071).
ghost use Rattle.std.specs.Prelude.{◌≡◌};
ghost use Rattle.capture_file.specs.Checksums as sums;

/// The number of values that 16 bits have.
const WORD: u32 = 0x1_0000;

/// The number of values that an octet has.
const OCTET: u16 = 0x100;

/// Returns the sum of two words, in which the part above 16 bits is added to the low 16 bits.
fn ones_sum(sum: u16, word: u16) -> u16
    ensures { result ≡ sums.ones_sum sum word }
{
    let sum = u32::from(sum) + u32::from(word);
    (sum % WORD + sum / WORD) as u16
}

/// Returns a sum with the words of octets added. The last word is filled up with an octet of zeros.
#[tactic(auto, unfolding(crate::specs::Checksums::sum_of))]
pub(crate) fn summed(sum: u16, octets: &[u8]) -> u16
    ensures { result ≡ sums.sum_of sum octets.now }
{
    let mut sum = sum;
    let mut rest = octets;
    'words: while let [high, low, behind @ ..] = rest {
        sum = ones_sum(sum, u16::from(*high) * OCTET + u16::from(*low));
        rest = behind;
    }
    match rest {
        [last, ..] => ones_sum(sum, u16::from(*last) * OCTET),
        [] => sum,
    }
}
