//! Pseudo-random numbers and checksums.

/// Returns the next pseudo-random number: this one times 6364136223846793005, plus
/// 1442695040888963407, modulo 2^64.
pub(crate) fn next_drawn(number: u64) -> u64 {
    let product = u64::wrapping_mul(number, 6_364_136_223_846_793_005);
    u64::wrapping_add(product, 1_442_695_040_888_963_407)
}

/// Returns the checksum of numbers and one more, from the checksum of those: the pseudo-random
/// number after their sum. The checksum of no numbers is 0.
pub(crate) fn summed(sum: u64, number: u64) -> u64 {
    next_drawn(u64::wrapping_add(sum, number))
}

/// Returns the checksum of these numbers.
pub(crate) fn sum_of(numbers: &[u64]) -> u64 {
    let mut sum = 0;
    for number in numbers {
        sum = summed(sum, *number);
    }
    sum
}
