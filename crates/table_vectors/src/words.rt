//! Numbers in an answer.

use vector_words::Line;

/// Writes numbers, separated by spaces, or that there are none.
pub(crate) fn put_numbers(line: &mut Line<'_>, numbers: &[u64]) {
    let mut space = "";
    for number in numbers {
        line.put(space);
        line.put_number(*number);
        space = " ";
    }
    if numbers.is_empty() {
        line.put("none");
    }
}

/// Writes how many numbers there are, and their checksum.
pub(crate) fn put_sum(line: &mut Line<'_>, count: u64, sum: u64) {
    line.put_number(count);
    line.put(", checksum ");
    line.put_number(sum);
}
