//! Prints of texts: numbers which mostly show that no text of a registration has the prefix that a
//! criterion seeks. So most queries that a change does not touch are skipped without matching.
ghost use Rattle.std.specs.Prelude.{◌≡◌, ◌<◌, map, length};
ghost use Rattle.watch_table.specs.Prints as prints;

use arrayvec::ArrayVec;
use listing::before_wildcard;
use rd_base::Criterion;

/// The number of criteria of a query whose prints are stored.
pub(crate) const MOST_PRINTS: usize = 4;

/// The number of 64-bit numbers that hold the bits of noted prints.
pub(crate) const WORDS: usize = 128;

/// Returns the print of a text with one more octet.
#[tactic(auto, unfolding(crate::specs::Prints::print_after))]
pub(crate) fn print_after(print: u32, octet: u8) -> u32
    ensures { result ≡ prints.print_after print octet }
{
    print.wrapping_mul(37).wrapping_add(u32::from(octet))
}

/// Returns the print of a text.
fn print_of(text: &[u8]) -> u32
    ensures { result ≡ prints.print_of text.now }
{
    let mut print = 0;
    'octets: for octet in text {
        print = print_after(print, *octet);
    }
    print
}

/// Returns the prefix of each value that the pattern matches: the text before a wildcard, or else
/// the pattern.
fn front_of(pattern: &str) -> &str
    ensures { result.now ≡ prints.front_of pattern.now }
{
    match before_wildcard(pattern) {
        Some(front) => front,
        None => pattern,
    }
}

/// Returns the print of the prefix that the criterion seeks.
fn front_print(criterion: &Criterion) -> u32
    ensures { result ≡ prints.front_print criterion.now }
{
    print_of(front_of(criterion.pattern.as_str()).as_bytes())
}

/// Returns the prints of the prefixes that the first criteria seek. Does not allocate.
pub(crate) fn prints_of(criteria: &[Criterion]) -> ArrayVec<u32, MOST_PRINTS>
    ensures { result.items ≡ prints.prints_of criteria.now }
{
    let mut kept = ArrayVec::new();
    'criteria: for criterion in criteria {
        if kept.is_full() {
            return kept;
        }
        kept.push(front_print(criterion));
    }
    kept
}

/// Returns the index of the number that has the bit of a print.
#[tactic(auto, unfolding(crate::specs::Prints::word_of))]
fn word_of(print: u32) -> usize
    ensures word { result ≡ prints.word_of print }
    ensures within { result < 128 }
{
    (print / 64 % 128) as usize
}

/// Returns which bit of that number belongs to a print.
#[tactic(auto, unfolding(crate::specs::Prints::bit_of))]
fn bit_of(print: u32) -> u32
    ensures bit { result ≡ prints.bit_of print }
    ensures within { result < 64 }
{
    print % 64
}

/// Notes a print by setting its bit.
pub(crate) fn note(notes: &mut [u64; WORDS], print: u32)
    ensures { notes.new ≡ prints.noted notes.old print }
{
    notes[word_of(print)] |= 1 << bit_of(print);
}

/// Returns whether the bit of a print is set. Other prints have the same bit, so it may be set for
/// a print that was never noted.
fn is_noted(notes: &[u64; WORDS], print: u32) -> bool
    ensures { result ≡ prints.is_noted notes.now print }
{
    (notes[word_of(print)] >> bit_of(print)) & 1 == 1
}

/// Returns whether the bits of these prints are all set. This may be so for prints that were never
/// noted.
pub(crate) fn are_noted(notes: &[u64; WORDS], kept: &[u32]) -> bool
    ensures { result ≡ prints.all_noted notes.now kept.now }
{
    kept.iter().all(|print| is_noted(notes, *print))
}
