//! Arguments and numbers.
ghost use Rattle.std.specs.Prelude.{◌≤◌, IfOk};

use crate::NoAnswer;

/// Returns the text before the first space and the text after it. Without a space, returns the
/// whole text and an empty one.
pub fn cut(said: &str) -> (&str, &str) {
    match said.split_once(' ') {
        Some(parts) => parts,
        None => (said, ""),
    }
}

/// Returns the number that decimal digits express, which is at most `most`.
///
/// # Errors
///
/// `Form` if the argument is not such a number.
pub fn number_of(word: &str, most: u64) -> Result<u64, NoAnswer>
    ensures { IfOk result (λ number. number ≤ most) }
{
    if !word.bytes().all(|octet| octet.is_ascii_digit()) {
        return Err(NoAnswer::Form);
    }
    match word.parse::<u64>() {
        Ok(number) if number <= most => Ok(number),
        _ => Err(NoAnswer::Form),
    }
}
