//! The forms in braces in a line of a case: the number that the line is repeated for, or a text
//! several times.

use crate::faults::Fault;
use std::alloc::Global;

/// Writes the decimal digits of a number as octets, each in hexadecimal.
fn write_digits(text: &mut String, alloc: Global, number: u64) -> Result<(), Fault> {
    let digits = format!(in alloc; "{number}")?;
    'digits: for digit in digits.as_str().chars() {
        text.push('3')?;
        text.push(digit)?;
    }
    Ok(())
}

/// Writes a number in the form with this name. Returns whether there is such a form.
fn write_number(text: &mut String, alloc: Global, form: &str, number: u64) -> Result<bool, Fault> {
    match form {
        "n" => write!(text, "{number}")?,
        "n:04x" => write!(text, "{number:04x}")?,
        "n:02x" => {
            let low = number % 256;
            write!(text, "{low:02x}")?
        }
        "n:digits" => write_digits(text, alloc, number)?,
        _ => return Ok(false),
    }
    Ok(true)
}

/// Writes a text `times` times. Returns whether `times` is a number.
fn write_times(text: &mut String, repeated: &str, times: &str) -> Result<bool, Fault> {
    let Ok(times) = times.parse::<u64>() else {
        return Ok(false);
    };
    'times: for _ in 0..times {
        text.push_str(repeated)?;
    }
    Ok(true)
}

/// Writes what the text in braces stands for. Returns whether it has one of the forms.
fn write_inside(
    text: &mut String,
    alloc: Global,
    inside: &str,
    number: Option<u64>,
) -> Result<bool, Fault> {
    if let Some((repeated, times)) = inside.split_once('*') {
        return write_times(text, repeated, times);
    }
    match number {
        Some(number) => write_number(text, alloc, inside, number),
        None => Ok(false),
    }
}

/// Returns a text with the forms in its braces replaced.
///
/// `{n}` is the number that the line is repeated for. `{n:04x}` is its two octets in hexadecimal,
/// `{n:02x}` its low octet, and `{n:digits}` its decimal digits as octets. `{3c3e*9}` is `3c3e`
/// nine times.
///
/// # Errors
///
/// `Form` with the number of the line if a brace has none of these forms; `Starved` if memory runs
/// out.
pub fn expand(alloc: Global, line: u64, text: &str, number: Option<u64>) -> Result<String, Fault> {
    let mut parts = text.split('{');
    let mut written = String::new(alloc);
    written.push_str(parts.next().unwrap_or(""))?;
    'parts: for part in parts {
        let Some((inside, behind)) = part.split_once('}') else {
            return Err(Fault::Form(line));
        };
        if !write_inside(&mut written, alloc, inside, number)? {
            return Err(Fault::Form(line));
        }
        written.push_str(behind)?;
    }
    Ok(written)
}
