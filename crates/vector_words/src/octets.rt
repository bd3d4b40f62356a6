//! The octets that an argument stands for.

use crate::{NoAnswer, number_of};
use rd_base::{Bytes, Starved};
use std::alloc::Global;

/// The maximum number of times that octets are repeated.
const MOST: u64 = 100_000;

/// Returns the octets of hexadecimal digits.
fn decoded(alloc: Global, digits: &str) -> Result<Vec<u8>, NoAnswer> {
    match hex::decode(alloc, digits) {
        Ok(octets) => Ok(octets),
        Err(hex::FromHexError::OutOfMemory) => Err(NoAnswer::Starved),
        Err(_) => Err(NoAnswer::Form),
    }
}

/// Appends the octets of hexadecimal digits, as many times as the number after `*`.
fn append_digits(alloc: Global, octets: &mut Bytes, said: &str) -> Result<(), NoAnswer> {
    let Some((digits, count)) = said.split_once('*') else {
        let piece = decoded(alloc, said)?;
        return Ok(octets.append(piece.as_slice())?);
    };
    let count = number_of(count, MOST)?;
    let piece = decoded(alloc, digits)?;
    'times: for _ in 0..count {
        octets.append(piece.as_slice())?;
    }
    Ok(())
}

/// Returns the text in the braces at the beginning of a text, and the text after them.
fn braced(text: &str) -> Option<(&str, &str)> {
    let text = text.strip_prefix('{')?;
    text.split_once('}')
}

/// Returns the octet of two hexadecimal digits.
fn octet_of(high: u8, low: u8) -> Option<u8> {
    let high = char::from(high).to_digit(16)?;
    let low = char::from(low).to_digit(16)?;
    Some((high * 16 + low) as u8)
}

/// Appends the octets of a part after `\x`, which may begin with two digits of an octet.
fn append_octet(octets: &mut Bytes, part: &[u8]) -> Result<(), Starved> {
    if let [high, low, rest @ ..] = part {
        if let Some(octet) = octet_of(*high, *low) {
            octets.push(octet)?;
            return octets.append(rest);
        }
    }
    octets.append(b"\\x")?;
    octets.append(part)
}

/// Appends the octets of a part after `\x`.
fn append_part(alloc: Global, octets: &mut Bytes, part: &str) -> Result<(), Starved> {
    if let Some((said, rest)) = braced(part) {
        match append_digits(alloc, octets, said) {
            Ok(()) => return octets.append(rest.as_bytes()),
            Err(NoAnswer::Starved) => return Err(Starved),
            Err(NoAnswer::Form) => (),
        }
    }
    append_octet(octets, part.as_bytes())
}

/// Returns the octets that a text stands for.
///
/// `\xHH` with two hexadecimal digits is that octet, and `\x{3c3e*9}` is these octets nine times.
/// `-` by itself stands for no octets. Everything else stands for itself.
///
/// # Errors
///
/// `Starved` if memory runs out.
pub fn octets_of(alloc: Global, said: &str) -> Result<Bytes, Starved> {
    if said == "-" {
        return Ok(Bytes::new(alloc));
    }
    let Some((first, rest)) = said.split_once("\\x") else {
        return Bytes::copy_of(alloc, said.as_bytes());
    };
    let mut octets = Bytes::copy_of(alloc, first.as_bytes())?;
    'parts: for part in rest.split("\\x") {
        append_part(alloc, &mut octets, part)?;
    }
    Ok(octets)
}

/// Returns the text of the octets that [`octets_of`] returns.
///
/// # Errors
///
/// `Form` if the octets are not UTF-8; `Starved` if memory runs out.
pub fn text_of(alloc: Global, said: &str) -> Result<String, NoAnswer> {
    let octets = octets_of(alloc, said)?;
    match str::from_utf8(octets.as_slice()) {
        Ok(text) => Ok(String::from_str(alloc, text)?),
        Err(_) => Err(NoAnswer::Form),
    }
}

/// Returns the octets of hexadecimal digits, in which `{3c3e*9}` is these octets nine times. `-`
/// stands for no octets.
///
/// # Errors
///
/// `Form` if the argument is not of this form; `Starved` if memory runs out.
pub fn datagram_of(alloc: Global, word: &str) -> Result<Bytes, NoAnswer> {
    let mut octets = Bytes::new(alloc);
    if word == "-" {
        return Ok(octets);
    }
    'parts: for part in word.split(|c| c == '{' || c == '}') {
        append_digits(alloc, &mut octets, part)?;
    }
    if octets.is_empty() {
        return Err(NoAnswer::Form);
    }
    Ok(octets)
}
