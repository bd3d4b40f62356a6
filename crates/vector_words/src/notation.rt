//! Octets as they are printed.

use rd_base::Starved;
use std::alloc::Global;

/// The number of equal octets from which on their number is printed.
const LONG: usize = 32;

/// Returns whether an octet is printed as itself: those of printable ASCII, except a backslash
/// before `x`.
fn is_plain(octet: u8, next: Option<&u8>) -> bool {
    if octet == b'\\' {
        return next != Some(&b'x');
    }
    octet == b' ' || octet.is_ascii_graphic()
}

/// Writes an octet that precedes `next`.
fn put_octet(page: &mut String, octet: u8, next: Option<&u8>) -> Result<(), Starved> {
    if is_plain(octet, next) {
        return Ok(page.push(char::from(octet))?);
    }
    Ok(write!(page, "\\x{octet:02x}")?)
}

/// Writes equal octets that precede `next`.
fn put_equal(page: &mut String, equal: &[u8], next: Option<&u8>) -> Result<(), Starved> {
    let [first, others @ ..] = equal else {
        return Ok(());
    };
    let octet = *first;
    let count = equal.len();
    if count >= LONG {
        return Ok(write!(page, "\\x{{{octet:02x}*{count}}}")?);
    }
    'others: for other in others {
        put_octet(page, octet, Some(other))?;
    }
    put_octet(page, octet, next)
}

/// Writes octets as [`octets_of`](crate::octets_of) reads them.
///
/// Printable ASCII is written as itself. Any other octet, and a backslash before `x`, is written as
/// `\xHH`. A run of 32 or more equal octets is written as `\x{HH*32}`. No octets are written as
/// `-`.
///
/// # Errors
///
/// `Starved` if memory runs out.
pub fn put_octets(page: &mut String, octets: &[u8]) -> Result<(), Starved> {
    if octets.is_empty() {
        return Ok(page.push_str("-")?);
    }
    if octets == b"-".as_slice() {
        return Ok(page.push_str("\\x2d")?);
    }
    let mut end = 0usize;
    'runs: for equal in octets.chunk_by(|one, other| one == other) {
        end = end.saturating_add(equal.len());
        put_equal(page, equal, octets.get(end))?;
    }
    Ok(())
}

/// Returns octets as [`put_octets`] writes them.
///
/// # Errors
///
/// `Starved` if memory runs out.
pub fn shown(alloc: Global, octets: &[u8]) -> Result<String, Starved> {
    let mut page = String::new(alloc);
    put_octets(&mut page, octets)?;
    Ok(page)
}

/// Writes equal octets in hexadecimal.
fn put_digits(page: &mut String, equal: &[u8]) -> Result<(), Starved> {
    let [first, ..] = equal else {
        return Ok(());
    };
    let octet = *first;
    let count = equal.len();
    if count >= LONG {
        return Ok(write!(page, "{{{octet:02x}*{count}}}")?);
    }
    'octets: for _ in equal {
        write!(page, "{octet:02x}")?;
    }
    Ok(())
}

/// Writes octets in hexadecimal: a run of 32 or more equal octets as `{HH*32}`, and no octets as
/// `-`.
///
/// # Errors
///
/// `Starved` if memory runs out.
pub fn put_datagram(page: &mut String, octets: &[u8]) -> Result<(), Starved> {
    if octets.is_empty() {
        return Ok(page.push_str("-")?);
    }
    'runs: for equal in octets.chunk_by(|one, other| one == other) {
        put_digits(page, equal)?;
    }
    Ok(())
}

/// Returns `yes` or `no`.
pub fn yes_or_no(is: bool) -> &'static str {
    if is {
        return "yes";
    }
    "no"
}
