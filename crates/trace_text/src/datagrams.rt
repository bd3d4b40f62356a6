//! Datagrams in hexadecimal digits.
ghost use Rattle.std.specs.Prelude.{◌≡◌, IfOk};
ghost use Rattle.std.specs.String.{string_bytes};
ghost use Rattle.line_model.specs.Datagrams as datagrams;
ghost use Rattle.trace_text.specs.LineResults.{IsSaid};

use crate::faults::FieldFault;
use line_model::limits::MAX_DATAGRAM;
use rd_base::{Bytes, Starved};
use std::alloc::Global;

/// Returns the datagram that a text spells: `-` for the empty one, or 1 to 4,096 octets in digits
/// of either case.
///
/// # Errors
///
/// - `Form` if the text is neither.
/// - `Starved` if memory runs out.
#[tactic(auto, unfolding(line_model::specs::Datagrams::datagram_of))]
pub fn datagram_read(alloc: Global, text: &[u8]) -> Result<Bytes, FieldFault>
    ensures { IsSaid result (datagrams.datagram_of text.now) }
{
    if text == b"-".as_slice() {
        return Ok(Bytes::new(alloc));
    }
    match hex::decode(alloc, text) {
        Ok(octets) => sized(octets),
        Err(hex::FromHexError::OutOfMemory) => Err(FieldFault::Starved),
        Err(_) => Err(FieldFault::Form),
    }
}

/// Returns the octets, if they are 1 to 4,096.
fn sized(octets: Vec<u8>) -> Result<Bytes, FieldFault>
    ensures { IsSaid result (datagrams.if_sized (Ok octets.items)) }
{
    if octets.is_empty() {
        return Err(FieldFault::Form);
    }
    if octets.len() > MAX_DATAGRAM {
        return Err(FieldFault::Form);
    }
    Ok(Bytes::of(octets))
}

/// Returns a datagram in lower-case digits, or `-` for the empty one.
///
/// # Errors
///
/// `Starved` if memory runs out.
pub fn datagram_text(alloc: Global, octets: &[u8]) -> Result<String, Starved>
    ensures { IfOk result (λ text. string_bytes text ≡ datagrams.datagram_text octets.now) }
{
    if octets.is_empty() {
        return Ok(String::from_str(alloc, "-")?);
    }
    Ok(hex::encode(alloc, octets)?)
}
