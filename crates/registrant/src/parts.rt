//! Decoded parts of a path and of a query (RFC 7252 section 6.4).
ghost use Rattle.std.specs.Cow.{cow_str_bytes};
ghost use Rattle.registrant.specs.Parts.{IsDecoded, IsOwned};

use client_model::MAX_PART;
use percent_encoding::{DecodeError, percent_decode};
use rd_base::{Bytes, Starved};
use std::alloc::Global;
use std::borrow::CowStr;

/// Why a part of a URI becomes no option.
#[derive(Clone, Copy, Debug, PartialEq, Eq)]
pub(crate) enum PartBad {
    /// The decoded part is not UTF-8, or has more than 255 octets.
    Part,
    /// Memory ran out.
    Starved,
}

impl From<Starved> for PartBad {
    ghost use Rattle.std.specs.Prelude.{◌≡◌};
    ghost use Rattle.registrant.specs.declared.parts.PartBad.TheVariants as bad;

    ghost from_gives = { λ _ e. e ≡ bad.Starved };

    /// Returns [`PartBad::Starved`].
    fn from(_: Starved) -> PartBad {
        PartBad::Starved
    }
}

/// Copies the octets of a decoded text. Returns `Part` if it has more than 255 octets.
fn owned(alloc: Global, text: CowStr<'_>) -> Result<Bytes, PartBad>
    ensures { IsOwned (cow_str_bytes text.entry) result }
{
    if text.len() > MAX_PART {
        return Err(PartBad::Part);
    }
    match Bytes::copy_of(alloc, text.as_str().as_bytes()) {
        Ok(octets) => Ok(octets),
        Err(Starved) => Err(PartBad::Starved),
    }
}

/// Decodes a part of a URI (RFC 7252 section 6.4, RFC 3986 section 2.1).
pub(crate) fn decoded(alloc: Global, part: &str) -> Result<Bytes, PartBad>
    ensures { IsDecoded part.now result }
{
    match percent_decode(part.as_bytes()).decode_utf8(alloc) {
        Ok(text) => owned(alloc, text),
        Err(DecodeError::Utf8(_)) => Err(PartBad::Part),
        Err(DecodeError::OutOfMemory) => Err(PartBad::Starved),
    }
}
