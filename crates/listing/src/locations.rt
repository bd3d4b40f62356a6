//! The location of a registration, as it appears in a link (RFC 9176 section 5).
ghost use Rattle.std.specs.Prelude.{◌≡◌};
ghost use Rattle.record_model.specs.Matching as model;

use arrayvec::ArrayString;
use itoa::Buffer;

/// The most octets of a location: its path, and the digits of a number of 64 bits.
pub const ROOM: usize = 24;

/// Returns the location of the registration with this number. Does not allocate.
#[tactic(auto, unfolding(record_model::specs::Matching::location))]
pub fn location_of(number: u64) -> ArrayString<ROOM>
    ensures { result.bytes ≡ model.location number }
{
    let mut digits = Buffer::new();
    let mut location = ArrayString::new();
    location.push_str("/rd/");
    location.push_str(digits.format(number));
    location
}
