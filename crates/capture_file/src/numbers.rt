//! The numbers of headers, and the octets after them.
ghost use Rattle.std.specs.Prelude.{◌≡◌, ◌+◌, length, IfSome};

/// The order of the octets of a number.
#[derive(Clone, Copy, Debug, PartialEq, Eq)]
pub(crate) enum ByteOrder {
    /// The most significant octet comes first, as in all headers of the Internet.
    BigEndian,
    /// The least significant octet comes first.
    LittleEndian,
}

/// Returns the 16-bit number at the beginning of octets and the rest, or `None` if there are fewer
/// than two octets.
pub(crate) fn number16_at(order: ByteOrder, octets: &[u8]) -> Option<(u16, &[u8])>
    ensures { IfSome result (λ read. length read.1.now + 2 ≡ length octets.now) }
{
    let [first, second, rest @ ..] = octets else {
        return None;
    };
    let spelled = [*first, *second];
    let number = match order {
        ByteOrder::BigEndian => u16::from_be_bytes(spelled),
        ByteOrder::LittleEndian => u16::from_le_bytes(spelled),
    };
    Some((number, rest))
}

/// Returns the 32-bit number at the beginning of octets and the rest, or `None` if there are fewer
/// than four octets.
pub(crate) fn number32_at(order: ByteOrder, octets: &[u8]) -> Option<(u32, &[u8])>
    ensures { IfSome result (λ read. length read.1.now + 4 ≡ length octets.now) }
{
    let [first, second, third, fourth, rest @ ..] = octets else {
        return None;
    };
    let spelled = [*first, *second, *third, *fourth];
    let number = match order {
        ByteOrder::BigEndian => u32::from_be_bytes(spelled),
        ByteOrder::LittleEndian => u32::from_le_bytes(spelled),
    };
    Some((number, rest))
}

/// Returns the 64-bit number at the beginning of octets and the rest, or `None` if there are fewer
/// than eight octets.
pub(crate) fn number64_at(order: ByteOrder, octets: &[u8]) -> Option<(u64, &[u8])>
    ensures { IfSome result (λ read. length read.1.now + 8 ≡ length octets.now) }
{
    let (first, rest) = number32_at(order, octets)?;
    let (second, rest) = number32_at(order, rest)?;
    let number = match order {
        ByteOrder::BigEndian => joined(first, second),
        ByteOrder::LittleEndian => joined(second, first),
    };
    Some((number, rest))
}

/// Returns the 64-bit number with these upper and lower 32 bits.
pub(crate) fn joined(high: u32, low: u32) -> u64 {
    (u64::from(high) << 32) | u64::from(low)
}

/// Returns the first `count` octets and the rest, or `None` if there are fewer.
pub(crate) fn octets_at(count: usize, octets: &[u8]) -> Option<(&[u8], &[u8])>
    ensures first { IfSome result (λ read. length read.0.now ≡ count) }
    ensures rest { IfSome result (λ read. length read.1.now + count ≡ length octets.now) }
{
    if octets.len() < count {
        return None;
    }
    Some(octets.split_at(count))
}
