//! Times of captures, in milliseconds since 1970.

/// The number of milliseconds in a second.
const SECOND: u64 = 1_000;

/// The number of decimal digits of milliseconds after the point.
const MILLISECOND_DIGITS: u8 = 3;

/// The bit of an octet that marks a resolution as a power of two (draft-ietf-opsawg-pcapng section
/// 4.2).
const IS_BINARY: u8 = 128;

/// The length of one tick of the clock of a capture.
#[derive(Clone, Copy, Debug, PartialEq, Eq)]
pub(crate) enum Resolution {
    /// A second has ten to this power of ticks.
    Decimal(u8),
    /// A second has two to this power of ticks.
    Binary(u8),
}

/// Returns the whole milliseconds of ticks, ten to this power of which are a second.
fn decimal_milliseconds(digits: u8, ticks: u64) -> u64 {
    let mut milliseconds = ticks;
    'more: for _ in digits..MILLISECOND_DIGITS {
        milliseconds = milliseconds.saturating_mul(10);
    }
    'fewer: for _ in MILLISECOND_DIGITS..digits {
        milliseconds /= 10;
    }
    milliseconds
}

/// Returns the whole milliseconds of ticks, two to this power of which are a second.
fn binary_milliseconds(power: u8, ticks: u64) -> u64 {
    let parts = u128::from(ticks) * u128::from(SECOND);
    let milliseconds = parts.checked_shr(u32::from(power)).unwrap_or(0);
    u64::try_from(milliseconds).unwrap_or(u64::MAX)
}

impl Resolution {
    /// The resolution of classic captures, and of interfaces that give none.
    pub(crate) const MICROSECONDS: Resolution = Resolution::Decimal(6);

    /// The resolution of classic captures that begin with another magic number.
    pub(crate) const NANOSECONDS: Resolution = Resolution::Decimal(9);

    /// Returns the resolution that an interface gives (draft-ietf-opsawg-pcapng section 4.2,
    /// if_tsresol).
    pub(crate) fn of(octet: u8) -> Resolution {
        if octet < IS_BINARY {
            return Resolution::Decimal(octet);
        }
        Resolution::Binary(octet - IS_BINARY)
    }

    /// Returns the whole milliseconds of these ticks, at most the greatest number of 64 bits.
    pub(crate) fn milliseconds(self, ticks: u64) -> u64 {
        match self {
            Resolution::Decimal(digits) => decimal_milliseconds(digits, ticks),
            Resolution::Binary(power) => binary_milliseconds(power, ticks),
        }
    }

    /// Returns the whole milliseconds of seconds and a part of a second in ticks, as classic
    /// captures give them.
    pub(crate) fn with_seconds(self, seconds: u32, ticks: u32) -> u64 {
        let part = self.milliseconds(u64::from(ticks));
        (u64::from(seconds) * SECOND).saturating_add(part)
    }
}

/// Returns a time moved by this number of seconds, between 0 and the greatest number of 64 bits.
pub(crate) fn moved(milliseconds: u64, seconds: i64) -> u64 {
    let distance = seconds.unsigned_abs().saturating_mul(SECOND);
    if seconds < 0 {
        return milliseconds.saturating_sub(distance);
    }
    milliseconds.saturating_add(distance)
}
