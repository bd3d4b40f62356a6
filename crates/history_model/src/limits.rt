//! The limits of the directory.

/// The most registrations that are live at a time.
pub const MAX_REGISTRATIONS: u64 = 4_096;

/// The most that the live registrations weigh together, in octets.
pub const MAX_TEXT: u64 = 1_048_576;

/// The most entries that are counted: 2^48 - 1.
pub const MAX_ENTRIES: u64 = 281_474_976_710_655;
