//! The bounds of a line of a trace.

/// The most octets of a line, without its line feed.
pub const MAX_LINE: usize = 8_600;

/// The most octets of a datagram.
pub const MAX_DATAGRAM: usize = 4_096;

/// The greatest number of a worker.
pub const MAX_WORKER: u64 = 255;

/// The greatest moment of a line, in milliseconds.
pub const MAX_MOMENT: u64 = 999_999_999_999_999;

/// The greatest random word of an `in` or a `tick`.
pub const MAX_WORD: u64 = 4_294_967_295;

/// The greatest number above which a run may begin. No history counts more changes.
pub const MAX_FIRST: u64 = 281_474_976_710_655;
