//! The limits of the directory's tables.

/// The most exchanges that are stored.
pub const MAX_EXCHANGES: usize = 4_096;

/// The most answers that are kept for their later blocks.
pub const MAX_ANSWERS: usize = 64;

/// The most observers.
pub const MAX_OBSERVERS: usize = 1_024;

/// The most queries that are observed.
pub const MAX_WATCHED: usize = 256;

/// The most fetches that run at a time.
pub const MAX_FETCHES: usize = 64;

/// The number of latest challenges that can be answered.
pub const MAX_CHALLENGES: usize = 1_024;
