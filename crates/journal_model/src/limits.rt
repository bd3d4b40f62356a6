//! The limits of workers and of their Message IDs.

/// The most workers of a directory.
pub const MAX_WORKERS: u64 = 16;

/// The number of Message IDs that each worker has.
pub const WORKER_MIDS: u16 = 4_096;
