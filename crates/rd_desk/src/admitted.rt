//! The result of handling a datagram.
use crate::WriteJob;

/// The result of handling a datagram.
#[derive(Drop)]
pub enum Admitted {
    /// The datagram is done with.
    Done,
    /// The datagram is a write that was admitted, and the worker has this job.
    Held(WriteJob),
    /// Memory ran out. A request has been answered 5.00.
    Starved,
}
