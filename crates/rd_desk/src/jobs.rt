//! The job that a datagram leaves to its worker.
use crate::{KeepJob, WriteJob};

/// A job that a datagram leaves to its worker. The worker's next step other than a tick does it.
#[derive(Drop)]
pub enum Job {
    /// A write that was admitted.
    Write(WriteJob),
    /// A listing or a source that a look built.
    Keep(KeepJob),
}
