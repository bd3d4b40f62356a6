//! The counts of a worker that accepts connections.

/// The counts of a worker that accepts connections.
#[derive(Clone, Copy, Debug, PartialEq, Eq, Default)]
pub struct Attended {
    /// The number of connections that it served.
    pub connections: u64,
    /// The number of requests that it passed to its seat. Requests of connections on which a read
    /// or a write failed do not count.
    pub asked: u64,
}
