//! The events of a request.
//!
//! Only definitions and contracts use this type; no value of it is made.
use rd_base::{Bytes, Moment, Peer};

/// An event of a request, with its moment.
#[derive(Debug, Drop)]
pub enum Event {
    /// A datagram of a peer arrived.
    Came(Moment, Peer, Bytes),
    /// Time passed.
    Tick(Moment),
}
