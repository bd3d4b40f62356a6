//! The entries of a history.
//!
//! Only definitions and contracts use these types; no value of them is made.
use rd_base::{Moment, Peer, RegParams, SubmittedLink, UpdateParams};
use std::collections::LinkedList;

/// An accepted change of the directory (RFC 9176 section 5).
pub enum Change {
    /// A registration: its parameters, and the links of its body.
    Register(RegParams, LinkedList<SubmittedLink>),
    /// An update of the registration with this number, and its parameters.
    Update(u64, UpdateParams),
    /// A replacement of the links of the registration with this number by those of the body.
    Replace(u64, LinkedList<SubmittedLink>),
    /// The removal of the registration with this number.
    Remove(u64),
    /// The beginning of a run: numbers and the count of entries continue above this one.
    Begin(u64),
}

/// An accepted change with its circumstances.
pub struct Entry {
    /// The moment at which the change was accepted.
    pub moment: Moment,
    /// The worker that accepted the change.
    pub worker: u8,
    /// The peer that requested the change.
    pub peer: Peer,
    /// The change.
    pub change: Change,
}
