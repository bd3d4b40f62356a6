//! The outcomes of requests.
use rd_base::{Peer, Texts};

/// The location of a registration (RFC 9176 section 5).
#[derive(Debug, Drop)]
pub struct Location {
    /// The directory of the registration.
    pub to: Peer,
    /// The segments of the path.
    pub path: Texts,
}

/// The outcome of a request.
#[derive(Debug, Drop)]
pub enum Outcome {
    /// The registration was made, and has this location (RFC 9176 section 5).
    Located(Location),
    /// The refresh or the removal was made (RFC 9176 sections 5.3.1 and 5.3.2).
    Done,
    /// Another response arrived, with this code.
    Refused(u8),
    /// The directory reset the request (RFC 7252 section 4.2).
    Reset,
    /// The request was sent five times, and nothing arrived (RFC 7252 section 4.2).
    GaveUp,
    /// The request was acknowledged, and no response arrived (RFC 7252 section 5.2.2).
    Silent,
}
