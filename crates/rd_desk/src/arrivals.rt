//! Datagrams that arrive (RFC 7252 section 4).
use rd_base::{Moment, Peer};
use rd_request::Incoming;

/// A datagram that arrived.
#[derive(Clone, Copy, Debug)]
pub struct Arrival<'a> {
    /// The moment at which it is handled, in milliseconds.
    pub moment: Moment,
    /// The random word of the step, which determines initial timeouts and the values of challenges.
    pub word: u32,
    /// The peer that sent it.
    pub peer: Peer,
    /// Its octets.
    pub datagram: &'a [u8],
    /// What it is to the directory, as it was read.
    pub incoming: Incoming<'a>,
}
