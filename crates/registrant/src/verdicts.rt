//! What a datagram and a tick mean for a pending request.
use client_model::Outcome;

/// What a datagram meant for a pending request.
#[derive(Debug, Drop)]
pub enum TalkHeard {
    /// It neither decides nor acknowledges the request.
    Other,
    /// It acknowledges the request, which is then not retransmitted (RFC 7252 section 4.2).
    Quiet,
    /// It decides the request. The octets acknowledge a confirmable answer, and must be sent to the
    /// directory (RFC 7252 section 4.2).
    Over(Outcome, Option<[u8; 4]>),
    /// Memory ran out, and the pending request is unchanged.
    Starved,
}

/// What is due of a pending request.
#[derive(Debug, Drop)]
pub enum TalkAgain {
    /// Nothing.
    Wait,
    /// Its request must be retransmitted now (RFC 7252 section 4.2).
    Send,
    /// It is decided.
    Over(Outcome),
}
