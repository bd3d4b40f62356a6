//! How a conversation ends.

use stream_reader::StreamBad;

/// How a conversation ended.
#[derive(Clone, Copy, Debug, PartialEq, Eq)]
pub enum TalkEnd {
    /// The source ended between two messages.
    Closed,
    /// The source ended within a message.
    Cut,
    /// The peer sent a Release (RFC 8323 section 5.5).
    Released,
    /// The peer sent an Abort (RFC 8323 section 5.6).
    Aborted,
    /// A message was bad, and was answered by an Abort (RFC 8323 section 5.6).
    Refused(StreamBad),
    /// 65,536 requests were passed to the seat, which uses up their numbers. The peer was sent a
    /// Release (RFC 8323 section 5.5).
    Spent,
}

/// The result of a conversation.
#[derive(Clone, Copy, Debug, PartialEq, Eq)]
pub struct Talked {
    /// How it ended.
    pub end: TalkEnd,
    /// How many requests were passed to the seat.
    pub asked: u64,
    /// How many datagrams came out of ticks and were dropped.
    pub dropped: u64,
}

/// The reason for which a conversation failed.
#[derive(Clone, Copy, Debug, PartialEq, Eq)]
pub enum TalkFault {
    /// A read failed.
    Read,
    /// A write failed.
    Write,
    /// Memory ran out before the first read.
    Starved,
}
