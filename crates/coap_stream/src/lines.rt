//! How a conversation is held.

use rd_base::Peer;

/// How a conversation is held (RFC 8323 sections 5.3 to 5.6).
#[derive(Clone, Copy, Debug, PartialEq, Eq)]
pub(crate) enum Manner {
    /// As [`converse`](crate::converse) holds it.
    Plain,
    /// As [`attend`](crate::attend) holds it.
    Full,
}

/// A connection as a conversation knows it.
#[derive(Clone, Copy, Debug, PartialEq, Eq)]
pub(crate) struct Line {
    /// The peer as which the seat knows it.
    pub(crate) peer: Peer,
    /// How the conversation is held.
    pub(crate) manner: Manner,
}
