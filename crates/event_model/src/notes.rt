//! The notes of a journal.
//!
//! No value of these types is made at run time. They are Rust types so that the contracts of code
//! and the definitions in antt share one type. The same holds of the types of the history
//! (`history_model`), and of the steps and rows of the journal (`journal_model`).
use history_model::Entry;
use rd_base::{Peer, Query, RegParams};
use std::collections::LinkedList;

/// An observer of a lookup (RFC 7641 section 1.2).
pub struct Observer {
    /// The peer to which its notifications go.
    pub peer: Peer,
    /// The token of its request, which each notification has.
    pub token: LinkedList<u8>,
    /// The query that it observes.
    pub query: Query,
    /// The key of its request.
    pub key: LinkedList<u8>,
    /// The exponent of the block size that it requested.
    pub szx: u8,
}

/// What a row of the journal notes.
pub enum Note {
    /// A write was admitted, of this peer and with this Message ID.
    Admitted(Peer, u16),
    /// The admission of this place was answered with these octets.
    Settled(u64, LinkedList<u8>),
    /// The admission of this place ended because memory ran out.
    Failed(u64),
    /// A change was accepted.
    Entered(Entry),
    /// A block of an upload arrived (RFC 7959 section 2.5).
    Piece {
        /// The peer that sent it.
        peer: Peer,
        /// The key of its request.
        key: LinkedList<u8>,
        /// The block's number.
        number: u32,
        /// The block's octets.
        octets: LinkedList<u8>,
    },
    /// The upload with this peer and request key is complete.
    Finished(Peer, LinkedList<u8>),
    /// An answer was kept for its later blocks (RFC 7959 section 2.4).
    Kept {
        /// The peer that sent the request.
        peer: Peer,
        /// The key of the request.
        key: LinkedList<u8>,
        /// The whole body.
        body: LinkedList<u8>,
        /// Its entity tag.
        tag: LinkedList<u8>,
    },
    /// The kept answer with this peer and request key was read.
    Used(Peer, LinkedList<u8>),
    /// An observer was added.
    Watched(Observer),
    /// The observer with this peer and token was removed.
    Unwatched(Peer, LinkedList<u8>),
    /// A body was built for an observer (RFC 7641 section 4.2).
    Formed {
        /// The observer's peer.
        peer: Peer,
        /// The observer's token.
        token: LinkedList<u8>,
        /// The whole body.
        body: LinkedList<u8>,
        /// The Message ID of the notification, or none if a response carried the body.
        mid: Option<u16>,
    },
    /// The observer with this peer and token was due, and its listing was found unchanged.
    Unchanged(Peer, LinkedList<u8>),
    /// The notification with this peer and Message ID was retransmitted.
    Again(Peer, u16),
    /// The notification with this peer and Message ID was acknowledged.
    Landed(Peer, u16),
    /// A fetch requested a block from its peer (RFC 9176 section 5.1).
    Asked {
        /// The peer whose links are fetched.
        peer: Peer,
        /// The token of the fetch.
        token: LinkedList<u8>,
        /// The Message ID of the request.
        mid: u16,
        /// The parameters of the registration that the fetch is for.
        params: RegParams,
        /// The block's number.
        number: u32,
    },
    /// A block of a fetched body arrived.
    Gathered {
        /// The peer whose links are fetched.
        peer: Peer,
        /// The block's octets.
        octets: LinkedList<u8>,
        /// The entity tag of its response, if it had one.
        tag: Option<LinkedList<u8>>,
    },
    /// The last request of this peer's fetch was retransmitted.
    Resent(Peer),
    /// The last request of this peer's fetch was acknowledged. A separate response is to follow.
    Waiting(Peer),
    /// The fetch of this peer ended.
    Ceased(Peer),
    /// This peer was challenged to return this value (RFC 9175 section 2.3).
    Challenged(Peer, LinkedList<u8>),
}
