//! Messages, named by their peer and their Message ID.

use coap_message::view;
use message_model::Kind4;
use rd_base::Peer;

/// The name of a message: its peer and its Message ID (RFC 7252 section 4.4).
#[derive(Clone, Copy, Debug, PartialEq, Eq, Hash)]
pub(crate) struct MessageName {
    /// Its sender, or its receiver if the directory sends it.
    pub peer: Peer,
    /// Its Message ID.
    pub mid: u16,
}

/// Returns the type and the name of the message in a datagram from or to a peer, or `None` if the
/// datagram is not a message.
fn named(peer: Peer, datagram: &[u8]) -> Option<(Kind4, MessageName)> {
    let message = view(datagram).ok()?;
    let mid = message.mid;
    Some((message.kind, MessageName { peer, mid }))
}

/// Returns the name of a message from a peer. Returns `None` if the datagram is not a message, or
/// for an acknowledgement or a Reset, whose Message ID its receiver drew (RFC 7252 section 4.2).
pub(crate) fn name_from(peer: Peer, datagram: &[u8]) -> Option<MessageName> {
    match named(peer, datagram)? {
        (Kind4::Con | Kind4::Non, name) => Some(name),
        _ => None,
    }
}

/// Returns the name of a message to a peer if it is confirmable; only such a message is
/// retransmitted (RFC 7252 section 4.2).
pub(crate) fn confirmable_to(peer: Peer, datagram: &[u8]) -> Option<MessageName> {
    match named(peer, datagram)? {
        (Kind4::Con, name) => Some(name),
        _ => None,
    }
}
