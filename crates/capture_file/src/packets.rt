//! Captured packets.

use crate::faults::PacketFault;
use crate::link_layers::LinkType;
use rd_base::Moment;

/// A captured packet.
#[derive(Clone, Copy, Debug)]
pub struct Packet<'p> {
    /// The moment at which it was captured, in milliseconds since 1970.
    pub moment: Moment,
    /// The link type of its beginning.
    pub link_type: LinkType,
    /// Its octets, as far as they were captured.
    pub frame: &'p [u8],
}

/// The content of a part of a capture.
#[derive(Clone, Copy, Debug)]
pub enum Found<'p> {
    /// A header, or a block without a packet.
    NoPacket,
    /// A packet.
    Packet(Packet<'p>),
    /// A packet that is not read, and the reason.
    Unread(PacketFault),
}
