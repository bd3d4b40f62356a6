//! The blocks of captures that contain packets (draft-ietf-opsawg-pcapng section 4).

use crate::numbers::{ByteOrder, joined, number16_at, number32_at, octets_at};

/// The type of a section header block, the same in either order of its octets.
pub(crate) const SECTION_HEADER: u32 = 0x0a0d_0d0a;

/// The type of an interface description block.
const INTERFACE_DESCRIPTION: u32 = 1;

/// The type of a packet block, which is obsolete.
const PACKET: u32 = 2;

/// The type of a simple packet block.
const SIMPLE_PACKET: u32 = 3;

/// The type of an enhanced packet block.
const ENHANCED_PACKET: u32 = 6;

/// The kind of a block.
#[derive(Clone, Copy, Debug, PartialEq, Eq)]
pub(crate) enum Block {
    /// A section header block.
    Section,
    /// An interface description block.
    Interface,
    /// A packet block.
    Packet,
    /// A simple packet block.
    SimplePacket,
    /// An enhanced packet block.
    EnhancedPacket,
    /// A block that is skipped.
    Other,
}

impl Block {
    /// Returns the kind of a block of this type.
    pub(crate) fn of(number: u32) -> Block {
        match number {
            SECTION_HEADER => Block::Section,
            INTERFACE_DESCRIPTION => Block::Interface,
            PACKET => Block::Packet,
            SIMPLE_PACKET => Block::SimplePacket,
            ENHANCED_PACKET => Block::EnhancedPacket,
            _ => Block::Other,
        }
    }
}

/// What a block says of its packet.
#[derive(Clone, Copy, Debug)]
pub(crate) struct BlockPacket<'p> {
    /// The number of its interface.
    pub interface: u32,
    /// The time at which it was captured, in ticks of the interface.
    pub ticks: u64,
    /// Its octets.
    pub frame: &'p [u8],
}

/// Returns the packet after the number of its interface, or `None` if it is cut.
fn timed_packet(order: ByteOrder, interface: u32, octets: &[u8]) -> Option<BlockPacket<'_>> {
    let (high, rest) = number32_at(order, octets)?;
    let (low, rest) = number32_at(order, rest)?;
    let (captured, rest) = number32_at(order, rest)?;
    let (_, rest) = number32_at(order, rest)?;
    let (frame, _) = octets_at(captured as usize, rest)?;
    Some(BlockPacket {
        interface,
        ticks: joined(high, low),
        frame,
    })
}

/// Returns the packet of an enhanced packet block (section 4.3), or `None` if it is cut.
pub(crate) fn enhanced_packet(order: ByteOrder, block: &[u8]) -> Option<BlockPacket<'_>> {
    let (interface, rest) = number32_at(order, block)?;
    timed_packet(order, interface, rest)
}

/// Returns the packet of a packet block (appendix A), or `None` if it is cut.
pub(crate) fn obsolete_packet(order: ByteOrder, block: &[u8]) -> Option<BlockPacket<'_>> {
    let (interface, rest) = number16_at(order, block)?;
    let (_, rest) = number16_at(order, rest)?;
    timed_packet(order, u32::from(interface), rest)
}

/// Returns the octets of the packet of a simple packet block (section 4.4), or `None` if they are
/// cut. At most `snap_length` of them were captured, or all if that is 0.
pub(crate) fn simple_frame(order: ByteOrder, snap_length: u32, block: &[u8]) -> Option<&[u8]> {
    let (original, rest) = number32_at(order, block)?;
    let captured = if snap_length == 0 {
        original
    } else {
        original.min(snap_length)
    };
    let (frame, _) = octets_at(captured as usize, rest)?;
    Some(frame)
}
