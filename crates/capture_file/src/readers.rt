//! Captures, read part by part: classic captures (draft-ietf-opsawg-pcap) and captures of blocks
//! (draft-ietf-opsawg-pcapng).
ghost use Rattle.std.specs.Prelude.{◌<◌, ◌≤◌, IfSome};

use crate::blocks::{
    Block, BlockPacket, SECTION_HEADER, enhanced_packet, obsolete_packet, simple_frame,
};
use crate::faults::{CaptureFault, PacketFault};
use crate::interfaces::{Interface, interface_of};
use crate::link_layers::LinkType;
use crate::numbers::{ByteOrder, number16_at, number32_at, octets_at};
use crate::packets::Found;
use crate::times::Resolution;
use rd_base::Moment;
use std::alloc::Global;

/// The maximum number of octets of a part that [`Reader::read`] reads: its first.
pub const MAX_PART: usize = 1 << 20;

/// The magic number of a classic capture.
const CLASSIC: u32 = 0xa1b2_c3d4;

/// The magic number of a classic capture whose times have nanoseconds.
const CLASSIC_NANOSECONDS: u32 = 0xa1b2_3c4d;

/// The major version of a classic capture.
const CLASSIC_VERSION: u16 = 2;

/// The number of possible link types.
const LINK_TYPES: u32 = 0x1_0000;

/// The byte-order magic of a section.
const BYTE_ORDER_MAGIC: u32 = 0x1a2b_3c4d;

/// The major version of a section.
const SECTION_VERSION: u16 = 1;

/// The length in octets of the number that begins a file or a block, and of the length of a block.
const NUMBER: usize = 4;

/// The length in octets of the header of a classic capture after its magic number.
const FILE_HEADER: usize = 20;

/// The length in octets of the header of a packet of a classic capture.
const RECORD_HEADER: usize = 16;

/// The length in octets of the length and the byte order of a section.
const SECTION_START: usize = 8;

/// The minimum length of a block in octets: its type, and its length at both ends.
const LEAST_BLOCK: u32 = 12;

/// The minimum length of a section header block in octets.
const LEAST_SECTION: u32 = 28;

/// The number of octets of a block before its body: its type and its length.
const BLOCK_START: u32 = 8;

/// The number of octets of a section header block before its version: its type, its length and its
/// byte order.
const SECTION_BEGIN: u32 = 12;

/// The number of octets of which the length of a block is a multiple.
const ALIGNMENT: u32 = 4;

/// The kind of the next part.
#[derive(Clone, Copy, Debug)]
enum Part {
    /// The number that a file begins with.
    Magic,
    /// The header of a classic capture, after its magic number.
    FileHeader(Resolution),
    /// The header of a packet of a classic capture.
    RecordHeader,
    /// A packet of a classic capture, captured at this moment.
    Record(Moment),
    /// The type of a block.
    BlockType,
    /// The length and the byte order of a section.
    SectionStart,
    /// The length of a block.
    BlockLength(Block),
    /// The body of a block after its length, and its length again.
    Body(Block),
}

/// Returns the byte order in which the first octets are this number, or `None` if there is none.
fn order_of(number: u32, octets: &[u8]) -> Option<ByteOrder> {
    let (found, _) = number32_at(ByteOrder::BigEndian, octets)?;
    if found == number {
        return Some(ByteOrder::BigEndian);
    }
    if found.swap_bytes() == number {
        return Some(ByteOrder::LittleEndian);
    }
    None
}

/// Returns how many octets of a block of this length are left after `read` octets. Returns `None`
/// if it is shorter than `least`, or no block has this length.
fn left_of_block(length: u32, least: u32, read: u32) -> Option<usize>
    requires { read < least }
    ensures { IfSome result (λ left. 1 ≤ left) }
{
    if length < least || length % ALIGNMENT != 0 {
        return None;
    }
    Some((length - read) as usize)
}

/// A reader of a capture, part by part. [`Reader::wanted`] returns the length of the next part, and
/// [`Reader::read`] reads it.
#[derive(Drop)]
pub struct Reader {
    /// The byte order of the file or the section.
    order: ByteOrder,
    /// The interfaces of the file or the section, by number from 0.
    interfaces: Vec<Interface>,
    /// The moment of the last packet that has one.
    latest: Moment,
    /// Whether the header of the file was read.
    is_capture: bool,
    /// The kind of the next part.
    part: Part,
    /// The length of the next part in octets.
    wanted: usize,
    ghost present: { 1 ≤ wanted },
}

impl Reader {
    /// Creates a reader at the beginning of a file.
    pub fn new(alloc: Global) -> Reader {
        Reader {
            order: ByteOrder::BigEndian,
            interfaces: Vec::new(alloc),
            latest: Moment(0),
            is_capture: false,
            part: Part::Magic,
            wanted: NUMBER,
        }
    }

    /// Returns the length of the next part in octets, at least one.
    pub fn wanted(&self) -> usize
        ensures { 1 ≤ result }
    {
        self.wanted
    }

    /// Returns whether what was read so far begins a capture.
    pub fn is_capture(&self) -> bool {
        self.is_capture
    }

    /// Returns whether a capture may end before the next part.
    pub fn may_end(&self) -> bool {
        match self.part {
            Part::RecordHeader | Part::BlockType => true,
            _ => false,
        }
    }

    /// Sets the kind and the length of the next part.
    fn set_next(&mut self, part: Part, wanted: usize)
        requires { 1 ≤ wanted }
    {
        self.part = part;
        self.wanted = wanted;
    }

    /// Reads the magic number of a file.
    fn read_magic(&mut self, part: &[u8]) -> Result<(), CaptureFault> {
        if order_of(SECTION_HEADER, part).is_some() {
            self.set_next(Part::SectionStart, SECTION_START);
            return Ok(());
        }
        if let Some(order) = order_of(CLASSIC, part) {
            self.order = order;
            self.set_next(Part::FileHeader(Resolution::MICROSECONDS), FILE_HEADER);
            return Ok(());
        }
        if let Some(order) = order_of(CLASSIC_NANOSECONDS, part) {
            self.order = order;
            self.set_next(Part::FileHeader(Resolution::NANOSECONDS), FILE_HEADER);
            return Ok(());
        }
        Err(CaptureFault::NoCapture)
    }

    /// Returns the interface of the header of a classic capture (draft-ietf-opsawg-pcap section 4),
    /// or `None` if the header is cut or of another version.
    fn classic_interface(&self, resolution: Resolution, part: &[u8]) -> Option<Interface> {
        let (version, rest) = number16_at(self.order, part)?;
        let (_, rest) = number16_at(self.order, rest)?;
        let (_, rest) = number32_at(self.order, rest)?;
        let (_, rest) = number32_at(self.order, rest)?;
        let (snap_length, rest) = number32_at(self.order, rest)?;
        let (link_type, _) = number32_at(self.order, rest)?;
        if version != CLASSIC_VERSION {
            return None;
        }
        Some(Interface {
            // The upper bits say how a frame is checked.
            link_type: LinkType::of((link_type % LINK_TYPES) as u16),
            snap_length,
            resolution,
            offset: 0,
        })
    }

    /// Reads the header of a classic capture.
    fn read_file_header(
        &mut self,
        resolution: Resolution,
        part: &[u8],
    ) -> Result<(), CaptureFault> {
        let Some(interface) = self.classic_interface(resolution, part) else {
            return Err(CaptureFault::NoCapture);
        };
        self.interfaces.push(interface)?;
        self.is_capture = true;
        self.set_next(Part::RecordHeader, RECORD_HEADER);
        Ok(())
    }

    /// Returns the interface with this number.
    fn interface(&self, number: u32) -> Option<Interface> {
        self.interfaces.get(number as usize).copied()
    }

    /// Returns the moment of a packet of a classic capture, and the number of its octets that were
    /// captured (draft-ietf-opsawg-pcap section 5). Returns `None` if the header is cut.
    fn record_header(&self, part: &[u8]) -> Option<(Moment, u32)> {
        let (seconds, rest) = number32_at(self.order, part)?;
        let (fraction, rest) = number32_at(self.order, rest)?;
        let (captured, _) = number32_at(self.order, rest)?;
        let resolution = self.interface(0)?.resolution;
        let moment = Moment(resolution.with_seconds(seconds, fraction));
        Some((moment, captured))
    }

    /// Reads the header of a packet of a classic capture.
    fn read_record_header(&mut self, part: &[u8]) -> Found<'static> {
        let Some((moment, captured)) = self.record_header(part) else {
            return Found::Unread(PacketFault::Cut);
        };
        if captured == 0 {
            return Found::Unread(PacketFault::Cut);
        }
        self.set_next(Part::Record(moment), captured as usize);
        Found::NoPacket
    }

    /// Returns a packet of an interface.
    fn found<'p>(&self, interface: u32, moment: Moment, frame: &'p [u8]) -> Found<'p> {
        match self.interface(interface) {
            Some(interface) => interface.packet(moment, frame),
            None => Found::Unread(PacketFault::Interface),
        }
    }

    /// Reads a packet of a classic capture.
    fn read_record<'p>(&mut self, moment: Moment, part: &'p [u8]) -> Found<'p> {
        let is_whole = self.wanted == part.len();
        self.set_next(Part::RecordHeader, RECORD_HEADER);
        if !is_whole {
            return Found::Unread(PacketFault::TooLong);
        }
        self.found(0, moment, part)
    }

    /// Reads the type of a block.
    fn read_block_type(&mut self, part: &[u8]) {
        let number = number32_at(self.order, part).map_or(0, |read| read.0);
        match Block::of(number) {
            Block::Section => self.set_next(Part::SectionStart, SECTION_START),
            block => self.set_next(Part::BlockLength(block), NUMBER),
        }
    }

    /// Returns why a section or a block cannot be read.
    fn fault(&self) -> CaptureFault {
        if self.is_capture {
            CaptureFault::Block
        } else {
            CaptureFault::NoCapture
        }
    }

    /// Returns the byte order of a section, and how many octets of its header are left. Returns
    /// `None` if the part is cut, or does not belong to a section.
    fn section_start(part: &[u8]) -> Option<(ByteOrder, usize)>
        ensures { IfSome result (λ start. 1 ≤ start.1) }
    {
        let (length, rest) = octets_at(NUMBER, part)?;
        let order = order_of(BYTE_ORDER_MAGIC, rest)?;
        let (length, _) = number32_at(order, length)?;
        let left = left_of_block(length, LEAST_SECTION, SECTION_BEGIN)?;
        Some((order, left))
    }

    /// Reads the length and the byte order of a section.
    fn read_section_start(&mut self, part: &[u8]) -> Result<(), CaptureFault> {
        let Some((order, left)) = Reader::section_start(part) else {
            return Err(self.fault());
        };
        self.order = order;
        self.set_next(Part::Body(Block::Section), left);
        Ok(())
    }

    /// Reads the length of a block.
    fn read_block_length(&mut self, block: Block, part: &[u8]) -> Result<(), CaptureFault> {
        let length = number32_at(self.order, part).map_or(0, |read| read.0);
        let Some(left) = left_of_block(length, LEAST_BLOCK, BLOCK_START) else {
            return Err(self.fault());
        };
        self.set_next(Part::Body(block), left);
        Ok(())
    }

    /// Begins a section, in which no interface is described yet.
    fn read_section(&mut self, body: &[u8]) -> Result<(), CaptureFault> {
        match number16_at(self.order, body) {
            Some((SECTION_VERSION, _)) => {
                self.interfaces.clear();
                self.is_capture = true;
                Ok(())
            }
            _ => Err(self.fault()),
        }
    }

    /// Adds an interface. Returns `Block` if its description is cut.
    fn read_interface(&mut self, body: &[u8]) -> Result<(), CaptureFault> {
        match interface_of(self.order, body) {
            Some(interface) => Ok(self.interfaces.push(interface)?),
            None => Err(CaptureFault::Block),
        }
    }

    /// Returns the packet of a block; a packet that is not read if it is cut.
    fn found_packet<'p>(&mut self, packet: Option<BlockPacket<'p>>) -> Found<'p> {
        let Some(packet) = packet else {
            return Found::Unread(PacketFault::Cut);
        };
        let Some(interface) = self.interface(packet.interface) else {
            return Found::Unread(PacketFault::Interface);
        };
        self.latest = interface.moment(packet.ticks);
        interface.packet(self.latest, packet.frame)
    }

    /// Returns the packet of a simple packet block. It has no moment, and gets that of the packet
    /// before.
    fn found_simple<'p>(&self, body: &'p [u8]) -> Found<'p> {
        let Some(interface) = self.interface(0) else {
            return Found::Unread(PacketFault::Interface);
        };
        match simple_frame(self.order, interface.snap_length, body) {
            Some(frame) => interface.packet(self.latest, frame),
            None => Found::Unread(PacketFault::Cut),
        }
    }

    /// Reads a block without a packet.
    fn read_other(&mut self, block: Block, body: &[u8]) -> Result<Found<'static>, CaptureFault> {
        match block {
            Block::Section => self.read_section(body)?,
            Block::Interface => self.read_interface(body)?,
            _ => {}
        }
        Ok(Found::NoPacket)
    }

    /// Reads the body of a block, followed by its length again.
    fn read_body<'p>(&mut self, block: Block, part: &'p [u8]) -> Result<Found<'p>, CaptureFault> {
        let is_whole = self.wanted == part.len();
        self.set_next(Part::BlockType, NUMBER);
        let body = &part[..part.len().saturating_sub(NUMBER)];
        match block {
            Block::Packet | Block::SimplePacket | Block::EnhancedPacket if !is_whole => {
                Ok(Found::Unread(PacketFault::TooLong))
            }
            Block::Packet => {
                let packet = obsolete_packet(self.order, body);
                Ok(self.found_packet(packet))
            }
            Block::EnhancedPacket => {
                let packet = enhanced_packet(self.order, body);
                Ok(self.found_packet(packet))
            }
            Block::SimplePacket => Ok(self.found_simple(body)),
            Block::Section | Block::Interface | Block::Other => self.read_other(block, body),
        }
    }

    /// Reads the next part: its octets, or the first [`MAX_PART`] of them if it has more.
    ///
    /// After an error, the reader must not be used any more.
    ///
    /// # Errors
    ///
    /// - `NoCapture` if what was read does not begin as a capture does.
    /// - `Block` if a block has a length that no block has, or a section is of an unknown version.
    ///   Also if the description of an interface is cut. What follows such a block cannot be found.
    /// - `Starved` if memory runs out.
    pub fn read<'p>(&mut self, part: &'p [u8]) -> Result<Found<'p>, CaptureFault> {
        match self.part {
            Part::Magic => self.read_magic(part)?,
            Part::FileHeader(resolution) => self.read_file_header(resolution, part)?,
            Part::RecordHeader => return Ok(self.read_record_header(part)),
            Part::Record(moment) => return Ok(self.read_record(moment, part)),
            Part::BlockType => self.read_block_type(part),
            Part::SectionStart => self.read_section_start(part)?,
            Part::BlockLength(block) => self.read_block_length(block, part)?,
            Part::Body(block) => return self.read_body(block, part),
        }
        Ok(Found::NoPacket)
    }
}
