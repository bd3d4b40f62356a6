//! The interfaces over which packets were captured (draft-ietf-opsawg-pcapng section 4.2).
ghost use Rattle.std.specs.Prelude.{◌+◌, ◌≤◌, length, IfSome};

use crate::link_layers::LinkType;
use crate::numbers::{ByteOrder, number16_at, number32_at, number64_at, octets_at};
use crate::packets::{Found, Packet};
use crate::times::{Resolution, moved};
use rd_base::Moment;

/// The option that gives the resolution of an interface's times (if_tsresol).
const TIME_RESOLUTION: u16 = 9;

/// The option that gives the seconds to add to an interface's times (if_tsoffset).
const TIME_OFFSET: u16 = 14;

/// The option that ends the options (opt_endofopt).
const END_OF_OPTIONS: u16 = 0;

/// The number of octets to whose multiples the value of an option is filled up.
const ALIGNMENT: usize = 4;

/// An interface over which packets were captured.
#[derive(Clone, Copy, Debug)]
pub(crate) struct Interface {
    /// The link type of its packets.
    pub link_type: LinkType,
    /// The maximum number of octets that were captured of a packet, or 0 if all were.
    pub snap_length: u32,
    /// The resolution of its times.
    pub resolution: Resolution,
    /// The number of seconds to add to its times.
    pub offset: i64,
}

/// An option of a block (draft-ietf-opsawg-pcapng section 3.5).
#[derive(Clone, Copy, Debug)]
struct BlockOption<'p> {
    /// The code of the option.
    code: u16,
    /// The value, without the octets that fill it up.
    value: &'p [u8],
}

/// Returns the option at the beginning of octets and the rest, or `None` if it is cut.
fn option_at(order: ByteOrder, octets: &[u8]) -> Option<(BlockOption<'_>, &[u8])>
    ensures { IfSome result (λ read. length read.1.now + 4 ≤ length octets.now) }
{
    let (code, rest) = number16_at(order, octets)?;
    let (length, rest) = number16_at(order, rest)?;
    let length = usize::from(length);
    let (filled, rest) = octets_at(length.next_multiple_of(ALIGNMENT), rest)?;
    let (value, _) = octets_at(length, filled)?;
    Some((BlockOption { code, value }, rest))
}

impl Interface {
    /// Returns the moment of a time of this interface.
    pub(crate) fn moment(&self, ticks: u64) -> Moment {
        Moment(moved(self.resolution.milliseconds(ticks), self.offset))
    }

    /// Returns a packet of this interface.
    pub(crate) fn packet<'p>(&self, moment: Moment, frame: &'p [u8]) -> Found<'p> {
        Found::Packet(Packet {
            moment,
            link_type: self.link_type,
            frame,
        })
    }

    /// Applies an option to this interface.
    fn set_option(&mut self, order: ByteOrder, option: BlockOption<'_>) {
        match option.code {
            TIME_RESOLUTION => {
                if let Some(octet) = option.value.first() {
                    self.resolution = Resolution::of(*octet);
                }
            }
            TIME_OFFSET => {
                if let Some((seconds, _)) = number64_at(order, option.value) {
                    self.offset = seconds.cast_signed();
                }
            }
            _ => {}
        }
    }

    /// Applies options to this interface, up to their end or to one that is cut.
    fn set_options(&mut self, order: ByteOrder, options: &[u8]) {
        let mut rest = options;
        'options: while let Some((option, behind)) = option_at(order, rest) {
            if option.code == END_OF_OPTIONS {
                return;
            }
            self.set_option(order, option);
            rest = behind;
        }
    }
}

/// Returns the interface that a block describes, or `None` if the block is cut.
pub(crate) fn interface_of(order: ByteOrder, block: &[u8]) -> Option<Interface> {
    let (link_type, rest) = number16_at(order, block)?;
    let (_, rest) = number16_at(order, rest)?;
    let (snap_length, options) = number32_at(order, rest)?;
    let mut interface = Interface {
        link_type: LinkType::of(link_type),
        snap_length,
        resolution: Resolution::MICROSECONDS,
        offset: 0,
    };
    interface.set_options(order, options);
    Some(interface)
}
