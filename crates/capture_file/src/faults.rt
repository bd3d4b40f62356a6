//! Why a packet or a capture is not read.

use rd_base::Starved;
use std::alloc::{AllocError, AllocFailed};

/// Why a packet is not read. The capture goes on after it.
#[derive(Clone, Copy, Debug, PartialEq, Eq)]
pub enum PacketFault {
    /// It was captured over an interface that the capture does not describe.
    Interface,
    /// Its link type is not one that is read.
    LinkLayer,
    /// It has fewer octets than its headers say.
    Cut,
    /// It is of another version of the Internet Protocol than its link layer says, or of none.
    Version,
    /// It is a fragment.
    Fragment,
    /// A length in its headers is less than that of the header itself.
    Length,
    /// More octets of it were captured than are stored.
    TooLong,
}

/// Why a capture is not read any further.
#[derive(Clone, Copy, Debug, PartialEq, Eq)]
pub enum CaptureFault {
    /// It does not begin as a capture does.
    NoCapture,
    /// A block has a length that no block has, or is a section of an unknown form.
    Block,
    /// Memory ran out.
    Starved,
}

impl From<Starved> for CaptureFault {
    fn from(_: Starved) -> CaptureFault {
        CaptureFault::Starved
    }
}

impl From<AllocError> for CaptureFault {
    fn from(_: AllocError) -> CaptureFault {
        CaptureFault::Starved
    }
}

impl<T: Drop> From<AllocFailed<T>> for CaptureFault {
    fn from(_: AllocFailed<T>) -> CaptureFault {
        CaptureFault::Starved
    }
}
