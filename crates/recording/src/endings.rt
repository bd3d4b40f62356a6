//! How a run ends.

use capture_file::CaptureFault;
use rd_base::Starved;
use std::alloc::AllocError;
use trace_text::LineBad;

/// Why a run stops before the end of its input.
#[derive(Clone, Copy, Debug, PartialEq, Eq)]
pub(crate) enum Stop {
    /// The input is not a capture.
    NoCapture,
    /// A line is bad.
    Line(LineBad),
    /// Memory ran out.
    Starved,
}

impl From<Starved> for Stop {
    fn from(_: Starved) -> Stop {
        Stop::Starved
    }
}

impl From<AllocError> for Stop {
    fn from(_: AllocError) -> Stop {
        Stop::Starved
    }
}

/// How a run ends, with its exit status.
#[derive(Clone, Copy, Debug, PartialEq, Eq)]
pub enum Status {
    /// 0: the input was read to its end, or as far as possible, and all was written.
    Done,
    /// 1: the source failed.
    ReadFault,
    /// 2: the output failed.
    WriteFault,
    /// 3: the arguments are not those of the program.
    Usage,
    /// 4: the input is not a capture.
    NoCapture,
    /// 4: a line of the input is bad.
    Line(LineBad),
    /// 5: memory ran out.
    Memory,
}

impl Status {
    /// Returns the exit status of the program.
    pub fn code(&self) -> u8 {
        match self {
            Status::Done => 0,
            Status::ReadFault => 1,
            Status::WriteFault => 2,
            Status::Usage => 3,
            Status::NoCapture | Status::Line(_) => 4,
            Status::Memory => 5,
        }
    }
}

impl From<Stop> for Status {
    fn from(stop: Stop) -> Status {
        match stop {
            Stop::NoCapture => Status::NoCapture,
            Stop::Line(bad) => Status::Line(bad),
            Stop::Starved => Status::Memory,
        }
    }
}
