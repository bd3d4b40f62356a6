//! Why the program stops before the end of the trace.

use rd_base::Starved;
use std::io::{self, ErrorKind};
use trace_replay::Status;

/// Why the program stops before the whole trace is shown.
#[derive(Clone, Copy, Debug, PartialEq, Eq)]
pub(crate) enum Stop {
    /// The trace cannot be read.
    ReadFault,
    /// The conversation cannot be written.
    WriteFault,
    /// The reader of the conversation has closed it.
    ReaderGone,
    /// Memory ran out.
    Starved,
}

impl From<Starved> for Stop {
    fn from(_: Starved) -> Stop {
        Stop::Starved
    }
}

impl From<io::Error> for Stop {
    fn from(error: io::Error) -> Stop {
        match error.kind() {
            ErrorKind::BrokenPipe => Stop::ReaderGone,
            ErrorKind::OutOfMemory => Stop::Starved,
            _ => Stop::WriteFault,
        }
    }
}

impl Stop {
    /// Returns how the program ends. It is done if the reader has closed the conversation.
    pub(crate) fn status(self) -> Status {
        match self {
            Stop::ReadFault => Status::ReadFault,
            Stop::WriteFault => Status::WriteFault,
            Stop::ReaderGone => Status::Done,
            Stop::Starved => Status::Memory,
        }
    }
}
