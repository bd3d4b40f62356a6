//! How a replay ends.
ghost use Rattle.std.specs.Prelude.{◌≡◌};

use trace_text::LineBad;

/// Why a replay stops before the trace is done.
#[derive(Clone, Copy, Debug, PartialEq, Eq)]
pub enum Stop {
    /// A line is bad.
    Bad(LineBad),
    /// The output failed.
    Unwritten,
    /// Memory ran out.
    Starved,
}

/// How the reading of a trace ends.
#[derive(Clone, Copy, Debug, PartialEq, Eq)]
pub enum Read {
    /// The trace was read to its end.
    End,
    /// The source failed.
    Failed,
    /// The replay stopped before.
    Stopped(Stop),
}

/// How a replay ends, with its exit status.
#[derive(Clone, Copy, Debug, PartialEq, Eq)]
pub enum Status {
    /// 0: the trace was read to its end, no line is bad and all was written.
    Done,
    /// 1: the source failed.
    ReadFault,
    /// 2: the output failed.
    WriteFault,
    /// 3: the arguments are not those of the program.
    Usage,
    /// 4: a line is bad.
    Line(LineBad),
    /// 5: memory ran out.
    Memory,
}

impl Status {
    ghost use Rattle.trace_replay.specs.Endings.{code_of};

    /// Returns the exit status of the program.
    pub fn code(&self) -> u8
        ensures { result ≡ code_of self.now }
    {
        match self {
            Status::Done => 0,
            Status::ReadFault => 1,
            Status::WriteFault => 2,
            Status::Usage => 3,
            Status::Line(_) => 4,
            Status::Memory => 5,
        }
    }
}
