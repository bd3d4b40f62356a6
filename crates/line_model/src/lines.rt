//! The lines of a trace, and the reasons why a line is bad.
use rd_base::{Bytes, Moment, Peer};

/// A line of a trace.
#[derive(Debug, Drop)]
pub enum Line {
    /// A datagram that arrives at a worker.
    Come {
        /// The worker.
        worker: u8,
        /// The moment of its arrival, in milliseconds.
        moment: Moment,
        /// The peer that sent it.
        peer: Peer,
        /// Its octets.
        datagram: Bytes,
        /// The random word of the step, which determines initial timeouts and challenges.
        word: u32,
    },
    /// A worker that does the job that it holds, and the moment in milliseconds.
    Go(u8, Moment),
    /// A worker that lets time pass.
    Tick {
        /// The worker.
        worker: u8,
        /// The moment, in milliseconds.
        moment: Moment,
        /// The random word of the step, which determines initial timeouts.
        word: u32,
    },
    /// A run that begins at a worker.
    Begin {
        /// The worker.
        worker: u8,
        /// The moment, in milliseconds.
        moment: Moment,
        /// The number above which registrations are numbered and changes counted from then on.
        first: u64,
    },
}

/// The reason why a line is bad: the first of these that applies.
#[derive(Clone, Copy, Debug, PartialEq, Eq)]
pub enum Reason {
    /// The line is too long.
    Long,
    /// The line has none of the four forms.
    Form,
    /// The line names a worker that does not exist.
    Worker,
    /// A datagram arrives at a worker that holds a job.
    Busy,
}

/// The first bad line of a trace: its number, from 1, and the reason.
#[derive(Clone, Copy, Debug, PartialEq, Eq)]
pub struct LineBad {
    /// The number of the line.
    pub line: u64,
    /// The reason.
    pub why: Reason,
}
