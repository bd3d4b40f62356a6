//! How a list ends.
ghost use Rattle.std.specs.Prelude.{◌≡◌};

use crate::AskLine;

/// How a list ends, with its exit status.
#[derive(Clone, Copy, Debug, PartialEq, Eq)]
pub enum CommissionStatus {
    /// 0: the list was read to its end, no line is bad, each request has an outcome, all was
    /// written.
    Done,
    /// 1: the source failed.
    ReadFault,
    /// 2: the output failed.
    WriteFault,
    /// 3: an argument was given.
    Usage,
    /// 4: the line with this number, from 1, is bad.
    Line(u64, AskLine),
    /// 5: memory ran out.
    Memory,
    /// 6: a receive of the link failed.
    Link,
}

impl CommissionStatus {
    ghost use Rattle.commission_list.specs.Endings.{code_of};

    /// Returns the exit status of the program.
    pub fn code(&self) -> u8
        ensures { result ≡ code_of self.now }
    {
        match self {
            CommissionStatus::Done => 0,
            CommissionStatus::ReadFault => 1,
            CommissionStatus::WriteFault => 2,
            CommissionStatus::Usage => 3,
            CommissionStatus::Line(_, _) => 4,
            CommissionStatus::Memory => 5,
            CommissionStatus::Link => 6,
        }
    }
}
