//! How an installation ends.
ghost use Rattle.std.specs.Prelude.{◌≡◌};

use crate::LineBad;

/// How an installation ends, with its exit status.
#[derive(Clone, Copy, Debug, PartialEq, Eq)]
pub enum InstallStatus {
    /// 0: every line of the list succeeded.
    Done,
    /// 1: some line of the list did not succeed.
    Undone,
    /// 2: the output could not be written.
    Write,
    /// 3: the program does not know these arguments.
    Usage,
    /// 4: the list could not be read.
    Unread,
    /// 4: the line of the list with this number, from 1, is bad.
    Line(u64, LineBad),
    /// 5: memory ran out.
    Memory,
    /// 6: a receive failed.
    Link,
}

impl InstallStatus {
    ghost use Rattle.install_list.specs.Endings.{code_of};

    /// Returns the exit status of the program.
    pub fn code(&self) -> u8
        ensures { result ≡ code_of self.now }
    {
        match self {
            InstallStatus::Done => 0,
            InstallStatus::Undone => 1,
            InstallStatus::Write => 2,
            InstallStatus::Usage => 3,
            InstallStatus::Unread => 4,
            InstallStatus::Line(_, _) => 4,
            InstallStatus::Memory => 5,
            InstallStatus::Link => 6,
        }
    }
}
