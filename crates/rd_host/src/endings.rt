//! How the program ends.
use hosting::{Crew, Failure};
use rd_base::Starved;
use rd_server::{ServeStatus, WordsFault};
use std::alloc::AllocError;
use std::io::Write;
use std::process::ExitCode;

/// How the program ends.
#[derive(Debug, Drop)]
pub(crate) enum Ending {
    /// The program printed a text about itself, or served to the end.
    Done,
    /// The program failed before that.
    Failed(Failure),
}

impl From<WordsFault> for Ending {
    fn from(fault: WordsFault) -> Ending {
        Ending::Failed(match fault {
            WordsFault::Usage => Failure::Unread,
            WordsFault::Starved => Failure::Memory,
        })
    }
}

impl From<Failure> for Ending {
    fn from(failure: Failure) -> Ending {
        Ending::Failed(failure)
    }
}

impl From<Starved> for Ending {
    fn from(_: Starved) -> Ending {
        Ending::Failed(Failure::Memory)
    }
}

impl From<AllocError> for Ending {
    fn from(_: AllocError) -> Ending {
        Ending::Failed(Failure::Memory)
    }
}

impl Ending {
    /// Returns how the program ends after the server ended with this status and its links with this
    /// trouble.
    pub(crate) fn of(status: ServeStatus, crew: &Crew) -> Ending {
        match status {
            ServeStatus::Done => Ending::Done,
            ServeStatus::Link => Ending::Failed(Failure::Link(crew.trouble())),
            ServeStatus::Write => Ending::Failed(Failure::Write),
            ServeStatus::Memory => Ending::Failed(Failure::Memory),
        }
    }

    /// Prints on standard error why the program failed, if it did, and returns its exit status.
    pub(crate) fn exit(self, rt: &HostRuntime) -> ExitCode {
        let Ending::Failed(failure) = self else {
            return ExitCode::from(0);
        };
        let mut err = rt.stderr();
        let _ = match failure.line(rt.alloc()) {
            Ok(line) => err.write_all(line.as_bytes()),
            Err(Starved) => err.write_all(failure.short_line().as_bytes()),
        };
        ExitCode::from(failure.status())
    }
}
