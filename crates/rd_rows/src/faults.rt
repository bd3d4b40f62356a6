//! Why a case is not as expected.

use rd_base::Starved;
use std::alloc::{AllocError, AllocFailed};
use std::{fmt, fs, io};

/// Why a case is not as expected.
#[derive(Drop)]
pub enum Fault {
    /// Its file cannot be read as text.
    Unread,
    /// There is no such kind of list.
    Kind,
    /// This line of its file does not have the form of a case.
    Form(u64),
    /// This line of its file is not the actual line.
    Differs {
        /// The number of the line.
        line: u64,
        /// The expected line.
        written: String,
        /// The actual line.
        came: String,
    },
    /// Memory ran out.
    Starved,
}

impl From<Starved> for Fault {
    fn from(_: Starved) -> Fault {
        Fault::Starved
    }
}

impl From<AllocError> for Fault {
    fn from(_: AllocError) -> Fault {
        Fault::Starved
    }
}

impl<T: Drop> From<AllocFailed<T>> for Fault {
    fn from(_: AllocFailed<T>) -> Fault {
        Fault::Starved
    }
}

impl fmt::Display for Fault {
    fn fmt<W: fmt::Write>(&self, f: &mut fmt::Formatter<W>) -> fmt::Result {
        match self {
            Fault::Unread => write!(f, "its file cannot be read"),
            Fault::Kind => write!(f, "no kind of list"),
            Fault::Form(line) => write!(f, "line {line}: not the form of a case"),
            Fault::Differs {
                line,
                written,
                came,
            } => write!(f, "line {line}: written {written}, came {came}"),
            Fault::Starved => write!(f, "out of memory"),
        }
    }
}

/// Returns why a file could not be read: `Starved` if memory ran out, and `Unread` otherwise.
fn unread(error: &io::Error) -> Fault {
    match error.kind() {
        io::ErrorKind::OutOfMemory => Fault::Starved,
        _ => Fault::Unread,
    }
}

/// Returns the text of a file.
///
/// # Errors
///
/// `Unread` if the file cannot be read as text; `Starved` if memory runs out.
pub fn text_of(rt: &HostRuntime, path: &str) -> Result<String, Fault> {
    match fs::read_to_string(rt, path) {
        Ok(text) => Ok(text),
        Err(error) => Err(unread(&error)),
    }
}

/// Returns the octets of a file.
///
/// # Errors
///
/// `Unread` if the file cannot be read; `Starved` if memory runs out.
pub fn octets_of(rt: &HostRuntime, path: &str) -> Result<Vec<u8>, Fault> {
    match fs::read(rt, path) {
        Ok(octets) => Ok(octets),
        Err(error) => Err(unread(&error)),
    }
}
