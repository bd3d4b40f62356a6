//! Lists of lines, with the expected results of all of them in a file alongside.

use crate::came::Came;
use crate::faults::{Fault, text_of};
use crate::{desks, recordings, talks};
use std::alloc::Global;
use std::sync::Wait;

/// Returns the actual results of the lines of a list, or `Kind` if there is no such kind of list.
fn coming<R: Wait + AllocGlobal>(
    rt: &HostRuntime,
    waits: &R,
    kind: &str,
    file: &str,
    lines: &str,
) -> Result<String, Fault> {
    match kind {
        "desks" => Ok(desks::coming(rt.alloc(), lines)?),
        "talks" => Ok(talks::coming(waits, lines)?),
        "recordings" => recordings::coming(rt, file, lines),
        _ => Err(Fault::Kind),
    }
}

/// Compares the actual results with the expected ones. Returns `Differs` with the first line that
/// is not the same.
fn compare(alloc: Global, written: &str, text: &str) -> Result<(), Fault> {
    let mut came = Came::new(alloc);
    came.add(text.as_bytes())?;
    let mut number = 0u64;
    'lines: for line in written.lines() {
        number = number.saturating_add(1);
        came.tell_line(number, line)?;
    }
    came.end(number.saturating_add(1))
}

/// Runs the list in a file, which is of this kind.
///
/// # Errors
///
/// `Kind` if there is no such kind of list; `Form` if a line has none of the forms; `Unread` if a
/// file cannot be read; `Differs` with the first expected line that is not the actual one;
/// `Starved` if memory runs out.
pub fn check<R: Wait + AllocGlobal>(
    rt: &HostRuntime,
    waits: &R,
    kind: &str,
    file: &str,
) -> Result<(), Fault> {
    let lines = text_of(rt, file)?;
    let text = coming(rt, waits, kind, file, lines.as_str())?;
    let path = format!(in rt.alloc(); "{file}.out")?;
    let written = text_of(rt, path.as_str())?;
    compare(rt.alloc(), written.as_str(), text.as_str())
}
