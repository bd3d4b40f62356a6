//! A case, run as a whole and, if it is a story, step by step.

use crate::came::Came;
use crate::case::{Case, Kind};
use crate::faults::{Fault, text_of};
use crate::reading::read_case;
use crate::stories::check_steps;
use rd_base::{Bytes, MemSink, MemSource};
use std::alloc::Global;
use trace_replay::{Status, replay};

/// Returns the status of a replay and its error text, as a case writes them; nothing if all is
/// well.
fn status_text(alloc: Global, status: Status, said: &[u8]) -> Result<String, Fault> {
    if status == Status::Done && said.is_empty() {
        return Ok(String::new(alloc));
    }
    let code = status.code();
    let said = String::from_utf8_lossy(alloc, said)?;
    Ok(format!(in alloc; "status {code} {said}")?)
}

/// Replays the trace of a case over ends in memory. Returns the actual lines and the status.
fn replayed(alloc: Global, case: &Case) -> Result<(Came, Status), Fault> {
    let trace = Bytes::copy_of(alloc, case.trace.as_bytes())?;
    let mut source = MemSource::of(trace, Bytes::new(alloc));
    let mut out = MemSink::of(alloc, Bytes::new(alloc));
    let mut err = MemSink::of(alloc, Bytes::new(alloc));
    let status = replay(
        alloc,
        case.words.as_slice(),
        &mut source,
        &mut out,
        &mut err,
    );
    let mut came = Came::new(alloc);
    came.add(out.as_slice())?;
    came.add(status_text(alloc, status, err.as_slice())?.as_bytes())?;
    Ok((came, status))
}

/// Returns the number of the bad line of the trace, if there is one.
fn bad_line(status: Status) -> Option<u64> {
    match status {
        Status::Line(bad) => Some(bad.line),
        _ => None,
    }
}

/// Compares the lines of a case.
fn check_lines(case: &Case, came: &mut Came) -> Result<(), Fault> {
    let mut last = 0;
    'lines: for line in case.lines.iter() {
        last = line.number;
        if line.kind == Kind::Output {
            came.tell(line)?;
        }
    }
    came.end(last)
}

/// Runs the case in a text. Returns `Differs` with the first line that is not as expected.
fn check(alloc: Global, text: &str) -> Result<(), Fault> {
    let case = read_case(alloc, text)?;
    let (mut came, status) = replayed(alloc, &case)?;
    check_lines(&case, &mut came)?;
    if case.is_story {
        check_steps(alloc, &case, bad_line(status))?;
    }
    Ok(())
}

/// Runs the case with this name, which is that of its file without `.case`.
///
/// # Errors
///
/// `Unread` if the file cannot be read as text; `Form` if it is not a case; `Differs` with the
/// first line that is not as expected; `Starved` if memory runs out.
pub fn check_file(rt: &HostRuntime, name: &str) -> Result<(), Fault> {
    let path = format!(in rt.alloc(); "{name}.case")?;
    let text = text_of(rt, path.as_str())?;
    check(rt.alloc(), text.as_str())
}
