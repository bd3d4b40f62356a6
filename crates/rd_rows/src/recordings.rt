//! Stored captures, with what `rd_capture` makes of them.
//!
//! `read FILE WORDS` gives the result of the file and these arguments; a capture is printed in
//! hexadecimal digits. `fronts FILE` gives how the result of each prefix of the file ends, if it
//! differs from that of the prefix with one octet less. `replay FILE WORDS` replays the trace of a
//! capture, and compares what the directory sends with what was captured.

mod case;
mod fronts;
mod replays;
mod runs;

use crate::faults::{Fault, octets_of};
use case::{Case, Verb};
use fronts::fronts_text;
use replays::replay_text;
use runs::run_text;

/// Returns the result of a case whose file is in a folder.
fn text_of(rt: &HostRuntime, folder: &str, case: &Case) -> Result<String, Fault> {
    let name = case.file.as_str();
    let path = format!(in rt.alloc(); "{folder}/{name}")?;
    let file = octets_of(rt, path.as_str())?;
    let file = file.as_slice();
    match case.verb {
        Verb::Read => run_text(rt.alloc(), case.words.as_slice(), file),
        Verb::Fronts => fronts_text(rt.alloc(), case.words.as_slice(), file),
        Verb::Replay => replay_text(rt.alloc(), case.words.as_slice(), file),
    }
}

/// Appends a line and its result.
fn add(
    rt: &HostRuntime,
    text: &mut String,
    folder: &str,
    number: u64,
    line: &str,
) -> Result<(), Fault> {
    let case = Case::read(rt.alloc(), number, line)?;
    let coming = text_of(rt, folder, &case)?;
    writeln!(text, "{line}")?;
    text.push_str(coming.as_str())?;
    Ok(())
}

/// Returns the results of the lines of a list, whose files are in the same folder. Empty lines and
/// those that begin with `#` are ignored. Returns `Form` with the number of a line that is not a
/// case.
pub(crate) fn coming(rt: &HostRuntime, list: &str, lines: &str) -> Result<String, Fault> {
    let (folder, _) = list.split_once('/').unwrap_or((".", list));
    let mut text = String::new(rt.alloc());
    let mut number = 0u64;
    'lines: for line in lines.lines() {
        number = number.saturating_add(1);
        if !line.is_empty() && !line.starts_with('#') {
            add(rt, &mut text, folder, number, line)?;
        }
    }
    Ok(text)
}
