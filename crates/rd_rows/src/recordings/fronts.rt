//! The prefixes of a file.

use super::runs::run;
use crate::faults::Fault;
use rd_base::Starved;
use std::alloc::Global;

/// How the result of a prefix ends.
#[derive(Clone, Copy, Debug, PartialEq, Eq)]
struct Ending {
    /// The status.
    code: u8,
    /// The number of lines of the output.
    lines: usize,
    /// The number of lines of the error text.
    said: usize,
}

/// Returns the number of line feeds in octets.
fn lines_of(octets: &[u8]) -> usize {
    octets.iter().filter(|octet| **octet == b'\n').count()
}

/// Returns how the result of a prefix ends.
fn ending_of(alloc: Global, words: &[String], front: &[u8]) -> Result<Ending, Starved> {
    let run = run(alloc, words, front)?;
    Ok(Ending {
        code: run.status.code(),
        lines: lines_of(run.out.as_slice()),
        said: lines_of(run.err.as_slice()),
    })
}

/// Returns how the result of each prefix of a file ends, if it does not end as that of the prefix
/// with one octet less.
pub(crate) fn fronts_text(alloc: Global, words: &[String], file: &[u8]) -> Result<String, Fault> {
    let mut text = String::new(alloc);
    let mut last = None;
    'fronts: for length in 0..=file.len() {
        let ending = ending_of(alloc, words, &file[..length])?;
        if last == Some(ending) {
            continue;
        }
        last = Some(ending);
        let Ending { code, lines, said } = ending;
        writeln!(
            text,
            "from {length}: status {code}, {lines} lines, {said} said"
        )?;
    }
    Ok(text)
}
