//! A run over a file in memory.

use crate::faults::Fault;
use rd_base::{Bytes, MemSink, MemSource, Starved};
use recording::{Status, record};
use std::alloc::Global;

/// The number of octets of a capture that are printed in a line.
const LINE: usize = 32;

/// The result of a run.
#[derive(Drop)]
pub(crate) struct Outcome {
    /// How it ended.
    pub status: Status,
    /// The output.
    pub out: MemSink,
    /// The error text.
    pub err: MemSink,
}

/// Returns a source of octets in memory.
pub(crate) fn source_of(alloc: Global, octets: &[u8]) -> Result<MemSource, Starved> {
    Ok(MemSource::of(Bytes::copy_of(alloc, octets)?, Bytes::new(alloc)))
}

/// Runs `record` with arguments over a file.
pub(crate) fn run(alloc: Global, words: &[String], file: &[u8]) -> Result<Outcome, Starved> {
    let mut source = source_of(alloc, file)?;
    let mut out = MemSink::of(alloc, Bytes::new(alloc));
    let mut err = MemSink::of(alloc, Bytes::new(alloc));
    let status = record(alloc, words, &mut source, &mut out, &mut err);
    Ok(Outcome { status, out, err })
}

/// Returns whether arguments ask for a capture.
fn are_for_capture(words: &[String]) -> bool {
    words.iter().any(|word| word.as_str() == "--pcap")
}

/// Appends octets in hexadecimal digits.
fn push_digits(text: &mut String, alloc: Global, octets: &[u8]) -> Result<(), Fault> {
    'lines: for line in octets.chunks(LINE) {
        let Ok(digits) = hex::encode(alloc, line) else {
            return Err(Fault::Starved);
        };
        text.push_str(digits.as_str())?;
        text.push('\n')?;
    }
    Ok(())
}

/// Appends text.
fn push_text(text: &mut String, alloc: Global, octets: &[u8]) -> Result<(), Fault> {
    let more = String::from_utf8_lossy(alloc, octets)?;
    Ok(text.push_str(more.as_str())?)
}

/// Returns the result of arguments and a file: the output, the error text, and the status.
pub(crate) fn run_text(alloc: Global, words: &[String], file: &[u8]) -> Result<String, Fault> {
    let run = run(alloc, words, file)?;
    let mut text = String::new(alloc);
    if are_for_capture(words) {
        push_digits(&mut text, alloc, run.out.as_slice())?;
    } else {
        push_text(&mut text, alloc, run.out.as_slice())?;
    }
    push_text(&mut text, alloc, run.err.as_slice())?;
    let code = run.status.code();
    writeln!(text, "status {code}")?;
    Ok(text)
}
