//! The trace of a capture, replayed and compared with what the server of the capture sent.

use super::runs::{run, source_of};
use crate::faults::Fault;
use rd_base::{Bytes, MemSink};
use std::alloc::Global;
use trace_replay::replay;

/// The argument with which the datagrams that were sent are written.
const REPLIES: &str = "--replies";

/// The argument with which each datagram is given to the worker that answered it.
const WORKERS: &str = "--workers";

/// The argument for the workers of a replay of such a trace: the maximum number of a server's
/// workers.
const SIXTEEN: &str = "--workers=16";

/// The beginning of the line of the output that no server sends.
const END: &str = "end ";

/// Returns the arguments of a replay of the trace that these arguments of `rd_capture` give.
fn replay_words(alloc: Global, words: &[String]) -> Result<Vec<String>, Fault> {
    let mut more = Vec::new(alloc);
    if words.iter().any(|word| word.as_str() == WORKERS) {
        more.push(String::from_str(alloc, SIXTEEN)?)?;
    }
    Ok(more)
}

/// Returns what the replay of a trace with these arguments writes.
fn replayed(alloc: Global, words: &[String], trace: &[u8]) -> Result<MemSink, Fault> {
    let mut source = source_of(alloc, trace)?;
    let mut out = MemSink::of(alloc, Bytes::new(alloc));
    let mut err = MemSink::of(alloc, Bytes::new(alloc));
    let _ = replay(alloc, words, &mut source, &mut out, &mut err);
    Ok(out)
}

/// Returns what the server of a capture sent, read with these arguments of `rd_capture`.
fn replies(alloc: Global, words: &[String], file: &[u8]) -> Result<MemSink, Fault> {
    let mut more = Vec::new(alloc);
    'words: for word in words {
        more.push(String::from_str(alloc, word.as_str())?)?;
    }
    more.push(String::from_str(alloc, REPLIES)?)?;
    let sent = run(alloc, more.as_slice(), file)?;
    Ok(sent.out)
}

/// Returns the number, from 1, of the first line in which what was sent and what a replay sends
/// differ, or `None` if they are the same. The line that ends the output of a replay is left out.
fn first_difference(sent: &str, replayed: &str) -> Option<u64> {
    let mut came = replayed.lines().filter(|line| !line.starts_with(END));
    let mut number = 0u64;
    'lines: for line in sent.lines() {
        number = number.saturating_add(1);
        if came.next() != Some(line) {
            return Some(number);
        }
    }
    if came.next().is_some() {
        return Some(number.saturating_add(1));
    }
    None
}

/// Returns whether the server of a capture sent what the replay of its trace sends, as text. Both
/// are read with these arguments of `rd_capture`.
pub(crate) fn replay_text(alloc: Global, words: &[String], file: &[u8]) -> Result<String, Fault> {
    let trace = run(alloc, words, file)?;
    let more = replay_words(alloc, words)?;
    let out = replayed(alloc, more.as_slice(), trace.out.as_slice())?;
    let sent = replies(alloc, words, file)?;
    let sent = String::from_utf8_lossy(alloc, sent.as_slice())?;
    let replayed = String::from_utf8_lossy(alloc, out.as_slice())?;
    let sent = sent.as_str();
    match first_difference(sent, replayed.as_str()) {
        Some(number) => Ok(format!(in alloc; "reply {number} differs\n")?),
        None => {
            let count = sent.lines().count();
            Ok(format!(in alloc; "{count} replies, as they were sent\n")?)
        }
    }
}
