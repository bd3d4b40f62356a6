//! The lines of a trace, and the generated trace.

use rd_base::{Bytes, Starved, peer_read};
use std::alloc::Global;
use trace_text::{LineFault, line_print, line_read, make, number_read, out_print};
use vector_words::Line;

/// The maximum number of devices of a generated trace.
const MOST_DEVICES: u64 = 4_000;

/// The maximum number of workers of a generated trace.
const MOST_WORKERS: u64 = 16;

/// Returns a line as it is printed after it was read, or why it is not read.
fn printed(alloc: Global, line: &[u8]) -> Result<Bytes, Starved> {
    match line_read(alloc, line) {
        Ok(read) => line_print(alloc, &read),
        Err(LineFault::Long) => Bytes::copy_of(alloc, b"long"),
        Err(LineFault::Form) => Bytes::copy_of(alloc, b"form"),
        Err(LineFault::Starved) => Err(Starved),
    }
}

/// Answers `line OCTETS`: a line as it is printed after it was read.
pub(crate) fn line(line: &mut Line<'_>) -> Result<(), Starved> {
    let octets = line.octets(line.said);
    let printed = printed(line.alloc, octets.as_slice())?;
    line.put_octets(printed.as_slice());
    Ok(())
}

/// Answers `out WORKER PEER HEX`: the line of a datagram that is sent.
pub(crate) fn out(line: &mut Line<'_>) -> Result<(), Starved> {
    let worker = line.number(255) as u8;
    let peer = peer_read(line.word());
    let datagram = line.datagram(line.said);
    match peer {
        Ok(peer) => {
            let printed = out_print(line.alloc, worker, &peer, datagram.as_slice())?;
            line.put_octets(printed.as_slice());
        }
        Err(_) => line.refuse(),
    }
    Ok(())
}

/// Answers `number LIMIT OCTETS`: the number that a text prints, if it is at most the limit.
pub(crate) fn number(line: &mut Line<'_>) {
    let limit = line.number(u64::MAX);
    let octets = line.octets(line.said);
    match number_read(limit, octets.as_slice()) {
        Some(number) => line.put_number(number),
        None => line.put("none"),
    }
}

/// Returns the trace of the number of devices and of workers that a line gives.
fn made(line: &mut Line<'_>) -> Result<Bytes, Starved> {
    let devices = line.number(MOST_DEVICES) as u32;
    let workers = line.number(MOST_WORKERS) as u8;
    if devices == 0 || workers == 0 {
        line.refuse();
        return Ok(Bytes::new(line.alloc));
    }
    make(line.alloc, devices, workers)
}

/// Answers `trace DEVICES WORKERS`: the generated trace.
pub(crate) fn trace(line: &mut Line<'_>) -> Result<(), Starved> {
    let trace = made(line)?;
    line.put_octets(trace.as_slice());
    Ok(())
}

/// Answers `trace_line DEVICES WORKERS NUMBER`: a line of the generated trace, by its number from
/// 1.
pub(crate) fn trace_line(line: &mut Line<'_>) -> Result<(), Starved> {
    let trace = made(line)?;
    let number = line.number(65_535) as usize;
    let mut lines = trace.as_slice().split(|octet| *octet == b'\n');
    match lines.nth(number.saturating_sub(1)) {
        Some(text) => line.put_octets(text),
        None => line.refuse(),
    }
    Ok(())
}

/// Answers `trace_lines DEVICES WORKERS`: how many lines of the generated trace are printed as they
/// are read, and how many there are. The octets after the last line are no line.
pub(crate) fn trace_lines(line: &mut Line<'_>) -> Result<(), Starved> {
    let trace = made(line)?;
    let mut read = 0u64;
    let mut feeds = 0u64;
    'lines: for text in trace.as_slice().split(|octet| *octet == b'\n') {
        if printed(line.alloc, text)?.as_slice() == text {
            read = read.saturating_add(1);
        }
        feeds = feeds.saturating_add(1);
    }
    line.put_number(read);
    line.put(" of ");
    line.put_number(feeds.saturating_sub(1));
    Ok(())
}
