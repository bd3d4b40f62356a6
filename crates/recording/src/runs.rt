//! A run: from arguments and octets to an output and a status.

use crate::about::text_about;
use crate::endings::{Status, Stop};
use crate::pages::Pages;
use crate::recorders::Recorder;
use crate::servers::Way;
use crate::transcripts::Transcript;
use crate::words::{Output, Words, words_read};
use itoa::Buffer;
use rd_base::{Got, Sink, Source, write_all};
use std::alloc::Global;
use trace_text::{LineBad, Reason};

/// The number of octets of the input that are read at once.
const PIECE: usize = 4_096;

/// The task of a run.
#[derive(Drop)]
enum Task {
    /// A capture is read as a recording.
    Record(Recorder),
    /// A trace and its output are written as a capture.
    Transcribe(Transcript),
}

impl Task {
    /// Returns the task that arguments ask for.
    fn of(alloc: Global, words: Words) -> Task {
        match words.output {
            Output::Trace => Task::Record(Recorder::new(alloc, &words, Way::Came)),
            Output::Replies => Task::Record(Recorder::new(alloc, &words, Way::Sent)),
            Output::Pcap => Task::Transcribe(Transcript::new(alloc, words.port)),
        }
    }

    /// Begins the task.
    fn begin(&self, pages: &mut Pages) -> Result<(), Stop> {
        match self {
            Task::Record(recorder) => Ok(recorder.begin(pages)?),
            Task::Transcribe(transcript) => transcript.begin(pages),
        }
    }

    /// Handles the next octets of the input.
    fn feed(&mut self, piece: &[u8], pages: &mut Pages) -> Result<(), Stop> {
        match self {
            Task::Record(recorder) => recorder.feed(piece, pages),
            Task::Transcribe(transcript) => transcript.feed(piece, pages),
        }
    }

    /// Ends the input.
    fn finish(&mut self, pages: &mut Pages) -> Result<(), Stop> {
        match self {
            Task::Record(recorder) => recorder.finish(pages),
            Task::Transcribe(transcript) => transcript.finish(pages),
        }
    }
}

/// Writes the text of a step. Returns how the run ends, if it does.
fn write_pages<K: Sink, E: Sink>(
    step: Result<(), Stop>,
    pages: &mut Pages,
    out: &mut K,
    err: &mut E,
) -> Option<Status> {
    if step.is_err() {
        let _ = pages.release();
    }
    let is_written = pages.write(out, err);
    match step {
        _ if !is_written => Some(Status::WriteFault),
        Ok(()) => None,
        Err(stop) => Some(Status::from(stop)),
    }
}

/// Does a task with the input, piece by piece.
fn do_task<S: Source, K: Sink, E: Sink>(
    task: &mut Task,
    pages: &mut Pages,
    source: &mut S,
    out: &mut K,
    err: &mut E,
) -> Status {
    let begun = task.begin(pages);
    if let Some(status) = write_pages(begun, pages, out, err) {
        return status;
    }
    let mut buffer = [0u8; PIECE];
    'pieces: loop {
        match source.read(&mut buffer) {
            Got::Failed => return Status::ReadFault,
            Got::Bytes(count) => {
                if count == 0 {
                    break;
                }
                let fed = task.feed(&buffer[..count], pages);
                if let Some(status) = write_pages(fed, pages, out, err) {
                    return status;
                }
            }
        }
    }
    let finished = task.finish(pages);
    write_pages(finished, pages, out, err).unwrap_or(Status::Done)
}

/// Writes texts one after the other, or a prefix of them if the sink fails.
fn say<E: Sink>(err: &mut E, texts: &[&[u8]]) {
    'texts: for text in texts {
        if !write_all(err, text) {
            return;
        }
    }
}

/// Returns the name of a reason.
fn name_of(why: Reason) -> &'static [u8] {
    match why {
        Reason::Long => b"long",
        Reason::Form => b"form",
        Reason::Worker => b"worker",
        Reason::Busy => b"busy",
    }
}

/// Reports which line is bad, and why.
fn say_line<E: Sink>(err: &mut E, bad: LineBad) {
    let why = name_of(bad.why);
    let mut buffer = Buffer::new();
    let line = buffer.format(bad.line).as_bytes();
    say(err, &[b"line ", line, b": ", why, b"\n"]);
}

/// Reports on the error sink how a run ended: nothing for `Done`. Does not allocate.
pub fn report<E: Sink>(err: &mut E, status: Status) {
    match status {
        Status::Done => {}
        Status::ReadFault => say(err, &[b"standard input: it cannot be read\n"]),
        Status::WriteFault => say(err, &[b"standard output: it cannot be written\n"]),
        Status::Usage => say(
            err,
            &[b"usage: rd_capture [--port P] [--begin N] [--workers] [--replies | --pcap]\n"],
        ),
        Status::NoCapture => say(err, &[b"standard input: it is no capture\n"]),
        Status::Line(bad) => say_line(err, bad),
        Status::Memory => say(err, &[b"memory: it ran out\n"]),
    }
}

/// Writes a text about the program.
fn tell<K: Sink>(out: &mut K, text: &str) -> Status {
    if write_all(out, text.as_bytes()) {
        Status::Done
    } else {
        Status::WriteFault
    }
}

/// Does what the arguments ask for with the input.
fn run<S: Source, K: Sink, E: Sink>(
    alloc: Global,
    words: &[String],
    source: &mut S,
    out: &mut K,
    err: &mut E,
) -> Status {
    if let Some(text) = text_about(words) {
        return tell(out, text);
    }
    let Some(words) = words_read(words) else {
        return Status::Usage;
    };
    let mut task = Task::of(alloc, words);
    let mut pages = Pages::new(alloc);
    do_task(&mut task, &mut pages, source, out, err)
}

/// Reads a capture from `source`, and writes to `out` the trace of the datagrams that a port
/// received. Reports on `err` what cannot be read, and how the run ends.
///
/// `words` are the arguments of the command line, without the program's name.
/// - `--replies` writes instead the lines of the output for the datagrams that were sent from the
///   port.
/// - `--pcap` reads a trace and its output, and writes a capture.
/// - `--port` gives the port. It is 5683 by default.
/// - `--workers` gives each datagram to the worker that answered it.
/// - `--begin` makes the trace first say above which number its run begins.
/// - `--help` and `--version`, as the only argument, write a text about the program and read
///   nothing.
pub fn record<S: Source, K: Sink, E: Sink>(
    alloc: Global,
    words: &[String],
    source: &mut S,
    out: &mut K,
    err: &mut E,
) -> Status {
    let status = run(alloc, words, source, out, err);
    report(err, status);
    status
}
