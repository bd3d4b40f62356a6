//! A trace replayed: from arguments and octets to output lines and a status.
ghost use Rattle.std.specs.Prelude.{◌≡◌, ◌↔◌, ◌≤◌, ℕ, List, [], map, flat_map, drop, decimal};
ghost use Rattle.std.specs.Prelude.{IfSome, None, true, false};
ghost use Rattle.std.specs.String.{string_bytes};
ghost use Rattle.std.specs.Io.KnownBytes.{IsAtEnd};
ghost use Rattle.headline_law.specs.WholeHeadline.{WholeHeadline};
ghost use Rattle.trace_model.specs.Output.{output};
ghost use Rattle.trace_model.specs.Steps as steps;
ghost use Rattle.trace_replay.specs.Endings as ends;
ghost use Rattle.trace_replay.specs.Endings.{IsWritten, EndsBy, IsReported};
ghost use Rattle.trace_replay.specs.Endings.{CountsReads, CountsWrites};
ghost use Rattle.trace_replay.specs.MadeRuns.{IsWrittenFor};
ghost use Rattle.trace_replay.specs.Sessions.{Point, IsAt, IsSession, IsStarted, ReadsAll};
ghost use Rattle.trace_replay.specs.Sessions.{CountsFailed, CountsStopped, start};
ghost use Rattle.trace_replay.specs.Words.{AreDevices, IsWorkers, words_said, workers_of};

use crate::endings::{Read, Status, Stop};
use crate::made::run_made;
use crate::sessions::Session;
use crate::words::{Words, WordsFault, words_read};
use itoa::write_digits;
use rd_base::{Got, Sink, Source, write_all};
use std::alloc::Global;
use trace_text::{LineBad, Reason};

/// The maximum number of decimal digits of a 64-bit number.
const DIGITS: usize = 20;

/// Reads the trace piece by piece, and does its lines.
fn read_all<S: Source, K: Sink>(
    session: &mut Session,
    alloc: Global,
    source: &mut S,
    out: &mut K,
) -> Read
    requires { IsSession session.old }
    ensures read { (workers : ℕ) (point : Point)
        → IsAt workers point session.old
        → ReadsAll workers point session.new (K.holds out.old) (K.holds out.new)
        (S.left source.old)
        (S.left source.new) result }
    ensures failed { CountsFailed (S.faults source.old) (S.faults source.new) result }
    ensures stopped { CountsStopped (K.faults out.old) (K.faults out.new) result }
{
    let mut buffer = [0u8; 4096];
    'pieces: loop {
        match source.read(&mut buffer) {
            Got::Failed => return Read::Failed,
            Got::Bytes(n) => {
                if n == 0 {
                    return Read::End;
                }
                if let Some(stop) = session.feed(alloc, &buffer[..n], out) {
                    return Read::Stopped(stop);
                }
            }
        }
    }
}

/// Returns the status of a stop.
fn status_of(stop: Stop) -> Status
    ensures { result ≡ ends.status_of stop }
{
    match stop {
        Stop::Bad(bad) => Status::Line(bad),
        Stop::Unwritten => Status::WriteFault,
        Stop::Starved => Status::Memory,
    }
}

/// Does the trace of a source in a session at its beginning.
fn run_in<S: Source, K: Sink>(
    session: &mut Session,
    alloc: Global,
    source: &mut S,
    out: &mut K,
) -> Status
    requires { IsStarted session.old }
    ensures written { (workers : ℕ)
        → IsAt workers start session.old
        → IfSome (S.left source.old) (λ bytes. IsWritten (output workers bytes) (K.holds out.old)
        (K.holds out.new) result) }
    ensures reads { CountsReads (S.faults source.old) (S.faults source.new) result }
    ensures writes { CountsWrites (K.faults out.old) (K.faults out.new) result }
    ensures all_read { result ≡ Status.Done → IsAtEnd (S.left source.new) }
    ensures usage { ends.IsNoUsage result }
{
    match read_all(session, alloc, source, out) {
        Read::Failed => Status::ReadFault,
        Read::Stopped(stop) => status_of(stop),
        Read::End => match session.finish(alloc, out) {
            None => Status::Done,
            Some(stop) => status_of(stop),
        },
    }
}

/// Does the trace of a source.
fn run<S: Source, K: Sink>(alloc: Global, workers: u8, source: &mut S, out: &mut K) -> Status
    requires { IsWorkers workers }
    ensures written { IfSome (S.left source.old) (λ bytes. IsWritten (output workers bytes)
        (K.holds out.old) (K.holds out.new) result) }
    ensures reads { CountsReads (S.faults source.old) (S.faults source.new) result }
    ensures writes { CountsWrites (K.faults out.old) (K.faults out.new) result }
    ensures all_read { result ≡ Status.Done → IsAtEnd (S.left source.new) }
    ensures usage { ends.IsNoUsage result }
{
    let Ok(mut session) = Session::make(alloc, workers) else {
        return Status::Memory;
    };
    run_in(&mut session, alloc, source, out)
}

/// Does what was asked for: the trace of a source, or a generated one.
fn run_words<S: Source, K: Sink>(alloc: Global, asked: Words, source: &mut S, out: &mut K) -> Status
    requires workers { IsWorkers (workers_of asked) }
    requires devices { IfSome asked.devices AreDevices }
    ensures written { IsWrittenFor asked.devices (workers_of asked) (S.left source.old)
        (K.holds out.old) (K.holds out.new) result }
    ensures all_read { asked.devices ≡ None → result ≡ Status.Done → IsAtEnd (S.left source.new) }
    ensures unread { IfSome asked.devices (λ _. source.new ≡ source.old) }
    ensures reads { CountsReads (S.faults source.old) (S.faults source.new) result }
    ensures writes { CountsWrites (K.faults out.old) (K.faults out.new) result }
    ensures usage { ends.IsNoUsage result }
{
    match asked.devices {
        None => run(alloc, asked.workers(), source, out),
        Some(devices) => run_made(alloc, devices, asked.workers(), out),
    }
}

/// Does what arguments ask for, if they are those of the program.
fn run_said<S: Source, K: Sink>(
    alloc: Global,
    words: &[String],
    source: &mut S,
    out: &mut K,
) -> Status
    ensures usage { result ≡ Status.Usage ↔ (words_said (map string_bytes words.now) ≡ None) }
    ensures refused { words_said (map string_bytes words.now) ≡ None
        → (source.new ≡ source.old) × (out.new ≡ out.old) }
    ensures written { IfSome (words_said (map string_bytes words.now))
        (λ asked. IsWrittenFor asked.devices (workers_of asked) (S.left source.old)
        (K.holds out.old) (K.holds out.new) result) }
    ensures all_read { IfSome (words_said (map string_bytes words.now)) (λ asked. asked.devices
        ≡ None
        → result ≡ Status.Done
        → IsAtEnd (S.left source.new)) }
    ensures unread { IfSome (words_said (map string_bytes words.now))
        (λ asked. IfSome asked.devices (λ _. source.new
        ≡ source.old)) }
    ensures reads { CountsReads (S.faults source.old) (S.faults source.new) result }
    ensures writes { CountsWrites (K.faults out.old) (K.faults out.new) result }
{
    match words_read(alloc, words) {
        Ok(asked) => run_words(alloc, asked, source, out),
        Err(WordsFault::Usage) => Status::Usage,
        Err(WordsFault::Starved) => Status::Memory,
    }
}

/// Returns the name of a reason.
fn reason_name(why: Reason) -> &'static [u8]
    ensures { result.now ≡ ends.reason_text why }
{
    match why {
        Reason::Long => b"long",
        Reason::Form => b"form",
        Reason::Worker => b"worker",
        Reason::Busy => b"busy",
    }
}

/// Writes texts one after the other, or a prefix of them if the sink fails.
fn say<E: Sink>(err: &mut E, texts: &[&[u8]])
    ensures { ends.Says (E.holds err.old) (E.holds err.new) (E.faults err.old) (E.faults err.new)
        (flat_map (λ text. text.now) texts.now) }
{
    'texts: for text in texts {
        if !write_all(err, text) {
            return;
        }
    }
}

/// Writes the digits of a number to the end of `into`, and returns the index at which they begin.
fn write_number(number: u64, into: &mut [u8; DIGITS]) -> usize
    ensures digits { drop result into.new ≡ decimal number }
    ensures within { result ≤ 20 }
{
    write_digits(number, into, DIGITS)
}

/// Reports which line is bad, and why. Does not allocate.
fn say_line<E: Sink>(err: &mut E, bad: LineBad)
    ensures { ends.Says (E.holds err.old) (E.holds err.new) (E.faults err.old) (E.faults err.new)
        (ends.line_text bad) }
{
    let mut digits = [0; DIGITS];
    let start = write_number(bad.line, &mut digits);
    let why = reason_name(bad.why);
    say(err, &[b"line ", &digits[start..], b": ", why, b"\n"])
}

/// Reports on the error sink how a replay ended: nothing for `Done`. Does not allocate.
///
/// If the sink fails, a prefix of the report has been written.
pub fn report<E: Sink>(err: &mut E, status: Status)
    ensures { IsReported (E.holds err.old) (E.holds err.new) (E.faults err.old) (E.faults err.new)
        status }
{
    match status {
        Status::Done => {}
        Status::ReadFault => say(err, &[b"read failed\n"]),
        Status::WriteFault => say(err, &[b"write failed\n"]),
        Status::Usage => say(err, &[b"usage: rd_replay [--workers N] [--make N]\n"]),
        Status::Memory => say(err, &[b"memory\n"]),
        Status::Line(bad) => say_line(err, bad),
    }
}

/// Replays a trace. Reads it from `source` to its end, and writes to `out` a line for each datagram
/// that is sent and the line that ends the output. Reports an error on `err`.
///
/// `words` are the arguments of the command line, without the program's name. They are `--workers`
/// with a number from 1 to 16 and `--make` with a number from 1 to 4,000. Each is given at most
/// once, as two arguments or joined by `=`. Without `--workers` there is one worker.
///
/// With `--make`, the trace of that number of devices is generated, and replaces the trace of
/// `source`. The output then has the number of its lines and the number of the datagrams that it
/// sent, with their octets. The line that ends the output follows.
pub fn replay<S: Source, K: Sink, E: Sink>(
    alloc: Global,
    words: &[String],
    source: &mut S,
    out: &mut K,
    err: &mut E,
) -> Status
    // The status is Usage exactly if the arguments are not those of the program; then nothing is
    // read and written.
    ensures usage { result ≡ Status.Usage ↔ (words_said (map string_bytes words.now) ≡ None) }
    ensures refused { words_said (map string_bytes words.now) ≡ None
        → (source.new ≡ source.old) × (out.new ≡ out.old) }
    // What is written for what was read, or for what was generated. For Done it is all that the
    // trace gives, with its last line, and nothing else; for a bad line what is sent before it;
    // otherwise a prefix of that.
    ensures written { IfSome (words_said (map string_bytes words.now))
        (λ asked. IsWrittenFor asked.devices (workers_of asked) (S.left source.old)
        (K.holds out.old) (K.holds out.new) result) }
    // The first bad line is reported and no other, and with a bad line the status is not Done. A
    // generated trace has none, as the clause above says.
    ensures line { IfSome (S.left source.old) (λ bytes. IfSome
        (words_said (map string_bytes words.now)) (λ asked. asked.devices
        ≡ None
        → EndsBy (output (workers_of asked) bytes).bad result)) }
    // The source was read to its end. It is not read if a trace is generated.
    ensures all_read { IfSome (words_said (map string_bytes words.now)) (λ asked. asked.devices
        ≡ None
        → result ≡ Status.Done
        → IsAtEnd (S.left source.new)) }
    ensures unread { IfSome (words_said (map string_bytes words.now))
        (λ asked. IfSome asked.devices (λ _. source.new
        ≡ source.old)) }
    // ReadFault and WriteFault come only if a count rose, and any other status only if it did not.
    ensures reads { CountsReads (S.faults source.old) (S.faults source.new) result }
    ensures writes { CountsWrites (K.faults out.old) (K.faults out.new) result }
    // The text of the status was written, or a prefix of it if `err` counted a fault.
    ensures reported { IsReported (E.holds err.old) (E.holds err.new) (E.faults err.old)
        (E.faults err.new) result }
    // What the headline says holds of the journal of each trace.
    ensures headline { (workers : ℕ) (bytes : List ℕ)
        → WholeHeadline (steps.journal workers bytes) }
{
    let status = run_said(alloc, words, source, out);
    report(err, status);
    status
}
