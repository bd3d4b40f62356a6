//! A generated trace: its lines are done, and what they send is counted.
ghost use Rattle.std.specs.Prelude.{◌≡◌, ◌+◌, ℕ, List, [], IfOk, IfSome, length};
ghost use Rattle.line_model.specs.Texts.{lines_of};
ghost use Rattle.journal_model.specs.declared.rows.Row.{Row};
ghost use Rattle.trace_model.specs.Made.{made_output, octets_sent};
ghost use Rattle.trace_replay.specs.Endings.{CountsWrites};
ghost use Rattle.trace_replay.specs.Journal.{after_line, journal};
ghost use Rattle.trace_replay.specs.MadeRuns.{CountsLine, CountsLines, IsCounted, IsCountedAt};
ghost use Rattle.trace_replay.specs.MadeRuns.{IsMade, summary};
ghost use Rattle.trace_replay.specs.Words.{AreDevices, IsWorkers};

use crate::endings::Status;
use crate::fields::cut;
use crate::machine::Machine;
use crate::sessions::perform;
use crate::troubles::Trouble;
use rd_base::{Bytes, Sink, Starved, write_all};
use rd_desk::Outbox;
use std::alloc::Global;
use trace_text::make;

/// A generated trace in progress, with what was counted so far.
#[derive(Drop)]
pub struct Count {
    /// The desk and its workers.
    machine: Machine,
    /// The number of lines that were done.
    lines: u64,
    /// The number of datagrams that were sent.
    datagrams: u64,
    /// The total length of these datagrams in octets.
    octets: u64,
}

/// Returns the total length of datagrams in octets, or `None` if it exceeds 64 bits.
fn octets_of(sent: &Outbox) -> Option<u64>
    ensures { IfSome result (λ octets. octets ≡ octets_sent sent.now) }
{
    let mut octets = 0u64;
    let mut index = 0;
    'datagrams: while index < sent.len() {
        let Some((_, datagram)) = sent.at(index) else {
            unreachable!()
        };
        octets = octets.checked_add(datagram.len() as u64)?;
        index += 1;
    }
    Some(octets)
}

impl Count {
    /// Creates a count of nothing.
    fn make(alloc: Global, workers: u8) -> Result<Count, Starved>
        requires { IsWorkers workers }
        ensures { IfOk result (IsCountedAt workers [] 0) }
    {
        Ok(Count {
            machine: Machine::make(alloc, workers)?,
            lines: 0,
            datagrams: 0,
            octets: 0,
        })
    }

    /// Does a line, and counts it and what it sent. A bad line is not counted. Returns `Starved` if
    /// memory runs out or a count would exceed 64 bits.
    fn do_line(&mut self, alloc: Global, line: &[u8]) -> Result<(), Trouble>
        requires { IsCounted self.old }
        ensures { (workers : ℕ) (rows : List Row) (lines : ℕ)
            → IsCountedAt workers rows lines self.old
            → CountsLine workers lines (after_line workers rows line.now) self.new result }
    {
        perform(alloc, &mut self.machine, line)?;
        let sent = self.machine.sent();
        let octets = octets_of(sent).ok_or(Starved)?;
        let datagrams = sent.len() as u64;
        self.lines = self.lines.checked_add(1).ok_or(Starved)?;
        self.datagrams = self.datagrams.checked_add(datagrams).ok_or(Starved)?;
        self.octets = self.octets.checked_add(octets).ok_or(Starved)?;
        Ok(())
    }

    /// Does the lines of a trace, and counts them, up to the first bad one.
    fn do_lines(&mut self, alloc: Global, trace: &[u8]) -> Result<(), Trouble>
        requires { IsCounted self.old }
        ensures { (workers : ℕ) (rows : List Row) (lines : ℕ)
            → IsCountedAt workers rows lines self.old
            → CountsLines workers (lines + length (lines_of trace.now))
            (journal workers rows (lines + 1) (lines_of trace.now)) self.new result }
    {
        let mut rest = trace;
        'lines: while let Some((line, more)) = cut(b'\n', rest) {
            self.do_line(alloc, line)?;
            rest = more;
        }
        if rest.is_empty() {
            return Ok(());
        }
        self.do_line(alloc, rest)
    }

    /// Returns the lines that report the counts, and the line that ends the output.
    fn text(&self, alloc: Global) -> Result<Bytes, Starved>
        requires { IsCounted self.now }
        ensures { IfOk result (λ text. (workers : ℕ) (rows : List Row) (lines : ℕ)
            → IsCountedAt workers rows lines self.now
            → text ≡ summary lines rows) }
    {
        let made = format!(in alloc; "made {}\n", self.lines)?;
        let sent = format!(in alloc; "sent {} {}\n", self.datagrams, self.octets)?;
        let end = self.machine.end_line()?;
        let mut text = Bytes::of(made.into_bytes());
        text.append(sent.as_bytes())?;
        text.append(end.as_slice())?;
        Ok(text)
    }
}

/// Returns what is written of the trace that is generated for a number of devices.
fn made_text(alloc: Global, devices: u32, workers: u8) -> Result<Bytes, Starved>
    requires devices { AreDevices devices }
    requires workers { IsWorkers workers }
    ensures { IfOk result (λ text. text ≡ made_output devices workers) }
{
    let trace = make(alloc, devices, workers)?;
    let mut count = Count::make(alloc, workers)?;
    match count.do_lines(alloc, trace.as_slice()) {
        Ok(()) => count.text(alloc),
        Err(Trouble::Starved) => Err(Starved),
        // No line of a trace that is made is bad.
        Err(Trouble::Bad(_)) => unreachable!(),
    }
}

/// Generates the trace of a number of devices and does it.
///
/// Writes the number of its lines, the number of the datagrams that it sent with their octets, and
/// the line that ends the output.
///
/// # Requires
///
/// There are 1 to 4,000 devices and 1 to 16 workers.
pub fn run_made<K: Sink>(alloc: Global, devices: u32, workers: u8, out: &mut K) -> Status
    requires devices { AreDevices devices }
    requires workers { IsWorkers workers }
    ensures written { IsMade (made_output devices workers) (K.holds out.old) (K.holds out.new)
        result }
    ensures writes { CountsWrites (K.faults out.old) (K.faults out.new) result }
{
    let Ok(text) = made_text(alloc, devices, workers) else {
        return Status::Memory;
    };
    if !write_all(out, text.as_slice()) {
        return Status::WriteFault;
    }
    Status::Done
}
