//! A replay in progress.
ghost use Rattle.std.specs.Prelude.{◌≡◌, ◌≤◌, ℕ, List, [], ◌∷◌, ◌++◌, IfOk, None};
ghost use Rattle.std.specs.Prelude.{Option, length};
ghost use Rattle.line_model.specs.Lines as trace;
ghost use Rattle.journal_model.specs.declared.rows.Row.{Row};
ghost use Rattle.journal_model.specs.DeskJournal.{max_workers};
ghost use Rattle.trace_model.specs.Output.{text, last_line};
ghost use Rattle.trace_model.specs.Steps as steps;
ghost use Rattle.trace_replay.specs.Fields as fields;
ghost use Rattle.trace_replay.specs.Machines.{IsMachine, IsMachineAt, PerformsFor, lines_sent};
ghost use Rattle.trace_replay.specs.Sessions.{CountsUnwritten, Writes, DoesLine, Feeds};
ghost use Rattle.trace_replay.specs.Sessions.{EndsLines, Finishes, IsAt, IsSession, Point};
ghost use Rattle.trace_replay.specs.Sessions.{journal_from, start};

use crate::endings::Stop;
use crate::fields::cut;
use crate::machine::Machine;
use crate::troubles::Trouble;
use line_model::limits::MAX_LINE;
use rd_base::{Bytes, Sink, Starved, write_all};
use std::alloc::Global;
use std::mem;
use trace_text::{Line, LineBad, Reason, line_read};

/// A replay in progress.
#[derive(Drop)]
pub struct Session {
    /// The desk and its workers.
    machine: Machine,
    /// The number of the next line, from 1.
    line: u64,
    /// The octets of that line that were read so far.
    pending: Bytes,
}

/// Returns the worker that a line names.
fn worker_of(line: &Line) -> u8
    ensures { result ≡ steps.worker_of line.now }
{
    match line {
        Line::Come { worker, .. } => *worker,
        Line::Go(worker, _) => *worker,
        Line::Tick { worker, .. } => *worker,
        Line::Begin { worker, .. } => *worker,
    }
}

/// Does what a line says, and returns the worker that it names.
///
/// # Requires
///
/// The machine stands for some journal (`IsMachine`).
///
/// # Errors
///
/// - `Bad` if the line is not a line of a trace, or its worker does not exist. Also if it is a
///   datagram for a worker that holds a job. The machine then has made no step.
/// - `Starved` if memory runs out. The machine must then not be used any more.
pub fn perform(alloc: Global, machine: &mut Machine, line: &[u8]) -> Result<u8, Trouble>
    requires { IsMachine machine.old }
    ensures { (workers : ℕ) (rows : List Row)
        → IsMachineAt workers rows machine.old
        → PerformsFor workers rows (steps.step_of_line workers rows (trace.line_of line.now))
        machine.new result }
{
    let step = line_read(alloc, line)?;
    let worker = worker_of(&step);
    machine.perform(step)?;
    Ok(worker)
}

/// Writes the lines of the datagrams that the last step sent. That step was one of this worker.
fn send<K: Sink>(machine: &Machine, worker: u8, out: &mut K) -> Option<Stop>
    ensures written { Writes (K.holds out.old) (K.holds out.new)
        (lines_sent worker machine.now.sent) result }
    ensures cause { CountsUnwritten (K.faults out.old) (K.faults out.new) result }
{
    let Ok(text) = machine.sent_text(worker) else {
        return Some(Stop::Starved);
    };
    if !write_all(out, text.as_slice()) {
        return Some(Stop::Unwritten);
    }
    None
}

impl Session {
    /// Creates a session at the beginning of a trace, with this number of workers.
    ///
    /// # Requires
    ///
    /// `workers` is at most 16.
    ///
    /// # Errors
    ///
    /// `Starved` if memory runs out.
    pub fn make(alloc: Global, workers: u8) -> Result<Session, Starved>
        requires { workers ≤ max_workers }
        ensures { IfOk result (IsAt workers start) }
    {
        Ok(Session {
            machine: Machine::make(alloc, workers)?,
            line: 1,
            pending: Bytes::new(alloc),
        })
    }

    /// Does a complete line.
    fn do_line<K: Sink>(&mut self, alloc: Global, line: &[u8], out: &mut K) -> Option<Stop>
        requires { IsMachine self.old.machine }
        ensures done { (workers : ℕ) (rows : List Row)
            → IsMachineAt workers rows self.old.machine
            → DoesLine workers rows self.old.line line.now self.new (K.holds out.old)
            (K.holds out.new) result }
        ensures kept { self.new.pending ≡ self.old.pending }
        ensures cause { CountsUnwritten (K.faults out.old) (K.faults out.new) result }
    {
        let number = self.line;
        let Some(next) = number.checked_add(1) else {
            return Some(Stop::Starved);
        };
        match perform(alloc, &mut self.machine, line) {
            Ok(worker) => {
                self.line = next;
                send(&self.machine, worker, out)
            }
            Err(Trouble::Bad(why)) => Some(Stop::Bad(LineBad { line: number, why })),
            Err(Trouble::Starved) => Some(Stop::Starved),
        }
    }

    /// Handles a line feed: the pending octets and `line` are a complete line.
    fn end_line<K: Sink>(&mut self, alloc: Global, line: &[u8], out: &mut K) -> Option<Stop>
        requires stands { IsSession self.old }
        requires whole { None ≡ fields.cut 10 line.now }
        ensures fed { (workers : ℕ) (point : Point)
            → IsAt workers point self.old
            → Feeds workers point (line.now
            ++ 10 ∷ []) self.new (K.holds out.old) (K.holds out.new) result }
        ensures cause { CountsUnwritten (K.faults out.old) (K.faults out.new) result }
    {
        if self.pending.is_empty() {
            return self.do_line(alloc, line, out);
        }
        let Ok(()) = self.pending.append(line) else {
            return Some(Stop::Starved);
        };
        let whole = mem::replace(&mut self.pending, Bytes::new(alloc));
        self.do_line(alloc, whole.as_slice(), out)
    }

    /// Stores the beginning of a line. Stops if the line is too long.
    fn keep(&mut self, rest: &[u8]) -> Option<Stop>
        requires { None ≡ fields.cut 10 rest.now }
        ensures fed { (workers : ℕ) (point : Point) (held : Option (List ℕ))
            → IsAt workers point self.old
            → Feeds workers point rest.now self.new held held result }
        ensures cause { (count : ℕ) → CountsUnwritten count count result }
    {
        if self.pending.len() + rest.len() > MAX_LINE {
            return Some(Stop::Bad(LineBad {
                line: self.line,
                why: Reason::Long,
            }));
        }
        let Ok(()) = self.pending.append(rest) else {
            return Some(Stop::Starved);
        };
        None
    }

    /// Does the lines that end in a piece of the trace, and stores the beginning of the next.
    /// Returns why the replay stops, or `None` if it goes on.
    ///
    /// # Requires
    ///
    /// The session is at some point of some trace (`IsSession`), which [`Session::make`] and each
    /// call of `feed` that returns `None` give.
    pub fn feed<K: Sink>(&mut self, alloc: Global, piece: &[u8], out: &mut K) -> Option<Stop>
        requires { IsSession self.old }
        ensures fed { (workers : ℕ) (point : Point) → IsAt workers point self.old
            → Feeds workers point piece.now self.new (K.holds out.old) (K.holds out.new) result }
        ensures cause { CountsUnwritten (K.faults out.old) (K.faults out.new) result }
    {
        let mut rest = piece;
        'lines: while let Some((line, more)) = cut(b'\n', rest) {
            if let Some(stop) = self.end_line(alloc, line, out) {
                return Some(stop);
            }
            rest = more;
        }
        self.keep(rest)
    }

    /// Does the last line, if it has no line feed.
    fn last_line<K: Sink>(&mut self, alloc: Global, out: &mut K) -> Option<Stop>
        requires { IsSession self.old }
        ensures done { (workers : ℕ) (point : Point) → IsAt workers point self.old
            → EndsLines workers point self.new (K.holds out.old) (K.holds out.new) result }
        ensures cause { CountsUnwritten (K.faults out.old) (K.faults out.new) result }
    {
        if self.pending.is_empty() {
            return None;
        }
        let line = mem::replace(&mut self.pending, Bytes::new(alloc));
        self.do_line(alloc, line.as_slice(), out)
    }

    /// Writes the line that ends the output.
    fn write_end<K: Sink>(&self, out: &mut K) -> Option<Stop>
        requires { IsMachine self.now.machine }
        ensures written { (workers : ℕ) (rows : List Row)
            → IsMachineAt workers rows self.now.machine
            → Writes (K.holds out.old) (K.holds out.new) (last_line rows) result }
        ensures cause { CountsUnwritten (K.faults out.old) (K.faults out.new) result }
    {
        let Ok(text) = self.machine.end_line() else {
            return Some(Stop::Starved);
        };
        if !write_all(out, text.as_slice()) {
            return Some(Stop::Unwritten);
        }
        None
    }

    /// Ends the trace: does the last line, and writes the line that ends the output. Returns why
    /// the replay stops, or `None` if all was written.
    ///
    /// # Requires
    ///
    /// The session is at some point of some trace (`IsSession`), as for [`Session::feed`].
    pub fn finish<K: Sink>(&mut self, alloc: Global, out: &mut K) -> Option<Stop>
        requires { IsSession self.old }
        ensures finished { (workers : ℕ) (point : Point)
            → IsAt workers point self.old
            → Finishes (journal_from workers point []) (text point.rows) (K.holds out.old)
            (K.holds out.new) result }
        ensures cause { CountsUnwritten (K.faults out.old) (K.faults out.new) result }
    {
        if let Some(stop) = self.last_line(alloc, out) {
            return Some(stop);
        }
        self.write_end(out)
    }
}
