//! The conversation of a trace with the directory, line by line.
ghost use Rattle.std.specs.Prelude.{◌≤◌, IfOk};
ghost use Rattle.line_model.specs.Lines.{IsLine};
ghost use Rattle.trace_replay.specs.Machines.{IsMachine};

use super::changes::Change;
use super::forms::Form;
use super::pending::Pending;
use super::repeats::{Arrivals, Sendings};
use super::serving::Serving;
use rd_base::Starved;
use show_text::Asked;
use std::alloc::Global;
use trace_replay::{Machine, Status, Trouble};
use trace_text::{Line, LineBad, LineFault, Reason, line_read};

/// A trace that is being shown.
#[derive(Drop)]
pub(crate) struct Conversation {
    /// The allocator of its memory.
    alloc: Global,
    /// The form in which it is shown.
    form: Form,
    /// The directory that answers.
    machine: Machine,
    /// The request that each worker serves.
    serving: Serving,
    /// The messages that were received.
    arrivals: Arrivals,
    /// The messages that the directory sent.
    sendings: Sendings,
    /// The part of the next line that was read so far.
    pending: Pending,
    /// The number of lines that were shown.
    lines: u64,
    /// The first bad line.
    first_bad: Option<LineBad>,
}

/// Does what a line says. Returns why the line is bad, or `None` if it is not.
fn done(machine: &mut Machine, line: Line) -> Result<Option<Reason>, Starved>
    requires stands { IsMachine machine.old }
    requires line { IsLine line }
    ensures { IfOk result (λ _. IsMachine machine.new) }
{
    match machine.perform(line) {
        Ok(()) => Ok(None),
        Err(Trouble::Bad(why)) => Ok(Some(why)),
        Err(Trouble::Starved) => Err(Starved),
    }
}

impl Conversation {
    /// Creates a conversation in which nothing was said, with a directory of this number of
    /// workers, in the form that is asked for.
    pub(crate) fn make(alloc: Global, asked: Asked) -> Result<Conversation, Starved>
        requires { asked.workers ≤ 16 }
        ensures { IfOk result (λ conversation. IsMachine conversation.machine) }
    {
        Ok(Conversation {
            alloc,
            form: Form::make(alloc, asked.is_diagram)?,
            machine: Machine::make(alloc, asked.workers)?,
            serving: Serving::nothing(),
            arrivals: Arrivals::make(alloc)?,
            sendings: Sendings::make(alloc)?,
            pending: Pending::make(alloc),
            lines: 0,
            first_bad: None,
        })
    }

    /// Writes that the current line is bad, and remembers the first bad one.
    fn tell_bad(&mut self, page: &mut String, why: Reason) -> Result<(), Starved>
        requires { IsMachine self.old.machine }
        ensures { IfOk result (λ _. IsMachine self.new.machine) }
    {
        let bad = LineBad {
            line: self.lines,
            why,
        };
        self.first_bad = self.first_bad.or(Some(bad));
        self.form.write_bad(page, self.alloc, bad)
    }

    /// Writes what a line says that was done, and what the directory sent.
    fn tell_done(&mut self, page: &mut String, said: &str, change: &Change) -> Result<(), Starved>
        requires { IsMachine self.old.machine }
        ensures { IfOk result (λ _. IsMachine self.new.machine) }
    {
        if let Some(worker) = change.worker {
            let is_busy = self.machine.is_busy(worker);
            self.serving.note(worker, change.message, is_busy);
        }
        self.arrivals.note(change)?;
        let sent = self.machine.sent();
        self.form
            .write_done(page, self.alloc, said, change, &mut self.sendings, sent)
    }

    /// Does what a line says, and writes that and what the directory sends. Of a bad line, writes
    /// only that it is bad.
    fn tell(&mut self, page: &mut String, line: Line) -> Result<(), Starved>
        requires stands { IsMachine self.old.machine }
        requires line { IsLine line }
        ensures { IfOk result (λ _. IsMachine self.new.machine) }
    {
        let mut said = String::new(self.alloc);
        let change = Change::of(&self.serving, &line);
        let is_repeat = self.arrivals.is_repeat(&change);
        self.form
            .write_line(&mut said, self.alloc, &self.serving, is_repeat, &line)?;
        match done(&mut self.machine, line)? {
            None => self.tell_done(page, said.as_str(), &change),
            Some(why) => self.tell_bad(page, why),
        }
    }

    /// Writes what a line of the trace says and what the directory then sends; of a bad line, its
    /// number and the reason. The conversation goes on after a bad line, which changes nothing.
    fn show(&mut self, page: &mut String, line: &[u8]) -> Result<(), Starved>
        requires { IsMachine self.old.machine }
        ensures { IfOk result (λ _. IsMachine self.new.machine) }
    {
        self.lines = self.lines.saturating_add(1);
        match line_read(self.alloc, line) {
            Ok(said) => self.tell(page, said),
            Err(LineFault::Form) => self.tell_bad(page, Reason::Form),
            Err(LineFault::Long) => self.tell_bad(page, Reason::Long),
            Err(LineFault::Starved) => Err(Starved),
        }
    }

    /// Adds a part of a line, which is bad as soon as it is too long.
    fn go_on(&mut self, page: &mut String, part: &[u8]) -> Result<(), Starved>
        requires { IsMachine self.old.machine }
        ensures { IfOk result (λ _. IsMachine self.new.machine) }
    {
        if !self.pending.add(part)? {
            return Ok(());
        }
        self.lines = self.lines.saturating_add(1);
        self.tell_bad(page, Reason::Long)
    }

    /// Handles a line feed.
    fn end_line(&mut self, page: &mut String) -> Result<(), Starved>
        requires { IsMachine self.old.machine }
        ensures { IfOk result (λ _. IsMachine self.new.machine) }
    {
        match self.pending.end(self.alloc) {
            Some(line) => self.show(page, line.as_slice()),
            None => Ok(()),
        }
    }

    /// Returns the text before all that is shown.
    pub(crate) fn begin(&self) -> Result<String, Starved> {
        let mut page = String::new(self.alloc);
        self.form.write_head(&mut page)?;
        Ok(page)
    }

    /// Returns what the lines that end in a piece of the trace say, and what the directory then
    /// sends. Stores the beginning of the next line. After `Starved`, the conversation must not be
    /// used any more.
    pub(crate) fn hear(&mut self, piece: &[u8]) -> Result<String, Starved>
        requires { IsMachine self.old.machine }
        ensures { IfOk result (λ _. IsMachine self.new.machine) }
    {
        let mut page = String::new(self.alloc);
        let mut is_first = true;
        'parts: for part in piece.split(|octet| *octet == b'\n') {
            if !is_first {
                self.end_line(&mut page)?;
            }
            self.go_on(&mut page, part)?;
            is_first = false;
        }
        Ok(page)
    }

    /// Ends the trace. Returns what its last line says, if it has no line feed, and the counts that
    /// end the output of a replay.
    pub(crate) fn finish(&mut self) -> Result<String, Starved>
        requires { IsMachine self.old.machine }
    {
        let mut page = String::new(self.alloc);
        if !self.pending.is_empty() {
            self.end_line(&mut page)?;
        }
        let end = self.machine.end_line()?;
        if let Ok(line) = str::from_utf8(end.as_slice()) {
            self.form.write_end(&mut page, self.alloc, line)?;
        }
        Ok(page)
    }

    /// Returns how the program ends if all was read and shown: with the first bad line, if there is
    /// one.
    pub(crate) fn status(&self) -> Status {
        match self.first_bad {
            Some(bad) => Status::Line(bad),
            None => Status::Done,
        }
    }
}
