//! The machine of a replay: the desk, its workers, and the greatest moment so far.
ghost use Rattle.std.specs.Prelude.{◌≡◌, ◌≤◌, ◌<◌, ◌^◌, ℕ, [], List, Ok, IfOk, IfSome, is_some};
ghost use Rattle.std.specs.Prelude.{length, max, slice_get};
ghost use Rattle.line_model.specs.declared.lines.Line.TheVariants as kind;
ghost use Rattle.line_model.specs.Lines.{IsLine};
ghost use Rattle.journal_model.specs.declared.rows.Row.{Row};
ghost use Rattle.journal_model.specs.DeskJournal.{max_workers};
ghost use Rattle.journal_model.specs.Machine.{job_of};
ghost use Rattle.trace_model.specs.Output.{last_line};
ghost use Rattle.trace_model.specs.Steps as steps;
ghost use Rattle.trace_replay.specs.Machines.{IsMachine, IsMachineAt, IsWorkerAt, Performs};
ghost use Rattle.trace_replay.specs.Machines.{lines_sent, sent_of};

use crate::troubles::Trouble;
use crate::workers::Worker;
use directory_core::NoBoard;
use rd_base::{Bytes, Moment, Peer, Starved};
use rd_desk::{Arrival, Desk, Outbox, read_datagram};
use std::alloc::Global;
use trace_text::{Line, Reason, out_print};

/// A directory that lines of a trace drive, without any socket (RFC 9176, RFC 7252, RFC 7641, RFC
/// 7959).
///
/// It has one desk and at most 16 workers. These receive datagrams, do the jobs that the
/// datagrams leave, and let time pass. It stores what the last step sent. Contracts say which
/// journal it stands for (`IsMachineAt`).
#[derive(Drop)]
pub struct Machine {
    /// The allocator of its memory.
    alloc: Global,
    /// The desk. It publishes no version.
    desk: Desk<NoBoard>,
    /// The workers, by number.
    workers: Vec<Worker>,
    /// The greatest moment that was passed in, also by looks.
    latest: Moment,
    /// What the last step sent.
    sent: Outbox,
}

/// Creates workers that have received nothing, numbered from 0.
fn workers_of(alloc: Global, number: u8) -> Result<Vec<Worker>, Starved>
    requires { number ≤ max_workers }
    ensures number { IfOk result (λ workers. length workers.items ≡ number) }
    ensures each { IfOk result (λ workers. (worker : ℕ)
        → IfSome (slice_get workers.items worker) (IsWorkerAt [] worker)) }
{
    let mut workers = Vec::with_capacity(alloc, usize::from(number))?;
    'numbers: for worker in 0..number {
        workers.push(Worker::of(worker))?;
    }
    Ok(workers)
}

impl Machine {
    /// Creates a machine that has made no step, with this number of workers, numbered from 0.
    ///
    /// # Requires
    ///
    /// `workers` is at most 16.
    ///
    /// # Errors
    ///
    /// `Starved` if memory runs out.
    pub fn make(alloc: Global, workers: u8) -> Result<Machine, Starved>
        requires { workers ≤ max_workers }
        ensures { IfOk result (IsMachineAt workers []) }
    {
        Ok(Machine {
            alloc,
            desk: Desk::make(alloc, NoBoard)?,
            workers: workers_of(alloc, workers)?,
            latest: Moment(0),
            sent: Outbox::make(alloc)?,
        })
    }

    /// Passes a datagram to a worker. The line is bad if the worker does not exist or holds a job.
    fn come(
        &mut self,
        worker: u8,
        moment: Moment,
        peer: Peer,
        datagram: Bytes,
        word: u32,
    ) -> Result<(), Trouble>
        requires stands { IsMachine self.old }
        requires moment { moment.0 ≤ 10 ^ 15 }
        requires empty { self.old.sent ≡ [] }
        ensures { (workers : ℕ) (rows : List Row)
            → IsMachineAt workers rows self.old
            → Performs workers rows (steps.step_of_line workers rows
            (Ok (kind.Come worker moment peer datagram word))) self.new result }
    {
        let Some(hearer) = self.workers.get_mut(usize::from(worker)) else {
            return Err(Trouble::Bad(Reason::Worker));
        };
        if hearer.is_busy() {
            return Err(Trouble::Bad(Reason::Busy));
        }
        self.latest = self.latest.later(moment);
        let datagram = datagram.as_slice();
        let arrival = Arrival {
            moment: self.latest,
            word,
            peer,
            datagram,
            incoming: read_datagram(datagram),
        };
        Ok(hearer.hear(self.alloc, &mut self.desk, arrival, &mut self.sent)?)
    }

    /// Has a worker do its job. A worker without a job makes no step, and its moment does not
    /// count. The line is bad if the worker does not exist.
    fn go(&mut self, worker: u8, moment: Moment) -> Result<(), Trouble>
        requires stands { IsMachine self.old }
        requires moment { moment.0 ≤ 10 ^ 15 }
        requires empty { self.old.sent ≡ [] }
        ensures { (workers : ℕ) (rows : List Row)
            → IsMachineAt workers rows self.old
            → Performs workers rows (steps.step_of_line workers rows (Ok (kind.Go worker moment)))
            self.new result }
    {
        let Some(goer) = self.workers.get_mut(usize::from(worker)) else {
            return Err(Trouble::Bad(Reason::Worker));
        };
        if !goer.is_busy() {
            return Ok(());
        }
        self.latest = self.latest.later(moment);
        Ok(goer.go(&mut self.desk, self.latest, &mut self.sent)?)
    }

    /// Lets time pass at a worker. The line is bad if the worker does not exist.
    fn tick(&mut self, worker: u8, moment: Moment, word: u32) -> Result<(), Trouble>
        requires stands { IsMachine self.old }
        requires moment { moment.0 ≤ 10 ^ 15 }
        requires empty { self.old.sent ≡ [] }
        ensures { (workers : ℕ) (rows : List Row)
            → IsMachineAt workers rows self.old
            → Performs workers rows (steps.step_of_line workers rows
            (Ok (kind.Tick worker moment word))) self.new result }
    {
        let Some(ticker) = self.workers.get_mut(usize::from(worker)) else {
            return Err(Trouble::Bad(Reason::Worker));
        };
        self.latest = self.latest.later(moment);
        Ok(ticker.tick(&mut self.desk, self.latest, word, &mut self.sent)?)
    }

    /// Begins a run above a number, at a worker. The line is bad if the worker does not exist.
    fn begin(&mut self, worker: u8, moment: Moment, first: u64) -> Result<(), Trouble>
        requires stands { IsMachine self.old }
        requires moment { moment.0 ≤ 10 ^ 15 }
        requires empty { self.old.sent ≡ [] }
        ensures { (workers : ℕ) (rows : List Row)
            → IsMachineAt workers rows self.old
            → Performs workers rows (steps.step_of_line workers rows
            (Ok (kind.Begin worker moment first))) self.new result }
    {
        let Some(beginner) = self.workers.get_mut(usize::from(worker)) else {
            return Err(Trouble::Bad(Reason::Worker));
        };
        self.latest = self.latest.later(moment);
        Ok(beginner.begin(&mut self.desk, self.latest, first)?)
    }

    /// Does what a line says, as one step of the worker that it names, and stores what the step
    /// sent.
    ///
    /// A moment earlier than the greatest so far is raised to it.
    ///
    /// # Requires
    ///
    /// The machine stands for some journal (`IsMachine`): it is new, or no step has run out of
    /// memory. The numbers of the line are within their limits (`IsLine`), so its moment is at most
    /// 10^15 milliseconds.
    ///
    /// # Errors
    ///
    /// - `Bad` if the worker does not exist, or if a datagram is for a worker that holds a job. The
    ///   machine then has made no step and has sent nothing.
    /// - `Starved` if memory runs out. The machine must then not be used any more.
    pub fn perform(&mut self, line: Line) -> Result<(), Trouble>
        requires stands { IsMachine self.old }
        requires line { IsLine line }
        ensures { (workers : ℕ) (rows : List Row) → IsMachineAt workers rows self.old
            → Performs workers rows (steps.step_of_line workers rows (Ok line)) self.new result }
    {
        self.sent.clear();
        match line {
            Line::Come {
                worker,
                moment,
                peer,
                datagram,
                word,
            } => self.come(worker, moment, peer, datagram, word),
            Line::Go(worker, moment) => self.go(worker, moment),
            Line::Tick {
                worker,
                moment,
                word,
            } => self.tick(worker, moment, word),
            Line::Begin {
                worker,
                moment,
                first,
            } => self.begin(worker, moment, first),
        }
    }

    /// Returns what the last step sent, in order: each datagram with the peer that it goes to.
    pub fn sent(&self) -> &Outbox
        ensures { result.now ≡ sent_of self.now }
    {
        &self.sent
    }

    /// Returns whether a worker holds a job, which stops it from receiving datagrams. Returns false
    /// for a worker that does not exist.
    pub fn is_busy(&self, worker: u8) -> bool
        ensures { (workers : ℕ) (rows : List Row)
            → IsMachineAt workers rows self.now
            → worker < workers
            → result ≡ is_some (job_of worker rows) }
    {
        let Some(holder) = self.workers.get(usize::from(worker)) else {
            return false;
        };
        holder.is_busy()
    }

    /// Returns the lines of the output for what the last step sent. That step was one of this
    /// worker.
    ///
    /// # Errors
    ///
    /// `Starved` if memory runs out.
    pub fn sent_text(&self, worker: u8) -> Result<Bytes, Starved>
        ensures { IfOk result (λ text. text ≡ lines_sent worker (sent_of self.now)) }
    {
        let mut text = Bytes::new(self.alloc);
        let mut index = 0;
        'datagrams: while index < self.sent.len() {
            let Some((peer, datagram)) = self.sent.at(index) else {
                unreachable!()
            };
            let line = out_print(self.alloc, worker, &peer, datagram)?;
            text.append(line.as_slice())?;
            text.append(b"\n")?;
            index += 1;
        }
        Ok(text)
    }

    /// Returns the line that ends the output: the number of accepted changes, of registrations that
    /// are live at the greatest moment so far, and of observers.
    ///
    /// # Requires
    ///
    /// The machine stands for some journal (`IsMachine`), as for [`Machine::perform`].
    ///
    /// # Errors
    ///
    /// `Starved` if memory runs out.
    pub fn end_line(&self) -> Result<Bytes, Starved>
        requires { IsMachine self.now }
        ensures { IfOk result (λ text. (workers : ℕ) (rows : List Row)
            → IsMachineAt workers rows self.now
            → text ≡ last_line rows) }
    {
        let version = self.desk.version();
        let entries = version.entries();
        let live = version.live_count(self.latest);
        let observers = self.desk.watchers();
        let text = format!(in self.alloc; "end {entries} {live} {observers}\n")?;
        Ok(Bytes::of(text.into_bytes()))
    }
}
