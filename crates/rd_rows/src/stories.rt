//! A case whose output is between its steps: each line follows the step that writes it.
ghost use Rattle.std.specs.Prelude.{IfOk};
ghost use Rattle.line_model.specs.Lines.{IsLine};
ghost use Rattle.trace_replay.specs.Machines.{IsMachine};

use crate::came::Came;
use crate::case::{Case, Kind};
use crate::faults::Fault;
use rd_base::Starved;
use std::alloc::Global;
use trace_replay::{Machine, Trouble};
use trace_text::{Line, LineFault, line_read};

/// The number of workers of the directory: the most that a trace can name.
const WORKERS: u8 = 16;

/// Returns the worker that a line names.
fn worker_of(line: &Line) -> u8 {
    match line {
        Line::Come { worker, .. } => *worker,
        Line::Go(worker, _) => *worker,
        Line::Tick { worker, .. } => *worker,
        Line::Begin { worker, .. } => *worker,
    }
}

/// Does what a line says. Returns whether it was done; a bad line does nothing.
fn is_done(machine: &mut Machine, line: Line) -> Result<bool, Starved>
    requires stands { IsMachine machine.old }
    requires line { IsLine line }
    ensures { IfOk result (λ _. IsMachine machine.new) }
{
    match machine.perform(line) {
        Ok(()) => Ok(true),
        Err(Trouble::Bad(_)) => Ok(false),
        Err(Trouble::Starved) => Err(Starved),
    }
}

/// Does a line of the trace. Returns the worker that it names, or `None` if the line is bad.
fn perform(alloc: Global, machine: &mut Machine, line: &str) -> Result<Option<u8>, Starved>
    requires { IsMachine machine.old }
    ensures { IfOk result (λ _. IsMachine machine.new) }
{
    let said = match line_read(alloc, line.as_bytes()) {
        Ok(said) => said,
        Err(LineFault::Starved) => return Err(Starved),
        Err(_) => return Ok(None),
    };
    let worker = worker_of(&said);
    if !is_done(machine, said)? {
        return Ok(None);
    }
    Ok(Some(worker))
}

/// Does a step. Returns its lines, for the last step with the line that ends the output.
fn step(alloc: Global, machine: &mut Machine, line: &str, is_last: bool) -> Result<Came, Starved>
    requires { IsMachine machine.old }
    ensures { IfOk result (λ _. IsMachine machine.new) }
{
    let mut came = Came::new(alloc);
    let Some(worker) = perform(alloc, machine, line)? else {
        return Ok(came);
    };
    came.add(machine.sent_text(worker)?.as_slice())?;
    if is_last {
        came.add(machine.end_line()?.as_slice())?;
    }
    Ok(came)
}

/// Does the steps of a case up to the bad one, and compares the lines after each.
fn tell(alloc: Global, machine: &mut Machine, case: &Case, bad: Option<u64>) -> Result<(), Fault>
    requires { IsMachine machine.old }
{
    let mut came = Came::new(alloc);
    let mut steps = 0u64;
    'lines: for line in case.lines.iter() {
        if line.kind == Kind::Output {
            came.tell(line)?;
            continue;
        }
        came.end(line.number)?;
        steps = steps.saturating_add(1);
        if bad == Some(steps) {
            return Ok(());
        }
        came = step(alloc, machine, line.text.as_str(), steps == case.steps)?;
    }
    Ok(())
}

/// Runs a case step by step, up to the bad line of its trace if there is one.
///
/// # Errors
///
/// `Differs` with the first line that does not follow the step that writes it; `Starved` if memory
/// runs out.
pub fn check_steps(alloc: Global, case: &Case, bad: Option<u64>) -> Result<(), Fault> {
    let mut machine = Machine::make(alloc, WORKERS)?;
    tell(alloc, &mut machine, case, bad)
}
