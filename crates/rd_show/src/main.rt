//! `rd_show`: shows a recorded trace as a conversation: who sent what to whom, and what the
//! directory answered.
#![tactic(auto)]

ghost use Rattle.std.specs.Prelude.{◌≤◌};
ghost use Rattle.trace_replay.specs.Machines.{IsMachine};

mod changes;
mod conversation;
mod diagrams;
mod forms;
mod lines;
mod moments;
mod names;
mod participants;
mod pending;
mod repeats;
mod serving;
mod stops;

use clap::Error;
use conversation::Conversation;
use rd_base::{Got, Source, StdSink, StdSource};
use show_text::{Asked, Otherwise, words_read};
use std::process::ExitCode;
use stops::Stop;
use trace_replay::{Status, WordsFault, given_words, report};

/// The text on standard error if the arguments are not those of the program.
const USAGE: &str = "usage: rd_show [--workers N] [--mermaid]\n";

/// Shows the trace piece by piece.
fn show_trace<S: Source>(
    rt: &HostRuntime,
    shown: &mut Conversation,
    source: &mut S,
) -> Result<(), Stop>
    requires { IsMachine shown.old.machine }
{
    rt.print(shown.begin()?)?;
    let mut buffer = [0u8; 4096];
    'pieces: loop {
        match source.read(&mut buffer) {
            Got::Failed => return Err(Stop::ReadFault),
            Got::Bytes(0) => break,
            Got::Bytes(n) => rt.print(shown.hear(&buffer[..n])?)?,
        }
    }
    Ok(rt.print(shown.finish()?)?)
}

/// Shows the trace of standard input in the form that is asked for.
fn show_all(rt: &HostRuntime, asked: Asked) -> Status
    requires { asked.workers ≤ 16 }
{
    let Ok(mut shown) = Conversation::make(rt.alloc(), asked) else {
        return Status::Memory;
    };
    let mut source = StdSource::of(rt.stdin());
    match show_trace(rt, &mut shown, &mut source) {
        Ok(()) => shown.status(),
        Err(stop) => stop.status(),
    }
}

/// Prints a text about the program.
fn tell(rt: &HostRuntime, text: &Error) -> Status {
    match rt.print(text) {
        Ok(()) => Status::Done,
        Err(fault) => Stop::from(fault).status(),
    }
}

/// Does what arguments ask for that do not ask for a trace to be shown.
fn do_otherwise(rt: &HostRuntime, otherwise: &Otherwise) -> Status {
    match otherwise {
        Otherwise::Say(text) => tell(rt, text),
        Otherwise::Usage => Status::Usage,
        Otherwise::Starved => Status::Memory,
    }
}

/// Does what the arguments of the command line ask for.
fn run(rt: &HostRuntime) -> Status {
    match given_words(rt) {
        Ok(words) => match words_read(rt.alloc(), words.as_slice()) {
            Ok(asked) => show_all(rt, asked),
            Err(otherwise) => do_otherwise(rt, &otherwise),
        },
        Err(WordsFault::Usage) => Status::Usage,
        Err(WordsFault::Starved) => Status::Memory,
    }
}

/// Reports on standard error how the program ended.
fn say(rt: &HostRuntime, status: Status) {
    match status {
        Status::Usage => {
            let _ = rt.eprint(USAGE);
        }
        _ => report(&mut StdSink::of(rt.stderr()), status),
    }
}

fn main(rt: HostRuntime) -> ExitCode {
    let status = run(&rt);
    say(&rt, status);
    ExitCode::from(status.code())
}
