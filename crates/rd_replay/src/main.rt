//! `rd_replay`: replays a recorded trace to an exact output.
#![tactic(auto)]

use rd_base::{StdSink, StdSource};
use std::process::ExitCode;
use trace_replay::{Status, WordsFault, given_words, replay, report};

fn main(rt: HostRuntime) -> ExitCode {
    let mut err = StdSink::of(rt.stderr());
    let status = match given_words(&rt) {
        Ok(words) => {
            let mut source = StdSource::of(rt.stdin());
            let mut out = StdSink::of(rt.stdout());
            replay(
                rt.alloc(),
                words.as_slice(),
                &mut source,
                &mut out,
                &mut err,
            )
        }
        Err(fault) => {
            let status = match fault {
                WordsFault::Usage => Status::Usage,
                WordsFault::Starved => Status::Memory,
            };
            report(&mut err, status);
            status
        }
    };
    ExitCode::from(status.code())
}
