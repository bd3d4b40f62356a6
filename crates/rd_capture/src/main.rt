//! `rd_capture`: reads a capture of what a server received and sent as a trace and its output, and
//! writes these as a capture.
#![tactic(auto)]

use rd_base::{StdSink, StdSource};
use recording::{Status, record, report};
use std::process::ExitCode;
use std::{env, io};

/// Returns the arguments of the command line, without the program's name. Returns `Usage` if one of
/// them is not UTF-8.
fn words_of(rt: &HostRuntime) -> Result<Vec<String>, Status> {
    let mut args = match env::args(rt) {
        Ok(args) => args,
        Err(error) if error.kind() == io::ErrorKind::OutOfMemory => return Err(Status::Memory),
        Err(_) => return Err(Status::Usage),
    };
    let _ = args.next();
    args.collect(rt.alloc()).map_err(|_| Status::Memory)
}

fn main(rt: HostRuntime) -> ExitCode {
    let mut err = StdSink::of(rt.stderr());
    let status = match words_of(&rt) {
        Ok(words) => {
            let mut source = StdSource::of(rt.stdin());
            let mut out = StdSink::of(rt.stdout());
            record(
                rt.alloc(),
                words.as_slice(),
                &mut source,
                &mut out,
                &mut err,
            )
        }
        Err(status) => {
            report(&mut err, status);
            status
        }
    };
    ExitCode::from(status.code())
}
