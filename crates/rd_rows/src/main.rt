//! `rd_rows`: runs what is stored of the directory, and reports of each case or list whether its
//! results are as expected.
//!
//! Each line of standard input names one. `registration/repeated` is the case of the file
//! `registration/repeated.case`, in the folder where the program runs. `desks FILE` is a list of
//! tables of a desk, `talks FILE` one of connections, and `recordings FILE` one of captures. FILE
//! has a line for each step or call, and FILE.out the expected results. Empty lines and those that
//! begin with `#` are ignored.
#![tactic(auto)]

mod braces;
mod came;
mod case;
mod desks;
mod faults;
mod lists;
mod reading;
mod recordings;
mod running;
mod stories;
mod talks;

use crate::faults::Fault;
use std::io;
use std::process::ExitCode;
use std::sync::Wait;

/// The number of cases and lists that were run, and of those that differ.
#[derive(Drop)]
struct Tally {
    /// The number that were run.
    cases: u64,
    /// The number of these that differ or have a fault.
    differ: u64,
}

/// Runs what a line names.
fn run<R: Wait + AllocGlobal>(rt: &HostRuntime, waits: &R, line: &str) -> Result<(), Fault> {
    match line.split_once(' ') {
        Some((kind, file)) => lists::check(rt, waits, kind, file),
        None => running::check_file(rt, line),
    }
}

/// Runs what a line names, and prints the result. Returns whether it is as expected.
fn tell<R: Wait + AllocGlobal>(rt: &HostRuntime, waits: &R, line: &str) -> io::Result<bool> {
    match run(rt, waits, line) {
        Ok(()) => {
            println!(rt; "{line}: as written")?;
            Ok(true)
        }
        Err(fault) => {
            println!(rt; "{line}: {fault}")?;
            Ok(false)
        }
    }
}

/// Runs all that standard input names.
fn tell_all<R: Wait + AllocGlobal>(rt: &HostRuntime, waits: &R) -> io::Result<Tally> {
    let mut tally = Tally {
        cases: 0,
        differ: 0,
    };
    'cases: for line in rt.lines(rt.alloc()) {
        let line = line?;
        let name = line.as_str();
        if name.is_empty() || name.starts_with('#') {
            continue;
        }
        tally.cases = tally.cases.saturating_add(1);
        if !tell(rt, waits, name)? {
            tally.differ = tally.differ.saturating_add(1);
        }
    }
    Ok(tally)
}

fn main(rt: HostRuntime) -> io::Result<ExitCode> {
    let Tally { cases, differ } = tell_all(&rt, &rt)?;
    println!(rt; "{cases} cases, {differ} differ")?;
    if differ > 0 {
        return Ok(ExitCode::FAILURE);
    }
    Ok(ExitCode::SUCCESS)
}
