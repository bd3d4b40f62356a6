//! `rd_vectors`: shows the answers of the calls of the directory's crates, line by line. A line has
//! the name of a call and its arguments. Headings begin with `#`.
#![tactic(auto)]

mod shows;
mod vectors;

use std::io;
use std::process::ExitCode;
use vectors::{Shown, Vectors};

/// Shows the lines one after the other. Returns whether each was answered.
fn show_all(rt: &HostRuntime) -> io::Result<bool> {
    let Ok(mut vectors) = Vectors::new(rt.alloc()) else {
        return Err(io::Error::from(io::ErrorKind::OutOfMemory));
    };
    let mut all = true;
    'lines: for line in rt.lines(rt.alloc()) {
        let Ok(Shown { line, answered }) = vectors.show(line?.as_str()) else {
            return Err(io::Error::from(io::ErrorKind::OutOfMemory));
        };
        rt.println(line)?;
        if !answered {
            all = false;
        }
    }
    Ok(all)
}

fn main(rt: HostRuntime) -> io::Result<ExitCode> {
    if show_all(&rt)? {
        return Ok(ExitCode::SUCCESS);
    }
    Ok(ExitCode::FAILURE)
}
