//! Stored tables of a desk, which test what no datagram shows.

mod fixture;
mod tables;

use rd_base::Starved;
use std::alloc::Global;
use tables::{Tables, Tally};

/// Appends the result of a table, if one has ended.
fn add(text: &mut String, ended: Option<String>) -> Result<(), Starved> {
    if let Some(outcome) = ended {
        text.push_str(outcome.as_str())?;
        text.push('\n')?;
    }
    Ok(())
}

/// Handles these lines, and appends the result of each table.
fn take_all(text: &mut String, told: &mut Tables, lines: &str) -> Result<(), Starved> {
    'lines: for line in lines.lines() {
        add(text, told.take(line)?)?;
    }
    add(text, told.end()?)
}

/// Takes these lines, and returns the results of their tables, with a last line that counts them.
fn results(alloc: Global, told: &mut Tables, lines: &str) -> Result<String, Starved> {
    let mut text = String::new(alloc);
    take_all(&mut text, told, lines)?;
    let Tally { tables, differ } = told.tally();
    writeln!(text, "{tables} tables, {differ} differ")?;
    Ok(text)
}

/// Returns the results of the tables in these lines. A line `desk NAME` begins a table, and its
/// lines follow. Empty lines and those that begin with `#` are ignored.
pub(crate) fn coming(alloc: Global, lines: &str) -> Result<String, Starved> {
    let mut told = Tables::new(alloc);
    results(alloc, &mut told, lines)
}
