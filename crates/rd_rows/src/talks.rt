//! Stored connections, with the answers of a directory.

mod connections;
mod pieces;

use connections::{cuts, talk};
use rd_base::Starved;
use std::sync::Wait;
use vector_words::{NoAnswer, cut};

/// Returns the answer of a call, or `None` if there is no such call.
fn answer<R: Wait + AllocGlobal>(
    rt: &R,
    call: &str,
    said: &str,
) -> Result<Option<String>, NoAnswer> {
    let answer = match call {
        "talk" => talk(rt, said)?,
        "cuts" => cuts(rt, said)?,
        _ => return Ok(None),
    };
    Ok(Some(answer))
}

/// Appends a line, an arrow and the answer of its call; an empty line or a heading as it is.
fn add<R: Wait + AllocGlobal>(rt: &R, text: &mut String, line: &str) -> Result<(), Starved> {
    text.push_str(line)?;
    if line.is_empty() || line.starts_with('#') {
        return Ok(text.push('\n')?);
    }
    let (call, said) = cut(line);
    match answer(rt, call, said) {
        Ok(Some(answer)) => writeln!(text, " => {answer}")?,
        Ok(None) => text.push_str(" => no such call\n")?,
        Err(NoAnswer::Form) => text.push_str(" => not this form\n")?,
        Err(NoAnswer::Starved) => return Err(Starved),
    }
    Ok(())
}

/// Returns the answers of lines, each of which has the name of a call and the octets of
/// connections.
pub(crate) fn coming<R: Wait + AllocGlobal>(rt: &R, lines: &str) -> Result<String, Starved> {
    let mut text = String::new(rt.alloc());
    'lines: for line in lines.lines() {
        add(rt, &mut text, line)?;
    }
    Ok(text)
}
