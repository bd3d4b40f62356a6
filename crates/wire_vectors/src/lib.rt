//! The answers of calls that read and write messages, their options, blocks, peers and the lines of
//! a trace, line by line.
#![tactic(auto)]

mod blocks;
mod kinds;
mod lines;
mod messages;
mod options;
mod peers;
mod scripts;
mod texts;

use rd_base::Starved;
use std::alloc::Global;
use vector_words::{Line, NoAnswer};

/// Writes the answer of a call that may run out of memory. Returns `None` if it is not one of these
/// calls.
fn answer_in_memory(line: &mut Line<'_>, call: &str) -> Option<Result<(), Starved>> {
    Some(match call {
        "peer" => peers::peer(line),
        "peer_octets" => peers::peer_octets(line),
        "peer_text" => peers::text_of_peer(line),
        "base_of" => peers::base_of_peer(line),
        "text" => texts::text(line),
        "character" => texts::character(line),
        "message" => messages::message(line),
        "note" => messages::note(line),
        "meaning" | "request" | "queries" | "etags" | "key" => options::part_of(line, call),
        "line" => lines::line(line),
        "out" => lines::out(line),
        "trace" => lines::trace(line),
        "trace_line" => lines::trace_line(line),
        "trace_lines" => lines::trace_lines(line),
        _ => return None,
    })
}

/// Writes the answer of another call. Returns whether it is one of these calls.
fn answer_at_once(line: &mut Line<'_>, call: &str) -> bool {
    match call {
        "peer_order" => peers::peer_order(line),
        "text_order" => texts::text_order(line),
        "truncate" => texts::truncate(line),
        "later" => texts::later(line),
        "role" => messages::role(line),
        "octets" => messages::octets(line),
        "write" => messages::write(line),
        "uint" => blocks::uint(line),
        "uint_octets" => blocks::uint_octets(line),
        "block" => blocks::block(line),
        "block_octets" => blocks::block_octets(line),
        "block_size" => blocks::size(line),
        "slice" => blocks::slice(line),
        "allowed" => options::is_allowed(line),
        "number" => lines::number(line),
        _ => return false,
    }
    true
}

/// Returns the answer of a call to its arguments, or `None` if it is not one of these calls.
///
/// # Errors
///
/// `Form` if the arguments do not have the form of the call; `Starved` if memory runs out.
pub fn answer(alloc: Global, call: &str, said: &str) -> Result<Option<String>, NoAnswer> {
    let mut line = Line::new(alloc, said);
    match answer_in_memory(&mut line, call) {
        Some(done) => line.done(done),
        None => {
            if !answer_at_once(&mut line, call) {
                return Ok(None);
            }
        }
    }
    match line.answer() {
        Ok(answer) => Ok(Some(answer)),
        Err(fault) => Err(fault),
    }
}
