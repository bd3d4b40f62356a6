//! The results of a reader of streams and of a device's requests, for octets that are cut as a line
//! says, line by line.
#![tactic(auto)]

mod cuttings;
mod feeds;
mod frames;
mod pieces;
mod sessions;

use cuttings::cuts;
use feeds::feed;
use sessions::session;
use std::alloc::Global;
use vector_words::NoAnswer;

/// Returns the answer of a call to its arguments, or `None` if it is not one of these calls.
///
/// # Errors
///
/// `Form` if the arguments do not have the form of the call; `Starved` if memory runs out.
pub fn answer(alloc: Global, call: &str, said: &str) -> Result<Option<String>, NoAnswer> {
    let answer = match call {
        "feed" => feed(alloc, said)?,
        "cuts" => cuts(alloc, said)?,
        "session" => session(alloc, said)?,
        _ => return Ok(None),
    };
    Ok(Some(answer))
}
