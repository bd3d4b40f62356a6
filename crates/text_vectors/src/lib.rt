//! The answers of the calls of the crates of text, by the name of the call and its arguments:
//! documents, references, query options, drafts and listings (RFC 3986, RFC 6690, RFC 9176). Each
//! module describes the arguments of its calls.
#![tactic(auto)]

mod documents;
mod drafts;
mod listings;
mod matching;
mod pages;
mod queries;
mod records;
mod references;
mod requests;

use rd_base::Starved;
use std::alloc::Global;
use vector_words::{Line, NoAnswer};

/// Writes the answer of a call that may run out of memory. Returns `None` if it is not one of these
/// calls.
fn answer_in_memory(line: &mut Line<'_>, call: &str) -> Option<Result<(), Starved>> {
    Some(match call {
        "params" | "value_of" => documents::put_params(line, call),
        "quoted" => documents::put_quoted(line),
        "parts" | "is_uri" | "host" | "resolve" => references::put_answer(line, call),
        "rebased" => drafts::put_rebased(line),
        "matches_named" | "link_matches" | "endpoint_matches" => matching::put_holds(line, call),
        "matches" | "endpoint_listed" | "same_part" | "lines" | "discovery" | "page_bounds" => {
            listings::put_answer(line, call)
        }
        _ => return None,
    })
}

/// Writes the answer of another call. Returns whether it is one of these calls.
fn answer_at_once(line: &mut Line<'_>, call: &str) -> bool {
    match call {
        "check" => documents::put_check(line),
        "fault" | "reg_params" | "update_params" | "lookup_query" => {
            queries::put_answer(line, call)
        }
        "build" => drafts::put_built(line),
        "weight" => drafts::put_weight(line),
        "before_wildcard" => matching::put_front(line),
        "first_part" => matching::put_first_part(line),
        "is_list_name" => matching::put_is_list_name(line),
        "matches_value" => matching::put_matched(line),
        _ => return false,
    }
    true
}

/// Returns the answer of a call to its arguments, or `None` if no crate of text has such a call.
///
/// Parts of an answer are separated by ` | `. An answer without parts is `-`.
///
/// # Errors
///
/// `Form` if the arguments do not have the form that the call's module describes; `Starved` if
/// memory runs out.
pub fn answer(alloc: Global, call: &str, said: &str) -> Result<Option<String>, NoAnswer> {
    let mut line = Line::new(alloc, said);
    match answer_in_memory(&mut line, call) {
        Some(done) => line.done(done),
        None => {
            if !answer_at_once(&mut line, call) {
                return Ok(None);
            }
        }
    }
    if line.page.is_empty() {
        line.put("-");
    }
    match line.answer() {
        Ok(answer) => Ok(Some(answer)),
        Err(fault) => Err(fault),
    }
}
