//! The calls of `query_text` (RFC 9176 sections 5, 5.1, 5.3.1 and 6.2):
//!
//! - `fault READING?OPTIONS`, in which the reading is `register`, `simple`, `update` or `lookup`;
//! - `reg_params register?OPTIONS` and `reg_params simple?OPTIONS`;
//! - `update_params update?OPTIONS`;
//! - `lookup_query KIND?OPTIONS`, in which the kind is `res`, `ep` or `core`.
ghost use Rattle.std.specs.Prelude.{◌≡◌, true, IfSome};
ghost use Rattle.record_model.specs.Parameters.{is_base};

use crate::pages::{put_named, put_number, put_optional, put_pairs, text_in};
use crate::requests::Request;
use query_text::{QueryBad, Reading, Why, fault, lookup_query, reg_params, update_params};
use rd_base::{Kind, Query, RegParams, UpdateParams};
use vector_words::{Line, NoAnswer};

/// Returns what a path says that the options are read as.
fn reading_of(line: &mut Line<'_>, path: &str) -> Reading {
    match path {
        "register" => Reading::Register,
        "simple" => Reading::Simple,
        "update" => Reading::Update,
        _ => {
            if path != "lookup" {
                line.refuse();
            }
            Reading::Lookup
        }
    }
}

/// Returns the kind of lookup that a path names.
fn kind_of(line: &mut Line<'_>, path: &str) -> Kind {
    match path {
        "res" => Kind::Resource,
        "ep" => Kind::Endpoint,
        _ => {
            if path != "core" {
                line.refuse();
            }
            Kind::Discovery
        }
    }
}

/// Notes that options which a call needs are refused.
pub(crate) fn note_bad(line: &mut Line<'_>, bad: QueryBad) {
    match bad {
        QueryBad::At { .. } => line.refuse(),
        QueryBad::Starved => line.note(NoAnswer::Starved),
    }
}

/// Returns the query of an argument, if it is one.
pub(crate) fn query_of(line: &mut Line<'_>, word: &str) -> Option<Query> {
    let request = Request::of(line, word);
    let kind = kind_of(line, request.path);
    match lookup_query(line.alloc, kind, request.queries()) {
        Ok(query) => Some(query),
        Err(bad) => {
            note_bad(line, bad);
            None
        }
    }
}

/// Returns the parameters of a registration that a request gives, if they are not refused.
pub(crate) fn params_of(line: &mut Line<'_>, request: &Request<'_>) -> Option<RegParams>
    ensures { IfSome result (λ params. IfSome params.base (λ base. is_base base ≡ true)) }
{
    match reg_params(line.alloc, request.queries(), false) {
        Ok(params) => Some(params),
        Err(bad) => {
            note_bad(line, bad);
            None
        }
    }
}

/// Writes why options are refused, with the index of the first that is.
fn put_why(line: &mut Line<'_>, index: usize, why: Why) {
    if write!(line.page, "{why:?} at {index}").is_err() {
        line.note(NoAnswer::Starved);
    }
}

/// Writes why options give no value.
fn put_bad(line: &mut Line<'_>, bad: QueryBad) {
    match bad {
        QueryBad::At { index, why } => put_why(line, index, why),
        QueryBad::Starved => line.note(NoAnswer::Starved),
    }
}

/// Writes the first fault of options, or that they have none.
fn put_first_fault(line: &mut Line<'_>, request: &Request<'_>) {
    let reading = reading_of(line, request.path);
    match fault(reading, request.queries()) {
        Some((index, why)) => put_why(line, index, why),
        None => line.put("none"),
    }
}

/// Writes the parameters of a registration.
fn put_reg_params(line: &mut Line<'_>, params: &RegParams) {
    put_named(line, "ep", params.name.ep.as_str());
    put_optional(line, "d", text_in(&params.name.sector));
    put_number(line, "lt", u64::from(params.lt));
    put_optional(line, "base", text_in(&params.base));
    put_pairs(line, params.attrs.as_slice());
}

/// Writes the result of reading the options of a registration.
fn put_registration(line: &mut Line<'_>, request: &Request<'_>) {
    let simple = request.path == "simple";
    if !simple && request.path != "register" {
        line.refuse();
    }
    match reg_params(line.alloc, request.queries(), simple) {
        Ok(params) => put_reg_params(line, &params),
        Err(bad) => put_bad(line, bad),
    }
}

/// Writes the parameters of an update.
fn put_update_params(line: &mut Line<'_>, params: &UpdateParams) {
    if let Some(seconds) = params.lt {
        put_number(line, "lt", u64::from(seconds));
    }
    put_optional(line, "base", text_in(&params.base));
    put_pairs(line, params.attrs.as_slice());
}

/// Writes the result of reading the options of an update.
fn put_update(line: &mut Line<'_>, request: &Request<'_>) {
    match update_params(line.alloc, request.queries()) {
        Ok(params) => put_update_params(line, &params),
        Err(bad) => put_bad(line, bad),
    }
}

/// Writes a query.
fn put_query(line: &mut Line<'_>, query: &Query) {
    line.put(match query.kind {
        Kind::Resource => "Resource",
        Kind::Endpoint => "Endpoint",
        Kind::Discovery => "Discovery",
    });
    'criteria: for criterion in query.criteria.as_slice() {
        put_named(line, criterion.name.as_str(), criterion.pattern.as_str());
    }
    if let Some(number) = query.page {
        put_number(line, "page", u64::from(number));
    }
    if let Some(number) = query.count {
        put_number(line, "count", u64::from(number));
    }
}

/// Writes the result of reading the options of a lookup.
fn put_lookup(line: &mut Line<'_>, request: &Request<'_>) {
    let kind = kind_of(line, request.path);
    match lookup_query(line.alloc, kind, request.queries()) {
        Ok(query) => put_query(line, &query),
        Err(bad) => put_bad(line, bad),
    }
}

/// Writes the answer of one of these calls.
pub(crate) fn put_answer(line: &mut Line<'_>, call: &str) {
    let request = Request::of(line, line.said);
    match call {
        "fault" => put_first_fault(line, &request),
        "reg_params" => put_registration(line, &request),
        "update_params" => put_update(line, &request),
        _ => put_lookup(line, &request),
    }
}
