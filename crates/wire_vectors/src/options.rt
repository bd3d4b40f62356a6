//! The meaning of a message's options.

use crate::kinds::code_of;
use crate::scripts::message_of;
use coap_message::view;
use coap_options::{
    BadOption, Meaning, Path, Refusal, allowed, etags, meaning, queries, request, request_key,
};
use rd_base::{Pieces, Starved};
use vector_words::{Line, yes_or_no};

/// Writes the resource that a path names.
fn put_path(line: &mut Line<'_>, path: Path) {
    line.put(match path {
        Path::Core => "/.well-known/core",
        Path::SimpleRd => "/.well-known/rd",
        Path::Rd => "/rd",
        Path::Location(_) => "/rd/",
        Path::Res => "/rd-lookup/res",
        Path::Ep => "/rd-lookup/ep",
        Path::Other => "other",
    });
    if let Path::Location(number) = path {
        line.put_number(number);
    }
}

/// Reads a resource by its name; `other` is any other path.
fn path_of(line: &mut Line<'_>) -> Path {
    let word = line.word();
    match word {
        "/.well-known/core" => Path::Core,
        "/.well-known/rd" => Path::SimpleRd,
        "/rd" => Path::Rd,
        "/rd-lookup/res" => Path::Res,
        "/rd-lookup/ep" => Path::Ep,
        "other" => Path::Other,
        _ => {
            let number = word.strip_prefix("/rd/").unwrap_or("no location");
            Path::Location(line.number_in(number, u64::MAX))
        }
    }
}

/// Writes the number of an option, if it is present.
fn put_number(line: &mut Line<'_>, name: &str, number: Option<u32>) {
    if let Some(number) = number {
        line.put(name);
        line.put_number(u64::from(number));
    }
}

/// Writes the value of an option, if it is present.
fn put_value(line: &mut Line<'_>, name: &str, value: Option<&[u8]>) {
    if let Some(value) = value {
        line.put(name);
        line.put_datagram(value);
    }
}

/// Writes the meaning of a message: its path, and its other options.
fn put_meaning(line: &mut Line<'_>, meaning: &Meaning<'_>) {
    put_path(line, meaning.path);
    put_number(line, " observe=", meaning.observe);
    put_number(line, " accept=", meaning.accept.map(u32::from));
    put_number(line, " format=", meaning.format.map(u32::from));
    put_value(line, " block1=", meaning.block1);
    put_value(line, " block2=", meaning.block2);
    put_value(line, " echo=", meaning.echo);
    if meaning.proxy {
        line.put(" proxy");
    }
}

/// Writes why a request is refused.
fn put_refusal(line: &mut Line<'_>, refusal: Refusal) {
    line.put(match refusal {
        Refusal::BadOption(_) => "bad option ",
        Refusal::Proxy => "bad proxy",
        Refusal::Path => "bad path",
        Refusal::Method => "bad method",
        Refusal::Block => "bad block",
        Refusal::Accept => "bad accept",
        Refusal::Format => "bad format",
    });
    if let Refusal::BadOption(number) = refusal {
        line.put_number(u64::from(number));
    }
}

/// Writes the query options, and the first of them again as a piece.
fn put_queries(line: &mut Line<'_>, meaning: &Meaning<'_>) {
    'queries: for query in queries(meaning) {
        line.put("[");
        line.put_octets(query);
        line.put("]");
    }
    match queries(meaning).next_piece() {
        Some(piece) => {
            line.put(" first ");
            line.put_octets(piece);
        }
        None => line.put("none"),
    }
}

/// Writes the entity tags.
fn put_etags(line: &mut Line<'_>, meaning: &Meaning<'_>) {
    'etags: for etag in etags(meaning) {
        line.put("[");
        line.put_datagram(etag);
        line.put("]");
    }
    if line.page.is_empty() {
        line.put("none");
    }
}

/// Answers `request MESSAGE`, `meaning MESSAGE`, `queries MESSAGE`, `etags MESSAGE` and `key
/// MESSAGE`: the meaning of a request, or why it is refused; the meaning of a message's options,
/// its query options, its entity tags and its key.
pub(crate) fn part_of(line: &mut Line<'_>, call: &str) -> Result<(), Starved> {
    let datagram = message_of(line);
    let Ok(read) = view(datagram.as_slice()) else {
        line.refuse();
        return Ok(());
    };
    if call == "request" {
        match request(&read) {
            Ok(meant) => put_meaning(line, &meant),
            Err(refusal) => put_refusal(line, refusal),
        }
        return Ok(());
    }
    match meaning(&read) {
        Ok(meant) => put_part(line, call, &meant),
        Err(BadOption(number)) => {
            put_refusal(line, Refusal::BadOption(number));
            if call != "meaning" {
                line.refuse();
            }
            Ok(())
        }
    }
}

/// Writes what a call asks of the meaning of a message.
fn put_part(line: &mut Line<'_>, call: &str, meaning: &Meaning<'_>) -> Result<(), Starved> {
    match call {
        "meaning" => put_meaning(line, meaning),
        "queries" => put_queries(line, meaning),
        "etags" => put_etags(line, meaning),
        _ => line.put_datagram(request_key(line.alloc, meaning)?.as_slice()),
    }
    Ok(())
}

/// Answers `allowed PATH CODE`: whether a resource has a method.
pub(crate) fn is_allowed(line: &mut Line<'_>) {
    let path = path_of(line);
    let code = code_of(line);
    line.put(yes_or_no(allowed(&path, code)));
}
