//! The calls of `ref_resolve` (RFC 3986): `parts REFERENCE`, `is_uri REFERENCE`, `host REFERENCE`
//! and `resolve BASE REFERENCE`. A text that is not a reference is bad at an offset.

use crate::pages::{put_fault, put_named, put_optional};
use rd_base::Starved;
use ref_resolve::{Parts, RefBad, host, is_uri, parts, resolve};
use vector_words::{Line, yes_or_no};

/// Writes the components of a reference.
fn put_parts(line: &mut Line<'_>, parts: &Parts<'_>) {
    put_optional(line, "scheme", parts.scheme);
    put_optional(line, "authority", parts.authority);
    put_named(line, "path", parts.path);
    put_optional(line, "query", parts.query);
    put_optional(line, "fragment", parts.fragment);
}

/// Writes a reference resolved against a base.
fn put_resolved(line: &mut Line<'_>, base: &str, reference: &Parts<'_>) -> Result<(), Starved> {
    match parts(base) {
        Ok(base) => {
            let text = resolve(line.alloc, &base, reference)?;
            line.put_octets(text.as_bytes());
        }
        Err(_) => line.refuse(),
    }
    Ok(())
}

/// Writes the answer of a call for a reference that was read. Only `resolve` uses the base.
fn put_of(line: &mut Line<'_>, call: &str, base: &str, parts: &Parts<'_>) -> Result<(), Starved> {
    match call {
        "parts" => put_parts(line, parts),
        "is_uri" => line.put(yes_or_no(is_uri(parts))),
        "host" => match host(parts) {
            None => line.put("none"),
            Some(host) => line.put_octets(host.as_bytes()),
        },
        _ => return put_resolved(line, base, parts),
    }
    Ok(())
}

/// Writes the answer of one of these calls.
pub(crate) fn put_answer(line: &mut Line<'_>, call: &str) -> Result<(), Starved> {
    let base = if call == "resolve" { line.word() } else { "-" };
    let base = line.text(base);
    let reference = line.text(line.said);
    match parts(reference.as_str()) {
        Ok(parts) => put_of(line, call, base.as_str(), &parts),
        Err(RefBad { at }) => {
            put_fault(line, "bad", at);
            Ok(())
        }
    }
}
