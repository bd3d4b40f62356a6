//! The calls of `link_format` (RFC 6690 section 2):
//!
//! - `check BODY`: the links of the body, or the offset at which it stops being a prefix of a
//!   document;
//! - `params BODY`: the parameters of its first link;
//! - `value_of BODY`: the values of these;
//! - `quoted TEXT`.

use crate::pages::{begin, put_fault, put_text};
use link_format::{LinkBad, Param, check, params, quoted, value_of};
use rd_base::Starved;
use vector_words::Line;

/// Writes the links of a body, each as its target and its parameters, or the offset at which it
/// stops being a prefix of a document.
pub(crate) fn put_check(line: &mut Line<'_>) {
    let body = line.octets(line.said);
    match check(body.as_slice()) {
        Ok(links) => {
            'links: for link in links {
                begin(line);
                line.put("<");
                put_text(line, link.target);
                line.put(">");
                line.put(if link.params.is_empty() { "" } else { " " });
                put_text(line, link.params);
            }
        }
        Err(LinkBad { at }) => put_fault(line, "bad", at),
    }
}

/// Writes a parameter: its name, its value as it is spelled if it has one, and the whole.
fn put_param(line: &mut Line<'_>, param: &Param<'_>) {
    put_text(line, param.name);
    if let Some(value) = param.value {
        line.put(" = ");
        put_text(line, value);
    }
    line.put(" in ");
    put_text(line, param.raw);
}

/// Writes the parameters of the first link of a body, or their values.
pub(crate) fn put_params(line: &mut Line<'_>, call: &str) -> Result<(), Starved> {
    let body = line.octets(line.said);
    let link = match check(body.as_slice()) {
        Ok(mut links) => links.next(),
        Err(_) => None,
    };
    let Some(link) = link else {
        line.refuse();
        return Ok(());
    };
    'parameters: for param in params(&link) {
        begin(line);
        if call == "params" {
            put_param(line, &param);
        } else {
            line.put_octets(value_of(line.alloc, &param)?.as_bytes());
        }
    }
    Ok(())
}

/// Writes a text in quotes.
pub(crate) fn put_quoted(line: &mut Line<'_>) -> Result<(), Starved> {
    let text = line.text(line.said);
    let text = quoted(line.alloc, text.as_str())?;
    line.put_octets(text.as_bytes());
    Ok(())
}
