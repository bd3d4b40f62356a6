//! Registrations as listings have them: `/rd/NUMBER?OPTIONS LINKS`. The options also give the base.
//! The links are those of a document, unchanged; their targets and anchors are resolved already.

use crate::pages::text_in;
use crate::queries::params_of;
use crate::requests::Request;
use link_format::{LinkRef, check, params, value_of};
use rd_base::{Items, LinkParts, LinksBuilder, Moment, Record, RegParams, Starved, Text};
use std::alloc::Global;
use vector_words::{Line, NoAnswer, cut};

/// Adds a link to the builder with its target, its anchor and the attributes that were added
/// before.
fn with_target<'a>(
    builder: LinksBuilder,
    target: &'a str,
    anchor: &'a Option<Text>,
) -> Result<LinksBuilder, Starved> {
    let anchor = text_in(anchor);
    let parts = LinkParts {
        target_ref: "",
        anchor_ref: None,
        target,
        anchor,
    };
    builder.with_link(&parts)
}

/// Adds a link to the builder, unchanged.
fn with_link(
    alloc: Global,
    builder: LinksBuilder,
    link: &LinkRef<'_>,
) -> Result<LinksBuilder, Starved> {
    let mut builder = builder;
    let mut anchor = None;
    'parameters: for param in params(link) {
        let value = value_of(alloc, &param)?;
        if param.name == "anchor" {
            anchor = Some(value);
            continue;
        }
        builder = builder.with_pair(param.raw, param.name, value.as_str())?;
    }
    with_target(builder, link.target, &anchor)
}

/// Returns the links of a document, unchanged.
fn built(line: &mut Line<'_>, said: &str) -> Result<Items, Starved> {
    let body = line.octets(said);
    let mut builder = LinksBuilder::new(line.alloc);
    match check(body.as_slice()) {
        Ok(links) => {
            'links: for link in links {
                builder = with_link(line.alloc, builder, &link)?;
            }
        }
        Err(_) => line.refuse(),
    }
    builder.build(line.alloc)
}

/// Returns the links of a document, unchanged, if there is memory for them.
pub(crate) fn items_of(line: &mut Line<'_>, said: &str) -> Option<Items> {
    match built(line, said) {
        Ok(items) => Some(items),
        Err(_) => {
            line.note(NoAnswer::Starved);
            None
        }
    }
}

/// Returns the registration in a text, if there is one.
pub(crate) fn record_of(line: &mut Line<'_>, said: &str) -> Option<Record> {
    let (word, links) = cut(said);
    let request = Request::of(line, word);
    let number = request.path.strip_prefix("/rd/").unwrap_or("no location");
    let number = line.number_in(number, u64::MAX);
    let items = items_of(line, links)?;
    let RegParams {
        name,
        lt,
        base,
        attrs,
    } = params_of(line, &request)?;
    let Some(base) = base else {
        line.refuse();
        return None;
    };
    Some(Record {
        number,
        name,
        lt,
        granted: Moment(0),
        base,
        base_given: true,
        attrs,
        items,
    })
}
