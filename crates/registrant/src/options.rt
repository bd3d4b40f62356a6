//! The options that the parts of a URI and of a location become (RFC 7252 section 6.4).
ghost use Rattle.std.specs.Prelude.{◌≡◌, ◌<◌, ◌∷◌, []};
ghost use Rattle.std.specs.Prelude.{true, false, length, option_map};
ghost use Rattle.std.specs.Prelude.{MatchOption, ⊤};
ghost use Rattle.message_model.specs.declared.formats.TheConstants.{LINK_FORMAT};
ghost use Rattle.link_model.specs.Characters.{slash};
ghost use Rattle.reference_model.specs.References as references;
ghost use Rattle.message_model.specs.OptionTable as table;
ghost use Rattle.client_model.specs.Asks as asks;
ghost use Rattle.client_model.specs.Asks.{decoded_parts, parts_at, are_parts};
ghost use Rattle.registrant.specs.Parts.{Adds, AreRegistering, AreLocated};

use crate::parts::{PartBad, decoded};
use client_model::{MAX_PART, Opts};
use message_model::formats::LINK_FORMAT;
use message_model::options::{CONTENT_FORMAT, URI_PATH, URI_QUERY};
use rd_base::{Bytes, Text};
use std::alloc::Global;

/// Returns the text before the first `mark`, or all of it, and the text after that mark if there is
/// one.
fn cut(text: &str, mark: char) -> (&str, Option<&str>)
    requires { mark < 128 }
    ensures before { result.0.now ≡ references.before mark text.now }
    ensures after { option_map (λ rest. rest.now) result.1 ≡ references.after mark text.now }
    ensures lengths { MatchOption result.1 ⊤ (λ rest. length rest.now < length text.now) }
{
    match text.split_once(mark) {
        Some((front, back)) => (front, Some(back)),
        None => (text, None),
    }
}

/// Appends the decoded parts of a text as options of this number.
fn push_parts(
    alloc: Global,
    options: &mut Opts,
    number: u32,
    mark: char,
    text: &str,
) -> Result<(), PartBad>
    requires { mark < 128 }
    ensures { Adds number (are_parts (decoded_parts (parts_at mark text.now)))
        (decoded_parts (parts_at mark text.now)) options.old result options.new }
{
    let mut left = Some(text);
    'parts: while let Some(text) = left {
        let (part, more) = cut(text, mark);
        let value = match decoded(alloc, part) {
            Ok(value) => value,
            Err(bad) => return Err(bad),
        };
        options.push((number, value))?;
        left = more;
    }
    Ok(())
}

/// Returns the path after its leading slash, or `None` if it does not begin with one.
fn after_slash(path: &str) -> Option<&str>
    ensures { MatchOption result (references.begins_with slash path.now ≡ false)
        (λ rest. path.now ≡ slash ∷ rest.now) }
{
    path.strip_prefix('/')
}

/// Appends the segments of a path as Uri-Path options. An empty path and a lone slash have none.
fn push_path(alloc: Global, options: &mut Opts, path: &str) -> Result<(), PartBad>
    ensures { Adds table.uri_path (are_parts (decoded_parts (asks.segments_of path.now)))
        (decoded_parts (asks.segments_of path.now)) options.old result options.new }
{
    match after_slash(path) {
        None => Ok(()),
        Some("") => Ok(()),
        Some(segments) => push_parts(alloc, options, URI_PATH, '/', segments),
    }
}

/// Appends the parts of a query as Uri-Query options. An empty query is one empty part.
fn push_query(alloc: Global, options: &mut Opts, query: Option<&str>) -> Result<(), PartBad>
    ensures { let values =
        decoded_parts (asks.query_parts (option_map (λ q. q.now) query.entry)) in
        Adds table.uri_query (are_parts values) values options.old result options.new }
{
    match query {
        None => Ok(()),
        Some(query) => push_parts(alloc, options, URI_QUERY, '&', query),
    }
}

/// Appends the Content-Format of link documents (RFC 9176 section 5).
fn push_format(alloc: Global, options: &mut Opts) -> Result<(), PartBad>
    ensures { Adds table.content_format true ((LINK_FORMAT ∷ []) ∷ []) options.old result
        options.new }
{
    let value = Bytes::copy_of(alloc, &[LINK_FORMAT as u8])?;
    options.push((CONTENT_FORMAT, value))?;
    Ok(())
}

/// Returns the options of a registration with this path and query (RFC 9176 section 5).
pub(crate) fn registering_options(
    alloc: Global,
    path: &str,
    query: Option<&str>,
) -> Result<Opts, PartBad>
    ensures { AreRegistering (decoded_parts (asks.segments_of path.now))
        (decoded_parts (asks.query_parts (option_map (λ q. q.now) query.entry))) result }
{
    let mut options = Opts::new(alloc);
    push_path(alloc, &mut options, path)?;
    push_format(alloc, &mut options)?;
    push_query(alloc, &mut options, query)?;
    Ok(options)
}

/// Returns the segments of a location as Uri-Path options (RFC 9176 section 5.3).
pub(crate) fn located_options(alloc: Global, path: &[Text]) -> Result<Opts, PartBad>
    ensures { AreLocated path.now result }
{
    let mut options = Opts::new(alloc);
    let mut left = path;
    'segments: while let Some((segment, more)) = left.split_first() {
        if segment.len() > MAX_PART {
            return Err(PartBad::Part);
        }
        let value = Bytes::copy_of(alloc, segment.as_bytes())?;
        options.push((URI_PATH, value))?;
        left = more;
    }
    Ok(options)
}
