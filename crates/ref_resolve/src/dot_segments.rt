//! Removal of the dot segments of a path (RFC 3986 section 5.2.4).
ghost use Rattle.std.specs.Prelude.{◌≡◌, ◌<◌, ◌≤◌, [], ◌∷◌, ◌++◌, ◌||◌, ◌&&◌, ◌==◌, true, false};
ghost use Rattle.std.specs.Prelude.{fold, length, take, drop, slice_index, MatchOption, IfSome};
ghost use Rattle.std.specs.Prelude.{OnOk};
ghost use Rattle.std.specs.String.{string_bytes};
ghost use Rattle.std.specs.Str.{IsUtf8};
ghost use Rattle.link_model.specs.Characters.{full_stop, slash, is_empty};
ghost use Rattle.reference_model.specs.References as references;
ghost use Rattle.reference_model.specs.Resolution as resolution;
ghost use Rattle.ref_resolve.specs.Paths.{before_last, path_with, closed_segments};
ghost use Rattle.ref_resolve.specs.PlainPaths.{has_no_dot_after_slash};

use crate::cuts::{after_first, split_from};
use rd_base::Starved;

/// Returns whether a segment is one dot.
fn is_single_dot(segment: &str) -> bool
    ensures { result ≡ resolution.is_single_dot segment.now }
{
    segment == "."
}

/// Returns whether a segment is two dots.
fn is_double_dot(segment: &str) -> bool
    ensures { result ≡ resolution.is_double_dot segment.now }
{
    segment == ".."
}

/// Returns whether a segment is one dot or two.
fn is_dot_segment(segment: &str) -> bool
    ensures { result ≡ resolution.is_dot_segment segment.now }
{
    is_single_dot(segment) || is_double_dot(segment)
}

/// Returns a path without the dot segments at its beginning, before any slash.
fn without_leading_dots(path: &str) -> &str
    ensures same { resolution.without_leading_dots (resolution.with_closing_slash
        (resolution.segments_of path.now))
        ≡ resolution.with_closing_slash (resolution.segments_of result.now) }
    ensures first { resolution.is_dot_segment (references.before slash result.now) ≡ false }
{
    let mut rest = path;
    'segments: loop {
        let (segment, after) = split_from(rest, '/');
        if !is_dot_segment(segment) {
            return rest;
        }
        match after_first(after, '/') {
            Some(next) => rest = next,
            None => return "",
        }
    }
}

/// Returns the offset of the last slash.
fn last_slash(text: &[u8]) -> Option<usize>
    ensures before { MatchOption result (before_last slash text.now ≡ [])
        (λ offset. before_last slash text.now ≡ take offset text.now) }
    ensures offset { IfSome result (λ offset. (offset < length text.now) ×
        (slice_index text.now offset ≡ slash)) }
{
    let mut rest = text;
    'octets: while let Some((octet, front)) = rest.split_last() {
        if *octet == b'/' {
            return Some(front.len());
        }
        rest = front;
    }
    None
}

/// Cuts off the last segment of the path that begins at `start`, with the slash before it.
fn drop_last_segment(text: &mut String, start: usize)
    requires within { start ≤ length (string_bytes text.old) }
    requires utf8 { IsUtf8 (take start (string_bytes text.old)) }
    ensures front { take start (string_bytes text.new) ≡ take start (string_bytes text.old) }
    ensures path { drop start (string_bytes text.new)
        ≡ before_last slash (drop start (string_bytes text.old)) }
    ensures within { start ≤ length (string_bytes text.new) }
{
    match last_slash(&text.as_bytes()[start..]) {
        Some(offset) => text.truncate(start + offset),
        None => text.truncate(start),
    }
}

/// Appends a segment to the path that begins at `start`. Two dots remove the last segment instead,
/// and one dot is left out.
fn append_segment(text: &mut String, start: usize, segment: &str) -> Result<(), Starved>
    requires within { start ≤ length (string_bytes text.old) }
    requires utf8 { IsUtf8 (take start (string_bytes text.old)) }
    ensures front { OnOk result (take start (string_bytes text.new) ≡ take start
        (string_bytes text.old)) }
    ensures path { OnOk result (drop start (string_bytes text.new) ≡ path_with
        (drop start (string_bytes text.old)) segment.now) }
    ensures within { OnOk result (start ≤ length (string_bytes text.new)) }
{
    if is_double_dot(segment) {
        drop_last_segment(text, start);
        return Ok(());
    }
    if is_single_dot(segment) {
        return Ok(());
    }
    text.push_str("/")?;
    text.push_str(segment)?;
    Ok(())
}

/// Appends the last segment, with a slash after it if it is a dot segment.
fn append_last_segment(text: &mut String, start: usize, segment: &str) -> Result<(), Starved>
    requires within { start ≤ length (string_bytes text.old) }
    requires utf8 { IsUtf8 (take start (string_bytes text.old)) }
    ensures front { OnOk result (take start (string_bytes text.new) ≡ take start
        (string_bytes text.old)) }
    ensures path { OnOk result (drop start (string_bytes text.new) ≡ fold path_with
        (drop start (string_bytes text.old)) (resolution.with_closing_slash (segment.now ∷ []))) }
    ensures within { OnOk result (start ≤ length (string_bytes text.new)) }
{
    append_segment(text, start, segment)?;
    if is_dot_segment(segment) {
        text.push_str("/")?;
    }
    Ok(())
}

/// Appends the segments of a path to the path that begins at `start`. The appended path is empty or
/// begins with a slash.
fn append_segments(text: &mut String, start: usize, path: &str) -> Result<(), Starved>
    requires within { start ≤ length (string_bytes text.old) }
    requires utf8 { IsUtf8 (take start (string_bytes text.old)) }
    requires slash { (is_empty path.now || references.begins_with slash path.now) ≡ true }
    ensures front { OnOk result (take start (string_bytes text.new) ≡ take start
        (string_bytes text.old)) }
    ensures path { OnOk result (drop start (string_bytes text.new) ≡ fold path_with
        (drop start (string_bytes text.old)) (closed_segments path.now)) }
{
    let mut rest = path;
    'segments: while let Some(after) = after_first(rest, '/') {
        let (segment, next) = split_from(after, '/');
        if next.is_empty() {
            return append_last_segment(text, start, segment);
        }
        append_segment(text, start, segment)?;
        rest = next;
    }
    Ok(())
}

/// Returns whether an octet is a slash, and what follows it begins with a full stop.
fn is_slash_before_dot(octet: u8, rest: &[u8]) -> bool
    ensures { result ≡ (octet == slash && references.begins_with full_stop rest.now) }
{
    octet == b'/' && rest.starts_with(b".")
}

/// Returns whether no slash precedes a full stop. Most paths have no full stop at all.
fn has_no_dot_after_slash(path: &[u8]) -> bool
    ensures { result ≡ has_no_dot_after_slash path.now }
{
    if !path.contains(&b'.') {
        return true;
    }
    let mut rest = path;
    'octets: while let Some((octet, more)) = rest.split_first() {
        if is_slash_before_dot(*octet, more) {
            return false;
        }
        rest = more;
    }
    true
}

/// Returns whether a path begins with a slash, and none of its segments begins with a full stop.
fn has_no_dots(path: &str) -> bool
    ensures { result ≡ (references.begins_with slash path.now && has_no_dot_after_slash path.now) }
{
    path.as_bytes().starts_with(b"/") && has_no_dot_after_slash(path.as_bytes())
}

/// Appends a path without its dot segments, segment by segment.
fn append_by_segments(text: &mut String, path: &str) -> Result<(), Starved>
    ensures { OnOk result (string_bytes text.new ≡ string_bytes text.old ++
        resolution.remove_dot_segments path.now) }
{
    let path = without_leading_dots(path);
    let start = text.as_bytes().len();
    let (first, rest) = split_from(path, '/');
    text.push_str(first)?;
    append_segments(text, start, rest)
}

/// Appends a path without its dot segments (RFC 3986 section 5.2.4).
#[tactic(auto, using(crate::proofs::PlainPaths::nothing_removed))]
pub(crate) fn append_without_dots(text: &mut String, path: &str) -> Result<(), Starved>
    ensures { OnOk result (string_bytes text.new ≡ string_bytes text.old ++
        resolution.remove_dot_segments path.now) }
{
    if has_no_dots(path) {
        text.push_str(path)?;
        return Ok(());
    }
    append_by_segments(text, path)
}
