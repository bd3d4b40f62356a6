//! The spans of parts of a text that grows.
ghost use Rattle.std.specs.Prelude.{◌≡◌, ◌<◌, ◌++◌, ◌∷◌, ◌==◌, ◌||◌, [], length, flat_map, IfOk};
ghost use Rattle.std.specs.Prelude.{IfSome, OnOk, encode_utf8};
ghost use Rattle.std.specs.List.{list_any};
ghost use Rattle.std.specs.String.{string_bytes};
ghost use Rattle.rd_base.specs.LinkLines.{quote_mark, backslash, escaped_character};
ghost use Rattle.rd_base.specs.Spans.{part, placed, kept_apart, IsStretch, IsPlacedAt, IsText};
ghost use Rattle.rd_base.specs.Spans.{IsTextAt};

use crate::Starved;

/// A part of a text, in octets.
#[derive(Clone, Copy, Debug, Drop)]
pub(crate) struct Span {
    /// The offset of the first octet.
    pub(crate) from: u32,
    /// The offset after the last octet.
    pub(crate) upto: u32,
}

/// The span of a text that is mostly a part of another one.
#[derive(Clone, Copy, Debug, Drop)]
pub(crate) enum Stretch {
    /// A span of the other text.
    Here(Span),
    /// A span of a text of its own, since the other has it with escapes.
    Apart(Span),
}

/// Returns a number that a span can hold. Returns `Starved` if it is more than a `u32` counts.
#[inline(always)]
pub(crate) fn offset(octets: usize) -> Result<u32, Starved>
    ensures { IfOk result (λ offset. offset ≡ octets) }
{
    match u32::try_from(octets) {
        Ok(offset) => Ok(offset),
        Err(_) => Err(Starved),
    }
}

/// Appends a text.
#[inline(always)]
pub(crate) fn push(text: &mut String, more: &str) -> Result<(), Starved>
    ensures { OnOk result (string_bytes text.new ≡ string_bytes text.old ++ more.now) }
{
    text.push_str(more)?;
    Ok(())
}

/// Appends a mark of ASCII.
#[inline(always)]
pub(crate) fn push_mark(text: &mut String, mark: char) -> Result<(), Starved>
    requires { mark < 128 }
    ensures { OnOk result (string_bytes text.new ≡ string_bytes text.old ++ mark ∷ []) }
{
    text.push(mark)?;
    Ok(())
}

/// Appends a text, and returns its span. Returns `Starved` also if the text is longer than a `u32`
/// counts.
#[inline(always)]
pub(crate) fn append(text: &mut String, more: &str) -> Result<Span, Starved>
    ensures text { IfOk result (λ _. string_bytes text.new ≡ string_bytes text.old ++ more.now) }
    ensures at { IfOk result (λ span. IsTextAt (string_bytes text.new) span more.now) }
{
    let from = offset(text.len())?;
    text.push_str(more)?;
    let upto = offset(text.len())?;
    Ok(Span { from, upto })
}

/// Returns the part of a text at a span.
#[inline(always)]
pub(crate) fn at(text: &str, span: Span) -> &str
    requires { IsText text.now span }
    ensures { result.now ≡ part text.now span }
{
    let octets = &text.as_bytes()[span.from as usize..span.upto as usize];
    unsafe { str::from_utf8_unchecked(octets) }
}

/// Returns the text at a stretch.
#[inline(always)]
pub(crate) fn at_stretch<'a>(text: &'a str, apart: &'a str, stretch: Stretch) -> &'a str
    requires { IsStretch text.now apart.now stretch }
    ensures { result.now ≡ placed text.now apart.now stretch }
{
    match stretch {
        Stretch::Here(span) => at(text, span),
        Stretch::Apart(span) => at(apart, span),
    }
}

/// Returns the span of a part of a text, if the part is at this octet.
#[inline(always)]
fn found(text: &str, from: usize, part: &str) -> Option<Span>
    ensures { IfSome result (λ span. IsTextAt text.now span part.now) }
{
    let upto = from.checked_add(part.len())?;
    if text.get(from..upto)? != part {
        return None;
    }
    let from = offset(from).ok()?;
    let upto = offset(upto).ok()?;
    Some(Span { from, upto })
}

/// Returns a stretch for a text: this octet of another one if the text is there, and otherwise
/// apart.
#[inline(always)]
pub(crate) fn stretch_of(
    text: &str,
    from: usize,
    part: &str,
    apart: &mut String,
) -> Result<Stretch, Starved>
    ensures at { IfOk result (λ stretch. IsPlacedAt text.now
        (string_bytes apart.new) stretch part.now) }
    ensures apart { IfOk result (λ stretch. string_bytes apart.new ≡ string_bytes apart.old
        ++ kept_apart stretch part.now) }
{
    match found(text, from, part) {
        Some(span) => Ok(Stretch::Here(span)),
        None => Ok(Stretch::Apart(append(apart, part)?)),
    }
}

/// Returns whether an octet has a backslash before it in quotes.
fn is_escaped(octet: u8) -> bool
    ensures { result ≡ (octet == quote_mark || octet == backslash) }
{
    octet == b'"' || octet == b'\\'
}

/// Returns whether a text has backslashes in quotes.
fn has_escaped(text: &str) -> bool
    ensures { result ≡ list_any (λ c. c == quote_mark || c == backslash) text.now }
{
    text.as_bytes().iter().any(|octet| is_escaped(*octet))
}

/// Appends a character as in quotes.
fn push_escaped(text: &mut String, character: char) -> Result<(), Starved>
    ensures { OnOk result (string_bytes text.new ≡ string_bytes text.old
        ++ flat_map escaped_character (encode_utf8 character)) }
{
    if character == '"' || character == '\\' {
        text.push('\\')?;
        text.push(character)?;
        return Ok(());
    }
    text.push(character)?;
    Ok(())
}

/// Appends a text with a backslash before each quote and each backslash.
fn push_escaped_text(text: &mut String, more: &str) -> Result<(), Starved>
    ensures { OnOk result (string_bytes text.new ≡ string_bytes text.old
        ++ flat_map escaped_character more.now) }
{
    let mut characters = more.chars();
    'characters: while let Some(character) = characters.next() {
        push_escaped(text, character)?;
    }
    Ok(())
}

/// Appends a text with a backslash before each quote and each backslash, and returns its stretch
/// without them. Returns `Starved` also if one of both is longer than a `u32` counts.
pub(crate) fn append_escaped(
    text: &mut String,
    more: &str,
    apart: &mut String,
) -> Result<Stretch, Starved>
    ensures text { IfOk result (λ _. string_bytes text.new ≡ string_bytes text.old
        ++ flat_map escaped_character more.now) }
    ensures at { IfOk result (λ stretch. IsPlacedAt (string_bytes text.new)
        (string_bytes apart.new) stretch more.now) }
    ensures apart { IfOk result (λ stretch. string_bytes apart.new ≡ string_bytes apart.old
        ++ kept_apart stretch more.now) }
{
    if has_escaped(more) {
        push_escaped_text(text, more)?;
        return Ok(Stretch::Apart(append(apart, more)?));
    }
    Ok(Stretch::Here(append(text, more)?))
}
