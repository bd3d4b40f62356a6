//! The values of parameters without quotes and escapes, and texts in quotes (RFC 6690 section 2).
ghost use Rattle.std.specs.Prelude.{◌≡◌, ◌==◌, ◌||◌, ◌++◌, IfOk, IfSome, false, true, flat_map};
ghost use Rattle.std.specs.Char.{encode_utf8};
ghost use Rattle.std.specs.String.{string_bytes};
ghost use Rattle.std.specs.List.{list_all};
ghost use Rattle.link_model.specs.Characters.{quote_mark, backslash, is_not_control};
ghost use Rattle.link_model.specs.Documents.{is_quoted_string};
ghost use Rattle.link_model.specs.Quoting as quoting;
ghost use Rattle.link_format.specs.Views.{parameter_seen, value_seen};

use crate::parameters::Param;
use rd_base::{Starved, Text};
use std::alloc::Global;

/// The value of a parameter, without quotes and escapes.
#[derive(Debug, Drop)]
pub enum Value<'a> {
    /// A part of the document, as it is written.
    Written(&'a str),
    /// A text of its own, since the document has it with escapes.
    Unescaped(Text),
}

impl<'a> Value<'a> {
    /// Returns the text, without quotes and escapes.
    pub fn as_str(&self) -> &str
        ensures { result.now ≡ value_seen self.now }
    {
        match self {
            Value::Written(text) => text,
            Value::Unescaped(text) => text.as_str(),
        }
    }
}

/// Returns the value of a parameter, without quotes and escapes. It is empty if the parameter has
/// none. Allocates only if the value has escapes.
///
/// # Errors
///
/// `Starved` if memory runs out.
pub fn read_value<'a>(alloc: Global, param: &Param<'a>) -> Result<Value<'a>, Starved>
    ensures { IfOk result (λ value. value_seen value
        ≡ quoting.value_of (parameter_seen param.now)) }
{
    match param.value {
        None => Ok(Value::Written("")),
        Some(value) => unquoted(alloc, value),
    }
}

/// Returns the value of a parameter in a text of its own, without quotes and escapes. It is empty
/// if the parameter has none.
///
/// # Errors
///
/// `Starved` if memory runs out.
pub fn value_of(alloc: Global, param: &Param<'_>) -> Result<Text, Starved>
    ensures { IfOk result (λ text. text ≡ quoting.value_of (parameter_seen param.now)) }
{
    match read_value(alloc, param) {
        Ok(Value::Written(text)) => Text::copy_of(alloc, text),
        Ok(Value::Unescaped(text)) => Ok(text),
        Err(starved) => Err(starved),
    }
}

/// Returns a token itself, or the content of a quoted string.
fn unquoted<'a>(alloc: Global, value: &'a str) -> Result<Value<'a>, Starved>
    ensures { IfOk result (λ said. value_seen said ≡ quoting.unquoted value.now) }
{
    let mut characters = value.chars();
    let Some(first) = characters.next() else {
        return Ok(Value::Written(""));
    };
    if first != '"' {
        return Ok(Value::Written(value));
    }
    content(alloc, characters.as_str())
}

/// Returns the characters up to a closing quote at the end. Returns `None` if no quote is at the
/// end, or if another quote or a backslash comes before it.
fn content_as_written(inner: &str) -> Option<&str>
    ensures { IfSome result (λ text. text.now ≡ quoting.content_up_to_quote false inner.now) }
{
    let front = inner.strip_suffix('"')?;
    let octets = front.as_bytes();
    if octets.contains(&b'"') {
        return None;
    }
    if octets.contains(&b'\\') {
        return None;
    }
    Some(front)
}

/// Returns the characters up to a closing quote, with each escape replaced by the character that it
/// escapes.
fn content<'a>(alloc: Global, inner: &'a str) -> Result<Value<'a>, Starved>
    ensures { IfOk result (λ said. value_seen said ≡ quoting.content_up_to_quote false inner.now) }
{
    match content_as_written(inner) {
        Some(text) => Ok(Value::Written(text)),
        None => Ok(Value::Unescaped(unescaped(alloc, inner)?)),
    }
}

/// Returns what [`content`] returns, in a text of its own, by reading one character after the
/// other.
fn unescaped(alloc: Global, inner: &str) -> Result<Text, Starved>
    ensures { IfOk result (λ text. text ≡ quoting.content_up_to_quote false inner.now) }
{
    let mut text = Text::new();
    let mut escaped = false;
    let mut characters = inner.chars();
    'characters: while let Some(character) = characters.next() {
        if escaped {
            text.push(alloc, character)?;
            escaped = false;
            continue;
        }
        if character == '"' {
            return Ok(text);
        }
        if character == '\\' {
            escaped = true;
            continue;
        }
        text.push(alloc, character)?;
    }
    Ok(text)
}

/// Returns the text in quotes, with a backslash before each quote and each backslash in it.
///
/// The result is a quoted string of the grammar if the text has no control character. [`value_of`]
/// reads it back.
///
/// # Errors
///
/// `Starved` if memory runs out.
pub fn quoted(alloc: Global, value: &str) -> Result<Text, Starved>
    ensures spelled { IfOk result (λ text. text ≡ quoting.quoted value.now) }
    ensures reads_back { IfOk result (λ text. quoting.unquoted text ≡ value.now) }
    ensures grammar { list_all is_not_control value.now ≡ true
        → IfOk result (λ text. is_quoted_string text ≡ true) }
{
    let mut text = String::new(alloc);
    text.push('"')?;
    let mut characters = value.chars();
    'characters: while let Some(character) = characters.next() {
        push_escaped(&mut text, character)?;
    }
    text.push('"')?;
    Ok(Text::of(text))
}

/// Returns whether a character needs a backslash in quotes.
fn is_mark(character: char) -> bool
    ensures { result ≡ (character == quote_mark || character == backslash) }
{
    character == '"' || character == '\\'
}

/// Appends a character, with a backslash before it if it is a quote or a backslash.
fn push_escaped(text: &mut String, character: char) -> Result<(), Starved>
    ensures { IfOk result (λ _. string_bytes text.new ≡ string_bytes text.old ++ flat_map
        quoting.escaped_character (encode_utf8 character)) }
{
    if is_mark(character) {
        text.push('\\')?;
        text.push(character)?;
        return Ok(());
    }
    text.push(character)?;
    Ok(())
}
