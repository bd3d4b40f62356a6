//! The fields of a line: a text is cut at its first space.
ghost use Rattle.std.specs.Prelude.{◌≡◌, ◌<◌, ◌==◌, option_map, IfSome, length, position};
ghost use Rattle.line_model.specs.Lines.{fields};
ghost use Rattle.trace_text.specs.Fields.{fields_of_cut};

use memchr::memchr;

/// Returns what precedes the first space, and what follows it, or `None` if there is no space.
pub fn cut(text: &[u8]) -> Option<(&[u8], &[u8])>
    ensures { fields text.now
        ≡ fields_of_cut text.now (option_map (λ p. (p.0.now, p.1.now)) result) }
{
    match offset_of(b' ', text) {
        None => None,
        Some(at) => Some((&text[..at], &text[at + 1..])),
    }
}

/// Returns the offset of the first octet of a text that is this one, or `None` if none is.
pub fn offset_of(octet: u8, text: &[u8]) -> Option<usize>
    ensures value { result ≡ position (λ b. b == octet) text.now }
    ensures within { IfSome result (λ at. at < length text.now) }
{
    memchr(octet, text)
}
