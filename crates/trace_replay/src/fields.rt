//! Texts between separators.
ghost use Rattle.std.specs.Prelude.{◌≡◌, ◌<◌, option_map, IfSome, length};
ghost use Rattle.trace_replay.specs.Fields as fields;

use trace_text::offset_of;

/// Returns the text before the first separator and the text after it, or `None` if there is no
/// separator.
pub fn cut(separator: u8, text: &[u8]) -> Option<(&[u8], &[u8])>
    ensures value { option_map (λ p. (p.0.now, p.1.now)) result ≡ fields.cut separator text.now }
    ensures shorter { IfSome result (λ p. length p.1.now < length text.now) }
{
    match offset_of(separator, text) {
        None => None,
        Some(at) => Some((&text[..at], &text[at + 1..])),
    }
}
