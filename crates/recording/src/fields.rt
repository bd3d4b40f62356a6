//! Texts between separators.
ghost use Rattle.std.specs.Prelude.{◌<◌, length, IfSome};

/// Returns the text before the first separator and the text after it, or `None` if there is no
/// separator.
pub(crate) fn cut(separator: u8, text: &[u8]) -> Option<(&[u8], &[u8])>
    ensures { IfSome result (λ parts. length parts.1.now < length text.now) }
{
    let at = place_of(separator, text)?;
    Some((&text[..at], &text[at + 1..]))
}

/// Returns the index of the first separator, or `None` if there is none.
fn place_of(separator: u8, text: &[u8]) -> Option<usize>
    ensures { IfSome result (λ at. at < length text.now) }
{
    text.iter().position(|octet| *octet == separator)
}
