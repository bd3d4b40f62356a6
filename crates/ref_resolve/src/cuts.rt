//! Cuts of a text at its first octet of a kind.
ghost use Rattle.std.specs.Prelude.{◌≡◌, ◌<◌, ◌+◌, ◌∷◌, length, option_map, MatchOption, false};
ghost use Rattle.reference_model.specs.References as references;

/// Returns what precedes the first of these marks, or the whole text, and what follows the mark if
/// there is one.
pub(crate) fn around(text: &str, mark: char) -> (&str, Option<&str>)
    requires { mark < 128 }
    ensures before { result.0.now ≡ references.before mark text.now }
    ensures after { option_map (λ rest. rest.now) result.1 ≡ references.after mark text.now }
    ensures lengths { MatchOption result.1 (length result.0.now ≡ length text.now)
        (λ rest. length result.0.now + 1 + length rest.now ≡ length text.now) }
{
    match text.split_once(mark) {
        Some((front, back)) => (front, Some(back)),
        None => (text, None),
    }
}

/// Returns what precedes the first of these marks, and the text from it on.
pub(crate) fn split_from(text: &str, mark: char) -> (&str, &str)
    requires { mark < 128 }
    ensures before { result.0.now ≡ references.before mark text.now }
    ensures from { result.1.now ≡ references.from_first mark text.now }
    ensures lengths { length result.0.now + length result.1.now ≡ length text.now }
{
    match text.find(mark) {
        Some(offset) => text.split_at(offset),
        None => (text, ""),
    }
}

/// Returns the text up to and with the first of these marks, or the whole text.
pub(crate) fn through(text: &str, mark: char) -> &str
    requires { mark < 128 }
    ensures { result.now ≡ references.through mark text.now }
{
    match text.find(mark) {
        Some(offset) => &text[..offset + 1],
        None => text,
    }
}

/// Returns what follows the mark, if the text begins with it.
pub(crate) fn after_first(text: &str, mark: char) -> Option<&str>
    requires { mark < 128 }
    ensures { MatchOption result (references.begins_with mark text.now ≡ false)
        (λ rest. text.now ≡ mark ∷ rest.now) }
{
    text.strip_prefix(mark)
}

/// Returns what follows two slashes at the beginning, if the text begins with them.
pub(crate) fn after_two_slashes(text: &str) -> Option<&str>
    ensures { option_map (λ rest. rest.now) result ≡ references.after_two_slashes text.now }
{
    match text.strip_prefix('/') {
        Some(rest) => rest.strip_prefix('/'),
        None => None,
    }
}
