//! Patterns, and the values that they match (RFC 6690 section 4.1).
ghost use Rattle.std.specs.Prelude.{◌≡◌, ◌==◌, ◌&&◌, ◌≤◌, ℕ, List, None, true, false, length};
ghost use Rattle.std.specs.Prelude.{bytes_eq, not};
ghost use Rattle.link_model.specs.Characters.{is_empty};
ghost use Rattle.std.specs.Option.{option_copied};
ghost use Rattle.std.specs.List.{list_any};
ghost use Rattle.record_model.specs.Options.{is_among};
ghost use Rattle.record_model.specs.Matching as model;
ghost use Rattle.listing.specs.Patterns.{fits};
ghost use Rattle.listing.specs.ValueParts.{FirstPart};

/// Returns whether the last octet of the pattern is an asterisk.
fn ends_with_wildcard(pattern: &str) -> bool
    ensures { result ≡ false → model.before_wildcard pattern.now ≡ None }
{
    match pattern.as_bytes().split_last() {
        Some((last, _)) => *last == b'*',
        None => false,
    }
}

/// Returns the text before the asterisk that ends the pattern, or `None` if no asterisk ends it
/// (RFC 6690 section 4.1).
pub fn before_wildcard(pattern: &str) -> Option<&str>
    ensures { option_copied result ≡ model.before_wildcard pattern.now }
{
    if !ends_with_wildcard(pattern) {
        return None;
    }
    pattern.strip_suffix('*')
}

/// Returns whether both texts have the same last octet.
fn end_alike(text: &str, other: &str) -> bool
    ensures { text.now ≡ other.now → result ≡ true }
{
    text.as_bytes().last() == other.as_bytes().last()
}

/// Returns whether both texts are the same.
///
/// Different values mostly differ in their length or last octet, which are compared first.
fn same_text(text: &str, other: &str) -> bool
    ensures { result ≡ bytes_eq text.now other.now }
{
    if text.len() != other.len() {
        return false;
    }
    if !end_alike(text, other) {
        return false;
    }
    text == other
}

/// A pattern that is cut once for all values.
#[derive(Clone, Copy)]
pub(crate) enum Pattern<'a> {
    /// The text with which a value must begin: an asterisk ends the pattern.
    Front(&'a str),
    /// The text that a value must be.
    Whole(&'a str),
}

impl<'a> Pattern<'a> {
    /// Returns the pattern of this text.
    pub(crate) fn of(text: &'a str) -> Pattern<'a>
        ensures { (value : List ℕ) → fits result value ≡ model.matches_value text.now value }
    {
        match before_wildcard(text) {
            Some(front) => Pattern::Front(front),
            None => Pattern::Whole(text),
        }
    }

    /// Returns whether the value begins with the text of the pattern, or is that text.
    pub(crate) fn fits(&self, value: &str) -> bool
        ensures { result ≡ fits self.now value.now }
    {
        match self {
            Pattern::Front(front) => value.starts_with(*front),
            Pattern::Whole(text) => same_text(value, text),
        }
    }

    /// Returns whether one part of the value fits the pattern. Spaces separate parts.
    ///
    /// A value no longer than the text of a whole pattern is compared with it before spaces are
    /// searched for.
    pub(crate) fn fits_part(&self, value: &str) -> bool
        ensures { result ≡ list_any (fits self.now) (model.parts_of value.now) }
    {
        match self {
            Pattern::Whole(text) if value.len() <= text.len() => is_short_part(text, value),
            _ => self.fits_any_part(value),
        }
    }

    /// Returns whether one part of the value fits the pattern. A value without spaces is one part,
    /// unless it is empty.
    #[inline(never)]
    fn fits_any_part(&self, value: &str) -> bool
        ensures { result ≡ list_any (fits self.now) (model.parts_of value.now) }
    {
        if has_space(value) {
            return self.fits_a_part(value);
        }
        if value.is_empty() {
            return false;
        }
        self.fits(value)
    }

    /// Returns whether one part of the value fits the pattern. Cuts the value into its parts.
    fn fits_a_part(&self, value: &str) -> bool
        ensures { result ≡ list_any (fits self.now) (model.parts_of value.now) }
    {
        let mut rest = value;
        'parts: while let Some((part, more)) = first_part(rest) {
            if self.fits(part) {
                return true;
            }
            rest = more;
        }
        false
    }
}

/// Returns whether the pattern matches the value (RFC 6690 section 4.1).
///
/// A pattern that ends with an asterisk matches a value that begins with the rest of the pattern.
/// Any other pattern matches the equal value.
pub fn matches_value(pattern: &str, value: &str) -> bool
    ensures { result ≡ model.matches_value pattern.now value.now }
{
    Pattern::of(pattern).fits(value)
}

/// Returns whether the values of the name are lists of parts: `rel`, `rev`, `rt` and `if` (RFC 6690
/// section 2).
pub fn is_list_name(name: &str) -> bool
    ensures { result ≡ is_among model.list_names name.now }
{
    matches!(
        name.as_bytes(),
        [b'r', b'e', b'l'] | [b'r', b'e', b'v'] | [b'r', b't'] | [b'i', b'f']
    )
}

/// Returns the first part of a value and the text after it, or `None` if the value has no part.
///
/// Spaces separate parts, and an empty text is no part (RFC 6690 section 2, relation-types).
pub fn first_part(value: &str) -> Option<(&str, &str)>
    ensures { FirstPart value.now result }
{
    let mut rest = value;
    'parts: while let Some((part, more)) = rest.split_once(' ') {
        if !part.is_empty() {
            return Some((part, more));
        }
        rest = more;
    }
    if rest.is_empty() {
        return None;
    }
    Some((rest, ""))
}

/// Returns whether the value has a space.
fn has_space(value: &str) -> bool
    ensures { result ≡ list_any (λ c. c == model.space) value.now }
{
    value.as_bytes().iter().any(|octet| *octet == b' ')
}

/// Returns whether the value is one part, which is not empty.
fn is_one_part(value: &str) -> bool
    ensures { result ≡ (not (is_empty value.now)
        && not (list_any (λ c. c == model.space) value.now)) }
{
    !value.is_empty() && !has_space(value)
}

/// Returns whether the text is a part of a value that is no longer than the text.
#[tactic(auto, using(crate::proofs::PartSizes::same_or_none))]
fn is_short_part(text: &str, value: &str) -> bool
    requires { length value.now ≤ length text.now }
    ensures { result ≡ list_any (λ part. bytes_eq part text.now) (model.parts_of value.now) }
{
    same_text(value, text) && is_one_part(value)
}

/// Returns whether the pattern matches a value of the name.
///
/// If the values of the name are lists, it must match one part. Otherwise it must match the value.
#[tactic(auto, unfolding(record_model::specs::Matching::matches_named))]
pub fn matches_named(name: &str, pattern: &str, value: &str) -> bool
    ensures { result ≡ model.matches_named name.now pattern.now value.now }
{
    if is_list_name(name) {
        return Pattern::of(pattern).fits_part(value);
    }
    matches_value(pattern, value)
}
