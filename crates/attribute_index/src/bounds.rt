//! The range of abbreviations of the values that a pattern matches.
ghost use Rattle.std.specs.Prelude.{◌≡◌};
ghost use Rattle.attribute_index.specs.Bounds.{AreBounds, is_within};

use crate::abbreviations::Abbreviation;
use listing::before_wildcard;

/// The range of the abbreviations that belong to values of a name that a pattern matches.
///
/// Among abbreviations that spell their names and values whole, exactly those in the range belong
/// to such values.
#[derive(Clone, Copy, Drop)]
pub(crate) struct Bounds {
    /// The first abbreviation of the range.
    from: Abbreviation,
    /// The first abbreviation after the range, or `None` if the range has only one.
    end: Option<Abbreviation>,
}

impl Bounds {
    /// Returns the range of a name and a pattern (RFC 6690 section 4.1).
    pub(crate) fn of(name: &str, pattern: &str) -> Bounds
        ensures { AreBounds result name.now pattern.now }
    {
        match before_wildcard(pattern) {
            Some(front) => Bounds {
                from: Abbreviation::of(name, front),
                end: Some(Abbreviation::behind(name, front)),
            },
            None => Bounds {
                from: Abbreviation::of(name, pattern),
                end: None,
            },
        }
    }

    /// Returns whether this abbreviation is in the range.
    pub(crate) fn has(&self, abbreviation: &Abbreviation) -> bool
        ensures { result ≡ is_within self.now abbreviation.now }
    {
        match &self.end {
            None => *abbreviation == self.from,
            Some(end) => self.from <= *abbreviation && *abbreviation < *end,
        }
    }
}
