//! The options of a command line. Each is given at most once, in any order, as its name followed by
//! its value, or as both joined by `=`. There are no other arguments.
ghost use Rattle.std.specs.Prelude.{◌≡◌, ◌≤◌, ◌∷◌, ℕ, Bool, List, Some, Option};
ghost use Rattle.std.specs.Prelude.{IfSome, map, length, option_map};
ghost use Rattle.std.specs.String.{string_bytes};
ghost use Rattle.trace_replay.specs.Fields as fields;
ghost use Rattle.trace_replay.specs.Options.{GoesOn, joined, words_after};

use crate::fields::cut;

/// What the arguments of a program ask for, as far as they were read.
pub trait Asked: Copy {
    /// Whether a text is the name of an option.
    ghost is_option: { List ℕ → Bool };

    /// What is asked for with one option more, or `None` if it has no such name, was given before,
    /// or does not take this value.
    ghost given: { List ℕ → List ℕ → Self → Option Self };

    /// Returns whether a text is the name of an option.
    fn names(text: &[u8]) -> bool
        ensures { result ≡ is_option text.now };

    /// Returns what is asked for with one option more. Returns `None` if it has no such name, was
    /// given before, or does not take this value.
    fn with(self, name: &[u8], value: &[u8]) -> Option<Self>
        ensures { result ≡ given name.now value.now self };
}

/// Adds an argument in which a name and a value are joined by `=`.
fn with_joined<A: Asked>(asked: A, word: &[u8]) -> Option<A>
    ensures { result ≡ joined A.is_option A.given (fields.cut 61 word.now) asked }
{
    let (name, value) = cut(b'=', word)?;
    asked.with(name, value)
}

/// Adds an argument and, if it is a name, the value after it. Returns the arguments after that,
/// too.
fn with_word<'a, A: Asked>(asked: A, word: &[u8], rest: &'a [String]) -> Option<(A, &'a [String])>
    ensures goes { GoesOn A.is_option A.given asked (word.now ∷ map string_bytes rest.now)
        (option_map (λ next. (next.0, map string_bytes next.1.now)) result) }
    ensures shorter { IfSome result (λ next. length next.1.now ≤ length rest.now) }
{
    if !A::names(word) {
        let Some(more) = with_joined(asked, word) else {
            return None;
        };
        return Some((more, rest));
    }
    let Some((value, rest)) = rest.split_first() else {
        return None;
    };
    let Some(more) = asked.with(word, value.as_bytes()) else {
        return None;
    };
    Some((more, rest))
}

/// Returns what arguments ask for, added to `nothing`, or `None` if they are not those of the
/// program.
pub fn words_ask<A: Asked>(nothing: A, words: &[String]) -> Option<A>
    ensures { result ≡ words_after A.is_option A.given (Some nothing) (map string_bytes words.now) }
{
    let mut asked = nothing;
    let mut left = words;
    'words: while let Some((word, rest)) = left.split_first() {
        let Some(next) = with_word(asked, word.as_bytes(), rest) else {
            return None;
        };
        (asked, left) = next;
    }
    Some(asked)
}
