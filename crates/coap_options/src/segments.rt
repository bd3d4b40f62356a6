//! The segments of a path, in order.

ghost use Rattle.std.specs.Prelude.{◌≡◌, ℕ, List, [], ◌∷◌, ◌++◌};
ghost use Rattle.message_model.specs.Request as request;
ghost use Rattle.coap_options.specs.Segments.{AreSegments};

use crate::paths::{path_of_one, path_of_two};
use message_model::Path;

/// The segments of a path. No resource has more than two.
#[derive(Clone, Copy)]
pub(crate) enum Segments<'a> {
    /// No segment.
    None,
    /// One segment.
    One(&'a [u8]),
    /// Two segments, in order.
    Two(&'a [u8], &'a [u8]),
    /// Three segments or more, which name no resource.
    More,
}

/// Returns the segments with one more.
pub(crate) fn with_segment<'a>(segments: Segments<'a>, segment: &'a [u8]) -> Segments<'a>
    ensures { (values : List (List ℕ))
        → AreSegments segments.entry values
        → AreSegments result (values ++ segment.now ∷ []) }
{
    match segments {
        Segments::None => Segments::One(segment),
        Segments::One(first) => Segments::Two(first, segment),
        Segments::Two(_, _) => Segments::More,
        Segments::More => Segments::More,
    }
}

/// Returns the resource that the segments name.
#[tactic(auto, unfolding(message_model::specs::Request::path_of))]
pub(crate) fn path_of(segments: Segments<'_>) -> Path
    ensures { (values : List (List ℕ))
        → AreSegments segments.entry values
        → result ≡ request.path_of values }
{
    match segments {
        Segments::None => Path::Other,
        Segments::One(first) => path_of_one(first),
        Segments::Two(first, second) => path_of_two(first, second),
        Segments::More => Path::Other,
    }
}
