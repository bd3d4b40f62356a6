//! Moments, in milliseconds.
ghost use Rattle.std.specs.Prelude.{◌≡◌, max};

/// A moment in milliseconds. One that is passed in is at most 10^15.
#[derive(Clone, Copy, Debug, PartialEq, Eq, PartialOrd, Ord, Hash)]
pub struct Moment(pub u64);

impl Moment {
    /// Returns the later of two moments.
    pub fn later(self, other: Moment) -> Moment
        ensures { result.0 ≡ max other.0 self.0 }
    {
        if self.0 < other.0 {
            return other;
        }
        self
    }
}
