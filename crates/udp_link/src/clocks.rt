//! Clocks, which return moments and words.
ghost use Rattle.std.specs.Prelude.{ℕ, List, Option};
ghost use Rattle.rd_base.specs.declared.moments.Moment.{Moment};
ghost use Rattle.udp_link.specs.Told.{WhereTold, Stays};
ghost use Rattle.udp_link.specs.Clocks.{IsHandedIn, GivesFirst};

use rd_base::Moment;

/// The latest moment that a clock returns, in milliseconds.
pub const LAST_MOMENT: u64 = 1_000_000_000_000_000;

/// A source of moments, and of words that look random. It cannot fail.
pub trait Clock {
    /// The moments that are still to be returned, if the clock exposes them. The last of them is
    /// returned again and again.
    ghost times: { Self → Option (List Moment) };

    /// The words that are still to be returned, if the clock exposes them. The last of them is
    /// returned again and again.
    ghost words: { Self → Option (List ℕ) };

    /// Returns the current moment, at most 10^15 milliseconds.
    fn now(&mut self) -> Moment
        ensures early { IsHandedIn result }
        ensures gives { WhereTold (GivesFirst (record { 0 = 0 }) result) (times self.old)
            (times self.new) }
        ensures words_stay { Stays (words self.old) (words self.new) };

    /// Returns a word.
    fn word(&mut self) -> u32
        ensures gives { WhereTold (GivesFirst 0 result) (words self.old) (words self.new) }
        ensures times_stay { Stays (times self.old) (times self.new) };
}
