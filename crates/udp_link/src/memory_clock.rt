//! A clock in memory.
ghost use Rattle.std.specs.Prelude.{◌≡◌, ◌≤◌, Some, All, length, drop};
ghost use Rattle.udp_link.specs.Clocks.{IsHandedIn};

use crate::clock_lists::next_of;
use crate::{Clock, Moments, Words};
use rd_base::Moment;

/// A clock that returns the moments and the words of two lists in order, and then the last ones
/// again and again.
#[derive(Debug, Drop)]
pub struct MemClock {
    moments: Moments,
    moments_passed: usize,
    words: Words,
    words_passed: usize,
    ghost early: { All IsHandedIn moments },
    ghost moments_within: { moments_passed ≤ length moments },
    ghost words_within: { words_passed ≤ length words },
}

impl MemClock {
    /// Creates a clock that returns `moments`, in milliseconds, and `words`. It returns 0 if a list
    /// is empty.
    ///
    /// # Requires
    ///
    /// Each moment is at most 10^15 milliseconds.
    pub fn of(moments: Moments, words: Words) -> MemClock
        requires { All IsHandedIn moments }
        ensures times { ⟦<MemClock as Clock>⟧.times result ≡ Some moments }
        ensures words { ⟦<MemClock as Clock>⟧.words result ≡ Some words }
    {
        MemClock {
            moments,
            moments_passed: 0,
            words,
            words_passed: 0,
        }
    }
}

impl Clock for MemClock {
    ghost times = { λ c. Some (drop c.moments_passed c.moments) };

    ghost words = { λ c. Some (drop c.words_passed c.words) };

    fn now(&mut self) -> Moment {
        next_of(self.moments.as_slice(), &mut self.moments_passed, Moment(0))
    }

    fn word(&mut self) -> u32 {
        next_of(self.words.as_slice(), &mut self.words_passed, 0)
    }
}
