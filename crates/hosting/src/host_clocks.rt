//! A clock that counts from the start of the program. Setting the system's clock does not change
//! it.
ghost use Rattle.std.specs.Prelude.{◌≡◌, ◌≤◌, ◌/◌, ◌^◌, None, IfOk, min};
ghost use Rattle.std.specs.Duration.{as_nanos};
ghost use Rattle.rand_chacha.specs.ChaCha.{next_word, of_seed};
ghost use Rattle.udp_link.specs.Clocks.{IsHandedIn};
ghost use Rattle.hosting.specs.Times as spec;

use crate::options::MAX_BEGIN;
use rand_chacha::ChaCha20Rng;
use rand_core::SeedableRng;
use rand_core::utils::NextWord;
use rd_base::Moment;
use std::random::RandomSource;
use std::time::{Duration, Instant};
use std::{io, time};
use udp_link::{Clock, LAST_MOMENT};

/// The start of a program, from which all its clocks count.
#[derive(Drop)]
pub struct Origin {
    /// The moment of the start, by the wall clock.
    moment: Moment,
    /// The start by the monotonic clock, which cannot be set.
    instant: Instant,
    ghost early: { IsHandedIn moment },
}

/// Returns a time in milliseconds, at most 10^15.
fn millis(time: Duration) -> u64
    ensures { result ≡ min (as_nanos time / 1_000_000) (10 ^ 15) }
{
    time.as_millis().min(u128::from(LAST_MOMENT)) as u64
}

impl Origin {
    /// Reads both clocks.
    ///
    /// A wall clock before 1970 counts as 1970. One later than 10^15 milliseconds after 1970 counts
    /// as that moment.
    ///
    /// # Errors
    ///
    /// An error of the system if the monotonic clock cannot be read.
    pub fn read<R: time::Clock>(system: &R) -> io::Result<Origin> {
        let wall = system.since_1970().unwrap_or(Duration::ZERO);
        Ok(Origin {
            moment: Moment(millis(wall)),
            instant: Instant::now(system)?,
        })
    }

    /// Returns the number above which a run that starts then begins: the milliseconds since 1970,
    /// at most 10^14.
    pub fn begin(&self) -> u64
        ensures { result ≡ min self.now.moment.0 (10 ^ 14) }
    {
        self.moment.0.min(MAX_BEGIN)
    }

    /// Returns the moment at a reading of the monotonic clock.
    fn moment_at(&self, now: Instant) -> Moment
        ensures { result ≡ spec.moment_at self.now.moment self.now.instant now }
    {
        let passed = millis(now.duration_since(self.instant));
        Moment((self.moment.0 + passed).min(LAST_MOMENT))
    }
}

/// A clock whose moments never fall.
///
/// A moment is that of the wall clock at the start of the program, plus the time since then by the
/// monotonic clock. The words come from a generator with a seed. The clock exposes no lists to
/// contracts.
#[derive(Drop)]
pub struct HostClock<'a, R> {
    system: &'a R,
    origin: &'a Origin,
    /// The last moment returned; at first that of the start.
    last: Moment,
    generator: ChaCha20Rng,
    ghost early: { IsHandedIn last },
    ghost begun: { origin.now.moment.0 ≤ last.0 },
}

impl<'a, R> HostClock<'a, R> {
    /// Creates a clock that counts from `origin` by `system`. Its words are those of ChaCha with 20
    /// rounds for `seed`.
    pub fn of(system: &'a R, origin: &'a Origin, seed: [u8; 32]) -> HostClock<'a, R>
        ensures first { result.last ≡ origin.now.moment }
        ensures seeded { result.generator ≡ of_seed seed }
    {
        HostClock {
            system,
            origin,
            last: origin.moment,
            generator: ChaCha20Rng::from_seed(seed),
        }
    }
}

impl<'a, R: RandomSource> HostClock<'a, R> {
    /// Creates a clock that counts from `origin` by `system`, and whose words cannot be guessed.
    /// The seed comes from the system's random source.
    ///
    /// # Errors
    ///
    /// An error of the system if that source gives nothing.
    pub fn seeded(system: &'a R, origin: &'a Origin) -> io::Result<HostClock<'a, R>>
        ensures first { IfOk result (λ clock. clock.last ≡ origin.now.moment) }
    {
        let mut seed = [0; 32];
        system.fill_bytes(&mut seed)?;
        Ok(HostClock::of(system, origin, seed))
    }
}

impl<R: time::Clock> Clock for HostClock<'_, R> {
    ghost times = { λ _. None };

    ghost words = { λ _. None };

    /// Returns the current moment, in milliseconds since 1970. If the monotonic clock cannot be
    /// read, returns the same moment as before.
    fn now(&mut self) -> Moment
        ensures early { IsHandedIn result }
        ensures never_falls { self.old.last.0 ≤ result.0 }
        ensures begun { self.old.origin.now.moment.0 ≤ result.0 }
        ensures last { self.new.last ≡ result }
        ensures words_stay { self.new.generator ≡ self.old.generator }
    {
        if let Ok(now) = Instant::now(self.system) {
            self.last = self.last.later(self.origin.moment_at(now));
        }
        self.last
    }

    /// Returns the next word of the generator.
    fn word(&mut self) -> u32
        ensures value { (result, self.new.generator) ≡ next_word 10 self.old.generator }
        ensures times_stay { self.new.last ≡ self.old.last }
    {
        self.generator.next_word()
    }
}
