//! The rows that are printed: a call on samples of growing sizes, and how long it takes.

use rd_base::Starved;
use std::alloc::{AllocError, AllocFailed, Global};
use std::io;
use std::time::Instant;

/// The number of rounds that are timed at each size. The fastest counts.
const ROUNDS: u64 = 5;

/// Why a measurement ends early.
#[derive(Debug, Drop)]
pub enum Trouble {
    /// Memory ran out.
    Starved,
    /// The clock or a socket failed, a stream could not be written, or a call refused its input.
    Outside,
}

impl From<Starved> for Trouble {
    fn from(_: Starved) -> Trouble {
        Trouble::Starved
    }
}

impl From<AllocError> for Trouble {
    fn from(_: AllocError) -> Trouble {
        Trouble::Starved
    }
}

impl<T: Drop> From<AllocFailed<T>> for Trouble {
    fn from(_: AllocFailed<T>) -> Trouble {
        Trouble::Starved
    }
}

impl From<io::Error> for Trouble {
    fn from(_: io::Error) -> Trouble {
        Trouble::Outside
    }
}

/// A sample on which a call is measured.
pub trait Sample: Drop {
    /// The number of calls in a round.
    const CALLS: u64;

    /// Creates a sample of this size.
    ///
    /// # Errors
    ///
    /// `Starved` if memory runs out; `Outside` if the sample cannot be made for another reason.
    fn make(alloc: Global, size: u64) -> Result<Self, Trouble>;

    /// Makes a round of calls. Returns what they counted.
    ///
    /// # Errors
    ///
    /// `Starved` if memory runs out; `Outside` if a call fails for another reason.
    fn round(&mut self) -> Result<u64, Trouble>;
}

/// How long a call takes on samples of growing sizes.
#[derive(Drop)]
pub struct Row {
    /// The text of the sizes so far.
    line: String,
    /// The time of a call at the first size, in nanoseconds.
    first: Option<u64>,
    /// The sum of what the calls counted.
    counted: u64,
}

impl Row {
    /// Creates a row without sizes.
    pub fn new(alloc: Global) -> Row {
        Row {
            line: String::new(alloc),
            first: None,
            counted: 0,
        }
    }

    /// Returns the time of a call in the fastest of several rounds, in nanoseconds.
    fn least_time<F: FnMut() -> Result<u64, Trouble>>(
        &mut self,
        rt: &HostRuntime,
        calls: u64,
        mut round: F,
    ) -> Result<u64, Trouble>
        requires { F.IsAlwaysCallable round }
    {
        let mut least = u64::MAX;
        for _ in 0..ROUNDS {
            let start = Instant::now(rt)?;
            let counted = round()?;
            let time = start.elapsed(rt)?;
            self.counted = u64::wrapping_add(self.counted, counted);
            least = least.min(u64::try_from(time.as_nanos()).unwrap_or(u64::MAX));
        }
        Ok(least.checked_div(calls).unwrap_or(0))
    }

    /// Times rounds of calls on one more sample. Each call of `round` makes `calls` calls, and
    /// returns what they counted.
    ///
    /// # Requires
    ///
    /// `round` can be called any number of times.
    ///
    /// # Errors
    ///
    /// `Starved` if memory runs out; `Outside` if the clock fails. An error of `round` is passed
    /// on.
    pub fn add<F: FnMut() -> Result<u64, Trouble>>(
        &mut self,
        rt: &HostRuntime,
        size: u64,
        calls: u64,
        round: F,
    ) -> Result<(), Trouble>
        requires { F.IsAlwaysCallable round }
    {
        let least = self.least_time(rt, calls, round)?;
        let first = self.first.unwrap_or(least);
        self.first = Some(first);
        let hundredths = u64::saturating_mul(least, 100)
            .checked_div(first)
            .unwrap_or(100);
        let (whole, rest) = (hundredths / 100, hundredths % 100);
        let part = format!(in rt.alloc(); "  {size}: {least} ns ({whole}.{rest:02})")?;
        self.line.push_str(part.as_str())?;
        Ok(())
    }

    /// Prints the times to standard error under the name of the call, and what was counted to
    /// standard output.
    ///
    /// # Errors
    ///
    /// `Outside` if a stream cannot be written.
    pub fn print(self, rt: &HostRuntime, name: &str) -> Result<(), Trouble> {
        eprintln!(rt; "{name}{}", self.line)?;
        println!(rt; "{name} counted {}", self.counted)?;
        Ok(())
    }
}

/// Measures a call on samples of these sizes, and prints its row.
///
/// # Errors
///
/// `Starved` if memory runs out; `Outside` if the clock fails or a stream cannot be written. An
/// error of the sample is passed on.
pub fn measure<S: Sample>(rt: &HostRuntime, name: &str, sizes: &[u64]) -> Result<(), Trouble> {
    let mut row = Row::new(rt.alloc());
    for size in sizes {
        let mut sample = S::make(rt.alloc(), *size)?;
        row.add(rt, *size, S::CALLS, || sample.round())?;
    }
    row.print(rt, name)
}
