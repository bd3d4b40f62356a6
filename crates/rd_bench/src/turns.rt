//! The turn lock: taking and returning the turn, by one worker and by four at once.
ghost use Rattle.std.specs.Prelude.{◌≡◌, ℕ, ◌+◌, ◌%◌, ◌^◌, true, false, length, All};
ghost use Rattle.turn_lock.specs.Shown.{id_of, lock_of, is_holding, seen_of};

use bench_rows::{Row, Trouble};
use std::marker::Brand;
use std::sync::Wait;
use std::thread;
use std::thread::Threads;
use turn_lock::{Pass, Replays, TurnLock};

/// The numbers of workers.
const WORKERS: [u32; 2] = [1, 4];

/// The number of steps of a worker in a round.
const STEPS: u64 = 20_000;

/// One step of a worker. No value of it is made.
pub struct Tick {
    /// The number of the worker's pass.
    pub by: u64,
}

/// The number of steps so far, modulo 2^64.
#[derive(Drop)]
pub struct Counter {
    /// The number of steps.
    pub count: u64,
}

impl Replays for Counter {
    type Row = Tick;

    type Label = ();

    ghost use Rattle.std.specs.Prelude.{◌≡◌, ◌%◌, ◌^◌, length};

    ghost stands = { λ rows counter. counter.count ≡ length rows % 2 ^ 64 };

    ghost number = { λ row. row.by };

    ghost label = { λ counter. tt };
}

/// Returns the counter to the lock, one step further.
fn give_back(lock: &TurnLock<Counter>, pass: &mut Pass<Counter>, counter: Counter)
    requires lock { lock_of pass.old ≡ id_of lock.now }
    requires holding { is_holding pass.old ≡ true }
    requires count { counter.count ≡ (length (seen_of pass.old) + 1) % 2 ^ 64 }
    ensures lock { lock_of pass.new ≡ lock_of pass.old }
    ensures idle { is_holding pass.new ≡ false }
{
    lock.give::<Brand>(pass, counter);
}

/// Takes the turn `STEPS` times, and returns it one step further each time.
fn take_turns<R: Wait>(rt: &R, lock: &TurnLock<Counter>, pass: &mut Pass<Counter>)
    requires lock { lock_of pass.old ≡ id_of lock.now }
    requires idle { is_holding pass.old ≡ false }
    ensures lock { lock_of pass.new ≡ lock_of pass.old }
    ensures idle { is_holding pass.new ≡ false }
{
    'steps: for _ in 0..STEPS {
        let mut counter = lock.take(rt, pass);
        counter.count = counter.count.wrapping_add(1);
        give_back(lock, pass, counter);
    }
}

/// Has all workers take turns at once.
fn take_turns_at_once<R: Threads + Wait + Sync>(
    rt: &R,
    lock: &TurnLock<Counter>,
    passes: &mut [Pass<Counter>],
)
    requires lock { All (λ pass. lock_of pass ≡ id_of lock.now) passes.old }
    requires idle { All (λ pass. is_holding pass ≡ false) passes.old }
    ensures lock { All (λ pass. lock_of pass ≡ id_of lock.now) passes.new }
    ensures idle { All (λ pass. is_holding pass ≡ false) passes.new }
{
    thread::for_each_mut(
        rt,
        passes,
        4,
        &|_, pass: &mut Pass<Counter>| take_turns(rt, lock, pass),
    );
}

/// A lock with the passes of its workers.
#[derive(Drop)]
struct Workers {
    lock: TurnLock<Counter>,
    passes: Vec<Pass<Counter>>,
    ghost own: { All (λ pass. lock_of pass ≡ id_of lock) passes.items },
    ghost idle: { All (λ pass. is_holding pass ≡ false) passes.items },
}

impl Workers {
    /// Has all workers take turns at once. Returns the number of steps of each.
    fn round<R: Threads + Wait + Sync>(&mut self, rt: &R) -> u64 {
        take_turns_at_once(rt, &self.lock, self.passes.as_mut_slice());
        STEPS
    }
}

/// Measures the turn lock.
///
/// # Errors
///
/// `Starved` if memory runs out; `Outside` if the clock fails or a stream cannot be written.
pub fn measured<R: Threads + Wait + Sync>(rt: &HostRuntime, waits: &R) -> Result<(), Trouble> {
    let mut row = Row::new(rt.alloc());
    for count in WORKERS {
        let (lock, passes) = TurnLock::make(rt.alloc(), count, Counter { count: 0 })?;
        let passes = passes.into_vec();
        let mut workers = Workers { lock, passes };
        row.add(rt, u64::from(count), STEPS, || Ok(workers.round(waits)))?;
    }
    row.print(rt, "turn_lock take and give, each of so many workers")
}
