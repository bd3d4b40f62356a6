//! A gate at which a worker is stopped while it holds the turn, and a server one of whose workers
//! is answered meanwhile.
use crate::ends::two_ends;
use crate::requests::{CREATED, LOOKUP, NOTHING, REGISTRATION, sink_of, went};
use rd_base::Starved;
use rd_seat::{Gate, Place};
use rd_server::{ServeStatus, serve};
use std::sync::Wait;
use std::sync::atomic::{AtomicU64, Ordering};
use std::thread;
use std::time::{Clock, Duration};

/// The maximum number of times that a worker checks a sign.
const TURNS: u64 = 1_000_000;

/// A gate that stops the first worker to hold the turn until another was answered, and lets a
/// worker look only when the turn is held. Each sign is 1 when it is so.
#[derive(Drop)]
pub(crate) struct UntilAnswered<'a, C: Clock> {
    clock: &'a C,
    /// A worker holds the turn.
    is_held: AtomicU64,
    /// Another worker was answered. In a server it asks for the turn, which it does only after its
    /// look was answered.
    is_answered: AtomicU64,
    /// The worker that holds the turn saw that in time.
    is_seen: AtomicU64,
}

impl<'a, C: Clock> UntilAnswered<'a, C> {
    /// Creates a gate that no worker has passed.
    pub(crate) fn new(clock: &'a C) -> UntilAnswered<'a, C> {
        UntilAnswered {
            clock,
            is_held: AtomicU64::new(0),
            is_answered: AtomicU64::new(0),
            is_seen: AtomicU64::new(0),
        }
    }

    /// Waits until a sign is 1, and checks it at most [`TURNS`] times. Returns whether it was in
    /// time.
    fn awaits(&self, sign: &AtomicU64) -> bool {
        for _ in 0..TURNS {
            if sign.load(Ordering::SeqCst) == 1 {
                return true;
            }
            thread::sleep(self.clock, Duration::from_micros(1));
        }
        false
    }

    /// Waits until a worker holds the turn. Returns whether one does in time.
    pub(crate) fn awaits_holder(&self) -> bool {
        self.awaits(&self.is_held)
    }

    /// Records that another worker was answered.
    pub(crate) fn tell_answered(&self) {
        self.is_answered.store(1, Ordering::SeqCst);
    }

    /// Returns whether the worker that held the turn saw in time that another was answered.
    pub(crate) fn was_seen(&self) -> bool {
        self.is_seen.load(Ordering::SeqCst) == 1
    }
}

impl<'a, C: Clock> Gate for UntilAnswered<'a, C> {
    fn pass<R: Wait>(&self, _rt: &R, place: Place) {
        match place {
            Place::BeforeLook => {
                self.awaits(&self.is_held);
            }
            Place::BeforeTake => {
                if self.is_held.load(Ordering::SeqCst) == 1 {
                    self.is_answered.store(1, Ordering::SeqCst);
                }
            }
            Place::Holding => {
                let is_first = self.is_held.swap(1, Ordering::SeqCst) == 0;
                if is_first && self.awaits(&self.is_answered) {
                    self.is_seen.store(1, Ordering::SeqCst);
                }
            }
            Place::AfterGive => {}
        }
    }
}

/// Asserts that a lookup is answered while the worker of the other link holds the turn, which
/// received the registration. A server whose workers run one after the other fails this test:
/// whichever runs first, nobody answers while it holds the turn.
#[test]
fn one_is_answered_while_another_holds_the_turn(rt: HostRuntime) -> Result<(), Starved> {
    let mut out = sink_of(rt.alloc(), b"")?;
    let mut ends = two_ends(rt.alloc(), &[REGISTRATION], &[LOOKUP], b"")?;
    let gate = UntilAnswered::new(&rt);
    let status = serve(&rt, &mut ends, &gate, 2, &mut out);
    assert_eq!(rt; status, ServeStatus::Done);
    assert!(rt; gate.was_seen());
    assert_eq!(rt; out.as_slice(), b"served 2 2 0\n".as_slice());
    assert!(rt; went(&ends[0].link, 0, CREATED) && went(&ends[1].link, 0, NOTHING));
    Ok(())
}
