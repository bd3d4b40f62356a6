//! Clocks of `hosting`: what happens if the host's clock is set, or cannot be read.
use hosting::{HostClock, Origin};
use rd_base::Moment;
use std::cell::Cell;
use std::time::Duration;
use std::{io, time};
use udp_link::{Clock, LAST_MOMENT};

/// The two clocks of a host, in milliseconds; `None` for one that cannot be read.
#[derive(Drop)]
struct Machine {
    monotonic: Cell<Option<u64>>,
    wall: Cell<Option<u64>>,
}

/// Returns the reading of a clock of the host.
fn reading(millis: Option<u64>) -> io::Result<Duration> {
    match millis {
        Some(millis) => Ok(Duration::from_millis(millis)),
        None => Err(io::Error::from(io::ErrorKind::Unsupported)),
    }
}

impl time::Clock for Machine {
    fn monotonic(&self) -> io::Result<Duration> {
        reading(self.monotonic.get())
    }

    fn since_1970(&self) -> io::Result<Duration> {
        reading(self.wall.get())
    }
}

/// Returns a host whose clocks read this.
fn make_machine(monotonic: Option<u64>, wall: Option<u64>) -> Machine {
    Machine {
        monotonic: Cell::new(monotonic),
        wall: Cell::new(wall),
    }
}

/// The readings of the monotonic clock and of the wall clock, and the moment that a clock then
/// gives.
type Step = (Option<u64>, Option<u64>, u64);

/// The wall clock is set, and then 250 milliseconds pass.
const SET: [Step; 5] = [
    (Some(7_000), Some(1_000_000), 1_000_000),
    (Some(7_000), Some(0), 1_000_000),
    (Some(7_000), Some(LAST_MOMENT), 1_000_000),
    (Some(7_000), None, 1_000_000),
    (Some(7_250), None, 1_000_250),
];

/// A moment never falls, and stays where the clock cannot be read.
const STAYS: [Step; 4] = [
    (Some(7_249), None, 1_000_250),
    (Some(0), None, 1_000_250),
    (None, None, 1_000_250),
    (Some(2 * LAST_MOMENT), None, LAST_MOMENT),
];

/// Makes the readings one after the other. Returns the number of the first, from 0, at which the
/// clock gives another moment.
fn other_at(
    machine: &Machine,
    clock: &mut HostClock<'_, Machine>,
    steps: &[Step],
) -> Option<usize> {
    for (number, (monotonic, wall, moment)) in steps.iter().enumerate() {
        machine.monotonic.set(*monotonic);
        machine.wall.set(*wall);
        if clock.now() != Moment(*moment) {
            return Some(number);
        }
    }
    None
}

#[test]
fn no_step_of_the_wall_clock_moves_a_clock(rt: HostRuntime) -> io::Result<()> {
    let machine = make_machine(Some(7_000), Some(1_000_000));
    let origin = Origin::read(&machine)?;
    let mut first = HostClock::of(&machine, &origin, [1; 32]);
    let mut second = HostClock::of(&machine, &origin, [2; 32]);
    assert_eq!(rt; other_at(&machine, &mut first, &SET), None);
    assert_eq!(rt; second.now(), Moment(1_000_250));
    assert_eq!(rt; other_at(&machine, &mut first, &STAYS), None);
    Ok(())
}

/// Returns the first moment of a clock that begins when the wall clock reads this.
fn begun(wall: Option<u64>) -> io::Result<Moment> {
    let machine = make_machine(Some(0), wall);
    let origin = Origin::read(&machine)?;
    Ok(HostClock::of(&machine, &origin, [0; 32]).now())
}

#[test]
fn a_clock_begins_within_its_limits(rt: HostRuntime) -> io::Result<()> {
    for (wall, moment) in [
        (None, 0),
        (Some(0), 0),
        (Some(LAST_MOMENT + 1), LAST_MOMENT),
    ] {
        assert_eq!(rt; begun(wall)?, Moment(moment));
    }
    assert!(rt; Origin::read(&make_machine(None, Some(0))).is_err());
    Ok(())
}

#[test]
fn words_come_from_the_seed(rt: HostRuntime) -> io::Result<()> {
    let origin = Origin::read(&rt)?;
    // The first words of ChaCha with 20 rounds for a key, a nonce and a counter of zeros, as the
    // first octets of the key stream have them (RFC 8439 appendix A.1, test vector 1).
    let mut zeros = HostClock::of(&rt, &origin, [0; 32]);
    let first_words = [zeros.word().to_le_bytes(), zeros.word().to_le_bytes()];
    assert_eq!(rt;
        first_words,
        [[0x76, 0xb8, 0xe0, 0xad], [0xa0, 0xf1, 0x3d, 0x90]]
    );
    // Of the system's source, four words are not those of another clock.
    let mut first = HostClock::seeded(&rt, &origin)?;
    let mut second = HostClock::seeded(&rt, &origin)?;
    assert!(rt; (0..4).any(|_| first.word() != second.word()));
    Ok(())
}
