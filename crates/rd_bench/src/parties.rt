//! Seats of one hall: the cost of a look, by one and by several at once, and of handling a
//! datagram.
ghost use Rattle.std.specs.Prelude.{◌≡◌, ◌≤◌, All};

use crate::requests::{CALLS, LOOKUPS, Look, Other, PEER};
use bench_rows::{Row, Trouble};
use rd_base::Moment;
use rd_desk::{Looked, Outbox, Stepped};
use rd_seat::{Hall, OpenGate, Seat, SeatHeard, Seats};
use std::alloc::Global;
use std::sync::Wait;
use std::thread;
use std::thread::Threads;

/// A seat with its requests.
#[derive(Drop)]
struct Party<'a> {
    hall: &'a Hall,
    seat: Seat,
    look: Look,
    ping: Other,
    out: Outbox,
    answered: u64,
    ghost of_hall: { seat.hall ≡ hall.now },
}

impl<'a> Party<'a> {
    /// Makes lookups, and counts how many are answered.
    fn looks(&mut self) {
        for _ in 0..LOOKUPS {
            self.out.clear();
            let looked = self
                .seat
                .lookup(Moment(1_000), PEER, self.look.datagram, &mut self.out);
            if let Looked::Done = looked {
                self.answered = u64::wrapping_add(self.answered, 1);
            }
        }
    }

    /// Handles a datagram.
    fn hear<R: Wait>(&mut self, rt: &R, datagram: &[u8]) -> SeatHeard {
        let (hall, seat, out) = (self.hall, &mut self.seat, &mut self.out);
        out.clear();
        seat.hear(rt, hall, &OpenGate, Moment(1_000), 0, PEER, datagram, out)
    }

    /// Handles pings. Returns how many were answered.
    fn hears<R: Wait>(&mut self, rt: &R) -> u64 {
        let mut answered = 0;
        for _ in 0..CALLS {
            let ping = self.ping.datagram;
            if let SeatHeard::Done = self.hear(rt, ping) {
                answered = u64::wrapping_add(answered, 1);
            }
        }
        answered
    }
}

/// Returns a party for each seat of the hall.
fn parties<'a>(alloc: Global, hall: &'a Hall, seats: Seats) -> Result<Vec<Party<'a>>, Trouble>
    requires hall { All (λ seat. seat.hall ≡ hall.now) seats }
{
    let mut seats = seats;
    let mut parties = Vec::new(alloc);
    'seats: for _ in 0..seats.len() {
        if let Some(seat) = seats.take_first() {
            let party = Party {
                hall,
                seat,
                look: Look::lookup()?,
                ping: Other::ping()?,
                out: Outbox::make(alloc)?,
                answered: 0,
            };
            parties.push(party)?;
        }
    }
    Ok(parties)
}

/// Registers one endpoint.
fn register<R: Wait>(rt: &R, party: &mut Party<'_>) -> Result<(), Trouble> {
    let registration = Other::registration()?;
    let (hall, seat, out) = (party.hall, &mut party.seat, &mut party.out);
    out.clear();
    let (now, gate) = (Moment(1_000), OpenGate);
    let heard = seat.hear(rt, hall, &gate, now, 0, PEER, registration.datagram, out);
    let SeatHeard::Held(job) = heard else {
        return Err(Trouble::Outside);
    };
    out.clear();
    match seat.go(rt, hall, &gate, now, job, out) {
        Stepped::Done => Ok(()),
        Stepped::Starved => Err(Trouble::Starved),
    }
}

/// Times lookups by all parties at once.
fn add_looks<R: Threads + Wait + Sync>(
    rt: &HostRuntime,
    ends: &R,
    row: &mut Row,
    parties: &mut [Party<'_>],
) -> Result<(), Trouble> {
    let count = u64::try_from(parties.len()).unwrap_or(1);
    row.add(rt, count, u64::saturating_mul(LOOKUPS, count), || {
        thread::for_each_mut(ends, parties, 4, &|_, party: &mut Party<'_>| party.looks());
        Ok(LOOKUPS)
    })
}

/// Registers an endpoint, and times lookups by all seats of a hall at once.
fn time_looks<R: Threads + Wait + Sync>(
    rt: &HostRuntime,
    ends: &R,
    row: &mut Row,
    hall: &Hall,
    seats: Seats,
) -> Result<(), Trouble>
    requires hall { All (λ seat. seat.hall ≡ hall.now) seats }
{
    let mut parties = parties(rt.alloc(), hall, seats)?;
    if let Some(party) = parties.first_mut() {
        register(ends, party)?;
    }
    add_looks(rt, ends, row, parties.as_mut_slice())
}

/// Measures lookups by `count` seats of one hall.
fn looks_of<R: Threads + Wait + Sync>(
    rt: &HostRuntime,
    ends: &R,
    row: &mut Row,
    count: u32,
) -> Result<(), Trouble>
    requires count { (1 ≤ count) × (count ≤ 16) }
{
    let (hall, seats) = Hall::make(rt.alloc(), ends, count)?;
    let timed = time_looks(rt, ends, row, &hall, seats);
    hall.end(ends);
    timed
}

/// Measures lookups by one, two and four seats of one hall.
///
/// # Errors
///
/// `Starved` if memory runs out; `Outside` if the clock fails, a stream cannot be written, or the
/// registration is not admitted.
pub fn measure_looks<R: Threads + Wait + Sync>(
    rt: &HostRuntime,
    ends: &R,
    name: &str,
) -> Result<(), Trouble> {
    let mut row = Row::new(rt.alloc());
    looks_of(rt, ends, &mut row, 1)?;
    looks_of(rt, ends, &mut row, 2)?;
    looks_of(rt, ends, &mut row, 4)?;
    row.print(rt, name)
}

/// Registers an endpoint, and times how the one seat of a hall handles pings.
fn time_hearing<R: Wait>(
    rt: &HostRuntime,
    ends: &R,
    row: &mut Row,
    hall: &Hall,
    seats: Seats,
) -> Result<(), Trouble>
    requires hall { All (λ seat. seat.hall ≡ hall.now) seats }
{
    let mut parties = parties(rt.alloc(), hall, seats)?;
    let Some(party) = parties.first_mut() else {
        return Err(Trouble::Outside);
    };
    register(ends, party)?;
    row.add(rt, 1, CALLS, || Ok(party.hears(ends)))
}

/// Measures how a seat that holds the turn alone handles pings.
///
/// # Errors
///
/// `Starved` if memory runs out; `Outside` if the clock fails, a stream cannot be written, or the
/// registration is not admitted.
pub fn measure_hearing<R: Wait>(rt: &HostRuntime, ends: &R, name: &str) -> Result<(), Trouble> {
    let mut row = Row::new(rt.alloc());
    let (hall, seats) = Hall::make(rt.alloc(), ends, 1)?;
    let timed = time_hearing(rt, ends, &mut row, &hall, seats);
    hall.end(ends);
    timed?;
    row.print(rt, name)
}
