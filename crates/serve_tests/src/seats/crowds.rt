//! Sixteen seats at once, each of which makes 200 steps.
ghost use Rattle.std.specs.Prelude.{◌≡◌, All};

use super::calls::{looks, register};
use crate::requests::ENDPOINT;
use rd_base::{Moment, Peer, Starved};
use rd_desk::{Outbox, Stepped};
use rd_seat::{Hall, OpenGate, Seat, Seats};
use std::alloc::Global;
use std::sync::Wait;
use std::thread;
use std::thread::Threads;

/// The number of rounds of a worker. In the four steps of a round it admits a registration, commits
/// it, lets time pass, and looks.
const ROUNDS: u8 = 50;

/// The number of its names. Each is registered twice.
const NAMES: u8 = 25;

/// The beginning of the answer to a lookup.
const FOUND: &[u8] = b"\x61\x45";

/// The offset of the location's number in the answer to a registration, and in a listing of one
/// endpoint.
const LOCATION_AT: usize = 9;

const LISTED_AT: usize = 22;

/// A lookup of the 400th endpoint, and the beginning of its answer after 800 entries.
const LAST: &[u8] = b"\x41\x01\x00\x03\xb2\xb9rd-lookup\x02ep\x48page=399\x07count=1";

const LISTED_LAST: &[u8] = b"\x61\x45\x00\x03\xb2\x48\0\0\0\0\x03\x20\0\0\x81\x28\xff</rd/";

/// A registration of a name, and a lookup of the endpoint that has it (RFC 9176 sections 5 and
/// 6.3).
#[derive(Drop)]
struct Requests {
    registration: [u8; 23],
    lookup: [u8; 28],
}

/// Returns the last decimal digit of a number.
fn digit(number: u8) -> u8 {
    b'0' + number % 10
}

/// Returns the requests of one round of a worker.
fn requests_of(worker: u8, round: u8) -> Requests {
    let mut registration = *b"\x41\x02\x00\x00\xa1\xb2rd\x49ep=w00n00\xff</t>";
    let mut lookup = *b"\x41\x01\x00\x00\xb2\xb9rd-lookup\x02ep\x49ep=w00n00";
    let name = round % NAMES;
    let digits = [
        digit(worker / 10),
        digit(worker),
        b'n',
        digit(name / 10),
        digit(name),
    ];
    registration[3] = round;
    lookup[3] = round;
    registration[13..18].copy_from_slice(&digits);
    lookup[23..28].copy_from_slice(&digits);
    Requests {
        registration,
        lookup,
    }
}

/// Returns the octets of the one answer from an offset on.
fn answer_from(out: &Outbox, offset: usize) -> &[u8] {
    match out.at(0) {
        Some((_, octets)) => octets.get(offset..).unwrap_or(b""),
        None => b"",
    }
}

/// Returns a number that no other octets have, or 0 if there are none or more than seven.
fn number_of(octets: &[u8]) -> u64 {
    let mut number = 1u64;
    for octet in octets {
        number = number.wrapping_mul(256).wrapping_add(u64::from(*octet));
    }
    if octets.is_empty() || octets.len() > 7 {
        0
    } else {
        number
    }
}

/// Records the location of a name, which is 0 if there is none. Returns whether there is one, and
/// none other was recorded.
fn keeps(locations: &mut [u64], name: u8, location: u64) -> bool {
    match locations.get_mut(usize::from(name)) {
        Some(kept) => {
            let is_one = location != 0 && (*kept == 0 || *kept == location);
            *kept = location;
            is_one
        }
        None => false,
    }
}

/// A worker with its seat.
#[derive(Drop)]
struct Worker<'a> {
    hall: &'a Hall,
    seat: Seat,
    number: u8,
    ghost of_hall: { seat.hall ≡ hall.now },
}

impl<'a> Worker<'a> {
    /// Makes one round: registers into `made`, and looks into `looked`. Returns the number of the
    /// location of the name, or 0 if a request was not answered as expected.
    fn round<R: Wait>(&mut self, rt: &R, round: u8, made: &mut Outbox, looked: &mut Outbox) -> u64 {
        let requests = requests_of(self.number, round);
        let peer = Peer {
            host: ENDPOINT.host,
            port: u16::from(self.number),
        };
        let (hall, seat) = (self.hall, &mut self.seat);
        let is_made = register(
            rt,
            hall,
            &OpenGate,
            seat,
            peer,
            &requests.registration,
            made,
        );
        looked.clear();
        let ticked = seat.tick(rt, hall, &OpenGate, Moment(1000), 0, looked);
        let is_found = looks(seat, &requests.lookup, FOUND, looked);
        let location = answer_from(made, LOCATION_AT);
        let is_listed = answer_from(looked, LISTED_AT).starts_with(location);
        if is_made && ticked == Stepped::Done && is_found && is_listed {
            number_of(location)
        } else {
            0
        }
    }

    /// Makes all rounds. Returns whether all was answered, and each name has one location.
    fn rounds<R: Wait>(&mut self, rt: &R, made: &mut Outbox, looked: &mut Outbox) -> bool {
        let mut locations = [0u64; 25];
        for round in 0..ROUNDS {
            let location = self.round(rt, round, made, looked);
            if !keeps(&mut locations, round % NAMES, location) {
                return false;
            }
        }
        true
    }

    /// Makes all rounds with new outboxes. Returns whether all was answered, and each name has one
    /// location.
    fn works<R: Wait>(&mut self, alloc: Global, rt: &R) -> Result<bool, Starved> {
        let mut made = Outbox::make(alloc)?;
        let mut looked = Outbox::make(alloc)?;
        Ok(self.rounds(rt, &mut made, &mut looked))
    }
}

impl<'a> Worker<'a> {
    /// Makes all rounds. Returns its seat if all was answered.
    fn run<R: Wait>(mut self, alloc: Global, rt: &R) -> Option<Seat> {
        let works = self.works(alloc, rt);
        let Worker {
            hall: _,
            seat,
            number: _,
        } = self;
        match works {
            Ok(true) => Some(seat),
            _ => None,
        }
    }
}

/// Returns the workers of a hall.
fn workers<'a>(alloc: Global, hall: &'a Hall, seats: Seats) -> Result<Vec<Worker<'a>>, Starved>
    requires hall { All (λ seat. seat.hall ≡ hall.now) seats }
{
    let mut seats = seats;
    let mut workers = Vec::new(alloc);
    'seats: for number in 0..16 {
        if let Some(seat) = seats.take_first() {
            workers.push(Worker { hall, seat, number })?;
        }
    }
    Ok(workers)
}

/// Runs all workers at once, and then looks by the first. Returns whether all was answered, and the
/// look shows all registrations.
fn all_see_all<R: Threads + Wait + Sync>(
    alloc: Global,
    rt: &R,
    hall: &Hall,
    seats: Seats,
) -> Result<bool, Starved>
    requires hall { All (λ seat. seat.hall ≡ hall.now) seats }
{
    let mut out = Outbox::make(alloc)?;
    let workers = workers(alloc, hall, seats)?;
    let mut worked = thread::map_vec(rt, workers, &|worker: Worker<'_>| worker.run(alloc, rt))?;
    let all = worked.len() == 16 && worked.iter().all(|seat| seat.is_some());
    match worked.first_mut() {
        Some(Some(seat)) => Ok(looks(seat, LAST, LISTED_LAST, &mut out) && all),
        _ => Ok(false),
    }
}

#[test]
fn sixteen_at_once(rt: HostRuntime) -> Result<(), Starved> {
    let (hall, seats) = Hall::make(rt.alloc(), &rt, 16)?;
    let seen = all_see_all(rt.alloc(), &rt, &hall, seats);
    hall.end(&rt);
    assert!(rt; seen?);
    Ok(())
}
