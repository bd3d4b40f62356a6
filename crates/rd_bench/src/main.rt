//! `rd_bench`: measures the cost of calls that no trace isolates, at growing sizes. A measurement
//! never fails. `bench/traces.py` measures what a trace can, on `rd_replay`.
//!
//! Times go to standard error, a line for each call: nanoseconds at each size, the least of several
//! rounds, and in parentheses the ratio to the time at the first size. Standard output has what the
//! calls counted, which is the same in each run.
#![tactic(auto)]

mod attributes;
mod blocks;
mod datagrams;
mod desks;
mod exchanges;
mod feeds;
mod host_links;
mod listings;
mod looks;
mod maps;
mod parties;
mod registrations;
mod requests;
mod sample_boards;
mod turns;

use attributes::Carried;
use bench_rows::{Trouble, measure};
use blocks::{KeptBodies, Uploads};
use desks::{Admits, Looks};
use exchanges::{Repeats, Settles};
use feeds::{Octets, Pieces};
use listings::{Listed, Unchanged};
use maps::{Puts, Takes};
use parties::{measure_hearing, measure_looks};
use registrations::Body;
use std::net::Net;
use std::sync::Wait;
use std::thread::Threads;
use std::time::Clock;

/// The numbers of writes in the table of exchanges.
const WRITES: [u64; 3] = [64, 1_024, 4_096];

/// The numbers of pairs in a map, and of entries in an index.
const PAIRS: [u64; 5] = [64, 1_024, 4_096, 25_000, 100_000];

/// The numbers of links of a registration.
const LINKS: [u64; 3] = [64, 256, 1_000];

/// Measures the calls of tables.
fn tables(rt: &HostRuntime) -> Result<(), Trouble> {
    measure::<Repeats>(
        rt,
        "exchange_core admit_key, a repeat of the oldest",
        &WRITES,
    )?;
    measure::<Settles>(rt, "exchange_core settle, the oldest", &WRITES)?;
    measure::<Uploads>(
        rt,
        "transfers upload of 8,192 octets, in blocks of so many",
        &[1_024, 16],
    )?;
    measure::<KeptBodies>(
        rt,
        "transfers kept_block, the one used longest ago of 64, with bodies of so many octets",
        &[2_048, 1_048_576],
    )?;
    measure::<Puts>(rt, "chunk_map put", &PAIRS)?;
    measure::<Takes>(rt, "chunk_map take", &PAIRS)?;
    measure::<Carried<1_000>>(
        rt,
        "attribute_index put and take, values of a thousand records",
        &PAIRS,
    )?;
    measure::<Carried<16>>(
        rt,
        "attribute_index put and take, values of sixteen records",
        &PAIRS,
    )?;
    measure::<Carried<1>>(
        rt,
        "attribute_index put and take, values of one record",
        &PAIRS,
    )
}

/// Measures the calls of registrations and of their listings.
fn registrations_and_listings(rt: &HostRuntime) -> Result<(), Trouble> {
    measure::<Body>(rt, "registration build, a body of so many links", &LINKS)?;
    measure::<Unchanged<true>>(rt, "listing same_part, all of so many links listed", &LINKS)?;
    measure::<Unchanged<false>>(
        rt,
        "listing same_part, none of so many links listed",
        &LINKS,
    )?;
    measure::<Listed>(rt, "listing lines, of so many links", &LINKS)
}

/// Measures a desk, and seats compared with it.
fn seats<R: Threads + Wait + Sync>(rt: &HostRuntime, ends: &R) -> Result<(), Trouble> {
    measure::<Looks>(rt, "rd_desk look, the version at hand, one listed of", &[1])?;
    measure_looks(rt, ends, "rd_seat lookup, by so many seats at once")?;
    measure::<Admits>(rt, "rd_desk admit, a ping, with so many registered", &[1])?;
    measure_hearing(rt, ends, "rd_seat hear, a ping, by so many seats")
}

/// Measures the reader of streams.
fn streams(rt: &HostRuntime) -> Result<(), Trouble> {
    measure::<Pieces>(
        rt,
        "stream_reader feed, a message of 64 octets, in pieces of so many",
        &[64, 1_024, 65_536],
    )?;
    measure::<Octets>(
        rt,
        "stream_reader feed, an octet of messages of 64, in pieces of so many",
        &[1, 2, 16],
    )
}

/// Measures all calls, one after another. `ends` starts threads, waits and opens sockets.
fn measured<R: Threads + Wait + Net + Clock + Sync>(
    rt: &HostRuntime,
    ends: &R,
) -> Result<(), Trouble> {
    tables(rt)?;
    registrations_and_listings(rt)?;
    turns::measured(rt, ends)?;
    datagrams::measured(rt, ends)?;
    datagrams::measure_host_links(rt, ends)?;
    host_links::measured(rt, ends)?;
    looks::measure_look(rt, ends)?;
    looks::measure_publishing(rt, ends)?;
    seats(rt, ends)?;
    streams(rt)
}

fn main(rt: HostRuntime) {
    if measured(&rt, &rt).is_err() {
        let _ = eprintln!(rt;
            "what comes next was not measured: out of memory, or the clock or a stream failed"
        );
    }
}
