//! The board of versions: a look while a worker publishes, and publishing.

use crate::sample_boards::SampleBoard;
use bench_rows::{Row, Trouble};
use rd_base::Starved;
use std::alloc::Global;
use std::sync::Wait;
use std::sync::atomic::{AtomicU64, Ordering};
use std::thread::{Threads, join};
use version_board::Looker;

/// The number of looks in a round.
const LOOKS: u64 = 200_000;

/// The maximum number of versions that are published in a round of looks.
const VERSIONS: u64 = 100_000_000;

/// The number of versions that are published in a round of publishing.
const PUBLISHED: u64 = 2_000;

/// Looks at the latest version again and again.
fn looks(looker: &mut Looker) -> Result<(), Starved> {
    for _ in 0..LOOKS {
        let _version = looker.look()?;
    }
    Ok(())
}

/// Publishes `versions` versions one after another, or fewer if `stop` is set.
fn publishes<R: Wait>(
    alloc: Global,
    waits: &R,
    board: &mut SampleBoard,
    versions: u64,
    stop: &AtomicU64,
) -> Result<(), Starved> {
    for _ in 0..versions {
        if stop.load(Ordering::SeqCst) == 1 {
            break;
        }
        board.publish_next(alloc, waits)?;
    }
    Ok(())
}

/// Looks while the publisher publishes, and then stops the publisher. Returns the number of looks.
fn looks_beside<R: Threads + Wait + Sync>(
    alloc: Global,
    waits: &R,
    board: &mut SampleBoard,
    looker: &mut Looker,
    stop: &AtomicU64,
) -> Result<u64, Trouble> {
    stop.store(0, Ordering::SeqCst);
    let (published, looked) = join(
        waits,
        || publishes(alloc, waits, board, VERSIONS, stop),
        || {
            let looked = looks(looker);
            stop.store(1, Ordering::SeqCst);
            looked
        },
    );
    published?;
    looked?;
    Ok(LOOKS)
}

/// Measures a look.
///
/// # Errors
///
/// `Starved` if memory runs out; `Outside` if the clock fails or a stream cannot be written.
pub fn measure_look<R: Threads + Wait + Sync>(rt: &HostRuntime, waits: &R) -> Result<(), Trouble> {
    let alloc = rt.alloc();
    let mut row = Row::new(alloc);
    let (mut board, mut lookers) = SampleBoard::open(alloc, waits, 1)?;
    let stop = AtomicU64::new(0);
    let added = match lookers.take_first() {
        Some(mut looker) => row.add(rt, 1, LOOKS, || {
            looks_beside(alloc, waits, &mut board, &mut looker, &stop)
        }),
        None => Err(Trouble::Outside),
    };
    board.end(waits);
    added?;
    row.print(rt, "version_board look, beside so many publishers")
}

/// Measures publishing.
///
/// # Errors
///
/// `Starved` if memory runs out; `Outside` if the clock fails or a stream cannot be written.
pub fn measure_publishing<R: Wait>(rt: &HostRuntime, waits: &R) -> Result<(), Trouble> {
    let alloc = rt.alloc();
    let mut row = Row::new(alloc);
    let (mut board, _lookers) = SampleBoard::open(alloc, waits, 1)?;
    let go_on = AtomicU64::new(0);
    let added = row.add(rt, 1, PUBLISHED, || {
        publishes(alloc, waits, &mut board, PUBLISHED, &go_on)?;
        Ok(PUBLISHED)
    });
    board.end(waits);
    added?;
    row.print(
        rt,
        "version_board stage and publish, and register, with so many lookers",
    )
}
