//! One publisher that publishes thousands of versions while lookers look, and the end of a board.
ghost use Rattle.std.specs.Prelude.{◌≡◌};

use crate::sample_boards::SampleBoard;
use rd_base::{Moment, Starved};
use std::alloc::Global;
use std::sync::Wait;
use std::sync::atomic::{AtomicU64, Ordering};
use std::test::Fail;
use std::thread;
use std::thread::{Threads, join};
use std::time::{Clock, Duration};
use version_board::{Looker, Lookers};

/// The number of versions that are published.
const PUBLISHINGS: u64 = 10_000;

/// The maximum number of looks of a looker.
const LOOKS: u64 = 50_000;

/// The pause of a looker between two looks, in microseconds.
const PAUSE: u64 = 1_000;

/// Publishes all versions, or as many as there is memory for.
fn publish<R: Wait>(alloc: Global, rt: &R, board: &mut SampleBoard) -> Result<(), Starved> {
    for _ in 0..PUBLISHINGS {
        board.publish_next(alloc, rt)?;
    }
    Ok(())
}

/// Looks until a look that began after all was published. Returns how many entries it showed.
/// Returns `None` if a version has fewer entries than the one before, or its moment is not the
/// number of its entries.
fn watch<C: Clock>(clock: &C, mut looker: Looker, is_done: &AtomicU64) -> Option<u64> {
    let mut seen = 0;
    for _ in 0..LOOKS {
        let is_last = is_done.load(Ordering::SeqCst) == 1;
        let version = looker.look().ok()?;
        let entries = version.entries();
        if entries < seen || version.at() != Moment(entries) {
            return None;
        }
        if is_last {
            return Some(entries);
        }
        seen = entries;
        thread::sleep(clock, Duration::from_micros(PAUSE));
    }
    None
}

/// Publishes all versions while lookers watch. Returns what each saw last.
fn watched<R: Threads + Wait + Clock + Sync>(
    alloc: Global,
    rt: &R,
    board: &mut SampleBoard,
    lookers: Lookers,
) -> Result<Vec<Option<u64>>, Starved> {
    let is_done = AtomicU64::new(0);
    let done = &is_done;
    let (published, watched) = join(
        rt,
        || {
            let published = publish(alloc, rt, board);
            done.store(1, Ordering::SeqCst);
            published
        },
        || thread::map_vec(rt, lookers.into_vec(), &|looker| watch(rt, looker, done)),
    );
    published?;
    Ok(watched?)
}

/// One looker holds the empty version meanwhile. Nobody waits for it, and it does not change.
#[test]
fn lookers_see_entries_grow(rt: HostRuntime) -> Result<(), Fail> {
    let (mut board, mut lookers) = SampleBoard::open(rt.alloc(), &rt, 5)?;
    let mut holder = lookers.take_first();
    let held = holder.as_mut().map(|looker| looker.look());
    let watched = watched(rt.alloc(), &rt, &mut board, lookers);
    let later = holder.as_mut().map(|looker| looker.look());
    board.end(&rt);
    assert_eq!(rt; watched?.as_slice(), [Some(PUBLISHINGS); 4].as_slice());
    assert!(rt; matches!(&held, Some(Ok(version)) if version.entries() == 0));
    assert!(rt; matches!(&later, Some(Ok(version)) if version.entries() == PUBLISHINGS));
    Ok(())
}

/// Publishes, meets and looks, alternately. Returns how many entries the last look showed.
fn met<R: Wait>(
    alloc: Global,
    rt: &R,
    board: &mut SampleBoard,
    looker: &mut Looker,
) -> Result<u64, Starved>
    requires name { looker.old.name ≡ board.old.publisher.name }
{
    let mut entries = 0;
    'rounds: for _ in 0..3 {
        board.publish_next(alloc, rt)?;
        board.meet(looker);
        entries = looker.look()?.entries();
    }
    Ok(entries)
}

#[test]
fn ends_of_a_board(rt: HostRuntime) -> Result<(), Fail> {
    let (mut board, lookers) = SampleBoard::open(rt.alloc(), &rt, 16)?;
    let mut lookers = lookers.into_vec();
    let met = met(rt.alloc(), &rt, &mut board, &mut lookers[15]);
    board.end(&rt);
    assert_eq!(rt; met?, 3);
    assert_eq!(rt; lookers[15].look().err(), Some(Starved));
    Ok(())
}
