//! A look while a publishing waits for a reader that continues to read.

use crate::sample_boards::SampleBoard;
use rd_base::Starved;
use std::alloc::Global;
use std::sync::Wait;
use std::sync::atomic::{AtomicU64, Ordering};
use std::test::Fail;
use std::thread;
use std::time::{Clock, Duration};
use version_board::Looker;

/// A stage: a reader reads.
const READING: u64 = 1;

/// A stage: a publishing waits for the reader.
const WAITING: u64 = 2;

/// A stage: a look was answered.
const ANSWERED: u64 = 3;

/// A stage: the reader leaves.
const LEAVING: u64 = 4;

/// Waits for a stage, for ten seconds at most. Returns whether it came.
fn comes<C: Clock>(clock: &C, stage: &AtomicU64, wanted: u64) -> bool {
    (0..1_000).any(|_| {
        let is_there = stage.load(Ordering::SeqCst) == wanted;
        thread::sleep(clock, Duration::from_millis(10));
        is_there
    })
}

/// Reads until a look was answered, and only then reports that it leaves.
fn read_long<C: Clock>(clock: &C, mut looker: Looker, stage: &AtomicU64) {
    looker.linger(|| {
        stage.store(READING, Ordering::SeqCst);
        if comes(clock, stage, ANSWERED) {
            stage.store(LEAVING, Ordering::SeqCst);
        }
    });
}

/// Looks when a publishing waits.
fn look_late<C: Clock>(clock: &C, mut looker: Looker, stage: &AtomicU64) {
    if comes(clock, stage, WAITING) && looker.look().is_ok() {
        stage.store(ANSWERED, Ordering::SeqCst);
    }
}

/// Publishes twice, the second time while a reader reads that began before the first. Returns
/// whether the reader had left when both were published.
fn publish_twice<R: Wait>(
    alloc: Global,
    rt: &R,
    board: &mut SampleBoard,
    stage: &AtomicU64,
) -> Result<bool, Starved> {
    board.publish_next(alloc, rt)?;
    stage.store(WAITING, Ordering::SeqCst);
    board.publish_next(alloc, rt)?;
    Ok(stage.load(Ordering::SeqCst) == LEAVING)
}

/// The second of two publishings waits for a reader of what was shown before, but a look does not.
#[test]
fn a_look_is_answered_while_a_publishing_waits(rt: HostRuntime) -> Result<(), Fail> {
    let (rt, stage) = (&rt, &AtomicU64::new(0));
    let is_left = thread::scope(thread::scope_env(), rt, |scope| {
        let (mut board, mut lookers) = SampleBoard::open(rt.alloc(), rt, 2)?;
        if let (Some(one), Some(other)) = (lookers.take_first(), lookers.take_first()) {
            let _reading = scope.spawn(move || read_long(rt, one, stage));
            let _looking = scope.spawn(move || look_late(rt, other, stage));
        }
        let is_read = comes(rt, stage, READING);
        let is_left = publish_twice(rt.alloc(), rt, &mut board, stage);
        board.end(rt);
        Ok::<bool, Starved>(is_read && is_left?)
    });
    assert!(rt; is_left?);
    Ok(())
}
