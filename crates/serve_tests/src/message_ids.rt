//! The Message IDs that a worker draws.

use rd_desk::Mids;

/// Asserts that a worker has 4,096 Message IDs, and reuses them in the same order.
#[test]
fn message_ids_come_again(rt: HostRuntime) {
    let mut mids = Mids::of(15);
    for drawn in 0..8192 {
        assert_eq!(rt; mids.next(), 61_440 + drawn % 4096);
    }
}
