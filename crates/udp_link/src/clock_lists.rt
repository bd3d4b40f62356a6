//! The lists that a clock in memory reads from.
ghost use Rattle.std.specs.Prelude.{◌≡◌, ◌≤◌, length, drop};
ghost use Rattle.udp_link.specs.Clocks.{first_or, but_first};

use rd_base::{List, Moment};

/// Moments in order.
pub type Moments = List<Moment>;

/// Words in order.
pub type Words = List<u32>;

/// Returns the element of `list` after the first `passed`, or `absent` if there is none. Counts it
/// as passed, unless it is the last.
pub(crate) fn next_of<T: Copy>(list: &[T], passed: &mut usize, absent: T) -> T
    requires { passed.old ≤ length list.now }
    ensures value { result ≡ first_or absent (drop passed.old list.now) }
    ensures left { drop passed.new list.now ≡ but_first (drop passed.old list.now) }
    ensures within { passed.new ≤ length list.now }
{
    let Some(first) = list.get(*passed) else {
        return absent;
    };
    if list.len() - *passed > 1 {
        *passed += 1;
    }
    *first
}
