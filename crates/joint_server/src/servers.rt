//! A server: workers over UDP and over TCP, all over one directory.
ghost use Rattle.std.specs.Prelude.{◌≤◌, ◌^◌, length};
ghost use Rattle.joint_server.specs.Lines.{Concludes, joined};
ghost use Rattle.joint_server.specs.Posts.{AreOfHall, EachGoesOn};

use crate::ends::serve_all;
use crate::lines::{conclude, joined};
use crate::posts::Post;
use rd_base::Sink;
use rd_seat::{Gate, Hall};
use rd_server::ServeStatus;
use std::sync::Wait;
use std::thread::Threads;
use tcp_door::Entrance;
use udp_link::{Clock, Link};

/// Serves by the seats that the workers have in a hall.
///
/// Each worker over UDP makes `turns` receives, as [`serve_worker`] does. Each worker over TCP asks
/// its door `turns` times, and serves each connection as [`attend`] does. All serve at the same
/// time, and each seat goes on from its present state. If a thread cannot be started, the caller
/// does its work. When all have finished, the hall ends. If all were served to the end, the lines
/// `served HEARD SENT LOST` and `talked CONNECTIONS ASKED` with their sums are written. Each worker
/// keeps its seat and the result of its service. One without a seat is not served.
///
/// Returns the first of these that applies:
/// - `Memory` if memory ran out or a worker has no seat.
/// - `Link` if a receive of one of the workers failed, or a door.
/// - `Write` if the output failed. A prefix of the lines was then written, but not all of them.
/// - `Done` otherwise.
///
/// # Requires
///
/// There are at most 16 workers, `turns` is at most 10^12, and each seat is one of this hall.
///
/// [`attend`]: coap_stream::attend
/// [`serve_worker`]: rd_server::serve_worker
pub fn serve_posts<
    R: Threads + Wait + Sync + AllocGlobal,
    L: Link + Send,
    E: Entrance + Send,
    C: Clock + Send,
    G: Gate + Sync,
    K: Sink,
>(rt: &R, hall: Hall, posts: &mut [Post<L, E, C>], gate: &G, turns: u64, out: &mut K) -> ServeStatus
    requires posts { length posts.old ≤ 16 }
    requires turns { turns ≤ 10 ^ 12 }
    requires hall { AreOfHall hall posts.old }
    // Each worker was served by the seat that it had.
    ensures served { EachGoesOn L.Link.own E.seen C.Clock.own turns hall posts.old
        posts.new }
    // What was written, and the status, follow from the outcomes of the workers.
    ensures concludes { Concludes (joined posts.new)
        (K.holds out.old) (K.holds out.new) (K.faults out.old) (K.faults out.new) result }
{
    serve_all(rt, &hall, posts, gate, turns);
    hall.end(rt);
    conclude(rt.alloc(), joined(posts), out)
}
