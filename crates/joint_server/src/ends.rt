//! The service of all workers at the same time.
ghost use Rattle.std.specs.Prelude.{◌≡◌, ◌≤◌, ◌<◌, ◌^◌, ℕ, None};
ghost use Rattle.std.specs.Prelude.{All, IfNone, IfOk, IfSome, length, slice_get};
ghost use Rattle.std.specs.Prelude.{slice_index_or};
ghost use Rattle.rd_seat.specs.Callers.{caller_seen};
ghost use Rattle.rd_server.specs.serving.Servers as servers;
ghost use Rattle.rd_server.specs.serving.Servers.{EndServes};
ghost use Rattle.rd_server.specs.serving.Sums.{IsBelow, worker_most};
ghost use Rattle.joint_server.specs.Posts.{AreOfHall, IsWithin, PostServes, seat_of, seated};
ghost use Rattle.joint_server.specs.Posts as spec;
ghost use Rattle.joint_server.specs.Standing.{AttendsDoor, IsFew};

use crate::posts::{Post, Stand};
use crate::standing::attend_door;
use journal_model::limits::MAX_WORKERS;
use rd_seat::{Gate, Hall, Seat, Seats};
use rd_server::{End, ServeFault, serve_worker};
use std::sync::Wait;
use std::thread;
use std::thread::Threads;
use tcp_door::Entrance;
use udp_link::{Clock, Link};

/// The maximum number of threads that serve: one for each worker.
const MOST_THREADS: usize = MAX_WORKERS as usize;

/// Gives a worker a seat, or takes its seat away.
fn seat_one<L, E, C>(post: &mut Post<L, E, C>, seat: Option<Seat>)
    ensures { post.new ≡ seated post.old seat }
{
    match post {
        Post::Udp(end) => {
            end.seat = seat;
            end.outcome = Err(ServeFault::Memory);
        }
        Post::Tcp(stand) => {
            stand.seat = seat;
            stand.outcome = Err(ServeFault::Memory);
        }
    }
}

/// Gives each worker the seat of its number.
pub(crate) fn seat_posts<L, E, C>(posts: &mut [Post<L, E, C>], seats: Seats)
    ensures { (i : ℕ) (d : Post L E C) → i < length posts.old
        → slice_index_or posts.new i d
        ≡ seated (slice_index_or posts.old i d) (slice_get seats i) }
{
    let mut seats = seats;
    'posts: for post in posts {
        seat_one(post, seats.take_first());
    }
}

/// Leaves each worker without a seat.
pub(crate) fn unseat_posts<L, E, C>(posts: &mut [Post<L, E, C>])
    ensures { (i : ℕ) (d : Post L E C) → i < length posts.old
        → slice_index_or posts.new i d ≡ seated (slice_index_or posts.old i d) None }
{
    'posts: for post in posts {
        seat_one(post, None);
    }
}

/// Serves the datagrams of a worker, if it has a seat.
fn work_end<R: Wait + AllocGlobal, L: Link, C: Clock, G: Gate>(
    rt: &R,
    hall: &Hall,
    end: &mut End<L, C>,
    gate: &G,
    turns: u64,
)
    requires hall { IfSome end.old.seat (λ seat. seat.hall ≡ hall.now) }
    requires turns { turns ≤ 10 ^ 12 }
    ensures few { IfOk end.new.outcome (IsBelow worker_most) }
    ensures served { IfSome end.old.seat
        (λ seat. EndServes L.Link.own C.Clock.own turns seat end.old end.new) }
    ensures unserved { IfNone end.old.seat (end.new ≡ servers.seated end.old None) }
{
    end.outcome = Err(ServeFault::Memory);
    if let Some(seat) = &mut end.seat {
        end.outcome = serve_worker(rt, hall, seat, &mut end.link, &mut end.clock, gate, turns);
    }
}

/// Serves the connections of a worker, if it has a seat.
fn work_stand<R: Wait + AllocGlobal, E: Entrance, C: Clock, G: Gate>(
    rt: &R,
    hall: &Hall,
    stand: &mut Stand<E, C>,
    gate: &G,
    turns: u64,
)
    requires hall { IfSome stand.old.seat (λ seat. seat.hall ≡ hall.now) }
    requires turns { turns ≤ 10 ^ 12 }
    ensures few { IfOk stand.new.outcome (IsFew (10 ^ 12)) }
    ensures served { IfSome stand.old.seat (λ before. IfSome stand.new.seat (λ after.
        AttendsDoor (E.seen stand.old.door) (E.seen stand.new.door)
        (caller_seen C.Clock.own before stand.old.clock)
        (caller_seen C.Clock.own after stand.new.clock) stand.new.outcome)) }
    ensures kept { IfSome stand.old.seat (λ _. spec.HasSeat stand.new.seat) }
    ensures unserved { IfNone stand.old.seat (stand.new ≡ spec.stand_seated stand.old None) }
{
    stand.outcome = Err(ServeFault::Memory);
    if let Some(seat) = &mut stand.seat {
        let (door, clock) = (&mut stand.door, &mut stand.clock);
        stand.outcome = attend_door(rt, hall, seat, door, clock, gate, turns);
    }
}

/// Serves one worker, if it has a seat.
fn work<R: Wait + AllocGlobal, L: Link, E: Entrance, C: Clock, G: Gate>(
    rt: &R,
    hall: &Hall,
    post: &mut Post<L, E, C>,
    gate: &G,
    turns: u64,
)
    requires hall { IfSome (seat_of post.old) (λ seat. seat.hall ≡ hall.now) }
    requires turns { turns ≤ 10 ^ 12 }
    ensures few { IsWithin post.new }
    ensures served { IfSome (seat_of post.old) (λ seat.
        PostServes L.Link.own E.seen C.Clock.own turns seat post.old post.new) }
    ensures unserved { IfNone (seat_of post.old) (post.new ≡ seated post.old None) }
{
    match post {
        Post::Udp(end) => work_end(rt, hall, end, gate, turns),
        Post::Tcp(stand) => work_stand(rt, hall, stand, gate, turns),
    }
}

/// Serves all workers at the same time, and waits for all.
pub(crate) fn serve_all<
    R: Threads + Wait + Sync + AllocGlobal,
    L: Link + Send,
    E: Entrance + Send,
    C: Clock + Send,
    G: Gate + Sync,
>(rt: &R, hall: &Hall, posts: &mut [Post<L, E, C>], gate: &G, turns: u64)
    requires hall { AreOfHall hall.now posts.old }
    requires turns { turns ≤ 10 ^ 12 }
    ensures few { All (λ p. IsWithin p) posts.new }
    ensures served { (i : ℕ) (d : Post L E C) → i < length posts.old
        → IfSome (seat_of (slice_index_or posts.old i d)) (λ seat.
        PostServes L.Link.own E.seen C.Clock.own turns seat
        (slice_index_or posts.old i d) (slice_index_or posts.new i d)) }
    ensures unserved { (i : ℕ) (d : Post L E C) → i < length posts.old
        → IfNone (seat_of (slice_index_or posts.old i d))
        (slice_index_or posts.new i d ≡ seated (slice_index_or posts.old i d) None) }
{
    thread::for_each_mut(
        rt,
        posts,
        MOST_THREADS,
        &|_, post: &mut Post<L, E, C>|
            requires hall { IfSome (seat_of post.old) (λ seat. seat.hall ≡ hall.now) }
            requires turns { turns ≤ 10 ^ 12 }
            ensures few { IsWithin post.new }
            ensures served { IfSome (seat_of post.old) (λ seat.
                PostServes L.Link.own E.seen C.Clock.own turns seat post.old post.new) }
            ensures unserved { IfNone (seat_of post.old) (post.new ≡ seated post.old None) }
        { work(rt, hall, post, gate, turns) },
    );
}
