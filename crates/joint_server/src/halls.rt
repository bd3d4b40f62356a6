//! The hall of a server over UDP and TCP.
ghost use Rattle.std.specs.Prelude.{◌≤◌, IfOk, OnErr, length};
ghost use Rattle.joint_server.specs.Posts.{AreLeft, AreOfHall, AreSeated};

use crate::ends::{seat_posts, unseat_posts};
use crate::posts::Post;
use rd_base::Starved;
use rd_seat::Hall;
use std::sync::Wait;

/// Makes a hall for the workers and gives each the seat of its number. Nothing is registered in the
/// hall.
///
/// Seats can be called before the workers are served ([`serve_posts`](crate::serve_posts)).
///
/// # Requires
///
/// There are 1 to 16 workers.
///
/// # Errors
///
/// `Starved` if memory runs out. No worker then has a seat.
pub fn make_joint_hall<R: Wait + AllocGlobal, L, E, C>(
    rt: &R,
    posts: &mut [Post<L, E, C>],
) -> Result<Hall, Starved>
    requires posts { (1 ≤ length posts.old) × (length posts.old ≤ 16) }
    ensures seated { IfOk result (λ hall. AreSeated hall posts.old posts.new) }
    ensures hall { IfOk result (λ hall. AreOfHall hall posts.new) }
    ensures left { OnErr result (AreLeft posts.old posts.new) }
{
    let Ok((hall, seats)) = Hall::make(rt.alloc(), rt, posts.len() as u32) else {
        unseat_posts(posts);
        return Err(Starved);
    };
    seat_posts(posts, seats);
    Ok(hall)
}
