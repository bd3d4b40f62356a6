//! One value that many workers change in turn, with one history.
//!
//! A worker takes the value out with its pass, changes it, and gives it back with one more row for
//! the history. No code stores the history: it exists in contracts only.
#![tactic(auto)]

mod lock;
mod rows;
mod seats;
mod views;

pub use lock::{Ended, TurnLock, Unmade, Wake, history_is_of_passes, seen_in_order};
pub use rows::{Added, Replays};
pub use seats::{Pass, Passes};
pub use views::View;
