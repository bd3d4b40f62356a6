//! One directory served over UDP and over TCP: workers of both kinds, each with a seat of one hall.
#![tactic(auto)]

mod attended;
mod ends;
mod halls;
mod lines;
mod posts;
mod servers;
mod standing;
mod turns;

pub use attended::Attended;
pub use halls::make_joint_hall;
pub use posts::{Post, Stand};
pub use servers::serve_posts;
pub use standing::attend_door;
