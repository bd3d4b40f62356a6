//! Sorted maps as immutable versions. A version shares everything with the next one that stays the
//! same. A change costs about the same, whatever the number of pairs.
#![tactic(auto)]

mod change;
mod levels;
mod map;
mod part;
mod parts;
mod range;
mod shared;

pub use change::Change;
pub use map::ChunkMap;
pub use range::RangeIter;
pub use shared::Shared;
