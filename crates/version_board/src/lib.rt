//! The latest published version, which a lookup reads without waiting.
//!
//! One publisher publishes versions, each of which stands for one more entry than the one before
//! it. Up to sixteen lookers read the latest. What a looker has seen and what the publisher exposes
//! are beginnings of one list of entries. No code stores this list: it exists in contracts only.
#![tactic(auto)]

mod book;
mod entering;
mod looker;
mod lookers;
mod opening;
mod published;
mod publisher;
mod readers;
mod writers;

pub use entering::Entering;
pub use looker::Looker;
pub use lookers::Lookers;
pub use opening::board;
pub use publisher::Publisher;
