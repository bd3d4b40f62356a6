//! Versions of the directory: each stands for a history of changes, and never changes (RFC 9176
//! sections 5 and 6).
#![tactic(auto)]

mod begin;
mod boards;
mod counts;
mod directory;
mod drafts;
mod index;
mod lapsing_iter;
mod links_after;
mod lookup;
mod names;
mod pages;
mod races;
mod reads;
mod records;
mod refusals;
mod register;
mod remove;
mod renewed;
mod replace;
mod room;
mod shared_index;
mod sources;
mod stored_record;
mod sweep;
mod update;
mod updated_drafts;

pub use boards::{Board, NoBoard};
pub use directory::Directory;
pub use lapsing_iter::LapsingIter;
pub use refusals::Refusal;
