//! A trace of the directory, replayed to its output, and the arguments of a command line.
#![tactic(auto)]

mod command_line;
mod endings;
mod fields;
mod machine;
mod made;
mod options;
mod replays;
mod sessions;
mod troubles;
mod words;
mod workers;

pub use endings::Status;
pub use machine::Machine;
pub use options::{Asked, words_ask};
pub use replays::{replay, report};
pub use trace_text::{LineBad, Reason};
pub use troubles::Trouble;
pub use words::{WordsFault, count_of, given_words};
