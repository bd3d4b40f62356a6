//! Recordings: what a server received and sent, read from a capture as a trace and its output, and
//! a trace and its output written as a capture.
#![tactic(auto)]

mod about;
mod challenges;
mod crews;
mod endings;
mod fields;
mod heads;
mod heard;
mod lines;
mod pages;
mod peers;
mod recorders;
mod runs;
mod servers;
mod steps;
mod timelines;
mod transcripts;
mod waiting;
mod words;

pub use endings::Status;
pub use runs::{record, report};
