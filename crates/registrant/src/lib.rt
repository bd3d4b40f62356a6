//! A client of a resource directory. It registers, refreshes and removes one registration (RFC 9176
//! section 5).
#![tactic(auto)]

mod asks;
mod echoes;
mod hearing;
mod options;
mod parts;
mod registering;
mod talks;
mod telling;
mod turns;
mod uris;
mod verdicts;

pub use client_model::{Ask, AskBad, Location, Opts, Outcome, Purpose};
pub use echoes::{ask_again, echoed_ask};
pub use registering::{refresh_ask, register_ask, remove_ask};
pub use talks::Talk;
pub use telling::{Registrant, Told};
pub use turns::{TellFault, Turn, hear_turn, send, tick_turn};
pub use verdicts::{TalkAgain, TalkHeard};
