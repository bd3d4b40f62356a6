//! How calls, their arguments and their answers are written, each in one line. The crates of
//! vectors share this.
#![tactic(auto)]

mod answers;
mod lines;
mod notation;
mod octets;
mod words;

pub use answers::NoAnswer;
pub use lines::Line;
pub use notation::{put_datagram, put_octets, shown, yes_or_no};
pub use octets::{datagram_of, octets_of, text_of};
pub use words::{cut, number_of};
