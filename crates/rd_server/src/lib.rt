//! The library behind the programs: the replay of a trace (`trace_replay`), and a directory served
//! over links by many workers.
#![tactic(auto)]

mod serving;

pub use serving::ends::End;
pub use serving::plans::{ServePlan, serve_words};
pub use serving::serve_status::ServeStatus;
pub use serving::served::{ServeFault, Served};
pub use serving::servers::{make_hall, serve, serve_seats};
pub use serving::workers::serve_worker;
pub use trace_replay::{
    LineBad, Machine, Reason, Status, Trouble, WordsFault, given_words, replay, report,
};
