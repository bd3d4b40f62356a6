//! The core of the directory, as a state machine without I/O. Datagrams, jobs and ticks go in, and
//! datagrams come out (RFC 7252, RFC 9176).
#![tactic(auto)]

mod admitted;
mod arrivals;
mod beginnings;
mod desk;
mod hear;
mod jobs;
mod lookup;
mod stepped;
mod tables;
mod tick;
mod watchers;
mod write;

pub use admitted::Admitted;
pub use arrivals::Arrival;
pub use coap_answers::{Mids, Outbox};
pub use desk::{Desk, Unmade};
pub use jobs::Job;
pub use rd_look::{KeepJob, Looked, answer_look, look, look_request, look_starved};
pub use rd_request::{Incoming, Request, is_look, read_datagram};
pub use stepped::Stepped;
pub use watchers::Watcher;
pub use write::write_jobs::WriteJob;
