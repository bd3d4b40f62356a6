//! Exchanges: how duplicates of a write are recognized and get the octets of its answer (RFC 7252
//! section 4.5), and when a message is retransmitted (section 4.2).
#![tactic(auto)]

mod buckets;
mod chains;
mod exchange_queue;
mod octets;
mod resends;
mod table;
mod writes;

pub use octets::{Octets, Reply, Token};
pub use resends::{Again, Resend, Sent};
pub use table::Exchanges;
pub use writes::{Exchange, Keyed};
