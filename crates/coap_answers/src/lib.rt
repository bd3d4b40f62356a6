//! Responses of a server: what they say, their octets, and the datagrams that a step sends (RFC
//! 7252 sections 4.2 and 5.2, RFC 7959 section 2.4).
#![tactic(auto)]

mod bodies;
mod challenges;
mod datagrams;
mod empty_messages;
mod mids;
mod outbox;
mod refusals;
mod replies;
mod server_errors;

pub use bodies::{body_reply, has_asked_block, is_long, szx_of};
pub use challenges::answer_challenge;
pub use datagrams::Datagram;
pub use empty_messages::send_empty;
pub use mids::Mids;
pub use outbox::Outbox;
pub use refusals::{refusal_code, refusal_diagnostic};
pub use replies::{Reply, answer, spell_notification};
pub use server_errors::{answer_full, answer_starved, internal_server_error};
