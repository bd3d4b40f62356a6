//! Answers to lookups, reads of a registration, and discovery, from one version of the directory. A
//! long listing or source leaves a job (RFC 9176 sections 4.1, 5.3.3 and 6, RFC 7959 section 2.4).
#![tactic(auto)]

mod keep_jobs;
mod looks;

pub use keep_jobs::KeepJob;
pub use looks::{
    Looked, answer_look, answer_not_live, links_at, listing_at, look, look_request, look_starved,
    send_block,
};
