//! Drafts, which are registrations before they have a number: their links against their base, and
//! their weights (RFC 9176 section 5).
#![tactic(auto)]

mod drafts;
mod link_parameters;
mod links;
mod other_bases;
mod references;
mod submissions;
mod weights;

pub use drafts::{Draft, DraftFault, build, build_sharing, submitted};
pub use other_bases::rebased;
pub use submissions::Submitted;
pub use weights::weight;
