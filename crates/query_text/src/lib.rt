//! Query options, read or refused: the parameters of registrations and updates, and the criteria of
//! lookups (RFC 9176).
#![tactic(auto)]

mod asked_options;
mod bases;
mod faultless;
mod faults;
mod given_parameters;
mod lookups;
mod occurrences;
mod options;
mod parameters;
mod rules;
mod walks;

pub use faultless::{faultless_lookup_query, faultless_reg_params, faultless_update_params};
pub use faults::{QueryBad, fault};
pub use lookups::lookup_query;
pub use parameters::{reg_params, update_params};
pub use rd_base::Pieces;
pub use record_model::{Reading, Why};
