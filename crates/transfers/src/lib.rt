//! Block-wise transfers: uploads that are stored block by block, and answers that are kept so that
//! all their blocks come from one state (RFC 7959).
#![tactic(auto)]

mod caching;
mod collecting;
mod kept;
mod named;
mod readiness;
mod table;
mod uploading;

pub use collecting::{Collected, Upload};
pub use kept::Kept;
pub use named::{Answer, Answers};
pub use readiness::Ready;
pub use table::Transfers;
