//! The observers of the directory: the lookup that each observes, those that are due, and how each
//! change of the registrations affects them (RFC 7641).
#![tactic(auto)]

mod change_kinds;
mod joining;
mod marks;
mod watching;

pub use change_kinds::ChangeKind;
pub use joining::Joining;
pub use watching::Watching;
