//! Reading and writing of CoAP messages (RFC 7252 section 3), in borrowed octets and without
//! allocating.
#![tactic(auto)]

mod datagrams;
mod headers;
mod options;
mod prefixes;
mod roles;
mod spellings;
mod views;
mod writers;

pub use datagrams::{tail_at, view};
pub use message_model::{Kind4, Role, Unread};
pub use options::{Opt, OptionsIter, options_in, options_of};
pub use roles::role_of;
pub use views::{TokenRef, View};
pub use writers::{TooLong, Writer};
