//! Link documents (RFC 6690): checks of them, iterators over their links and parameters, and the
//! values of parameters.
#![tactic(auto)]

mod characters;
mod cuts;
mod documents;
mod links;
mod parameters;
mod parts;
mod points;
mod ranges;
mod reach;
mod values;

pub use documents::{LinkBad, check};
pub use links::{LinkRef, Links, params};
pub use parameters::{Param, Params};
pub use values::{Value, quoted, read_value, value_of};
