//! Numbers and blocks as the values of options (RFC 7252 section 3.2), and the blocks of a body
//! (RFC 7959 section 2.2).
#![tactic(auto)]

mod slices;
mod uint_values;
mod values;

pub use message_model::Block;
pub use slices::{block_size, slice_of};
pub use uint_values::{uint_of, uint_write};
pub use values::{Szx7, block_read, block_write};
