//! The arguments of `rd_show`, and text in its diagrams: the parts that one stored run of the
//! program does not show.
#![tactic(auto)]

mod escapes;
mod words;

pub use escapes::write_escaped;
pub use words::{Asked, Otherwise, words_read};
