//! Traces as text. Each line is read in one way or refused with its reason, and what is printed is
//! read back.
#![tactic(auto)]

mod datagrams;
mod faults;
mod fields;
mod generator;
mod line_parser;
mod line_printer;
mod numbers;

pub use faults::LineFault;
pub use fields::{cut, offset_of};
pub use generator::make;
pub use line_model::{Line, LineBad, Reason};
pub use line_parser::line_read;
pub use line_printer::{line_print, out_print};
pub use numbers::number_read;
