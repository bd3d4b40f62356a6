//! Seats: what one sees of another, looks that wait for nobody, many seats at once, and steps that
//! run out of memory.
pub(crate) mod calls;
mod crowds;
pub(crate) mod gates;
mod memory;
