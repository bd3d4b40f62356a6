//! The index of the values of attributes that records carry, as versions that never change.
#![tactic(auto)]

mod abbreviations;
mod bounds;
mod carriers;
mod index;
mod rows;
mod values;

pub use carriers::Carriers;
pub use index::AttributeIndex;
