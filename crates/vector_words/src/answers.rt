//! Why a call has no answer.

use rd_base::Starved;
use std::alloc::AllocError;

/// Why a call is not answered.
#[derive(Clone, Copy, Debug, PartialEq, Eq)]
pub enum NoAnswer {
    /// Its arguments do not have the form of the call.
    Form,
    /// Memory ran out.
    Starved,
}

impl From<Starved> for NoAnswer {
    fn from(_: Starved) -> NoAnswer {
        NoAnswer::Starved
    }
}

impl From<AllocError> for NoAnswer {
    fn from(_: AllocError) -> NoAnswer {
        NoAnswer::Starved
    }
}
