//! A line of the trace that was not read to its end.

use line_model::limits::MAX_LINE;
use rd_base::{Bytes, Starved};
use std::alloc::Global;
use std::mem;

/// The part of a line that was read so far.
#[derive(Drop)]
pub(crate) struct Pending {
    /// Its octets so far; none if it is too long.
    octets: Bytes,
    /// Whether it is too long.
    is_long: bool,
}

impl Pending {
    /// Creates an empty line.
    pub(crate) fn make(alloc: Global) -> Pending {
        Pending {
            octets: Bytes::new(alloc),
            is_long: false,
        }
    }

    /// Adds a part of the line. Returns whether the line is too long now, and was not before.
    pub(crate) fn add(&mut self, part: &[u8]) -> Result<bool, Starved> {
        if self.is_long {
            return Ok(false);
        }
        if self.octets.len() + part.len() > MAX_LINE {
            self.octets.truncate(0);
            self.is_long = true;
            return Ok(true);
        }
        self.octets.append(part)?;
        Ok(false)
    }

    /// Returns whether no octet of a line is stored.
    pub(crate) fn is_empty(&self) -> bool {
        self.octets.is_empty()
    }

    /// Ends the line and begins the next. Returns its octets, or `None` if it was too long.
    pub(crate) fn end(&mut self, alloc: Global) -> Option<Bytes> {
        if self.is_long {
            self.is_long = false;
            return None;
        }
        Some(mem::replace(&mut self.octets, Bytes::new(alloc)))
    }
}
