//! The request that each worker serves.

use super::names::MessageName;
use journal_model::limits::MAX_WORKERS;
use rd_base::{Starved, peer_text};
use std::alloc::Global;

/// The request that each worker serves, if it holds a job.
#[derive(Clone, Copy, Debug)]
pub(crate) struct Serving {
    /// The requests, by the number of the worker.
    requests: [Option<MessageName>; MAX_WORKERS as usize],
}

impl Serving {
    /// Returns the state in which no worker serves a request.
    pub(crate) fn nothing() -> Serving {
        Serving {
            requests: [None; MAX_WORKERS as usize],
        }
    }

    /// Returns the request that a worker serves, if it holds a job.
    pub(crate) fn request(&self, worker: u8) -> Option<MessageName> {
        *self.requests.get(usize::from(worker))?
    }

    /// Records that a worker now holds the job of this message, or none.
    pub(crate) fn note(&mut self, worker: u8, message: Option<MessageName>, is_busy: bool) {
        if let Some(request) = self.requests.get_mut(usize::from(worker)) {
            *request = if is_busy { message } else { None };
        }
    }

    /// Writes what a worker does when it goes on.
    pub(crate) fn write(
        &self,
        page: &mut String,
        alloc: Global,
        worker: u8,
    ) -> Result<(), Starved> {
        let Some(request) = self.request(worker) else {
            return Ok(writeln!(page, "(worker {worker} has nothing to serve)")?);
        };
        let from = peer_text(alloc, &request.peer)?;
        let from = from.as_str();
        let mid = request.mid;
        Ok(writeln!(page, "(worker {worker} serves [0x{mid:04x}] of {from})")?)
    }
}
