//! The job that an admitted write leaves to its worker.
ghost use Rattle.std.specs.Prelude.{◌≡◌, true, Ok};
ghost use Rattle.message_model.specs.Reading.{reading};
ghost use Rattle.rd_request.specs.Accepted.{message_of};
ghost use Rattle.rd_request.specs.WriteRequests.{is_write_datagram, writes_to_registrations};

use rd_base::{Moment, Peer};
use rd_request::{KeptRequest, Request};
use std::marker::Model;

/// An admitted write. The worker's next step other than a tick does it. Its request is not refused
/// by its content alone.
#[derive(Drop)]
pub struct WriteJob {
    /// The peer that sent it.
    pub(crate) peer: Peer,
    /// Its request.
    pub(crate) request: KeptRequest,
    /// The moment at which it was admitted.
    pub(crate) admitted: Moment,
}

impl Model for WriteJob {
    ghost use Rattle.std.specs.Prelude.{◌≡◌, true, Ok};
    ghost use Rattle.rd_request.specs.WriteRequests.{is_write_datagram};
    ghost use Rattle.rd_desk.specs.calls.WriteJobs.{Write};
    ghost use Rattle.message_model.specs.Reading.{reading};
    ghost use Rattle.message_model.specs.Spelling.{spelling};

    ghost Value = { Write };

    ghost view = { λ job. record {
      peer = job.peer;
      datagram = spelling job.request;
      admitted = job.admitted.0;
    } };

    ghost invariant = { λ job. (reading (spelling job.request) ≡ Ok job.request)
        × (is_write_datagram (spelling job.request) ≡ true) };
}

impl WriteJob {
    /// Returns its request.
    pub(crate) fn request(&self) -> Request<'_>
        ensures read { reading self.now.datagram ≡ Ok (message_of result) }
        ensures writes { writes_to_registrations (message_of result) ≡ true }
    {
        self.request.request()
    }
}
