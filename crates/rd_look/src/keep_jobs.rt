//! The job that a look leaves to its worker.
ghost use Rattle.std.specs.Prelude.{◌≡◌, true, Ok, IfOk};
ghost use Rattle.message_model.specs.Reading.{reading};
ghost use Rattle.message_model.specs.Spelling.{spelling};
ghost use Rattle.journal_model.specs.Machine.{is_look_datagram};
ghost use Rattle.rd_request.specs.Accepted.{message_of};

use rd_base::{Bytes, Peer, Starved, Tag};
use rd_request::{KeptRequest, Request};
use std::alloc::Global;
use std::marker::Model;
use std::sync::Arc;

/// A listing or a source that a look built. It is to be kept for its later blocks, and sent from
/// its first block on (RFC 7959 section 2.4).
#[derive(Drop)]
pub struct KeepJob {
    /// The peer that sent the look.
    pub peer: Peer,
    /// The request of the look.
    pub request: KeptRequest,
    /// The listing or the source.
    pub body: Arc<Bytes>,
    /// Its entity tag.
    pub tag: Tag,
}

impl Model for KeepJob {
    ghost use Rattle.std.specs.Prelude.{◌≡◌, true, Ok};
    ghost use Rattle.std.specs.Arc.{arc_value};
    ghost use Rattle.message_model.specs.Reading.{reading};
    ghost use Rattle.message_model.specs.Spelling.{spelling};
    ghost use Rattle.journal_model.specs.Machine.{is_look_datagram};
    ghost use Rattle.rd_look.specs.KeepJobs.{Keep};

    ghost Value = { Keep };

    ghost view = { λ job. record {
      peer = job.peer;
      datagram = spelling job.request;
      answer = record
          { body = arc_value job.body; tag = job.tag.0 };
    } };

    ghost invariant = { λ job. (reading (spelling job.request) ≡ Ok job.request)
        × (is_look_datagram (spelling job.request) ≡ true) };
}

impl KeepJob {
    /// Creates the job to keep a listing or a source that the look with this request built.
    ///
    /// # Requires
    ///
    /// The request is a look, and its encoding reads as the same message.
    ///
    /// # Errors
    ///
    /// `Starved` if memory runs out.
    pub fn of(
        alloc: Global,
        peer: Peer,
        request: &Request<'_>,
        body: Bytes,
        tag: Tag,
    ) -> Result<KeepJob, Starved>
        requires read { reading (spelling (message_of request.now)) ≡ Ok (message_of request.now) }
        requires looks { is_look_datagram (spelling (message_of request.now)) ≡ true }
        ensures { IfOk result (λ job. job
            ≡ record {
              peer = peer;
              datagram = spelling (message_of request.now);
              answer = record
                  { body = body; tag = tag.0 };
            }) }
    {
        let request = KeptRequest::of(alloc, request)?;
        let body = Arc::new(alloc, body)?;
        Ok(KeepJob {
            peer,
            request,
            body,
            tag,
        })
    }

    /// Returns the request of the look.
    pub fn request(&self) -> Request<'_>
        ensures { reading self.now.datagram ≡ Ok (message_of result) }
    {
        self.request.request()
    }
}
