//! An answer that is kept for its later blocks.
ghost use Rattle.std.specs.Prelude.{◌≡◌, IfOk};
ghost use Rattle.event_model.specs.Events.{is_young};
ghost use Rattle.transfers.specs.Keeping.{is_kept_as, kept_at, used_at};

use crate::Answer;
use event_model::transmission::EXCHANGE_LIFETIME;
use rd_base::{Bytes, Key, Moment, Peer, Starved, Tag};
use std::alloc::Global;
use std::marker::Model;
use std::sync::Arc;

/// A kept answer, with the moment of its last use. Copies share the answer.
#[derive(Drop)]
pub struct Kept {
    /// The answer with its name.
    answer: Arc<Answer>,
    /// The moment at which it was kept or last read.
    last: Moment,
}

impl Model for Kept {
    ghost use Rattle.std.specs.Arc.{arc_value};
    ghost use Rattle.event_model.specs.KeptAnswers.{KeptAnswer};

    ghost Value = { KeptAnswer };

    ghost view = { λ k. record {
      name =
          (arc_value k.answer).name;
      answer =
          (arc_value k.answer).answer;
      moment = k.last.0;
    } };
}

impl Kept {
    /// Prepares an answer to be kept, as used now.
    pub(crate) fn keep(alloc: Global, now: Moment, answer: Answer) -> Result<Kept, Starved>
        ensures { IfOk result (λ k. k ≡ kept_at now.0 answer) }
    {
        let answer = Arc::new(alloc, answer)?;
        Ok(Kept { answer, last: now })
    }

    /// Returns a copy, which shares the answer. Returns `Starved` if the count of copies has no
    /// room for one more.
    pub(crate) fn share(&self) -> Result<Kept, Starved>
        ensures { IfOk result (λ k. k ≡ self.now) }
    {
        let answer = Arc::try_clone(&self.answer)?;
        Ok(Kept {
            answer,
            last: self.last,
        })
    }

    /// Returns the peer that asked.
    pub(crate) fn peer(&self) -> Peer
        ensures { result ≡ self.now.name.0 }
    {
        self.answer.peer
    }

    /// Returns the key of the request.
    pub(crate) fn key(&self) -> &Key
        ensures { result.now ≡ self.now.name.1 }
    {
        &self.answer.key
    }

    /// Returns whether it is kept under this peer and request key.
    pub(crate) fn is_kept_as(&self, peer: Peer, key: &Key) -> bool
        ensures { result ≡ is_kept_as (peer, key.now) self.now }
    {
        peer == self.answer.peer && key.as_slice() == self.answer.key.as_slice()
    }

    /// Returns whether it has not expired: its last use was less than `EXCHANGE_LIFETIME`
    /// milliseconds before `now`.
    pub(crate) fn is_young(&self, now: Moment) -> bool
        ensures { result ≡ is_young now.0 self.now.moment }
    {
        now.0.saturating_sub(self.last.0) < EXCHANGE_LIFETIME
    }

    /// Returns the whole body.
    pub(crate) fn body(&self) -> &Bytes
        ensures { result.now ≡ self.now.answer.body }
    {
        &*self.answer.body
    }

    /// Returns the entity tag.
    pub(crate) fn tag(&self) -> Tag
        ensures { result.0 ≡ self.now.answer.tag }
    {
        self.answer.tag
    }

    /// Records a use now.
    pub(crate) fn use_again(&mut self, now: Moment)
        ensures { self.new ≡ used_at now.0 self.old }
    {
        self.last = now;
    }
}
