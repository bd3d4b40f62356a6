//! The table of exchanges.
ghost use Rattle.std.specs.Prelude.{◌≡◌, ◌≢◌, ℕ, ◌≤◌, [], ◌∷◌, List, IfOk, IfSome, find};
ghost use Rattle.std.specs.Prelude.{option_map};
ghost use Rattle.std.specs.Option.{IfNone};
ghost use Rattle.rd_base.specs.declared.peers.Peer.{Peer};
ghost use Rattle.event_model.specs.declared.notes.Note.TheVariants as note;
ghost use Rattle.event_model.specs.Events.{Event};
ghost use Rattle.rd_base.specs.Firsts.{changed_first, without_first};
ghost use Rattle.exchange_core.specs.Table.{is_with, is_admitted_at, InOrder, young, repeat_among};
ghost use Rattle.exchange_core.specs.Table.{answered};
ghost use Rattle.event_model.specs.AdmissionOrder.{IsOpen};
ghost use Rattle.exchange_core.specs.ExchangeEvents.{ExchangesStandFor, IsFoundAt, IsKeyedAt};
ghost use Rattle.exchange_core.specs.ExchangeEvents.{MayBeAdmitted};

use crate::exchange_queue::ExchangeQueue;
use crate::{Exchange, Keyed, Reply};
use event_model::limits::MAX_EXCHANGES;
use rd_base::{Moment, Peer, Starved};
use std::alloc::Global;
use std::marker::Model;

/// The admitted writes and their answers, by which duplicates are recognized (RFC 7252 section
/// 4.5).
#[derive(Drop)]
pub struct Exchanges {
    /// The latest moment passed to a call that changed it.
    moment: Moment,
    /// The exchanges, the latest first.
    queue: ExchangeQueue,
}

impl Model for Exchanges {
    ghost use Rattle.exchange_core.specs.Table.{Table, InOrder};

    ghost Value = { Table };

    ghost view = { λ e. record { moment = e.moment.0; exchanges = e.queue } };

    ghost invariant = { λ e. InOrder e.moment.0 e.queue };
}

impl Exchanges {
    /// Creates an empty table, with room for the most exchanges that are stored, 4,096.
    ///
    /// # Errors
    ///
    /// `Starved` if memory runs out.
    pub fn make(alloc: Global) -> Result<Exchanges, Starved>
        ensures moment { IfOk result (λ t. t.moment ≡ 0) }
        ensures stands { IfOk result (λ t. ExchangesStandFor 0 [] t) }
    {
        let queue = ExchangeQueue::make(alloc)?;
        Ok(Exchanges {
            moment: Moment(0),
            queue,
        })
    }

    /// Returns the answer to a write that cannot be admitted, because it is a duplicate or there is
    /// no room. Returns `None` if it is new and there is room; the expired exchanges have been
    /// dropped then.
    fn unadmitted(&mut self, now: Moment, peer: Peer, mid: u16) -> Option<Keyed>
        requires { self.old.moment ≤ now.0 }
        ensures some { IfSome result (λ keyed. IsKeyedAt now.0 peer mid self.old self.new keyed
            × (keyed ≢ Keyed.Fresh)) }
        ensures none { IfNone result (MayBeAdmitted now.0 peer mid self.old self.new) }
    {
        if let Some(repeat) = repeat_in(&self.queue, now, peer, mid) {
            return Some(repeat);
        }
        self.age(now);
        if self.queue.len() == MAX_EXCHANGES {
            return Some(Keyed::FullExchanges);
        }
        None
    }

    /// Returns what [`Exchanges::admit_key`] would return for a write, without admitting it.
    ///
    /// `Fresh` means that the write is new and there is room for it (RFC 7252 section 4.5). Does
    /// not allocate.
    ///
    /// # Requires
    ///
    /// `now` is no earlier than any moment at which the table was changed.
    pub fn find_key(&mut self, now: Moment, peer: Peer, mid: u16) -> Keyed
        requires { self.old.moment ≤ now.0 }
        ensures { IsFoundAt now.0 peer mid self.old self.new result }
    {
        match self.unadmitted(now, peer, mid) {
            Some(keyed) => keyed,
            None => Keyed::Fresh,
        }
    }

    /// Admits a write of a peer under a Message ID, if it is new and there is room (RFC 7252
    /// section 4.5).
    ///
    /// Returns `Fresh` if the write was admitted; it is in progress then. Any other answer says how
    /// to respond to a duplicate or to a write without room. Does not allocate.
    ///
    /// # Requires
    ///
    /// `now` is no earlier than any moment at which the table was changed.
    pub fn admit_key(&mut self, now: Moment, peer: Peer, mid: u16) -> Keyed
        requires { self.old.moment ≤ now.0 }
        ensures { IsKeyedAt now.0 peer mid self.old self.new result }
    {
        if let Some(keyed) = self.unadmitted(now, peer, mid) {
            return keyed;
        }
        self.queue.push(Exchange::in_flight(peer, mid, now));
        Keyed::Fresh
    }

    /// Stores the reply of the write that was admitted at a moment, if the write is still in the
    /// table. Does not allocate.
    pub fn settle(&mut self, peer: Peer, mid: u16, admitted: Moment, reply: Reply)
        ensures stands { (at : ℕ) (events : List Event) (e : Event) (place : ℕ)
            → IsOpen place peer mid admitted.0 events
            → e.note ≡ note.Settled place reply
            → ExchangesStandFor at events self.old
            → ExchangesStandFor at (e ∷ events) self.new }
        ensures answered { self.new.exchanges
            ≡ changed_first (is_admitted_at peer mid admitted.0) (answered reply)
            self.old.exchanges }
        ensures moment { self.new.moment ≡ self.old.moment }
    {
        answer_first(&mut self.queue, peer, mid, admitted, reply);
    }

    /// Forgets the write that was admitted at a moment, if it is still in the table. It may then
    /// come again as a new one.
    pub fn forget(&mut self, peer: Peer, mid: u16, admitted: Moment)
        ensures stands { (at : ℕ) (events : List Event) (e : Event) (place : ℕ)
            → IsOpen place peer mid admitted.0 events
            → e.note ≡ note.Failed place
            → ExchangesStandFor at events self.old
            → ExchangesStandFor at (e ∷ events) self.new }
        ensures forgotten { self.new.exchanges
            ≡ without_first (is_admitted_at peer mid admitted.0) self.old.exchanges }
        ensures moment { self.new.moment ≡ self.old.moment }
    {
        drop_first(&mut self.queue, peer, mid, admitted);
    }

    /// Drops the exchanges that have expired.
    ///
    /// # Requires
    ///
    /// `now` is no earlier than any moment at which the table was changed.
    pub fn age(&mut self, now: Moment)
        requires { self.old.moment ≤ now.0 }
        ensures stands { (at : ℕ) (events : List Event)
            → at ≤ now.0
            → ExchangesStandFor at events self.old
            → ExchangesStandFor now.0 events self.new }
        ensures left { self.new.exchanges ≡ young now.0 self.old.exchanges }
        ensures moment { self.new.moment ≡ now.0 }
    {
        drop_old(&mut self.queue, now);
        self.moment = now;
    }
}

/// Returns the answer to a write that is a duplicate of one of the exchanges, or `None` if it is
/// not.
#[tactic(auto, unfolding(crate::specs::Table::repeat_among))]
fn repeat_in(queue: &ExchangeQueue, now: Moment, peer: Peer, mid: u16) -> Option<Keyed>
    ensures { result ≡ repeat_among now.0 peer mid queue.now }
{
    let Some(index) = queue.index_of(peer, mid, None) else {
        return None;
    };
    let last = queue.at(index);
    if !last.is_young(now) {
        return None;
    }
    Some(last.repeated())
}

/// Drops the exchanges that have expired, from the oldest on.
fn drop_old(queue: &mut ExchangeQueue, now: Moment)
    requires { InOrder now.0 queue.old }
    ensures { queue.new ≡ young now.0 queue.old }
{
    'oldest: while let Some(oldest) = queue.oldest() {
        if oldest.is_young(now) {
            return;
        }
        queue.drop_oldest();
    }
}

/// Stores the reply of the write that was admitted at a moment.
fn answer_first(queue: &mut ExchangeQueue, peer: Peer, mid: u16, admitted: Moment, reply: Reply)
    ensures { queue.new
        ≡ changed_first (is_admitted_at peer mid admitted.0) (answered reply) queue.old }
{
    if let Some(index) = queue.index_of(peer, mid, Some(admitted)) {
        queue.answer(index, reply);
    }
}

/// Drops the write that was admitted at a moment.
fn drop_first(queue: &mut ExchangeQueue, peer: Peer, mid: u16, admitted: Moment)
    ensures { queue.new ≡ without_first (is_admitted_at peer mid admitted.0) queue.old }
{
    if let Some(index) = queue.index_of(peer, mid, Some(admitted)) {
        queue.remove(index);
    }
}
