//! Exchanges in the order of their admission, which are found by peer and Message ID without going
//! through all of them.
ghost use Rattle.std.specs.Prelude.{◌≡◌, ◌+◌, ◌-◌, ◌<◌, ◌≤◌, ◌^◌, ◌↔◌, ◌∷◌, [], ℕ, List, length};
ghost use Rattle.std.specs.Prelude.{take, slice_set, slice_index_or, IfOk, IfSome, IsSome};
ghost use Rattle.std.specs.List.{position, remove};
ghost use Rattle.std.specs.VecDeque.{deque_len, deque_capacity};
ghost use Rattle.event_model.specs.Repeats.{max_exchanges, Exchange as Admission};
ghost use Rattle.exchange_core.specs.Table.{is_sought, answered};
ghost use Rattle.exchange_core.specs.Buckets.{buckets, AreFoundBy};

use crate::buckets::bucket_of;
use crate::chains::Chains;
use crate::{Exchange, Reply};
use event_model::limits::MAX_EXCHANGES;
use rd_base::{Moment, Peer, Starved};
use std::alloc::Global;
use std::collections::VecDeque;
use std::marker::Model;

/// Exchanges in the order of their admission, the latest first.
#[derive(Drop)]
pub(crate) struct ExchangeQueue {
    /// The exchanges.
    rows: VecDeque<Exchange>,
    /// The chains by which they are found.
    chains: Chains,
}

impl Model for ExchangeQueue {
    ghost use Rattle.std.specs.Prelude.{List, ◌≤◌};
    ghost use Rattle.std.specs.VecDeque.{deque_len, deque_capacity};
    ghost use Rattle.event_model.specs.Repeats.{max_exchanges, Exchange as Admission};
    ghost use Rattle.exchange_core.specs.Buckets.{buckets, AreFoundBy};

    ghost Value = { List Admission };

    ghost view = { λ q. q.rows.items };

    ghost invariant = { λ q. (max_exchanges ≤ deque_capacity q.rows)
        × (max_exchanges ≤ deque_capacity q.chains.older)
        × (deque_len q.rows ≤ max_exchanges)
        × AreFoundBy q.chains.first q.chains.latest.items q.chains.older.items q.rows.items };
}

impl ExchangeQueue {
    /// Creates an empty queue, with room for the most exchanges that are stored.
    pub(crate) fn make(alloc: Global) -> Result<ExchangeQueue, Starved>
        ensures { IfOk result (λ q. q ≡ []) }
    {
        let rows = VecDeque::with_capacity(alloc, MAX_EXCHANGES)?;
        let chains = Chains::make(alloc, MAX_EXCHANGES)?;
        Ok(ExchangeQueue { rows, chains })
    }

    /// Returns the number of exchanges.
    pub(crate) fn len(&self) -> usize
        ensures many { result ≡ length self.now }
        ensures within { result ≤ max_exchanges }
    {
        self.rows.len()
    }

    /// Returns the exchange at an index, counted from the latest.
    pub(crate) fn at(&self, index: usize) -> &Exchange
        requires { index < length self.now }
        ensures { result.now ≡ slice_index_or self.now index result.now }
    {
        &self.rows[index]
    }

    /// Returns the oldest exchange.
    pub(crate) fn oldest(&self) -> Option<&Exchange>
        ensures variant { IsSome result ↔ (0 < length self.now) }
        ensures lookup { IfSome result
            (λ x. x.now ≡ slice_index_or self.now (length self.now - 1) x.now) }
    {
        self.rows.back()
    }

    /// Returns the index of the latest exchange of a peer and a Message ID, admitted at this moment
    /// if one is given.
    pub(crate) fn index_of(&self, peer: Peer, mid: u16, admitted: Option<Moment>) -> Option<usize>
        ensures { result ≡ position (is_sought peer mid admitted) self.now }
    {
        index_in(&self.rows, &self.chains, peer, mid, admitted)
    }

    /// Adds an exchange as the latest.
    pub(crate) fn push(&mut self, exchange: Exchange)
        requires { length self.old < max_exchanges }
        ensures { self.new ≡ exchange ∷ self.old }
    {
        count_on(&self.rows, &mut self.chains);
        self.chains.push(exchange.bucket());
        self.rows.push_front_reserved(exchange);
    }

    /// Removes the oldest exchange.
    pub(crate) fn drop_oldest(&mut self)
        requires { 0 < length self.old }
        ensures { self.new ≡ take (length self.old - 1) self.old }
    {
        let _ = self.rows.pop_back();
        self.chains.pop();
    }

    /// Stores the reply of the exchange at an index.
    pub(crate) fn answer(&mut self, index: usize, reply: Reply)
        requires { index < length self.old }
        ensures { (x : Admission)
            → self.new
            ≡ slice_set self.old index (answered reply (slice_index_or self.old index x)) }
    {
        self.rows[index].answer(reply);
    }

    /// Removes the exchange at an index. Renumbers the others, which takes one step for each.
    pub(crate) fn remove(&mut self, index: usize)
        requires { index < length self.old }
        ensures { self.new ≡ remove self.old index }
    {
        let _ = self.rows.remove(index);
        number_anew(&self.rows, &mut self.chains);
    }
}

/// Returns the index of the latest exchange of a peer and a Message ID, admitted at this moment if
/// one is given. Searches from the latest in its bucket to the oldest.
fn index_in(
    rows: &VecDeque<Exchange>,
    chains: &Chains,
    peer: Peer,
    mid: u16,
    admitted: Option<Moment>,
) -> Option<usize>
    requires { AreFoundBy chains.now.first chains.now.latest.items chains.now.older.items
        rows.now.items }
    ensures { result ≡ position (is_sought peer mid admitted) rows.now.items }
{
    let next = chains.next();
    let mut number = chains.latest[bucket_of(peer, mid)];
    'older: while number >= chains.first {
        let index = (next - 1 - number) as usize;
        if rows[index].is_sought(peer, mid, admitted) {
            return Some(index);
        }
        number = chains.older[index];
    }
    None
}

/// Makes room for one more number: if the numbers are used up, renumbers all exchanges.
fn count_on(rows: &VecDeque<Exchange>, chains: &mut Chains)
    requires found { AreFoundBy chains.old.first chains.old.latest.items chains.old.older.items
        rows.now.items }
    requires few { length rows.now.items ≤ max_exchanges }
    requires room { max_exchanges ≤ deque_capacity chains.old.older }
    ensures found { AreFoundBy chains.new.first chains.new.latest.items chains.new.older.items
        rows.now.items }
    ensures counted { chains.new.first + length rows.now.items + 1 < 2 ^ 64 }
    ensures room { deque_capacity chains.new.older ≡ deque_capacity chains.old.older }
{
    if chains.next() < u64::MAX {
        return;
    }
    number_anew(rows, chains);
}

/// Renumbers all exchanges.
fn number_anew(rows: &VecDeque<Exchange>, chains: &mut Chains)
    requires buckets { length chains.old.latest.items ≡ buckets }
    requires few { length rows.now.items ≤ max_exchanges }
    requires room { max_exchanges ≤ deque_capacity chains.old.older }
    ensures found { AreFoundBy chains.new.first chains.new.latest.items chains.new.older.items
        rows.now.items }
    ensures first { chains.new.first ≡ 1 }
    ensures room { deque_capacity chains.new.older ≡ deque_capacity chains.old.older }
{
    chains.clear();
    let mut index = rows.len();
    'rows: while index > 0 {
        index -= 1;
        chains.push(rows[index].bucket());
    }
}
