//! Adding and removing observers of a lookup. The watched queries and the observers change together
//! (RFC 7641 sections 3.6 and 4.1).
ghost use Rattle.std.specs.Prelude.{◌≡◌, ◌<◌, ℕ, ◌++◌, ◌∷◌, [], List, Some, None, false, IfOk};
ghost use Rattle.std.specs.Prelude.{find, length, nat_le, is_some, option_map, slice_get, remove};
ghost use Rattle.std.specs.List.{list_any};
ghost use Rattle.rd_base.specs.declared.peers.Peer.{Peer as Endpoint};
ghost use Rattle.rd_base.specs.Firsts.{without_first};
ghost use Rattle.event_model.specs.declared.notes.Observer.{Observer as Observed};
ghost use Rattle.event_model.specs.Observers.{max_observers};
ghost use Rattle.watch_table.specs.WatchedQueries.{one_fewer, without};
ghost use Rattle.watch_table.specs.ObserverCounts.{WatchesStandFor};
ghost use Rattle.observers.specs.Standing.{Standing, is_named, has_notification};
ghost use Rattle.observation.specs.Joining.{Joins, has_room, standing_joining};

use event_model::limits::MAX_OBSERVERS;
use exchange_core::Token;
use observers::{FullObservers, Observer, Observers};
use rd_base::{Bytes, Key, Peer, Query, Starved};
use std::alloc::Global;
use std::sync::Arc;
use watch_table::{WatchFault, WatchTable};

/// A request of a client to observe a lookup: all that is stored of the observer except the slot of
/// its query.
#[derive(Drop)]
pub struct Joining {
    /// The peer that receives its notifications.
    pub peer: Peer,
    /// The token of its request, which each notification has.
    pub token: Token,
    /// The key of its request.
    pub key: Key,
    /// The exponent of the block size that it requests (RFC 7959 section 2.2).
    pub szx: u8,
    /// The body of the response to its request.
    pub body: Arc<Bytes>,
}

impl Joining {
    /// Returns the observer, with the slot of its query.
    fn at(self, slot: u32) -> Observer
        ensures { result ≡ standing_joining slot self }
    {
        Observer {
            peer: self.peer,
            token: self.token,
            place: slot,
            key: self.key,
            szx: self.szx,
            due: false,
            last: self.body,
            flight: None,
        }
    }
}

/// Returns whether an observer has this peer and token.
fn is_of(observer: &Observer, peer: &Peer, token: &Token) -> bool
    ensures { result ≡ is_named peer.now token.now observer.now }
{
    *token == observer.token && *peer == observer.peer
}

/// Returns the slot of the query of the observer with this peer and token, if there is one.
fn slot_named(observers: &Observers, peer: &Peer, token: &Token) -> Option<u32>
    ensures { result
        ≡ option_map (λ x. x.slot) (find (is_named peer.now token.now) observers.now) }
{
    'observers: for index in 0..observers.len() {
        if let Some(observer) = observers.at(index) {
            if is_of(observer, peer, token) {
                return Some(observer.place);
            }
        }
    }
    None
}

/// Returns whether there is no room for another observer.
///
/// `before` is the slot of the observer that the new one replaces, if there is one. That observer
/// does not count.
fn is_full_beside(observers: &Observers, before: Option<u32>) -> bool
    ensures { (peer : Endpoint) (token : List ℕ)
        → before ≡ option_map (λ x. x.slot) (find (is_named peer token) observers.now)
        → result
        ≡ nat_le max_observers (length (without_first (is_named peer token) observers.now)) }
{
    match before {
        Some(_) => observers.len() > MAX_OBSERVERS,
        None => observers.len() >= MAX_OBSERVERS,
    }
}

/// Removes the observer with this peer and token, and counts one observer fewer of its query.
/// Returns whether there was one.
pub(crate) fn leave(
    watches: &mut WatchTable,
    observers: &mut Observers,
    peer: &Peer,
    token: &Token,
) -> bool
    ensures found { result ≡ is_some (find (is_named peer.now token.now) observers.old) }
    ensures watches { watches.new
        ≡ without (option_map (λ x. x.slot) (find (is_named peer.now token.now) observers.old))
        watches.old }
    ensures observers { observers.new ≡ without_first (is_named peer.now token.now) observers.old }
{
    match observers.drop_one(peer, token) {
        Some(gone) => {
            watches.unwatch(gone.place);
            true
        }
        None => false,
    }
}

/// Removes the observer of this peer whose notification in flight has this Message ID. Counts one
/// observer fewer of its query. Returns whether there was one.
pub(crate) fn reset(
    watches: &mut WatchTable,
    observers: &mut Observers,
    peer: &Peer,
    mid: u16,
) -> bool
    ensures found { result ≡ is_some (find (has_notification peer.now mid) observers.old) }
    ensures watches { watches.new
        ≡ without (option_map (λ x. x.slot) (find (has_notification peer.now mid) observers.old))
        watches.old }
    ensures observers { observers.new
        ≡ without_first (has_notification peer.now mid) observers.old }
{
    match observers.reset(peer, mid) {
        Some(gone) => {
            watches.unwatch(gone.place);
            true
        }
        None => false,
    }
}

/// Removes the observer at `index`, and counts one observer fewer of its query.
pub(crate) fn take_out(watches: &mut WatchTable, observers: &mut Observers, index: usize)
    requires { index < length observers.old }
    ensures watches { (x : Standing)
        → slice_get observers.old index ≡ Some x
        → watches.new ≡ one_fewer x.slot watches.old }
    ensures observers { observers.new ≡ remove observers.old index }
{
    let gone = observers.timed_out(index);
    watches.unwatch(gone.place);
}

/// Returns the slot of the query of the observer at `index`.
pub(crate) fn slot_at(observers: &Observers, index: usize) -> u32
    requires { index < length observers.now }
    ensures { (x : Standing) → slice_get observers.now index ≡ Some x → result ≡ x.slot }
{
    match observers.at(index) {
        Some(observer) => observer.place,
        None => unreachable!(),
    }
}

/// Adds an observer, and removes the one with the same peer and token. There must be room for it.
fn replace(observers: &mut Observers, observer: Observer)
    requires room { length (without_first (is_named observer.peer observer.token) observers.old)
        < max_observers }
    requires new { list_any (is_named observer.peer observer.token)
        (without_first (is_named observer.peer observer.token) observers.old)
        ≡ false }
    requires landed { observer.flight ≡ None }
    ensures { observers.new
        ≡ without_first (is_named observer.peer observer.token) observers.old ++ observer ∷ [] }
{
    observers.drop_one(&observer.peer, &observer.token);
    match observers.add(observer) {
        Ok(()) => {}
        Err(FullObservers) => unreachable!(),
    }
}

/// Adds an observer of a query in place of the one with the same peer and token, if there is room.
/// Returns whether it was added.
///
/// # Errors
///
/// `Starved` if memory runs out; nothing has changed.
pub(crate) fn join(
    watches: &mut WatchTable,
    observers: &mut Observers,
    alloc: Global,
    query: &Query,
    joining: Joining,
) -> Result<bool, Starved>
    requires new { list_any (is_named joining.peer joining.token)
        (without_first (is_named joining.peer joining.token) observers.old)
        ≡ false }
    ensures outcome { Joins query.now joining (record
        { watches = watches.old; observers = observers.old }) result
        (record { watches = watches.new; observers = observers.new }) }
    ensures room { (standing : List Observed)
        → WatchesStandFor standing (without (option_map (λ x. x.slot)
        (find (is_named joining.peer joining.token) observers.old)) watches.old)
        → IfOk result (λ added. added
        ≡ has_room query.now (length (without_first (is_named joining.peer joining.token)
        observers.old)) standing) }
{
    let before = slot_named(observers, &joining.peer, &joining.token);
    if is_full_beside(observers, before) {
        leave(watches, observers, &joining.peer, &joining.token);
        return Ok(false);
    }
    match watches.watch(alloc, before, query) {
        Ok(slot) => {
            replace(observers, joining.at(slot));
            Ok(true)
        }
        Err(WatchFault::FullWatches) => {
            observers.drop_one(&joining.peer, &joining.token);
            Ok(false)
        }
        Err(WatchFault::Starved) => Err(Starved),
    }
}
