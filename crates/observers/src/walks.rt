//! Passes over observers: which one is found, and how one of them changes.
ghost use Rattle.std.specs.Prelude.{◌≡◌, ◌<◌, ◌≤◌, ℕ, ◌++◌, ◌∷◌, [], Some, Bool, List, map, find};
ghost use Rattle.std.specs.Prelude.{slice_get, length, option_map, IfSome, vec_len, vec_capacity};
ghost use Rattle.std.specs.List.{list_any, position};
ghost use Rattle.std.specs.Arc.{arc_value};
ghost use Rattle.event_model.specs.Same.{is_same_peer};
ghost use Rattle.event_model.specs.Observers.{max_observers};
ghost use Rattle.observers.specs.AwaitedPeers.{awaited_of, Tells};
ghost use Rattle.rd_base.specs.Firsts.{changed_first, without_first};
ghost use Rattle.observers.specs.Standing.{Standing, is_named, has_notification, is_awaited};
ghost use Rattle.observers.specs.Standing.{is_ready};
ghost use Rattle.observers.specs.Standing.{next_ready, marked, notified, seen, landed, due_of};
ghost use Rattle.observers.specs.Standing.{timed, changed_at};

use crate::Observer;
use exchange_core::{Again, Sent, Token};
use rd_base::{Bytes, Moment, Peer};
use std::sync::Arc;

/// Returns the index of the observer of a peer and a token.
pub(crate) fn index_of(observers: &[Observer], peer: &Peer, token: &Token) -> Option<usize>
    ensures { result ≡ position (is_named peer.now token.now) observers.now }
{
    observers
        .iter()
        .position(|observer| observer.is_named(peer, token))
}

/// Returns the index of the first observer of a peer to which a notification with a Message ID is
/// in flight.
pub(crate) fn index_of_notification(observers: &[Observer], peer: &Peer, mid: u16) -> Option<usize>
    ensures { result ≡ position (has_notification peer.now mid) observers.now }
{
    observers
        .iter()
        .position(|observer| observer.has_notification(peer, mid))
}

/// Removes the observer with an index, if there is one, and returns it. If the index is that of the
/// first observer that passes a test, the returned one is that observer.
pub(crate) fn take(observers: &mut Vec<Observer>, index: Option<usize>) -> Option<Observer>
    requires { (test : Standing → Bool) × (index ≡ position test observers.old.items) }
    ensures found { (test : Standing → Bool)
        → index ≡ position test observers.old.items
        → result ≡ find test observers.old.items }
    ensures left { (test : Standing → Bool)
        → index ≡ position test observers.old.items
        → observers.new.items ≡ without_first test observers.old.items }
    ensures len { vec_len observers.new ≤ vec_len observers.old }
    ensures capacity { vec_capacity observers.new ≡ vec_capacity observers.old }
{
    match index {
        Some(at) => Some(observers.remove(at)),
        None => None,
    }
}

/// Marks as due the observers whose query is watched in a slot.
pub(crate) fn mark_all(observers: &mut Vec<Observer>, slot: u32)
    ensures marked { observers.new.items ≡ map (marked slot) observers.old.items }
    ensures len { vec_len observers.new ≡ vec_len observers.old }
    ensures capacity { vec_capacity observers.new ≡ vec_capacity observers.old }
{
    'items: for item in observers.iter_mut() {
        item.mark(slot);
    }
}

/// Collects again the peers to which notifications are in flight.
pub(crate) fn gather(awaited: &mut Vec<Peer>, observers: &[Observer])
    requires few { length observers.now ≤ max_observers }
    requires room { max_observers ≤ vec_capacity awaited.old }
    ensures peers { awaited.new.items ≡ awaited_of observers.now }
    ensures capacity { vec_capacity awaited.new ≡ vec_capacity awaited.old }
{
    awaited.clear();
    'observers: for observer in observers {
        if observer.flight.is_some() {
            awaited.push_reserved(observer.peer);
        }
    }
}

/// Adds the peer to those to which notifications are in flight.
pub(crate) fn await_peer(awaited: &mut Vec<Peer>, peer: Peer)
    requires { length awaited.old.items < vec_capacity awaited.old }
    ensures awaited { awaited.new.items ≡ awaited.old.items ++ peer ∷ [] }
    ensures capacity { vec_capacity awaited.new ≡ vec_capacity awaited.old }
{
    awaited.push_reserved(peer);
}

/// Returns whether the peer is one of these.
fn is_among(peers: &[Peer], peer: &Peer) -> bool
    ensures { result ≡ list_any (λ q. is_same_peer q peer.now) peers.now }
{
    peers.iter().any(|other| *other == *peer)
}

/// Returns whether an observer is due, and no notification is in flight to its peer.
fn is_free(awaited: &[Peer], observer: &Observer) -> bool
    ensures { (ws : List Standing)
        → Tells ws awaited.now
        → result ≡ is_ready ws observer.now }
{
    if !observer.is_due() {
        return false;
    }
    !is_among(awaited, observer.peer())
}

/// Returns the first index, from `from` on, of an observer that is due and to whose peer no
/// notification is in flight.
pub(crate) fn next_in(observers: &[Observer], awaited: &[Peer], from: usize) -> Option<usize>
    requires { Tells observers.now awaited.now }
    ensures { result ≡ next_ready from observers.now }
{
    'observers: for index in from..observers.len() {
        if let Some(observer) = observers.get(index) {
            if is_free(awaited, observer) {
                return Some(index);
            }
        }
    }
    None
}

/// Returns the peer of the observer with an index.
pub(crate) fn peer_at(observers: &[Observer], index: usize) -> Peer
    requires { index < length observers.now }
    ensures { (w : Standing) → slice_get observers.now index ≡ Some w → result ≡ w.peer }
{
    *observers[index].peer()
}

/// Records that a notification with a body was built for the observer with an index.
pub(crate) fn notification_at(
    observers: &mut Vec<Observer>,
    index: usize,
    flight: Sent,
    body: Arc<Bytes>,
)
    requires { index < length observers.old.items }
    ensures notified { observers.new.items
        ≡ changed_at (notified flight (arc_value body)) index observers.old.items }
    ensures capacity { vec_capacity observers.new ≡ vec_capacity observers.old }
    ensures len { vec_len observers.new ≡ vec_len observers.old }
{
    observers[index].notification(flight, body);
}

/// Records that the listing of the observer with an index was found unchanged.
pub(crate) fn see_at(observers: &mut Vec<Observer>, index: usize)
    requires { index < length observers.old.items }
    ensures seen { observers.new.items ≡ changed_at seen index observers.old.items }
    ensures capacity { vec_capacity observers.new ≡ vec_capacity observers.old }
    ensures len { vec_len observers.new ≡ vec_len observers.old }
{
    observers[index].see();
}

/// Returns what is due of the notification of the observer with an index.
pub(crate) fn time_at(observers: &mut Vec<Observer>, index: usize, now: Moment) -> Again
    requires { index < length observers.old.items }
    ensures due { (w : Standing)
        → slice_get observers.old.items index ≡ Some w
        → result ≡ due_of now.0 w.flight }
    ensures kept { observers.new.items ≡ changed_at (timed now.0) index observers.old.items }
    ensures capacity { vec_capacity observers.new ≡ vec_capacity observers.old }
    ensures len { vec_len observers.new ≡ vec_len observers.old }
{
    observers[index].time(now)
}

/// Records that the notification with a Message ID in flight to a peer was acknowledged. Returns
/// whether there was one.
pub(crate) fn land_first(observers: &mut Vec<Observer>, peer: &Peer, mid: u16) -> bool
    ensures found { result ≡ list_any (has_notification peer.now mid) observers.old.items }
    ensures landed { observers.new.items
        ≡ changed_first (has_notification peer.now mid) landed observers.old.items }
    ensures capacity { vec_capacity observers.new ≡ vec_capacity observers.old }
    ensures len { vec_len observers.new ≡ vec_len observers.old }
{
    match index_of_notification(observers.as_slice(), peer, mid) {
        Some(index) => {
            observers[index].land();
            true
        }
        None => false,
    }
}
