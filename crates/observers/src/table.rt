//! The table of observers.
ghost use Rattle.std.specs.Prelude.{◌≡◌, ◌≢◌, ◌↔◌, ℕ, ◌≤◌, ◌<◌, List, [], ◌∷◌, ◌++◌, false, Some};
ghost use Rattle.std.specs.Prelude.{None, true, map, find, remove, slice_get, length, option_map};
ghost use Rattle.std.specs.Prelude.{IfOk, IfSome, IfNone, OnOk, OnErr, IsErr, IsTrue};
ghost use Rattle.std.specs.List.{list_any, AllByRecursion};
ghost use Rattle.std.specs.Arc.{arc_value};
ghost use Rattle.rd_base.specs.declared.queries.Query.{Query};
ghost use Rattle.event_model.specs.declared.notes.Note.TheVariants as note;
ghost use Rattle.event_model.specs.declared.notes.Observer.{Observer as Observed};
ghost use Rattle.event_model.specs.Events.{Event};
ghost use Rattle.event_model.specs.Observers.{observers, max_observers};
ghost use Rattle.event_model.specs.Flights.{OctetsSent, Sent as Message, flight, is_waited_for};
ghost use Rattle.event_model.specs.Due.{Transition};
ghost use Rattle.exchange_core.specs.Retransmissions.{Resends};
ghost use Rattle.rd_base.specs.Firsts.{changed_first, without_first};
ghost use Rattle.observers.specs.Standing.{Standing, is_named, has_notification, is_awaited};
ghost use Rattle.observers.specs.Standing.{next_ready};
ghost use Rattle.observers.specs.Standing.{marked, notified, seen, landed, due_of, timed};
ghost use Rattle.observers.specs.Standing.{changed_at};
ghost use Rattle.observers.specs.ObserverEvents.{observer_of, ObserversStandFor, NoneLater};
ghost use Rattle.observers.specs.ObserverEvents.{notification_due, IsExactMark};
ghost use Rattle.observers.specs.ObserverEvents.{was_looked_at_before};

use crate::Observer;
use crate::walks::{
    await_peer, gather, index_of, index_of_notification, land_first, mark_all, next_in,
    notification_at, peer_at, see_at, take, time_at,
};
use event_model::limits::MAX_OBSERVERS;
use exchange_core::{Again, Sent, Token};
use rd_base::{Bytes, Moment, Peer, Starved};
use std::alloc::Global;
use std::marker::Model;
use std::sync::Arc;

/// The table is full: it has 1,024 observers.
#[derive(Clone, Copy, Debug, PartialEq, Eq)]
pub struct FullObservers;

/// The observers (RFC 7641 section 4.1), in the order in which they were added.
#[derive(Drop)]
pub struct Observers {
    /// The observers.
    items: Vec<Observer>,
    /// The peers to which notifications are in flight. With them, the next observer that is due is
    /// found in one pass.
    awaited: Vec<Peer>,
}

impl Model for Observers {
    ghost use Rattle.std.specs.Prelude.{◌≤◌, List, vec_len, vec_capacity};
    ghost use Rattle.event_model.specs.Observers.{max_observers};
    ghost use Rattle.observers.specs.Standing.{Standing};

    ghost Value = { List Standing };

    ghost use Rattle.observers.specs.AwaitedPeers.{AreAwaited};

    ghost view = { λ t. t.items.items };

    ghost invariant = { λ t. (vec_len t.items ≤ max_observers)
        × (max_observers ≤ vec_capacity t.items)
        × (max_observers ≤ vec_capacity t.awaited)
        × AreAwaited t.items.items t.awaited.items };
}

impl Observers {
    /// Creates an empty table, with room for the most observers allowed, 1,024.
    ///
    /// # Errors
    ///
    /// `Starved` if memory runs out.
    pub fn make(alloc: Global) -> Result<Observers, Starved>
        ensures empty { IfOk result (λ t. t ≡ []) }
        ensures stands { (queries : ℕ → Query) (octets : OctetsSent)
            → IfOk result (λ t. ObserversStandFor queries octets [] [] t) }
    {
        let items = Vec::with_capacity(alloc, MAX_OBSERVERS)?;
        let awaited = Vec::with_capacity(alloc, MAX_OBSERVERS)?;
        Ok(Observers { items, awaited })
    }

    /// Adds an observer at the end, for which a body was built. Does not allocate.
    ///
    /// # Requires
    ///
    /// The table has no observer of the same peer and token, and no notification is in flight to
    /// the new one.
    ///
    /// # Errors
    ///
    /// `FullObservers` if there are 1,024 observers. The table does not change then.
    pub fn add(&mut self, observer: Observer) -> Result<(), FullObservers>
        requires new { list_any (is_named observer.peer observer.token) self.old ≡ false }
        requires landed { observer.flight ≡ None }
        ensures full { IsErr result ↔ (max_observers ≤ length self.old) }
        ensures full_among { (queries : ℕ → Query) (octets : OctetsSent) (events : List Event)
            (transitions : List Transition)
            → ObserversStandFor queries octets events transitions self.old
            → IsErr result ↔ (max_observers ≤ length (observers events)) }
        ensures unchanged { OnErr result (self.new ≡ self.old) }
        ensures added { OnOk result (self.new ≡ self.old ++ observer ∷ []) }
        ensures stands { (queries : ℕ → Query) (octets : OctetsSent) (events : List Event)
            (transitions : List Transition) (watched formed : Event)
            → watched.note ≡ note.Watched (observer_of queries observer)
            → formed.note ≡ note.Formed observer.peer observer.token observer.last None
            → observer.due ≡ false
            → NoneLater formed.place transitions
            → ObserversStandFor queries octets events transitions self.old
            → OnOk result
            (ObserversStandFor queries octets (formed ∷ watched ∷ events) transitions
            self.new) }
    {
        if self.items.len() == MAX_OBSERVERS {
            return Err(FullObservers);
        }
        self.items.push_reserved(observer);
        Ok(())
    }

    /// Removes the observer of a peer and a token, and returns it, if there is one.
    pub fn drop_one(&mut self, peer: &Peer, token: &Token) -> Option<Observer>
        ensures found { result ≡ find (is_named peer.now token.now) self.old }
        ensures left { self.new ≡ without_first (is_named peer.now token.now) self.old }
        ensures absent { IfNone result (list_any (is_named peer.now token.now) self.new ≡ false) }
        ensures stands { (queries : ℕ → Query) (octets : OctetsSent) (events : List Event)
            (transitions : List Transition) (e : Event)
            → e.note ≡ note.Unwatched peer.now token.now
            → ObserversStandFor queries octets events transitions self.old
            → ObserversStandFor queries octets (e ∷ events) transitions self.new }
    {
        let index = index_of(self.items.as_slice(), peer, token);
        let taken = take(&mut self.items, index);
        gather(&mut self.awaited, self.items.as_slice());
        taken
    }

    /// Marks as due the observers whose query is watched in a slot.
    pub fn mark(&mut self, slot: u32)
        ensures marked { self.new ≡ map (marked slot) self.old }
        ensures stands { (queries : ℕ → Query) (octets : OctetsSent) (events : List Event)
            (t : Transition) (transitions : List Transition)
            → IsExactMark queries t slot self.old
            → AllByRecursion (λ o. was_looked_at_before t.place events o ≡ true) (observers events)
            → ObserversStandFor queries octets events transitions self.old
            → ObserversStandFor queries octets events (t ∷ transitions) self.new }
    {
        mark_all(&mut self.items, slot);
    }

    /// Returns the first index, from `from` on, of an observer that is due and to whose peer no
    /// notification is in flight.
    pub fn next_due(&self, from: usize) -> Option<usize>
        ensures next { result ≡ next_ready from self.now }
        ensures within { IfSome result (λ i. (from ≤ i) × (i < length self.now)) }
        ensures free { (w : Standing)
            → IfSome result
            (λ i. slice_get self.now i ≡ Some w → is_awaited w.peer self.now ≡ false) }
    {
        next_in(self.items.as_slice(), self.awaited.as_slice(), from)
    }

    /// Records that a notification with a body was built for the observer with an index. The
    /// observer is no longer due, and the notification is in flight.
    ///
    /// # Requires
    ///
    /// The index is that of an observer, and no notification is in flight to its peer.
    pub fn formed(&mut self, index: usize, flight: Sent, body: Arc<Bytes>)
        requires within { index < length self.old }
        requires free { (w : Standing)
            → slice_get self.old index ≡ Some w
            → is_awaited w.peer self.old ≡ false }
        ensures formed { self.new ≡ changed_at (notified flight (arc_value body)) index self.old }
        ensures stands { (queries : ℕ → Query) (octets : OctetsSent) (events : List Event)
            (transitions : List Transition) (e : Event) (w : Standing)
            → slice_get self.old index ≡ Some w
            → e.note ≡ note.Formed w.peer w.token (arc_value body) (Some flight.mid)
            → flight.octets ≡ octets e.place w.peer flight.mid
            → Resends e [] flight.resend
            → NoneLater e.place transitions
            → ObserversStandFor queries octets events transitions self.old
            → ObserversStandFor queries octets (e ∷ events) transitions self.new }
    {
        let peer = peer_at(self.items.as_slice(), index);
        notification_at(&mut self.items, index, flight, body);
        await_peer(&mut self.awaited, peer);
    }

    /// Records that the listing of the observer with an index was found unchanged. The observer is
    /// no longer due.
    ///
    /// # Requires
    ///
    /// The index is that of an observer.
    pub fn unchanged(&mut self, index: usize)
        requires { index < length self.old }
        ensures seen { self.new ≡ changed_at seen index self.old }
        ensures stands { (queries : ℕ → Query) (octets : OctetsSent) (events : List Event)
            (transitions : List Transition) (e : Event) (w : Standing)
            → slice_get self.old index ≡ Some w
            → e.note ≡ note.Unchanged w.peer w.token
            → NoneLater e.place transitions
            → ObserversStandFor queries octets events transitions self.old
            → ObserversStandFor queries octets (e ∷ events) transitions self.new }
    {
        see_at(&mut self.items, index);
    }

    /// Records that a peer acknowledged the notification with this Message ID. Returns whether that
    /// notification was in flight.
    pub fn acked(&mut self, peer: &Peer, mid: u16) -> bool
        ensures found { result ≡ list_any (has_notification peer.now mid) self.old }
        ensures landed { self.new ≡ changed_first (has_notification peer.now mid) landed self.old }
        ensures stands { (queries : ℕ → Query) (octets : OctetsSent) (events : List Event)
            (transitions : List Transition) (e : Event)
            → e.note ≡ note.Landed peer.now mid
            → ObserversStandFor queries octets events transitions self.old
            → ObserversStandFor queries octets (e ∷ events) transitions self.new }
    {
        let found = land_first(&mut self.items, peer, mid);
        gather(&mut self.awaited, self.items.as_slice());
        found
    }

    /// Handles a Reset of the notification with this Message ID from a peer (RFC 7641 section 4.2).
    /// Removes the observer to which it is in flight, and returns it, if there is one.
    pub fn reset(&mut self, peer: &Peer, mid: u16) -> Option<Observer>
        ensures found { result ≡ find (has_notification peer.now mid) self.old }
        ensures left { self.new ≡ without_first (has_notification peer.now mid) self.old }
        ensures stands { (queries : ℕ → Query) (octets : OctetsSent) (events : List Event)
            (transitions : List Transition) (e : Event) (w : Standing)
            → result ≡ Some w
            → e.note ≡ note.Unwatched w.peer w.token
            → ObserversStandFor queries octets events transitions self.old
            → ObserversStandFor queries octets (e ∷ events) transitions self.new }
    {
        let index = index_of_notification(self.items.as_slice(), peer, mid);
        let taken = take(&mut self.items, index);
        gather(&mut self.awaited, self.items.as_slice());
        taken
    }

    /// Returns what is due now of the notification in flight to the observer with an index, as
    /// [`exchange_core::Resend::at_tick`] does, or `Wait` if none is in flight.
    ///
    /// # Requires
    ///
    /// The index is that of an observer.
    pub fn timeout(&mut self, now: Moment, index: usize) -> Again
        requires { index < length self.old }
        ensures due { (w : Standing)
            → slice_get self.old index ≡ Some w
            → result ≡ due_of now.0 w.flight }
        ensures kept { self.new ≡ changed_at (timed now.0) index self.old }
        ensures deadline { (queries : ℕ → Query) (octets : OctetsSent) (events : List Event)
            (transitions : List Transition) (o : Observed)
            → ObserversStandFor queries octets events transitions self.old
            → slice_get (observers events) index ≡ Some o
            → result ≡ notification_due now.0 (flight o events) }
        ensures stands { (queries : ℕ → Query) (octets : OctetsSent) (events : List Event)
            (transitions : List Transition) (e : Event) (w : Standing) (s : Message)
            → result ≡ Again.Send
            → slice_get self.old index ≡ Some w
            → w.flight ≡ Some s
            → e.note ≡ note.Again w.peer s.mid
            → e.moment ≡ now.0
            → ObserversStandFor queries octets events transitions self.old
            → ObserversStandFor queries octets (e ∷ events) transitions self.new }
        ensures unsent { result ≢ Again.Send → self.new ≡ self.old }
    {
        time_at(&mut self.items, index, now)
    }

    /// Removes the observer with an index, whose notification is given up, and returns it.
    ///
    /// # Requires
    ///
    /// The index is that of an observer.
    pub fn timed_out(&mut self, index: usize) -> Observer
        requires { index < length self.old }
        ensures value { slice_get self.old index ≡ Some result }
        ensures left { self.new ≡ remove self.old index }
        ensures stands { (queries : ℕ → Query) (octets : OctetsSent) (events : List Event)
            (transitions : List Transition) (e : Event)
            → e.note ≡ note.Unwatched result.peer result.token
            → ObserversStandFor queries octets events transitions self.old
            → ObserversStandFor queries octets (e ∷ events) transitions self.new }
    {
        let taken = self.items.remove(index);
        gather(&mut self.awaited, self.items.as_slice());
        taken
    }

    /// Returns the observer with an index, or `None` if the index is not below their number.
    pub fn at(&self, index: usize) -> Option<&Observer>
        ensures { option_map (λ w. w.now) result ≡ slice_get self.now index }
    {
        self.items.get(index)
    }

    /// Returns the number of observers.
    pub fn len(&self) -> usize
        ensures { result ≡ length self.now }
    {
        self.items.len()
    }

    /// Returns whether there are no observers.
    pub fn is_empty(&self) -> bool
        ensures { IsTrue result ↔ (self.now ≡ []) }
    {
        self.items.is_empty()
    }
}
