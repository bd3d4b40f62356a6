//! The watched queries and their observers, and those observers that are due (RFC 7641 section 4).
ghost use Rattle.std.specs.Prelude.{◌≡◌, ◌≢◌, ◌≤◌, ◌<◌, ◌∷◌, [], ◌&&◌, List, Bool, true, false};
ghost use Rattle.std.specs.Prelude.{Some, IfOk, IfSome, OnErr, map, length, nat_lt, option_map};
ghost use Rattle.std.specs.Prelude.{slice_get, remove};
ghost use Rattle.std.specs.List.{list_any};
ghost use Rattle.std.specs.Arc.{arc_value};
ghost use Rattle.std.specs.Option.{option_copied};
ghost use Rattle.history_model.specs.declared.entries.Entry.{Entry};
ghost use Rattle.history_model.specs.Listing.{listing};
ghost use Rattle.event_model.specs.declared.notes.Note.TheVariants as note;
ghost use Rattle.event_model.specs.declared.notes.Observer.{Observer as Observed};
ghost use Rattle.event_model.specs.Same.{is_same_peer};
ghost use Rattle.event_model.specs.Events.{Event};
ghost use Rattle.event_model.specs.Flights.{Sent as Message, flight};
ghost use Rattle.event_model.specs.Observers.{observers, is_observer, has_room_for};
ghost use Rattle.journal_model.specs.declared.steps.Step.{Step};
ghost use Rattle.journal_model.specs.declared.rows.Row.{Row};
ghost use Rattle.journal_model.specs.DeskJournal.{IsDeskJournal};
ghost use Rattle.journal_model.specs.Effects.{Effects, nothing, joined, noting};
ghost use Rattle.journal_model.specs.EmptyMessages.{waited_for};
ghost use Rattle.journal_model.specs.Journal.{is_look, events, entries, now, transitions};
ghost use Rattle.journal_model.specs.Lookups.{removal, without};
ghost use Rattle.journal_model.specs.Rows.{row_moment};
ghost use Rattle.journal_model.specs.Ticks.{is_confirmable_with};
ghost use Rattle.journal_model.specs.UnfinishedRow.{making};
ghost use Rattle.exchange_core.specs.Retransmissions.{Resends};
ghost use Rattle.observers.specs.ObserverEvents.{notification_due};
ghost use Rattle.observers.specs.Standing.{Standing, is_awaited, next_ready, notified, due_of};
ghost use Rattle.observers.specs.Standing.{timed, changed_at};
ghost use Rattle.observation.specs.ChangeKinds.{kind_of};
ghost use Rattle.observation.specs.Directories.{DirectoryStandsFor};
ghost use Rattle.observation.specs.Entering.{IsEntered};
ghost use Rattle.observation.specs.Joining.{observer_joining, joining_notes};
ghost use Rattle.observation.specs.Notifications.{forming, sending_again, next_notified};
ghost use Rattle.observation.specs.Watching.{WatchingStandsFor};

use crate::change_kinds::{ChangeKind, stays_as_shown};
use crate::joining::{self, Joining};
use crate::marks::{hand_on, touch_lapsing};
use directory_core::Directory;
use exchange_core::{Again, Sent, Token};
use observers::{Observer, Observers};
use rd_base::{Bytes, Moment, Peer, Query, Record, Starved};
use std::alloc::Global;
use std::marker::Model;
use std::sync::Arc;
use watch_table::WatchTable;

/// The queries that are observed, and their observers (RFC 7641 section 4.1).
///
/// Each query is watched as often as it is observed.
#[derive(Drop)]
pub struct Watching {
    /// The watched queries, each in its slot.
    watches: WatchTable,
    /// The observers, each with the slot of its query.
    observers: Observers,
}

impl Model for Watching {
    ghost use Rattle.observation.specs.Watching.{Watching as Shown, AreWatched};

    ghost Value = { Shown };

    ghost view = { λ w. record { watches = w.watches; observers = w.observers } };

    ghost invariant = { λ w. AreWatched w.watches w.observers };
}

impl Watching {
    /// Creates a table without observers, with room for the most observers.
    ///
    /// # Errors
    ///
    /// `Starved` if memory runs out.
    pub fn make(alloc: Global) -> Result<Watching, Starved>
        ensures { IfOk result (WatchingStandsFor []) }
    {
        let watches = WatchTable::make(alloc)?;
        let observers = Observers::make(alloc)?;
        Ok(Watching { watches, observers })
    }

    /// Records that time passes from one moment to another.
    ///
    /// An observer becomes due if its query loses lines of registrations of this version that lapse
    /// meanwhile. The first moment must not be before the last sweep of the version. Does not
    /// allocate.
    pub fn pass(&mut self, version: &Directory, from: Moment, to: Moment)
        requires { version.now.swept ≤ from.0 }
        ensures { (rows : List Row) (s : Step) (starved : Bool)
            → IsDeskJournal rows
            → is_look s.kind ≡ false
            → from.0 ≡ now rows
            → to.0 ≡ row_moment rows s
            → DirectoryStandsFor rows version.now
            → WatchingStandsFor rows self.old
            → WatchingStandsFor (making rows s starved nothing) self.new }
    {
        if touch_lapsing(&mut self.watches, version, from, to) {
            hand_on(&mut self.watches, &mut self.observers);
        }
    }

    /// Records an entry. `old` and `new` are the states of its registration before and after it.
    ///
    /// An observer becomes due if the registration contributes other lines to its query than
    /// before. An update that leaves the base and the attributes makes no observer due, and no
    /// query is compared. Does not allocate.
    pub fn enter(&mut self, kind: ChangeKind, old: Option<&Record>, new: Option<&Record>)
        ensures { (rows : List Row) (s : Step) (starved : Bool) (done : Effects) (entry : Entry)
            → IsDeskJournal rows
            → is_look s.kind ≡ false
            → done.notes ≡ []
            → kind ≡ kind_of entry.change
            → IsEntered rows s entry (option_copied old.entry) (option_copied new.entry)
            → WatchingStandsFor (making rows s starved done) self.old
            → WatchingStandsFor (making rows s starved
            (joined done (noting (note.Entered entry ∷ [])))) self.new }
    {
        if stays_as_shown(kind, old, new) {
            return;
        }
        self.watches.touched(old, new);
        hand_on(&mut self.watches, &mut self.observers);
    }

    /// Removes the observer with this peer and token. Returns whether there was one. Does not
    /// allocate.
    pub fn leave(&mut self, peer: &Peer, token: &Token) -> bool
        ensures found { (rows : List Row)
            → WatchingStandsFor rows self.old
            → result ≡ is_observer (peer.now, token.now) (observers (events rows)) }
        ensures stands { (rows : List Row) (s : Step) (starved : Bool) (done : Effects)
            → WatchingStandsFor (making rows s starved done) self.old
            → WatchingStandsFor (making rows s starved
            (joined done (noting (removal (peer.now, token.now)
            (observers (events (making rows s starved done))))))) self.new }
    {
        joining::leave(&mut self.watches, &mut self.observers, peer, token)
    }

    /// Adds an observer of a query, with the body of its response. Returns whether there is room
    /// for it.
    ///
    /// It takes the place of the observer with the same peer and token, if there is one.
    ///
    /// # Errors
    ///
    /// `Starved` if memory runs out; nothing has changed.
    pub fn join(&mut self, alloc: Global, query: &Query, joining: Joining) -> Result<bool, Starved>
        ensures room { (rows : List Row)
            → WatchingStandsFor rows self.old
            → IfOk result (λ added. added
            ≡ has_room_for query.now (without (joining.peer, joining.token)
            (observers (events rows)))) }
        ensures stands { (rows : List Row) (s : Step) (starved : Bool) (done : Effects)
            → WatchingStandsFor (making rows s starved done) self.old
            → IfOk result (λ added. WatchingStandsFor
            (making rows s starved (joined done
            (noting (joining_notes added (observer_joining query.now joining)
            (arc_value joining.body) (observers (events (making rows s starved done)))))))
            self.new) }
        ensures unchanged { OnErr result (self.new ≡ self.old) }
    {
        joining::join(
            &mut self.watches,
            &mut self.observers,
            alloc,
            query,
            joining,
        )
    }

    /// Records that a peer acknowledged the notification with this Message ID (RFC 7641 section
    /// 4.5). Returns whether that notification was in flight.
    pub fn acked(&mut self, peer: &Peer, mid: u16) -> bool
        ensures found { (rows : List Row)
            → WatchingStandsFor rows self.old
            → result ≡ nat_lt 0 (length (waited_for peer.now mid (events rows))) }
        ensures stands { (rows : List Row) (s : Step) (starved : Bool) (done : Effects)
            → WatchingStandsFor (making rows s starved done) self.old
            → WatchingStandsFor (making rows s starved
            (joined done (noting (map (λ o. note.Landed peer.now mid)
            (waited_for peer.now mid (events (making rows s starved done))))))) self.new }
    {
        self.observers.acked(peer, mid)
    }

    /// Records a Reset of a peer with this Message ID, and removes the observer of that
    /// notification (RFC 7641 section 3.6). Returns whether there was one.
    pub fn reset(&mut self, peer: &Peer, mid: u16) -> bool
        ensures found { (rows : List Row)
            → WatchingStandsFor rows self.old
            → result ≡ nat_lt 0 (length (waited_for peer.now mid (events rows))) }
        ensures stands { (rows : List Row) (s : Step) (starved : Bool) (done : Effects)
            → WatchingStandsFor (making rows s starved done) self.old
            → WatchingStandsFor (making rows s starved
            (joined done (noting (map (λ o. note.Unwatched o.peer o.token)
            (waited_for peer.now mid (events (making rows s starved done))))))) self.new }
    {
        joining::reset(&mut self.watches, &mut self.observers, peer, mid)
    }

    /// Returns the number of observers.
    pub fn len(&self) -> usize
        ensures { result ≡ length self.now.observers }
    {
        self.observers.len()
    }

    /// Returns the observer at `index`, or `None` if `index` is not below the number of observers.
    pub fn at(&self, index: usize) -> Option<&Observer>
        ensures { option_map (λ x. x.now) result ≡ slice_get self.now.observers index }
    {
        self.observers.at(index)
    }

    /// Returns the first index from `from` on of an observer that can be sent a notification (RFC
    /// 7252 section 4.7, NSTART).
    ///
    /// Such an observer is due, and no notification to its peer is in flight.
    pub fn next_due(&self, from: usize) -> Option<usize>
        ensures next { (rows : List Row)
            → WatchingStandsFor rows self.now
            → result ≡ next_notified from (events rows) (transitions rows) }
        ensures ready { result ≡ next_ready from self.now.observers }
        ensures within { IfSome result (λ i. (from ≤ i) × (i < length self.now.observers)) }
        ensures free { (x : Standing)
            → IfSome result (λ i. slice_get self.now.observers i ≡ Some x
            → is_awaited x.peer self.now.observers ≡ false) }
    {
        self.observers.next_due(from)
    }

    /// Returns the query of the observer at `index`.
    pub fn query(&self, index: usize) -> &Query
        requires { index < length self.now.observers }
        ensures { (rows : List Row) (o : Observed)
            → WatchingStandsFor rows self.now
            → slice_get (observers (events rows)) index ≡ Some o
            → result.now ≡ o.query }
    {
        self.watches.query(joining::slot_at(&self.observers, index))
    }

    /// Returns the body for the query of the observer at `index`, if one is stored. It is the
    /// current listing.
    pub fn body(&self, index: usize) -> Option<&Arc<Bytes>>
        requires { index < length self.now.observers }
        ensures { (rows : List Row) (o : Observed)
            → WatchingStandsFor rows self.now
            → slice_get (observers (events rows)) index ≡ Some o
            → IfSome result (λ body. arc_value body.now
            ≡ listing o.query (entries rows) (now rows)) }
    {
        self.watches.body(joining::slot_at(&self.observers, index))
    }

    /// Stores a body for the query of the observer at `index`, so that it is built once for all
    /// observers of that query. The body must be the current listing. Does not allocate.
    pub fn keep_body(&mut self, index: usize, body: Arc<Bytes>)
        requires { index < length self.old.observers }
        ensures stands { (rows : List Row) (o : Observed)
            → arc_value body ≡ listing o.query (entries rows) (now rows)
            → slice_get (observers (events rows)) index ≡ Some o
            → WatchingStandsFor rows self.old
            → WatchingStandsFor rows self.new }
        ensures same { self.new.observers ≡ self.old.observers }
    {
        let slot = joining::slot_at(&self.observers, index);
        self.watches.set_body(slot, body);
    }

    /// Records that a notification with this body was built for the observer at `index`, which is
    /// no longer due.
    ///
    /// No notification to its peer may be in flight. Does not allocate.
    pub fn formed(&mut self, index: usize, flight: Sent, body: Arc<Bytes>)
        requires within { index < length self.old.observers }
        requires free { (x : Standing)
            → slice_get self.old.observers index ≡ Some x
            → is_awaited x.peer self.old.observers ≡ false }
        ensures stands { (rows : List Row) (s : Step) (starved : Bool) (done : Effects)
            (x : Standing)
            → slice_get self.old.observers index ≡ Some x
            → list_any (λ d. is_same_peer d.0 x.peer
            && is_confirmable_with flight.mid d.1) done.sent
            ≡ false
            → is_confirmable_with flight.mid flight.octets ≡ true
            → ((first : Event)
            → first.moment ≡ row_moment rows s
            → first.word ≡ s.word
            → Resends first [] flight.resend)
            → WatchingStandsFor (making rows s starved done) self.old
            → WatchingStandsFor (making rows s starved
            (joined done (forming x (arc_value body) flight))) self.new }
        ensures len { length self.new.observers ≡ length self.old.observers }
        ensures formed { self.new.observers
            ≡ changed_at (notified flight (arc_value body)) index self.old.observers }
    {
        self.observers.formed(index, flight, body);
    }

    /// Records that the listing of the observer at `index` is unchanged, so that it is no longer
    /// due. Does not allocate.
    pub fn unchanged(&mut self, index: usize)
        requires { index < length self.old.observers }
        ensures stands { (rows : List Row) (s : Step) (starved : Bool) (done : Effects)
            (x : Standing)
            → slice_get self.old.observers index ≡ Some x
            → WatchingStandsFor (making rows s starved done) self.old
            → WatchingStandsFor (making rows s starved
            (joined done (noting (note.Unchanged x.peer x.token ∷ [])))) self.new }
        ensures len { length self.new.observers ≡ length self.old.observers }
    {
        self.observers.unchanged(index);
    }

    /// Returns what is to be done now about the notification in flight to the observer at `index`.
    ///
    /// Returns `Wait` if none is in flight. A retransmission counts as made now.
    pub fn timeout(&mut self, now: Moment, index: usize) -> Again
        requires { index < length self.old.observers }
        ensures due { (rows : List Row) (o : Observed)
            → WatchingStandsFor rows self.old
            → slice_get (observers (events rows)) index ≡ Some o
            → result ≡ notification_due now.0 (flight o (events rows)) }
        ensures stands { (rows : List Row) (s : Step) (starved : Bool) (done : Effects)
            (x : Standing) (sent : Message)
            → result ≡ Again.Send
            → slice_get self.old.observers index ≡ Some x
            → x.flight ≡ Some sent
            → now.0 ≡ row_moment rows s
            → WatchingStandsFor (making rows s starved done) self.old
            → WatchingStandsFor (making rows s starved (joined done (sending_again x sent)))
            self.new }
        ensures unsent { result ≢ Again.Send → self.new ≡ self.old }
        ensures len { length self.new.observers ≡ length self.old.observers }
        ensures answer { (x : Standing)
            → slice_get self.old.observers index ≡ Some x
            → result ≡ due_of now.0 x.flight }
        ensures kept { self.new.observers ≡ changed_at (timed now.0) index self.old.observers }
    {
        self.observers.timeout(now, index)
    }

    /// Removes the observer at `index`, whose notification is given up (RFC 7641 section 4.5).
    pub fn timed_out(&mut self, index: usize)
        requires { index < length self.old.observers }
        ensures stands { (rows : List Row) (s : Step) (starved : Bool) (done : Effects)
            (x : Standing)
            → slice_get self.old.observers index ≡ Some x
            → WatchingStandsFor (making rows s starved done) self.old
            → WatchingStandsFor (making rows s starved
            (joined done (noting (note.Unwatched x.peer x.token ∷ [])))) self.new }
        ensures left { self.new.observers ≡ remove self.old.observers index }
    {
        joining::take_out(&mut self.watches, &mut self.observers, index);
    }
}
