//! The table of watched queries.
ghost use Rattle.std.specs.Prelude.{◌≡◌, ◌≢◌, ℕ, [], ◌∷◌, ◌++◌, List, Some, IsSome, IfOk, OnOk};
ghost use Rattle.std.specs.Prelude.{map, option_map};
ghost use Rattle.std.specs.List.{list_any};
ghost use Rattle.std.specs.Option.{option_copied};
ghost use Rattle.std.specs.Arc.{arc_value};
ghost use Rattle.event_model.specs.declared.notes.Observer.{Observer};
ghost use Rattle.watch_table.specs.WatchedQueries.{watched_at, query_at, is_marked_at, body_at};
ghost use Rattle.watch_table.specs.WatchedQueries.{one_more, one_fewer, without, IsSlotFor};
ghost use Rattle.watch_table.specs.WatchedQueries.{IsFullFor, all_touched, all_unmarked};
ghost use Rattle.watch_table.specs.WatchedQueries.{with_body};
ghost use Rattle.watch_table.specs.ObserverCounts.{WatchesStandFor, IsFullAmong};

use crate::WatchFault;
use crate::notes::note_change;
use crate::prints::WORDS;
use crate::slots::{any_marked, leave, set_body, touch_noted_at, unmark_at, watch_instead};
use crate::watch::Watch;
use event_model::limits::MAX_WATCHED;
use indexmap::IndexMap;
use rd_base::{Bytes, Query, Record, Starved};
use std::alloc::Global;
use std::marker::Model;
use std::sync::Arc;

/// The queries that observers watch (RFC 7641 section 1.3). Each has a slot of its own while it is
/// watched.
#[derive(Drop)]
pub struct WatchTable {
    /// The watched queries by their slots.
    watches: IndexMap<u32, Watch>,
}

impl Model for WatchTable {
    ghost use Rattle.std.specs.Prelude.{◌≤◌};
    ghost use Rattle.indexmap.specs.IndexMap.{index_map_len};
    ghost use Rattle.event_model.specs.Observers.{max_watched};
    ghost use Rattle.watch_table.specs.WatchedQueries.{Table};

    ghost Value = { Table };

    ghost view = { λ t. t.watches.entries };

    ghost invariant = { λ t. index_map_len t.watches ≤ max_watched };
}

impl WatchTable {
    /// Creates a table without queries, with room for 256, the most that are watched.
    ///
    /// # Errors
    ///
    /// `Starved` if memory runs out.
    pub fn make(alloc: Global) -> Result<WatchTable, Starved>
        ensures empty { IfOk result (λ t. t ≡ []) }
        ensures stands { IfOk result (λ t. WatchesStandFor [] t) }
    {
        let watches = IndexMap::with_capacity(alloc, MAX_WATCHED)?;
        Ok(WatchTable { watches })
    }

    /// Counts one more observer of a query, and returns the slot of the query.
    ///
    /// If `instead_of` names a slot, that slot first has one observer fewer, as by
    /// [`WatchTable::unwatch`].
    ///
    /// # Errors
    ///
    /// - `FullWatches` if 256 other queries are still watched after that. The slot that
    ///   `instead_of` names stays with one observer fewer.
    /// - `Starved` if memory runs out; nothing has changed.
    pub fn watch(
        &mut self,
        alloc: Global,
        instead_of: Option<u32>,
        query: &Query,
    ) -> Result<u32, WatchFault>
        ensures slot { IfOk result (λ slot. IsSlotFor query.now slot
            (without instead_of self.old)) }
        ensures watched { IfOk result (λ slot. self.new
            ≡ one_more slot query.now (without instead_of self.old)) }
        ensures stands { (standing : List Observer) (o : Observer)
            → o.query ≡ query.now
            → WatchesStandFor standing (without instead_of self.old)
            → OnOk result (WatchesStandFor (standing ++ o ∷ []) self.new) }
        ensures refused { result ≡ Err WatchFault.FullWatches
            → IsFullFor query.now (without instead_of self.old) }
        ensures accepted { IsFullFor query.now (without instead_of self.old)
            → (slot : ℕ)
            → result ≢ Ok slot }
        ensures refused_among { (standing : List Observer)
            → WatchesStandFor standing (without instead_of self.old)
            → result ≡ Err WatchFault.FullWatches
            → IsFullAmong query.now standing }
        ensures accepted_among { (standing : List Observer)
            → WatchesStandFor standing (without instead_of self.old)
            → IsFullAmong query.now standing
            → (slot : ℕ)
            → result ≢ Ok slot }
        ensures left { result ≡ Err WatchFault.FullWatches
            → self.new ≡ without instead_of self.old }
        ensures starved { result ≡ Err WatchFault.Starved → self.new ≡ self.old }
    {
        watch_instead(&mut self.watches, alloc, instead_of, query)
    }

    /// Counts one observer fewer of the query in a slot. Drops the query with its last observer.
    /// The slots of the other queries stay.
    pub fn unwatch(&mut self, slot: u32)
        ensures left { self.new ≡ one_fewer slot self.old }
        ensures stands { (front back : List Observer) (o : Observer)
            → query_at slot self.old ≡ Some o.query
            → WatchesStandFor (front ++ o ∷ back) self.old
            → WatchesStandFor (front ++ back) self.new }
    {
        leave(&mut self.watches, slot);
    }

    /// Marks exactly the queries to which the old and the new state of a registration contribute
    /// different lines, and drops their bodies. Does not allocate.
    pub fn touched(&mut self, old: Option<&Record>, new: Option<&Record>)
        ensures touched { self.new
            ≡ all_touched (option_copied old.entry) (option_copied new.entry) self.old }
        ensures stands { (standing : List Observer)
            → WatchesStandFor standing self.old
            → WatchesStandFor standing self.new }
    {
        if self.watches.is_empty() {
            return;
        }
        let mut notes = [0; WORDS];
        note_change(&mut notes, old, new);
        'watches: for index in 0..self.watches.len() {
            touch_noted_at(&mut self.watches, index, old, new, &notes);
        }
    }

    /// Returns the query that is watched in a slot.
    pub fn query(&self, slot: u32) -> &Query
        requires { IsSome (watched_at slot self.now) }
        ensures { Some result.now ≡ query_at slot self.now }
    {
        match self.watches.get(&slot) {
            Some(watch) => watch.query(),
            None => unreachable!(),
        }
    }

    /// Returns whether the query in a slot is marked; false if none is watched there.
    pub fn marked(&self, slot: u32) -> bool
        ensures { result ≡ is_marked_at slot self.now }
    {
        match self.watches.get(&slot) {
            Some(watch) => watch.is_marked(),
            None => false,
        }
    }

    /// Returns whether a query is marked.
    pub fn any_marked(&self) -> bool
        ensures { result ≡ list_any (λ w. w.marked) (map (λ e. e.1) self.now) }
    {
        any_marked(&self.watches)
    }

    /// Clears all marks.
    pub fn clear(&mut self)
        ensures cleared { self.new ≡ all_unmarked self.old }
        ensures stands { (standing : List Observer)
            → WatchesStandFor standing self.old
            → WatchesStandFor standing self.new }
    {
        'watches: for index in 0..self.watches.len() {
            unmark_at(&mut self.watches, index);
        }
    }

    /// Returns the body last set for the query in a slot.
    ///
    /// Returns `None` if none was set after the query gained its first observer and after it was
    /// last touched.
    pub fn body(&self, slot: u32) -> Option<&Arc<Bytes>>
        ensures { option_map (λ body. arc_value body.now) result ≡ body_at slot self.now }
    {
        match self.watches.get(&slot) {
            Some(watch) => watch.body(),
            None => None,
        }
    }

    /// Stores the body that was built for the query in a slot.
    pub fn set_body(&mut self, slot: u32, body: Arc<Bytes>)
        ensures set { self.new ≡ with_body slot (arc_value body) self.old }
        ensures stands { (standing : List Observer)
            → WatchesStandFor standing self.old
            → WatchesStandFor standing self.new }
    {
        set_body(&mut self.watches, slot, body);
    }
}
