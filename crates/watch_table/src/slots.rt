//! Watched queries by their slots: adding an observer, removing one, and finding a free slot for a
//! query that is not watched yet.
ghost use Rattle.std.specs.Prelude.{◌≡◌, ◌≢◌, ℕ, ◌+◌, ◌≤◌, ◌<◌, ◌-◌, ◌^◌, nat_le, List, Some};
ghost use Rattle.std.specs.Prelude.{None, false, IsSome, IsOk, ◌∷◌, [], ◌++◌, slice_get};
ghost use Rattle.std.specs.List.{list_any};
ghost use Rattle.std.specs.Arc.{arc_value};
ghost use Rattle.std.specs.Option.{option_copied};
ghost use Rattle.rd_base.specs.declared.queries.Query.{Query as Sought};
ghost use Rattle.indexmap.specs.IndexMap.{index_map_len, spare, values};
ghost use Rattle.event_model.specs.Observers.{max_watched};
ghost use Rattle.watch_table.specs.WatchedQueries.{watched_at, slot_of, watched_first, one_more};
ghost use Rattle.watch_table.specs.WatchedQueries.{one_fewer, without, touched, unmarked};
ghost use Rattle.watch_table.specs.WatchedQueries.{with_body};
ghost use Rattle.watch_table.specs.Slots.{has_last, CanCount, IsFree, changed_at};
ghost use Rattle.watch_table.specs.Outcomes.{Watches};
ghost use Rattle.watch_table.specs.Prints.{TellOf, may_match_in};

use crate::WatchFault;
use crate::prints::WORDS;
use crate::watch::Watch;
use event_model::limits::MAX_WATCHED;
use indexmap::IndexMap;
use rd_base::{Bytes, Query, Record};
use std::alloc::Global;
use std::sync::Arc;

/// Returns the slot in which a query is watched, or `None` if it is not watched.
fn find_slot(watches: &IndexMap<u32, Watch>, query: &Query) -> Option<u32>
    ensures { result ≡ slot_of query.now watches.now.entries }
{
    'watches: for index in 0..watches.len() {
        if let Some((slot, watch)) = watches.get_index(index) {
            if watch.is_of(query) {
                return Some(*slot);
            }
        }
    }
    None
}

/// Returns whether some query has as many observers as can be counted.
fn is_counted_out(watches: &IndexMap<u32, Watch>) -> bool
    ensures { result ≡ list_any (λ w. nat_le (2 ^ 64 - 1) w.observers) (values watches.now) }
{
    watches.values().any(|watch| watch.is_counted_out())
}

/// Returns whether a query is marked.
pub(crate) fn any_marked(watches: &IndexMap<u32, Watch>) -> bool
    ensures { result ≡ list_any (λ w. w.marked) (values watches.now) }
{
    watches.values().any(|watch| watch.is_marked())
}

/// Returns whether at most one observer is left in a slot.
fn is_last(watches: &IndexMap<u32, Watch>, slot: u32) -> bool
    ensures { result ≡ has_last (watched_at slot watches.now.entries) }
{
    match watches.get(&slot) {
        Some(watch) => watch.is_last(),
        None => false,
    }
}

/// Counts one observer fewer in a slot. Drops the query of the slot with its last observer.
pub(crate) fn leave(watches: &mut IndexMap<u32, Watch>, slot: u32)
    ensures left { watches.new.entries ≡ one_fewer slot watches.old.entries }
    ensures len { index_map_len watches.new ≤ index_map_len watches.old }
    ensures room { spare watches.old ≤ spare watches.new }
{
    if is_last(watches, slot) {
        let _ = watches.shift_remove(&slot);
        return;
    }
    if let Some(watch) = watches.get_mut(&slot) {
        watch.count_down();
    }
}

/// Counts one observer fewer in the slot that an observer had before, if it had one.
fn leave_before(watches: &mut IndexMap<u32, Watch>, instead_of: Option<u32>)
    ensures left { watches.new.entries ≡ without instead_of watches.old.entries }
    ensures len { index_map_len watches.new ≤ index_map_len watches.old }
    ensures room { spare watches.old ≤ spare watches.new }
{
    if let Some(slot) = instead_of {
        leave(watches, slot);
    }
}

/// Counts one more observer in a slot in which a query is watched.
fn join(watches: &mut IndexMap<u32, Watch>, slot: u32)
    requires counts { CanCount watches.old.entries }
    requires watched { IsSome (watched_at slot watches.old.entries) }
    ensures joined { (query : Sought)
        → watches.new.entries ≡ one_more slot query watches.old.entries }
    ensures len { index_map_len watches.new ≡ index_map_len watches.old }
{
    if let Some(watch) = watches.get_mut(&slot) {
        watch.count_up();
    }
}

/// Returns whether the query of the entry at `index` may match texts whose prints are noted.
///
/// It may if all prints of its first criteria are noted.
fn may_match_at(watches: &IndexMap<u32, Watch>, index: usize, notes: &[u64; WORDS]) -> bool
    ensures { result ≡ may_match_in notes.now (slice_get watches.now.entries index) }
{
    match watches.get_index(index) {
        Some((_, watch)) => watch.may_match(notes),
        None => false,
    }
}

/// Marks the query of the entry at `index` and drops its body, if a change of a registration
/// changed its lines.
fn touch_at(
    watches: &mut IndexMap<u32, Watch>,
    index: usize,
    old: Option<&Record>,
    new: Option<&Record>,
)
    ensures len { index_map_len watches.new ≡ index_map_len watches.old }
    ensures touched { watches.new.entries
        ≡ changed_at (touched (option_copied old.entry) (option_copied new.entry)) index
        watches.old.entries }
{
    if let Some(watch) = watches.get_index_mut(index) {
        watch.touch(old, new);
    }
}

/// Marks a query as `touch_at` does, but skips it if the notes show that its lines stay the same.
pub(crate) fn touch_noted_at(
    watches: &mut IndexMap<u32, Watch>,
    index: usize,
    old: Option<&Record>,
    new: Option<&Record>,
    notes: &[u64; WORDS],
)
    requires { TellOf notes.now (option_copied old) (option_copied new) }
    ensures len { index_map_len watches.new ≡ index_map_len watches.old }
    ensures touched { watches.new.entries
        ≡ changed_at (touched (option_copied old.entry) (option_copied new.entry)) index
        watches.old.entries }
{
    if may_match_at(watches, index, notes) {
        touch_at(watches, index, old, new);
    }
}

/// Sets the body of the query in a slot, if one is watched there.
pub(crate) fn set_body(watches: &mut IndexMap<u32, Watch>, slot: u32, body: Arc<Bytes>)
    ensures set { watches.new.entries ≡ with_body slot (arc_value body) watches.old.entries }
    ensures len { index_map_len watches.new ≡ index_map_len watches.old }
{
    if let Some(watch) = watches.get_mut(&slot) {
        watch.set_body(body);
    }
}

/// Clears the mark of the query of the entry at `index`.
pub(crate) fn unmark_at(watches: &mut IndexMap<u32, Watch>, index: usize)
    ensures len { index_map_len watches.new ≡ index_map_len watches.old }
    ensures unmarked { watches.new.entries ≡ changed_at unmarked index watches.old.entries }
{
    if let Some(watch) = watches.get_index_mut(index) {
        watch.unmark();
    }
}

/// Returns a slot in which nothing is watched.
fn free_slot(watches: &IndexMap<u32, Watch>) -> u32
    requires { index_map_len watches.now ≤ max_watched }
    ensures { IsFree result watches.now.entries }
{
    'slots: for slot in 0..257 {
        if !watches.contains_key(&slot) {
            return slot;
        }
    }
    unreachable!()
}

/// Puts the first observer's watch of a query into a free slot, and returns the slot.
fn begin(watches: &mut IndexMap<u32, Watch>, watch: Watch) -> u32
    requires few { index_map_len watches.old ≤ max_watched }
    requires room { 0 < spare watches.old }
    ensures slot { IsFree result watches.old.entries }
    ensures begun { watches.new.entries ≡ watches.old.entries ++ (result, watch) ∷ [] }
{
    let slot = free_slot(watches);
    match watches.insert(slot, watch) {
        Ok(_) => slot,
        Err(_) => unreachable!(),
    }
}

/// Counts one more observer of a query, if there is room. `first` is the query with its first
/// observer.
fn watch_given(
    watches: &mut IndexMap<u32, Watch>,
    query: &Query,
    first: Watch,
) -> Result<u32, WatchFault>
    requires first { first ≡ watched_first query.now }
    requires counts { CanCount watches.old.entries }
    requires few { index_map_len watches.old ≤ max_watched }
    requires room { 0 < spare watches.old }
    ensures outcome { Watches query.now watches.old.entries watches.old.entries result
        watches.new.entries }
    ensures given { result ≢ Err WatchFault.Starved }
    ensures few { index_map_len watches.new ≤ max_watched }
{
    if let Some(slot) = find_slot(watches, query) {
        join(watches, slot);
        return Ok(slot);
    }
    if watches.len() == MAX_WATCHED {
        return Err(WatchFault::FullWatches);
    }
    Ok(begin(watches, first))
}

/// Counts one more observer of a query, and first one fewer in the slot that its observer had
/// before. Allocates before anything changes.
pub(crate) fn watch_instead(
    watches: &mut IndexMap<u32, Watch>,
    alloc: Global,
    instead_of: Option<u32>,
    query: &Query,
) -> Result<u32, WatchFault>
    requires { index_map_len watches.old ≤ max_watched }
    ensures outcome { Watches query.now watches.old.entries (without instead_of watches.old.entries)
        result watches.new.entries }
    ensures few { index_map_len watches.new ≤ max_watched }
{
    let first = Watch::first(alloc, query.clone()?)?;
    watches.reserve(1)?;
    if is_counted_out(watches) {
        return Err(WatchFault::Starved);
    }
    leave_before(watches, instead_of);
    watch_given(watches, query, first)
}
