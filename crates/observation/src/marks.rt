//! Marks of watched queries, and the observers that these marks make due (RFC 7641 section 4.2).
ghost use Rattle.std.specs.Prelude.{◌≡◌, ◌≤◌, ℕ, List, Some, MatchOption, IfSome, true, false};
ghost use Rattle.std.specs.Prelude.{map, slice_get};
ghost use Rattle.history_model.specs.declared.entries.Entry.{Entry};
ghost use Rattle.history_model.specs.ChangedParts.{is_lapse_of};
ghost use Rattle.history_model.specs.Replay.{replay};
ghost use Rattle.history_model.specs.Versions.{VersionStandsFor};
ghost use Rattle.watch_table.specs.WatchedQueries.{is_marked_at, all_unmarked};
ghost use Rattle.observers.specs.Standing.{Standing};
ghost use Rattle.observation.specs.Marks.{all_touched_where, handed, IsHanded};
ghost use Rattle.observation.specs.Watching.{AreWatched};

use directory_core::Directory;
use observers::Observers;
use rd_base::Moment;
use watch_table::WatchTable;

/// Returns the slot of the query of the observer at `index`, if the query is marked and the
/// observer is not due.
fn slot_to_mark(watches: &WatchTable, observers: &Observers, index: usize) -> Option<u32>
    ensures marked { IfSome result (λ slot. is_marked_at slot watches.now ≡ true) }
    ensures own { (w : Standing)
        → slice_get observers.now index ≡ Some w
        → MatchOption result (IsHanded watches.now w) (λ slot. slot ≡ w.slot) }
{
    let Some(observer) = observers.at(index) else {
        return None;
    };
    if observer.due {
        return None;
    }
    if watches.marked(observer.place) {
        return Some(observer.place);
    }
    None
}

/// Makes the observers of marked queries due.
fn mark_observers(watches: &WatchTable, observers: &mut Observers)
    ensures { observers.new ≡ map (handed watches.now) observers.old }
{
    'observers: for index in 0..observers.len() {
        if let Some(slot) = slot_to_mark(watches, observers, index) {
            observers.mark(slot);
        }
    }
}

/// Makes the observers of marked queries due, and clears all marks.
pub(crate) fn hand_on(watches: &mut WatchTable, observers: &mut Observers)
    ensures due { observers.new ≡ map (handed watches.old) observers.old }
    ensures cleared { watches.new ≡ all_unmarked watches.old }
{
    if !watches.any_marked() {
        return;
    }
    mark_observers(watches, observers);
    watches.clear();
}

/// Marks the queries whose listings lose lines as registrations lapse, and drops their bodies.
///
/// A registration counts if it lapses after the first moment and not after the second. Returns
/// whether there is one. The first moment must not be before the last sweep.
pub(crate) fn touch_lapsing(
    watches: &mut WatchTable,
    version: &Directory,
    from: Moment,
    to: Moment,
) -> bool
    requires { version.now.swept ≤ from.0 }
    ensures touched { (first : ℕ) (history : List Entry)
        → VersionStandsFor first history version.now
        → watches.new
        ≡ all_touched_where (λ query. is_lapse_of query from.0 to.0 (replay history).records)
        watches.old }
    ensures none { result ≡ false → watches.new ≡ watches.old }
    ensures watched { (standing : List Standing)
        → AreWatched watches.old standing
        → AreWatched watches.new standing }
{
    let mut lapsing = version.lapsing(from, to);
    let mut lapses = false;
    'records: while let Some(record) = lapsing.step() {
        watches.touched(Some(record), None);
        lapses = true;
    }
    lapses
}
