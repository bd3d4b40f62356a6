//! A watched query.
ghost use Rattle.std.specs.Prelude.{◌≡◌, ◌+◌, ◌-◌, ◌<◌, ◌^◌, Some, nat_le, option_map, IfOk};
ghost use Rattle.std.specs.Option.{option_copied};
ghost use Rattle.std.specs.Arc.{arc_value};
ghost use Rattle.history_model.specs.ChangedParts.{is_other_part};
ghost use Rattle.distinct_criteria.specs.Distinct.{distinct_query};
ghost use Rattle.event_model.specs.Same.{is_same_query};
ghost use Rattle.watch_table.specs.WatchedQueries.{watched_first, touched, unmarked};
ghost use Rattle.watch_table.specs.Prints.{may_match};

use crate::prints::{MOST_PRINTS, WORDS, are_noted, prints_of};
use crate::same_queries::is_same_query;
use arrayvec::ArrayVec;
use distinct_criteria::without_repeated;
use listing::same_part;
use rd_base::{Bytes, Query, Record, Starved};
use std::alloc::Global;
use std::marker::Model;
use std::sync::Arc;

/// A query that is watched.
#[derive(Drop)]
pub(crate) struct Watch {
    /// The query.
    query: Query,
    /// The query with each of its criteria once, or `None` if none is repeated.
    distinct: Option<Query>,
    /// The prints of the prefixes that its first criteria seek.
    prints: ArrayVec<u32, MOST_PRINTS>,
    /// The number of its observers.
    observers: u64,
    /// Whether its lines changed since the marks were last cleared.
    marked: bool,
    /// The body last built for it, if its lines have not changed since.
    body: Option<Arc<Bytes>>,
}

impl Model for Watch {
    ghost use Rattle.std.specs.Prelude.{option_map, unwrap_or};
    ghost use Rattle.std.specs.Arc.{arc_value};
    ghost use Rattle.std.specs.Prelude.{◌≡◌};
    ghost use Rattle.distinct_criteria.specs.Distinct.{distinct_query};
    ghost use Rattle.watch_table.specs.Prints.{prints_of};
    ghost use Rattle.watch_table.specs.WatchedQueries.{Watched};

    ghost Value = { Watched };

    ghost view = { λ w. record {
      query = w.query;
      observers = w.observers;
      marked = w.marked;
      body = option_map arc_value w.body;
    } };

    ghost invariant = { λ w. (w.prints.items ≡ prints_of w.query.criteria)
        × (unwrap_or w.distinct w.query ≡ distinct_query w.query) };
}

impl Watch {
    /// Creates the watch of a query with its first observer.
    pub(crate) fn first(alloc: Global, query: Query) -> Result<Watch, Starved>
        ensures { IfOk result (λ watch. watch ≡ watched_first query) }
    {
        let distinct = without_repeated(alloc, &query)?;
        let prints = prints_of(query.criteria.as_slice());
        Ok(Watch {
            query,
            distinct,
            prints,
            observers: 1,
            marked: false,
            body: None,
        })
    }

    /// Returns the query.
    pub(crate) fn query(&self) -> &Query
        ensures { result.now ≡ self.now.query }
    {
        &self.query
    }

    /// Returns the query with each of its criteria once.
    fn distinct(&self) -> &Query
        ensures { result.now ≡ distinct_query self.now.query }
    {
        match &self.distinct {
            Some(distinct) => distinct,
            None => &self.query,
        }
    }

    /// Returns whether this query is the one that is watched.
    pub(crate) fn is_of(&self, query: &Query) -> bool
        ensures { result ≡ is_same_query self.now.query query.now }
    {
        is_same_query(&self.query, query)
    }

    /// Returns whether the query may match texts whose prints are noted.
    ///
    /// It may if all prints of its first criteria are noted.
    pub(crate) fn may_match(&self, notes: &[u64; WORDS]) -> bool
        ensures { result ≡ may_match notes.now self.now.query }
    {
        are_noted(notes, self.prints.as_slice())
    }

    /// Returns whether at most one observer is left.
    pub(crate) fn is_last(&self) -> bool
        ensures { result ≡ nat_le self.now.observers 1 }
    {
        self.observers <= 1
    }

    /// Returns whether no further observer can be counted.
    pub(crate) fn is_counted_out(&self) -> bool
        ensures { result ≡ nat_le (2 ^ 64 - 1) self.now.observers }
    {
        self.observers >= u64::MAX
    }

    /// Counts one more observer.
    pub(crate) fn count_up(&mut self)
        ensures { self.old.observers < 2 ^ 64 - 1
            → self.new ≡ record self.old { observers = self.old.observers + 1 } }
    {
        self.observers = self.observers.saturating_add(1);
    }

    /// Counts one observer fewer.
    pub(crate) fn count_down(&mut self)
        ensures { self.new ≡ record self.old { observers = self.old.observers - 1 } }
    {
        self.observers = self.observers.saturating_sub(1);
    }

    /// Returns whether its lines changed since the marks were last cleared.
    pub(crate) fn is_marked(&self) -> bool
        ensures { result ≡ self.now.marked }
    {
        self.marked
    }

    /// Returns the body last built for it, or `None` if there is none or its lines have changed
    /// since.
    pub(crate) fn body(&self) -> Option<&Arc<Bytes>>
        ensures { option_map (λ body. arc_value body.now) result ≡ self.now.body }
    {
        self.body.as_ref()
    }

    /// Stores the body that was built for it.
    pub(crate) fn set_body(&mut self, body: Arc<Bytes>)
        ensures { self.new ≡ record self.old { body = Some (arc_value body) } }
    {
        self.body = Some(body);
    }

    /// Clears its mark.
    pub(crate) fn unmark(&mut self)
        ensures { self.new ≡ unmarked self.old }
    {
        self.marked = false;
    }

    /// Returns whether the two states of a registration contribute different lines to it.
    #[tactic(auto, using(crate::proofs::MarkLaws::other_distinct))]
    fn is_changed(&self, old: Option<&Record>, new: Option<&Record>) -> bool
        ensures { result
            ≡ is_other_part self.now.query (option_copied old.entry) (option_copied new.entry) }
    {
        gives_other_lines(self.distinct(), old, new)
    }

    /// Marks the query and drops its body, if a change of a registration changed its lines.
    pub(crate) fn touch(&mut self, old: Option<&Record>, new: Option<&Record>)
        ensures { self.new ≡ touched (option_copied old.entry) (option_copied new.entry) self.old }
    {
        if self.is_changed(old, new) {
            self.marked = true;
            self.body = None;
        }
    }
}

/// Returns whether the two states of a registration contribute different lines to a query.
#[tactic(auto, using(crate::proofs::MarkLaws::other_by))]
fn gives_other_lines(query: &Query, old: Option<&Record>, new: Option<&Record>) -> bool
    ensures { result ≡ is_other_part query.now (option_copied old.entry) (option_copied new.entry) }
{
    !same_part(query, old, new)
}
