//! Observers as a desk shows them (RFC 7641 section 4).
ghost use Rattle.std.specs.Prelude.{◌≡◌, Some, List, IfSome, slice_get, length};
ghost use Rattle.event_model.specs.declared.notes.Observer.{Observer as Observed};
ghost use Rattle.event_model.specs.Observers.{observers};
ghost use Rattle.journal_model.specs.declared.rows.Row.{Row};
ghost use Rattle.journal_model.specs.Journal.{events};
ghost use Rattle.rd_desk.specs.calls.Desks.{StandsFor};
ghost use Rattle.rd_desk.specs.calls.ShownObservers.{IsShown, IsShownAs, IsObserverAfter};

use crate::tables::Tables;
use exchange_core::Token;
use observers::Observer;
use rd_base::Peer;

/// A copy of an observer.
#[derive(Debug, Drop)]
pub struct Watcher {
    /// The peer that receives its notifications.
    pub peer: Peer,
    /// The token of its request, which each notification carries.
    pub token: Token,
    /// Whether it is due: its listing has to be built again or found unchanged.
    pub due: bool,
    /// Whether a notification to it is in flight, that is, unacknowledged.
    pub waiting: bool,
}

/// Returns a copy of an observer.
fn shown(observer: &Observer) -> Watcher
    ensures { IsShownAs observer.now result }
{
    Watcher {
        peer: observer.peer,
        token: observer.token.copy(),
        due: observer.due,
        waiting: observer.flight.is_some(),
    }
}

impl Tables {
    /// Returns the observer with an index, in the order in which they joined, or `None` if the
    /// index is not below their number.
    pub(crate) fn observer(&self, index: usize) -> Option<Watcher>
        ensures shown { IsShown (slice_get self.now.watching.observers index) result }
        ensures observer { (rows : List Row) (o : Observed)
            → StandsFor rows self.now
            → slice_get (observers (events rows)) index ≡ Some o
            → IfSome result (IsObserverAfter rows o) }
    {
        match self.watching.at(index) {
            Some(observer) => Some(shown(observer)),
            None => None,
        }
    }
    /// Returns the number of observers.
    pub(crate) fn watchers(&self) -> usize
        ensures kept { result ≡ length self.now.watching.observers }
        ensures observers { (rows : List Row)
            → StandsFor rows self.now
            → result ≡ length (observers (events rows)) }
    {
        self.watching.len()
    }
}
