//! What a pass knows, and the rule that connects it with the word and the slot.

use crate::rows::{Added, Replays};
use atomic_table::{Play, Split, TableRule};
use std::collections::LinkedList;
use std::marker::PhantomData;
use std::snapshot::Snapshot;

/// What a pass knows. It exists in contracts only.
pub struct View<R, L> {
    /// The number of the pass, from 0.
    pub number: u64,
    /// The history as far as the pass has seen it, the newest row first.
    pub seen: LinkedList<R>,
    /// The rows of `seen` that the pass has made.
    pub mine: LinkedList<R>,
    /// The label of the lock.
    pub label: L,
    /// The number of passes of the lock.
    pub passes: u64,
    /// Whether the pass holds the turn.
    pub holding: bool,
    /// Whether it is the pass that was made last.
    pub last: bool,
}

/// The value and the number of passes with which a lock was made.
#[derive(Drop)]
pub(crate) struct About<T> {
    /// Its first value.
    pub(crate) value: Snapshot<T>,
    /// The number of passes.
    pub(crate) passes: u32,
}

/// The rule of the turn. It exists in contracts only.
pub struct Turn<T> {
    marker: PhantomData<T>,
}

impl<T: Replays> TableRule<Option<T>, View<T::Row, T::Label>, About<T>> for Turn<T> {
    ghost use Rattle.turn_lock.specs.Rule.{Kept, first_view};

    ghost holds = { λ key. Kept T.stands T.number T.label (T.label key.value.value) key.passes };

    ghost first = { λ key. first_view (T.label key.value.value) key.passes };
}

/// The step that takes the turn, or fails to.
pub struct Take<T> {
    marker: PhantomData<T>,
}

impl<T: Replays> Play<Option<T>, View<T::Row, T::Label>> for Take<T> {
    ghost use Rattle.turn_lock.specs.Steps.{Takes};

    ghost then = { Takes T.stands T.number T.label };
}

/// The step that gives the turn back.
pub struct Give<T, S> {
    marker: PhantomData<(T, S)>,
}

impl<T: Replays, S: Added<T::Row>> Play<Option<T>, View<T::Row, T::Label>> for Give<T, S> {
    ghost use Rattle.turn_lock.specs.Steps.{Gives};

    ghost then = { Gives T.stands T.number T.label S.added };
}

/// The step that splits a new pass off the one that was made last.
pub struct Next;

impl<R, L> Split<View<R, L>> for Next {
    ghost use Rattle.turn_lock.specs.Steps.{kept_view, next_view};

    ghost left = { kept_view };

    ghost right = { next_view };
}
