//! Changes of the value at a key: putting a value, removing the key, and changes that callers
//! define.
ghost use Rattle.std.specs.Prelude.{◌≡◌, Option, Some, None, IfOk};
ghost use Rattle.chunk_map.specs.Changes.{CanCount, IsCounted};

use rd_base::Starved;

/// A change of the value at a key, whether the key exists or not.
pub trait Change<V>: Drop {
    /// Whether the change may replace one value, or its absence, by another, or by its absence.
    ghost gives: { Self → Option V → Option V → Type 0 };

    /// Returns the value of a key that does not exist yet, or `None` if it is not to exist.
    ///
    /// # Errors
    ///
    /// `Starved` if memory runs out.
    fn begin(self) -> Result<Option<V>, Starved>
        ensures { IfOk result (λ new. gives self None new) };

    /// Returns the value that replaces this one, or `None` if the key is to be removed.
    ///
    /// # Errors
    ///
    /// `Starved` if memory runs out.
    fn follow(self, old: &V) -> Result<Option<V>, Starved>
        ensures { IfOk result (λ new. gives self (Some old.now) new) };
}

/// The change that gives the key this value.
#[derive(Drop)]
pub(crate) struct Put<V: Drop> {
    /// The value.
    pub(crate) value: V,
}

impl<V: Drop> Change<V> for Put<V> {
    ghost gives = { λ put _ new. new ≡ Some put.value };

    fn begin(self) -> Result<Option<V>, Starved> {
        Ok(Some(self.value))
    }

    fn follow(self, _: &V) -> Result<Option<V>, Starved> {
        Ok(Some(self.value))
    }
}

/// The change that removes the key.
#[derive(Drop)]
pub(crate) struct Take;

impl<V: Drop> Change<V> for Take {
    ghost gives = { λ _ _ new. new ≡ None };

    fn begin(self) -> Result<Option<V>, Starved> {
        Ok(None)
    }

    fn follow(self, _: &V) -> Result<Option<V>, Starved> {
        Ok(None)
    }
}

/// The effect of a change on the number of pairs.
#[derive(Clone, Copy, Drop)]
pub(crate) enum Tally {
    /// The number stays the same.
    Same,
    /// There is one more pair.
    More,
    /// There is one pair fewer.
    Fewer,
}

impl Tally {
    /// Returns the number of pairs after the change, given the number before. Returns `Starved` if
    /// a `u64` cannot count them, which no memory could hold.
    pub(crate) fn count(self, before: u64) -> Result<u64, Starved>
        requires { CanCount self before }
        ensures { IfOk result (λ after. IsCounted self before after) }
    {
        match self {
            Tally::Same => Ok(before),
            Tally::More => Ok(u64::checked_add(before, 1).ok_or(Starved)?),
            Tally::Fewer => Ok(before - 1),
        }
    }
}
