//! A part of a sorted map: a pair, a list of smaller parts, or a shared part.
ghost use Rattle.std.specs.Prelude.{◌≡◌, ◌<◌, length, List, [], ◌∷◌, ◌++◌, Option, Some, None};
ghost use Rattle.std.specs.Prelude.{IfOk, IfSome, option_map};
ghost use Rattle.std.specs.List.{All, flat_map};
ghost use Rattle.std.specs.Map.{lookup};
ghost use Rattle.std.specs.BTreeMap.{is_at};
ghost use Rattle.std.specs.Arc.{arc_value};
ghost use Rattle.chunk_map.specs.Changes.{IsChanged, IsCounted};
ghost use Rattle.chunk_map.specs.Outcomes.{StandWhole, standing};
ghost use Rattle.chunk_map.specs.Sorted.{IsAscending, HasAny, begins_by, option_flat};

use crate::change::Tally;
use crate::parts::{change_in, copied, divide, get, join, three_quarters};
use crate::{Change, Shared};
use rd_base::Starved;
use std::alloc::Global;
use std::cmp::Ordering;
use std::mem;
use std::sync::Arc;

/// The most pairs of a chunk whose pairs consist of numbers.
const MOST_PLAIN_PAIRS: usize = 56;

/// The most pairs of a chunk if copying a pair raises a reference count.
const MOST_SHARED_PAIRS: usize = 24;

/// The most parts of a list of shared parts. Most of the cost of changing a large map is raising
/// and lowering their reference counts.
pub(crate) const MOST_PARTS: usize = 32;

/// What a change in place leaves of a part.
#[derive(Drop)]
pub(crate) enum Outcome<P: Drop> {
    /// No pair: the part is to be removed.
    Gone,
    /// The part, as it is now.
    Kept,
    /// The part, as it is now, and this one after it, because one part would be too large.
    Split(P),
}

/// A part of a map. It shows at least one pair, in ascending order of the keys. A pair is the
/// smallest part, a list of parts is a part, and so is an `Arc` of a part. Chunks, groups and lists
/// of them share this code.
pub(crate) trait Part<K: Ord + Drop, V: Drop>: Drop {
    /// The pairs that it shows.
    ghost pairs: { Self → List (K × V) };

    /// Whether every list in it has an element.
    ghost is_whole: { Self → Type 0 };

    /// Returns the most such parts that a list has. With one more, the list is split in two.
    fn most() -> usize
        ensures { 1 < result };

    /// Creates a part that shows one pair.
    fn one(alloc: Global, key: &K, value: V) -> Result<Self, Starved>
        ensures pairs { IfOk result (λ part. pairs part ≡ (key.now, value) ∷ []) }
        ensures whole { IfOk result is_whole };

    /// Returns a part that shows the same pairs.
    fn again(&self) -> Result<Self, Starved>
        requires whole { is_whole self.now }
        ensures pairs { IfOk result (λ part. pairs part ≡ pairs self.now) }
        ensures whole { IfOk result is_whole };

    /// Returns whether its first key is not above this one.
    fn begins_by(&self, key: &K) -> bool
        requires whole { is_whole self.now }
        ensures begins { result ≡ begins_by K.cmp (pairs self.now) key.now }
        ensures any { HasAny (pairs self.now) };

    /// Returns the value at this key, if the key exists.
    fn get(&self, key: &K) -> Option<&V>
        requires whole { is_whole self.now }
        requires ascends { IsAscending K.cmp (pairs self.now) }
        ensures { option_map (λ v. v.now) result
            ≡ lookup (is_at (K.cmp key.now)) (pairs self.now) };

    /// Changes the value at this key. Returns what is left of the part, and the effect on the
    /// number of its pairs. Changes in place what no other version shares, and replaces the rest by
    /// a copy.
    fn change<C: Change<V>>(
        &mut self,
        alloc: Global,
        key: &K,
        change: C,
    ) -> Result<(Outcome<Self>, Tally), Starved>
        requires whole { is_whole self.old }
        requires ascends { IsAscending K.cmp (pairs self.old) }
        ensures pairs { IfOk result (λ changed.
            IsChanged K.cmp (C.gives change) (pairs self.old) key.now
            (standing pairs self.new changed.0)) }
        ensures counted { IfOk result (λ changed.
            IsCounted changed.1 (length (pairs self.old))
            (length (standing pairs self.new changed.0))) }
        ensures whole { IfOk result (λ changed. StandWhole is_whole self.new changed.0) };

    /// Returns one part with the pairs of this one and of the next, or `None` if it would be too
    /// large.
    fn joined(&self, alloc: Global, next: &Self) -> Result<Option<Self>, Starved>
        requires whole { is_whole self.now × is_whole next.now }
        ensures pairs { IfOk result
            (λ joined. IfSome joined (λ part. pairs part ≡ pairs self.now ++ pairs next.now)) }
        ensures whole { IfOk result (λ joined. IfSome joined is_whole) };
}

/// Changes the value of a pair.
fn change_at<K: Ord + Shared, V: Shared, C: Change<V>>(
    pair: &mut (K, V),
    change: C,
) -> Result<(Outcome<(K, V)>, Tally), Starved>
    ensures changed { IfOk result (λ changed.
        (new : Option V)
        × C.gives change (Some pair.old.1) new
        × (standing (λ p. p ∷ []) pair.new changed.0
        ≡ option_flat (λ v. (pair.old.0, v) ∷ []) new)) }
    ensures counted { IfOk result
        (λ changed. IsCounted changed.1 1 (length (standing (λ p. p ∷ []) pair.new changed.0))) }
{
    match change.follow(&pair.1)? {
        None => Ok((Outcome::Gone, Tally::Fewer)),
        Some(value) => {
            pair.1 = value;
            Ok((Outcome::Kept, Tally::Same))
        }
    }
}

/// Returns the pair that a change gives to a key that does not exist, if it gives one.
fn begun<K: Ord + Shared, V: Shared, C: Change<V>>(
    key: &K,
    change: C,
) -> Result<Option<(K, V)>, Starved>
    ensures { IfOk result (λ begun.
        (new : Option V)
        × C.gives change None new
        × (option_flat (λ p. p ∷ []) begun ≡ option_flat (λ v. (key.now, v) ∷ []) new)) }
{
    match change.begin()? {
        None => Ok(None),
        Some(value) => {
            let key = key.share()?;
            Ok(Some((key, value)))
        }
    }
}

/// Changes the value at a key below that of a pair.
fn change_before<K: Ord + Shared, V: Shared, C: Change<V>>(
    pair: &mut (K, V),
    key: &K,
    change: C,
) -> Result<(Outcome<(K, V)>, Tally), Starved>
    ensures changed { IfOk result (λ changed.
        (new : Option V)
        × C.gives change None new
        × (standing (λ p. p ∷ []) pair.new changed.0
        ≡ option_flat (λ v. (key.now, v) ∷ []) new ++ (pair.old ∷ []))) }
    ensures counted { IfOk result
        (λ changed. IsCounted changed.1 1 (length (standing (λ p. p ∷ []) pair.new changed.0))) }
{
    match begun(key, change)? {
        None => Ok((Outcome::Kept, Tally::Same)),
        Some(new) => {
            let old = mem::replace(pair, new);
            Ok((Outcome::Split(old), Tally::More))
        }
    }
}

/// Changes the value at a key above that of a pair.
fn change_behind<K: Ord + Shared, V: Shared, C: Change<V>>(
    pair: &mut (K, V),
    key: &K,
    change: C,
) -> Result<(Outcome<(K, V)>, Tally), Starved>
    ensures changed { IfOk result (λ changed.
        (new : Option V)
        × C.gives change None new
        × (standing (λ p. p ∷ []) pair.new changed.0
        ≡ pair.old ∷ option_flat (λ v. (key.now, v) ∷ []) new)) }
    ensures counted { IfOk result
        (λ changed. IsCounted changed.1 1 (length (standing (λ p. p ∷ []) pair.new changed.0))) }
{
    let _ = &pair.0;
    match begun(key, change)? {
        None => Ok((Outcome::Kept, Tally::Same)),
        Some(new) => Ok((Outcome::Split(new), Tally::More)),
    }
}

/// A pair shows itself.
impl<K: Ord + Shared, V: Shared> Part<K, V> for (K, V) {
    ghost pairs = { λ p. p ∷ [] };

    ghost is_whole = { λ _. Unit {0} };

    fn most() -> usize {
        if K::is_plain() && V::is_plain() {
            MOST_PLAIN_PAIRS
        } else {
            MOST_SHARED_PAIRS
        }
    }

    fn one(_: Global, key: &K, value: V) -> Result<(K, V), Starved> {
        let key = key.share()?;
        Ok((key, value))
    }

    fn again(&self) -> Result<(K, V), Starved> {
        let key = self.0.share()?;
        let value = self.1.share()?;
        Ok((key, value))
    }

    fn begins_by(&self, key: &K) -> bool {
        key.cmp(&self.0) != Ordering::Less
    }

    fn get(&self, key: &K) -> Option<&V> {
        match key.cmp(&self.0) {
            Ordering::Equal => Some(&self.1),
            _ => None,
        }
    }

    fn change<C: Change<V>>(
        &mut self,
        _: Global,
        key: &K,
        change: C,
    ) -> Result<(Outcome<(K, V)>, Tally), Starved> {
        match key.cmp(&self.0) {
            Ordering::Less => change_before(self, key, change),
            Ordering::Equal => change_at(self, change),
            Ordering::Greater => change_behind(self, key, change),
        }
    }

    fn joined(&self, _: Global, _: &(K, V)) -> Result<Option<(K, V)>, Starved> {
        Ok(None)
    }
}

/// Shares what is left of a part.
fn shared<K: Ord + Drop, V: Drop, P: Part<K, V>>(
    alloc: Global,
    outcome: Outcome<P>,
) -> Result<Outcome<Arc<P>>, Starved>
    ensures pairs { IfOk result (λ shared.
        (a : Arc P Global)
        → standing (λ b. P.pairs (arc_value b)) a shared
        ≡ standing P.pairs (arc_value a) outcome) }
    ensures whole { IfOk result (λ shared.
        (a : Arc P Global)
        → StandWhole P.is_whole (arc_value a) outcome
        → StandWhole (λ b. P.is_whole (arc_value b)) a shared) }
{
    match outcome {
        Outcome::Gone => Ok(Outcome::Gone),
        Outcome::Kept => Ok(Outcome::Kept),
        Outcome::Split(behind) => {
            let behind = Arc::new(alloc, behind)?;
            Ok(Outcome::Split(behind))
        }
    }
}

/// A shared part shows the pairs of the part. Sharing it again copies nothing.
impl<K: Ord + Drop, V: Drop, P: Part<K, V>> Part<K, V> for Arc<P> {
    ghost pairs = { λ a. P.pairs (arc_value a) };

    ghost is_whole = { λ a. P.is_whole (arc_value a) };

    fn most() -> usize {
        MOST_PARTS
    }

    fn one(alloc: Global, key: &K, value: V) -> Result<Arc<P>, Starved> {
        let part = P::one(alloc, key, value)?;
        Ok(Arc::new(alloc, part)?)
    }

    fn again(&self) -> Result<Arc<P>, Starved> {
        Ok(Arc::try_clone(self)?)
    }

    fn begins_by(&self, key: &K) -> bool {
        let part: &P = &**self;
        part.begins_by(key)
    }

    fn get(&self, key: &K) -> Option<&V> {
        let part: &P = &**self;
        part.get(key)
    }

    fn change<C: Change<V>>(
        &mut self,
        alloc: Global,
        key: &K,
        change: C,
    ) -> Result<(Outcome<Arc<P>>, Tally), Starved> {
        if let Some(part) = Arc::get_mut(self) {
            let (outcome, tally) = part.change(alloc, key, change)?;
            let outcome = shared(alloc, outcome)?;
            return Ok((outcome, tally));
        }
        let part: &P = &**self;
        let mut copy = part.again()?;
        let (outcome, tally) = copy.change(alloc, key, change)?;
        *self = Arc::new(alloc, copy)?;
        let outcome = shared(alloc, outcome)?;
        Ok((outcome, tally))
    }

    fn joined(&self, alloc: Global, next: &Arc<P>) -> Result<Option<Arc<P>>, Starved> {
        let part: &P = &**self;
        match part.joined(alloc, &**next)? {
            None => Ok(None),
            Some(joined) => {
                let joined = Arc::new(alloc, joined)?;
                Ok(Some(joined))
            }
        }
    }
}

/// A list shows the pairs of its parts, one part after another.
impl<K: Ord + Drop, V: Drop, P: Part<K, V>> Part<K, V> for Vec<P> {
    ghost pairs = { λ parts. flat_map P.pairs parts.items };

    ghost is_whole = { λ parts. (0 < length parts.items) × All P.is_whole parts.items };

    fn most() -> usize {
        MOST_PARTS
    }

    fn one(alloc: Global, key: &K, value: V) -> Result<Vec<P>, Starved> {
        let part = P::one(alloc, key, value)?;
        let mut parts = Vec::with_capacity(alloc, 1)?;
        parts.push(part)?;
        Ok(parts)
    }

    fn again(&self) -> Result<Vec<P>, Starved> {
        copied(*self.allocator(), self.as_slice())
    }

    fn begins_by(&self, key: &K) -> bool {
        self[0].begins_by(key)
    }

    fn get(&self, key: &K) -> Option<&V> {
        get(self.as_slice(), key)
    }

    fn change<C: Change<V>>(
        &mut self,
        alloc: Global,
        key: &K,
        change: C,
    ) -> Result<(Outcome<Vec<P>>, Tally), Starved> {
        let tally = change_in(alloc, self, key, change)?;
        if self.is_empty() {
            return Ok((Outcome::Gone, tally));
        }
        match divide(self, key)? {
            None => Ok((Outcome::Kept, tally)),
            Some(behind) => Ok((Outcome::Split(behind), tally)),
        }
    }

    fn joined(&self, alloc: Global, next: &Vec<P>) -> Result<Option<Vec<P>>, Starved> {
        if usize::saturating_add(self.len(), next.len()) > three_quarters(P::most()) {
            return Ok(None);
        }
        let joined = join(alloc, self.as_slice(), next.as_slice())?;
        Ok(Some(joined))
    }
}
