//! The cache of kept answers, the latest used first. Its keys are numbers, so that an answer is
//! found by its name without allocating.
ghost use Rattle.std.specs.Prelude.{◌≡◌, ℕ, ◌+◌, ◌<◌, ◌≤◌, [], ◌∷◌, List, find, length, option_map};
ghost use Rattle.std.specs.Prelude.{option_and_then, is_some, nat_eq, Some, None, IfOk, OnOk};
ghost use Rattle.std.specs.Prelude.{OnErr};
ghost use Rattle.std.specs.List.{IsDistinct};
ghost use Rattle.std.specs.Map.{keys_of, lookup, lookup_entry, remove_entry};
ghost use Rattle.lru.specs.LruCache.{lru_cache};
ghost use Rattle.event_model.specs.KeptAnswers.{max_answers, KeptAnswer};
ghost use Rattle.transfers.specs.Keeping.{is_kept_as, live_kept, used, used_at, kept_each, values};
ghost use Rattle.transfers.specs.Keeping.{after_reading, AreBelow, number_for};

use crate::{Answers, Kept};
use event_model::limits::MAX_ANSWERS;
use lru::LruCache;
use rd_base::{Key, Moment, Peer, Starved};
use std::alloc::Global;
use std::num::NonZeroUsize;

/// Kept answers by number.
pub(crate) type Cache = LruCache<u64, Kept>;

/// Creates an empty cache.
pub(crate) fn empty(alloc: Global) -> Result<Cache, Starved>
    ensures entries { IfOk result (λ c. c.entries ≡ []) }
    ensures room { IfOk result (λ c. c.cap ≡ max_answers) }
{
    let Some(room) = NonZeroUsize::new(MAX_ANSWERS) else {
        unreachable!()
    };
    let cache = LruCache::new(alloc, room)?;
    Ok(cache)
}

/// Returns the answer that is kept under this peer and request key, with its number.
fn entry_of<'a>(cache: &'a Cache, peer: Peer, key: &Key) -> Option<(u64, &'a Kept)>
    ensures { option_map (λ p. (p.0, p.1.now)) result
        ≡ find (λ p. is_kept_as (peer, key.now) p.1) cache.now.entries }
{
    let mut left = cache.iter();
    'pairs: while let Some((number, kept)) = left.next() {
        if kept.is_kept_as(peer, key) {
            return Some((*number, kept));
        }
    }
    None
}

/// Exposes to contracts what holds of each cache: its numbers are distinct, and it has no more
/// answers than there is room for.
fn known(cache: &Cache)
    ensures distinct { IsDistinct nat_eq (keys_of cache.now.entries) }
    ensures few { length cache.now.entries ≤ cache.now.cap }
{
    let _ = cache.len();
}

/// Returns the number under which to put an answer: that of the answer kept under its name, or else
/// a new one.
fn number_for(cache: &Cache, kept: &Kept, number: u64) -> u64
    ensures { result ≡ number_for kept.now.name number cache.now.entries }
{
    match entry_of(cache, kept.peer(), kept.key()) {
        Some((found, _)) => found,
        None => number,
    }
}

/// Moves the answer with a number to the front, as used now.
fn use_again(cache: &mut Cache, number: u64, now: Moment)
    ensures used { (p : ℕ × KeptAnswer)
        → lookup_entry (nat_eq number) cache.old.entries ≡ Some p
        → cache.new
        ≡ lru_cache
        ((p.0, used_at now.0 p.1) ∷ remove_entry (nat_eq number) cache.old.entries)
        cache.old.cap }
    ensures room { cache.new.cap ≡ cache.old.cap }
{
    if let Some(kept) = cache.get_mut(&number) {
        kept.use_again(now);
    }
}

/// Returns the number of the answer of this peer and request key, if it is kept and has not
/// expired. This counts as a use of it. If there is none, nothing changes.
pub(crate) fn read(cache: &mut Cache, now: Moment, peer: Peer, key: &Key) -> Option<u64>
    requires { cache.old.cap ≡ max_answers }
    ensures found { is_some result
        ≡ is_some (live_kept now.0 (peer, key.now) (values cache.old.entries)) }
    ensures value { option_and_then (λ n. lookup (nat_eq n) cache.new.entries) result
        ≡ option_map (used_at now.0)
        (live_kept now.0 (peer, key.now) (values cache.old.entries)) }
    ensures answers { values cache.new.entries
        ≡ after_reading now.0 (live_kept now.0 (peer, key.now) (values cache.old.entries))
        (values cache.old.entries) }
    ensures room { cache.new.cap ≡ cache.old.cap }
{
    known(cache);
    let Some((number, kept)) = entry_of(cache, peer, key) else {
        return None;
    };
    if !kept.is_young(now) {
        return None;
    }
    use_again(cache, number, now);
    Some(number)
}

/// Puts an answer at the front, in place of the one kept under its name. `number` is above those of
/// the cache.
fn keep(cache: &mut Cache, number: u64, kept: Kept) -> Result<(), Starved>
    requires room { cache.old.cap ≡ max_answers }
    requires fresh { AreBelow number cache.old.entries }
    ensures answers { OnOk result
        (values cache.new.entries ≡ used kept (values cache.old.entries)) }
    ensures numbers { OnOk result (AreBelow (number + 1) cache.new.entries) }
    ensures room { cache.new.cap ≡ cache.old.cap }
{
    known(cache);
    let found = number_for(cache, &kept, number);
    cache.put(found, kept)?;
    Ok(())
}

/// Keeps answers, one after the other. The numbers of the cache are below 64.
fn keep_each(cache: &mut Cache, alloc: Global, now: Moment, more: Answers) -> Result<(), Starved>
    requires room { cache.old.cap ≡ max_answers }
    requires fresh { AreBelow max_answers cache.old.entries }
    ensures answers { OnOk result
        (values cache.new.entries ≡ kept_each now.0 more (values cache.old.entries)) }
    ensures room { cache.new.cap ≡ cache.old.cap }
{
    let mut number = MAX_ANSWERS as u64;
    'answers: for answer in more.into_vec() {
        let kept = Kept::keep(alloc, now, answer)?;
        keep(cache, number, kept)?;
        number += 1;
    }
    Ok(())
}

/// Returns the same answers, which are shared, under numbers below 64.
fn copied(alloc: Global, cache: &Cache) -> Result<Cache, Starved>
    requires { cache.now.cap ≡ max_answers }
    ensures answers { IfOk result (λ c. values c.entries ≡ values cache.now.entries) }
    ensures numbers { IfOk result (λ c. AreBelow max_answers c.entries) }
    ensures room { IfOk result (λ c. c.cap ≡ max_answers) }
{
    let mut copy = empty(alloc)?;
    let mut number = 0;
    known(cache);
    let mut left = cache.iter();
    'last: while let Some((_, kept)) = left.next_back() {
        copy.put(number, kept.share()?)?;
        number += 1;
    }
    Ok(copy)
}

/// Returns the same answers, and keeps each of these after them, one after the other.
pub(crate) fn with_more(
    alloc: Global,
    cache: &Cache,
    now: Moment,
    more: Answers,
) -> Result<Cache, Starved>
    requires { cache.now.cap ≡ max_answers }
    ensures answers { IfOk result
        (λ c. values c.entries ≡ kept_each now.0 more (values cache.now.entries)) }
    ensures room { IfOk result (λ c. c.cap ≡ max_answers) }
{
    let mut copy = copied(alloc, cache)?;
    keep_each(&mut copy, alloc, now, more)?;
    Ok(copy)
}
