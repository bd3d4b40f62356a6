//! The share of each sender in what all senders share.
ghost use Rattle.std.specs.Prelude.{◌≡◌, ◌≢◌, ◌≤◌, ◌<◌, ◌∷◌, [], is_some, nat_eq};
ghost use Rattle.std.specs.Prelude.{IfOk, OnErr, OnOk};
ghost use Rattle.std.specs.Map.{lookup};
ghost use Rattle.lru.specs.LruCache.{lru_cache, put_entries};
ghost use Rattle.hosting.specs.Shares as spec;
ghost use Rattle.hosting.specs.Shares.{AreWithin, IsHeard, asked_in, remembered};

use crate::share_logs::ShareLog;
use lru::LruCache;
use rd_base::{Host, Moment, Peer, Starved};
use std::alloc::Global;
use std::hash::RandomState;
use std::num::NonZeroUsize;

/// How many senders a share remembers.
const MOST_SENDERS: usize = 8192;

/// How many requests a share remembers, to recognize retransmissions.
const MOST_TOLD: usize = 8192;

/// The length of a window, in seconds: EXCHANGE_LIFETIME (RFC 7252 section 4.8.2).
const WINDOW: u64 = 247;

/// Returns the source of a datagram as a number: the first 64 bits of an IPv6 address.
///
/// For an IPv4 address, these are the bits of the IPv6 network that belongs to it (RFC 3056 section
/// 2).
pub(crate) fn source_of(host: Host) -> u64
    ensures { result ≡ spec.source_of host }
{
    match host {
        Host::V4(octets) => {
            let high = u64::from(octets[0]) * (1 << 40) + u64::from(octets[1]) * (1 << 32);
            let low = u64::from(octets[2]) * (1 << 24) + u64::from(octets[3]) * (1 << 16);
            0x2002 * (1 << 48) + (high + low)
        }
        Host::V6(groups) => {
            let high = u64::from(groups[0]) * (1 << 48) + u64::from(groups[1]) * (1 << 32);
            high + (u64::from(groups[2]) * (1 << 16) + u64::from(groups[3]))
        }
    }
}

/// Returns the window of a moment.
pub(crate) fn window_at(now: Moment) -> u64
    ensures { result ≡ spec.window_at now.0 }
{
    now.0 / (1000 * WINDOW)
}

/// Returns how many seconds are left of the window of a moment, from 1 to 247.
pub(crate) fn seconds_left(now: Moment) -> u8
    ensures value { result ≡ spec.seconds_left now.0 }
    ensures some { 1 ≤ result }
{
    (WINDOW - now.0 / 1000 % WINDOW) as u8
}

/// What identifies a request: a retransmission has the same values (RFC 7252 section 4.2).
#[derive(Clone, Copy, Debug, PartialEq, Eq, Hash)]
pub(crate) struct Told {
    pub(crate) window: u64,
    pub(crate) peer: Peer,
    pub(crate) mid: u16,
    /// The octets of the token, padded with zeros, and their number.
    pub(crate) token: [u8; 8],
    pub(crate) token_length: u8,
}

/// How many requests of a source passed in a window.
#[derive(Clone, Copy, Debug, PartialEq, Eq)]
pub(crate) struct Tally {
    window: u64,
    number: u16,
}

/// Returns how many requests a tally counts in a window.
fn counted_in(window: u64, tally: Option<Tally>) -> u16
    ensures { result ≡ spec.counted_in window tally }
{
    match tally {
        Some(tally) if tally.window == window => tally.number,
        _ => 0,
    }
}

/// The answer of a share to a request.
#[derive(Clone, Copy, Debug, PartialEq, Eq)]
pub(crate) enum Heard {
    /// The request passes and is counted.
    Counted,
    /// The request passes and is not counted, since memory ran out.
    Uncounted,
    /// The request is a retransmission of one that passed, and passes.
    Again,
    /// The request is beyond the share.
    Past,
}

/// Stores the tally of a source.
///
/// # Errors
///
/// `Starved` if memory runs out.
fn put_tally(
    tallies: &mut LruCache<u64, Tally, RandomState>,
    source: u64,
    tally: Tally,
) -> Result<(), Starved>
    ensures put { OnOk result (tallies.new
        ≡ lru_cache (put_entries nat_eq tallies.old source tally) tallies.old.cap) }
    ensures kept { OnErr result (tallies.new ≡ tallies.old) }
{
    tallies.put(source, tally)?;
    Ok(())
}

/// A share: how many requests of one kind each source may send in a window.
#[derive(Drop)]
pub(crate) struct Share {
    bound: u16,
    tallies: LruCache<u64, Tally, RandomState>,
    told: LruCache<Told, u8, RandomState>,
    came: ShareLog,
    ghost within: { AreWithin tallies.entries came },
}

impl Share {
    /// Creates a share of `bound` requests that has received none.
    ///
    /// # Errors
    ///
    /// `Starved` if memory runs out.
    pub(crate) fn new(
        alloc: Global,
        bound: u16,
        keys: RandomState,
        other_keys: RandomState,
    ) -> Result<Share, Starved>
        ensures bound { IfOk result (λ share. share.bound ≡ bound) }
        ensures came { IfOk result (λ share. share.came ≡ []) }
    {
        let Some(senders) = NonZeroUsize::new(MOST_SENDERS) else {
            return Err(Starved);
        };
        let Some(told) = NonZeroUsize::new(MOST_TOLD) else {
            return Err(Starved);
        };
        Ok(Share {
            bound,
            tallies: LruCache::with_hasher(alloc, senders, keys)?,
            told: LruCache::with_hasher(alloc, told, other_keys)?,
            came: ShareLog::new(),
        })
    }

    /// Records a request of a source, and returns whether it passes.
    pub(crate) fn hear(&mut self, source: u64, told: &Told) -> Heard
        ensures below { asked_in told.now.window source self.old.came < self.old.bound
            → result ≢ Heard.Past }
        ensures heard { IsHeard result
            (is_some (lookup (⟦<Told as PartialEq>⟧.eq told.now) self.old.told.entries))
            self.old.bound
            (remembered told.now.window source self.old.tallies.entries)
            (remembered told.now.window source self.new.tallies.entries) }
        ensures came { self.new.came ≡ (told.now.window, source) ∷ self.old.came }
        ensures bound { self.new.bound ≡ self.old.bound }
    {
        self.came.add(told.window, source);
        if self.told.contains(told) {
            return Heard::Again;
        }
        let number = counted_in(told.window, self.tallies.peek(&source).copied());
        if self.bound <= number {
            return Heard::Past;
        }
        let tally = Tally {
            window: told.window,
            number: number + 1,
        };
        if let Err(Starved) = put_tally(&mut self.tallies, source, tally) {
            return Heard::Uncounted;
        }
        let _ = self.told.put(*told, 0);
        Heard::Counted
    }
}
