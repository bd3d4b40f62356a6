//! A source and a sink in memory, of which planned calls fail.
ghost use Rattle.std.specs.Prelude.{◌≡◌, ◌↔◌, ◌-◌, ◌^◌, ◌<◌, ◌≤◌, true, Some, [], length, take};
ghost use Rattle.std.specs.Prelude.{drop, min};
ghost use Rattle.rd_base.specs.Outside.{IsWithinRoom, Gives, RunsDown, CountsRead, IsWithinPiece};
ghost use Rattle.rd_base.specs.Outside.{Takes, CountsWritten};
ghost use Rattle.rd_base.specs.Plans.{is_planned, Advanced};

use crate::{Bytes, Got, Put, Sink, Source};
use std::alloc::Global;

/// The calls that fail: a counter of calls, and the numbers, from 0, of those that fail.
#[derive(Debug, Drop)]
struct Plan {
    calls: u64,
    fail: Bytes,
}

impl Plan {
    /// Creates a plan before the first call.
    fn of(fail: Bytes) -> Plan
        ensures { result ≡ record { calls = 0; fail = fail } }
    {
        Plan { calls: 0, fail }
    }

    /// Counts a call, and returns whether it is one of those that fail.
    fn fails_now(&mut self) -> bool
        ensures value { result ≡ is_planned self.old }
        ensures advanced { Advanced self.old self.new }
    {
        let call = self.calls;
        self.calls = call.saturating_add(1);
        self.fail.as_slice().iter().any(|n| u64::from(*n) == call)
    }
}

/// Copies octets of `bytes` from offset `at` on to the beginning of `into`, as many as exist and
/// fit. Returns their number.
pub(crate) fn copy_at(bytes: &[u8], at: usize, into: &mut [u8]) -> usize
    requires { at ≤ length bytes.now }
    ensures count { result ≡ min (length bytes.now - at) (length into.old) }
    ensures copied { take result into.new ≡ take result (drop at bytes.now) }
{
    let left = &bytes[at..];
    let n = left.len().min(into.len());
    into[..n].copy_from_slice(&left[..n]);
    n
}

/// A source of octets in memory.
#[derive(Debug, Drop)]
pub struct MemSource {
    bytes: Bytes,
    at: usize,
    plan: Plan,
    faults: u64,
    ghost within: { at ≤ length bytes },
}

impl MemSource {
    /// Creates a source of `bytes`. `fail` lists the numbers, from 0 to 255, of the calls that
    /// fail.
    pub fn of(bytes: Bytes, fail: Bytes) -> MemSource
        ensures told { ⟦<MemSource as Source>⟧.left result ≡ Some bytes }
        ensures planned { result.plan ≡ record { calls = 0; fail = fail } }
        ensures unfailed { ⟦<MemSource as Source>⟧.faults result ≡ 0 }
    {
        MemSource {
            bytes,
            at: 0,
            plan: Plan::of(fail),
            faults: 0,
        }
    }
}

impl Source for MemSource {
    ghost left = { λ s. Some (drop s.at s.bytes) };

    ghost faults = { λ s. s.faults };

    ghost turns = { λ s. length s.bytes - s.at };

    /// Reads as many octets as are left and fit. The planned calls fail, and no others.
    fn read(&mut self, into: &mut [u8]) -> Got
        ensures within { IsWithinRoom result (length into.old) }
        ensures bytes { Gives (Some (drop self.old.at self.old.bytes))
            (Some (drop self.new.at self.new.bytes)) result into.new }
        ensures counted { length (drop self.old.at self.old.bytes) < 2 ^ 64 }
        ensures turns { RunsDown (length self.old.bytes - self.old.at)
            (length self.new.bytes - self.new.at) result }
        ensures cause { CountsRead self.old.faults self.new.faults result }
        ensures planned { (is_planned self.old.plan ≡ true) ↔ (result ≡ Got.Failed) }
        ensures advanced { Advanced self.old.plan self.new.plan }
    {
        let bytes = self.bytes.as_slice();
        if self.plan.fails_now() {
            self.faults = self.faults.saturating_add(1);
            return Got::Failed;
        }
        let n = copy_at(bytes, self.at, into);
        self.at += n;
        Got::Bytes(n)
    }
}

/// A sink that stores what it takes.
#[derive(Debug, Drop)]
pub struct MemSink {
    bytes: Bytes,
    plan: Plan,
    faults: u64,
}

impl MemSink {
    /// Creates an empty sink. `fail` lists the numbers, from 0 to 255, of the calls that fail.
    pub fn of(alloc: Global, fail: Bytes) -> MemSink
        ensures told { ⟦<MemSink as Sink>⟧.holds result ≡ Some [] }
        ensures planned { result.plan ≡ record { calls = 0; fail = fail } }
        ensures unfailed { ⟦<MemSink as Sink>⟧.faults result ≡ 0 }
    {
        MemSink {
            bytes: Bytes::new(alloc),
            plan: Plan::of(fail),
            faults: 0,
        }
    }

    /// Returns the octets that were taken so far.
    pub fn as_slice(&self) -> &[u8]
        ensures { ⟦<MemSink as Sink>⟧.holds self.now ≡ Some result.now }
    {
        self.bytes.as_slice()
    }
}

impl Sink for MemSink {
    ghost holds = { λ s. Some s.bytes };

    ghost faults = { λ s. s.faults };

    /// Takes the whole piece. The planned calls fail, and so does a call for which memory runs out.
    fn write(&mut self, piece: &[u8]) -> Put
        ensures within { IsWithinPiece result (length piece.now) }
        ensures bytes { Takes (Some self.old.bytes) (Some self.new.bytes) result piece.now }
        ensures cause { CountsWritten self.old.faults self.new.faults result }
        ensures planned { is_planned self.old.plan ≡ true → result ≡ Put.Failed }
        ensures advanced { Advanced self.old.plan self.new.plan }
    {
        if !self.plan.fails_now() && self.bytes.append(piece).is_ok() {
            return Put::Took(piece.len());
        }
        self.faults = self.faults.saturating_add(1);
        Put::Failed
    }
}
