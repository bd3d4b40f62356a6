//! A source and a sink that never fail.
ghost use Rattle.std.specs.Prelude.{◌≡◌, ◌+◌, ◌≤◌, ◌-◌, ◌^◌, Some, None, length, drop, min};
ghost use Rattle.rd_base.specs.Outside.{IsWithinPiece, Takes, CountsWritten};

use crate::memory_ends::copy_at;
use crate::{Bytes, Got, Put, Sink, Source};
use std::marker::Model;

/// A source of octets in memory that never fails.
#[derive(Debug, Drop)]
pub struct SureSource {
    bytes: Bytes,
    at: usize,
    ghost within: { at ≤ length bytes },
}

impl SureSource {
    /// Creates a source of `bytes`.
    pub fn of(bytes: Bytes) -> SureSource
        ensures { ⟦<SureSource as Source>⟧.left result ≡ Some bytes }
    {
        SureSource { bytes, at: 0 }
    }
}

impl Source for SureSource {
    ghost left = { λ s. Some (drop s.at s.bytes) };

    ghost faults = { λ _. 0 };

    ghost turns = { λ s. length s.bytes - s.at };

    fn read(&mut self, into: &mut [u8]) -> Got {
        let n = copy_at(self.bytes.as_slice(), self.at, into);
        self.at += n;
        Got::Bytes(n)
    }
}

/// A sink that never fails, and only counts the octets that it took.
#[derive(Debug, Drop)]
pub struct SureSink {
    taken: u64,
}

impl Model for SureSink {
    ghost use Rattle.std.specs.Prelude.{ℕ};

    ghost Value = { ℕ };

    ghost view = { λ s. s.taken };
}

impl SureSink {
    /// Creates a sink that has taken nothing.
    pub fn new() -> SureSink
        ensures { result ≡ 0 }
    {
        SureSink { taken: 0 }
    }

    /// Returns the number of octets that were taken so far. The count stops at 2^64 - 1.
    pub fn taken(&self) -> u64
        ensures { result ≡ self.now }
    {
        self.taken
    }
}

impl Default for SureSink {
    ghost is_default = { λ s. s ≡ 0 };

    fn default() -> SureSink {
        SureSink::new()
    }
}

impl Sink for SureSink {
    ghost holds = { λ _. None };

    ghost faults = { λ _. 0 };

    /// Takes the whole piece, and counts it.
    fn write(&mut self, piece: &[u8]) -> Put
        ensures within { IsWithinPiece result (length piece.now) }
        ensures bytes { Takes None None result piece.now }
        ensures cause { CountsWritten 0 0 result }
        ensures whole { result ≡ Put.Took (length piece.now) }
        ensures counted { self.new ≡ min (self.old + length piece.now) (2 ^ 64 - 1) }
    {
        self.taken = self.taken.saturating_add(piece.len() as u64);
        Put::Took(piece.len())
    }
}
