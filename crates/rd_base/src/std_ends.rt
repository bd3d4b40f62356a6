//! std's readers and writers as a source and a sink.
ghost use Rattle.std.specs.Prelude.{◌≡◌, ◌^◌};
ghost use Rattle.rd_base.specs.Outside.{told_below};

use crate::{Got, Put, Sink, Source};
use std::io::{Read, Write};

/// The number of calls of one source that may return octets.
const TURNS: u64 = 1 << 40;

/// A reader of std as a source. Contracts see what the reader exposes, which is nothing for files,
/// sockets and standard input.
#[derive(Debug, Drop)]
pub struct StdSource<R> {
    reader: R,
    turns: u64,
    faults: u64,
}

impl<R: Read> StdSource<R> {
    /// Creates the source that reads from `reader`. After 2^40 calls that returned octets, each
    /// call fails.
    pub fn of(reader: R) -> StdSource<R>
        ensures told { ⟦<StdSource<R> as Source>⟧.left result
            ≡ told_below (2 ^ 64) (R.remaining reader) }
        ensures unfailed { ⟦<StdSource<R> as Source>⟧.faults result ≡ 0 }
        ensures turns { ⟦<StdSource<R> as Source>⟧.turns result ≡ 2 ^ 40 }
    {
        StdSource {
            reader,
            turns: TURNS,
            faults: 0,
        }
    }
}

impl<R: Read> Source for StdSource<R> {
    ghost left = { λ s. told_below (2 ^ 64) (R.remaining s.reader) };

    ghost faults = { λ s. s.faults };

    ghost turns = { λ s. s.turns };

    fn read(&mut self, into: &mut [u8]) -> Got {
        if self.turns > 0 {
            if let Ok(n) = self.reader.read(into) {
                self.turns -= 1;
                return Got::Bytes(n);
            }
        }
        self.faults = self.faults.saturating_add(1);
        Got::Failed
    }
}

/// A writer of std as a sink. Contracts see what the writer exposes, which is nothing for files,
/// sockets and standard output.
#[derive(Debug, Drop)]
pub struct StdSink<W> {
    writer: W,
    faults: u64,
}

impl<W: Write> StdSink<W> {
    /// Creates the sink that writes to `writer`.
    pub fn of(writer: W) -> StdSink<W>
        ensures told { ⟦<StdSink<W> as Sink>⟧.holds result ≡ W.contents writer }
        ensures unfailed { ⟦<StdSink<W> as Sink>⟧.faults result ≡ 0 }
    {
        StdSink { writer, faults: 0 }
    }
}

impl<W: Write> Sink for StdSink<W> {
    ghost holds = { λ s. W.contents s.writer };

    ghost faults = { λ s. s.faults };

    fn write(&mut self, piece: &[u8]) -> Put {
        match self.writer.write(piece) {
            Ok(n) if n > 0 || piece.is_empty() => Put::Took(n),
            _ => {
                self.faults = self.faults.saturating_add(1);
                Put::Failed
            }
        }
    }
}
