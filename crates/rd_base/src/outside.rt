//! Inputs and outputs of octets.
ghost use Rattle.std.specs.Prelude.{ℕ, List, Option, true, false, length, take, ◌≡◌, ◌<◌, ◌^◌};
ghost use Rattle.std.specs.Prelude.{IfSome};
ghost use Rattle.std.specs.Io.KnownBytes.{Appends};
ghost use Rattle.rd_base.specs.Outside.{IsWithinRoom, Gives, RunsDown, CountsRead, IsWithinPiece};
ghost use Rattle.rd_base.specs.Outside.{Takes, CountsWritten, CountsAll};

/// The result of a call of [`Source::read`].
#[derive(Clone, Copy, Debug, PartialEq, Eq)]
pub enum Got {
    /// This many octets arrived. 0 for a buffer that is not empty means the end of the input.
    Bytes(usize),
    /// The read failed, and the source has counted it.
    Failed,
}

/// An input of octets.
pub trait Source {
    /// The octets that are left, if contracts see them; then they are fewer than 2^64.
    ghost left: { Self → Option (List ℕ) };

    /// The number of calls that failed so far. It never falls, and stops at 2^64 - 1.
    ghost faults: { Self → ℕ };

    /// The most calls that will still return octets.
    ghost turns: { Self → ℕ };

    /// Reads octets to the beginning of `into`.
    fn read(&mut self, into: &mut [u8]) -> Got
        ensures within { IsWithinRoom result (length into.old) }
        ensures bytes { Gives (left self.old) (left self.new) result into.new }
        ensures counted { IfSome (left self.old) (λ bytes. length bytes < 2 ^ 64) }
        ensures turns { RunsDown (turns self.old) (turns self.new) result }
        ensures cause { CountsRead (faults self.old) (faults self.new) result };
}

/// The result of a call of [`Sink::write`].
#[derive(Clone, Copy, Debug, PartialEq, Eq)]
pub enum Put {
    /// This many octets were taken, at least one of a piece that is not empty.
    Took(usize),
    /// The write failed, and the sink has counted it. Nothing was taken.
    Failed,
}

/// An output of octets.
pub trait Sink {
    /// The octets that were taken so far, if contracts see them.
    ghost holds: { Self → Option (List ℕ) };

    /// The number of calls that failed so far. It never falls, and stops at 2^64 - 1.
    ghost faults: { Self → ℕ };

    /// Takes octets from the beginning of `piece`.
    fn write(&mut self, piece: &[u8]) -> Put
        ensures within { IsWithinPiece result (length piece.now) }
        ensures bytes { Takes (holds self.old) (holds self.new) result piece.now }
        ensures cause { CountsWritten (faults self.old) (faults self.new) result };
}

/// Writes all octets, in as many pieces as the sink takes them. Returns whether no write failed.
///
/// After a failed write, the sink has taken a proper prefix of the octets.
pub fn write_all<K: Sink>(out: &mut K, octets: &[u8]) -> bool
    ensures all { result ≡ true → Appends (K.holds out.old) (K.holds out.new) octets.now }
    ensures front { (n : ℕ) × Appends (K.holds out.old) (K.holds out.new) (take n octets.now) }
    ensures short { result ≡ false → (n : ℕ) × (n < length octets.now)
        × Appends (K.holds out.old) (K.holds out.new) (take n octets.now) }
    ensures cause { CountsAll (K.faults out.old) (K.faults out.new) result }
{
    let mut at = 0;
    'pieces: while at < octets.len() {
        match out.write(&octets[at..]) {
            Put::Took(n) => at += n,
            Put::Failed => return false,
        }
    }
    true
}
