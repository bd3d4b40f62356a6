//! The number above which a run's registrations and entries are counted (RFC 9176 section 5).
ghost use Rattle.std.specs.Prelude.{◌≡◌, ◌≤◌, ◌^◌, ◌++◌, ◌∷◌, [], ℕ, List, None, max};
ghost use Rattle.std.specs.Prelude.{IfOk, IfErr, OnOk};
ghost use Rattle.history_model.specs.declared.entries.Entry.{Entry};
ghost use Rattle.history_model.specs.Refusals.{change_refusal};
ghost use Rattle.history_model.specs.Versions.{VersionStandsFor};
ghost use Rattle.directory_core.specs.AfterEntries.{begun, IsMadeWithRoom};
ghost use Rattle.directory_core.specs.Answers.{IsRefusalOf};
ghost use Rattle.directory_core.specs.Changes.{IsBeginning};

use crate::room::room_for_entry;
use crate::{Directory, Refusal};
use rd_base::Moment;

/// Returns a count or a number, raised to `first` if it is lower.
fn lifted(count: u64, first: u64) -> u64
    ensures { result ≡ max count first }
{
    count.max(first)
}

impl Directory {
    /// Returns the version with the same records and one more entry, if that can be counted. Its
    /// last number is at least `first`, and the new entry is counted above `first`.
    fn begun(&self, now: Moment, first: u64) -> Result<Directory, Refusal>
        requires after_at { self.now.at ≤ now.0 }
        requires after_sweep { self.now.swept ≤ now.0 }
        requires moment { now.0 ≤ 10 ^ 15 }
        ensures { IsMadeWithRoom 0 (max self.now.entries first) (begun self.now now.0 first)
            result }
    {
        let entries = lifted(self.entries, first);
        room_for_entry(entries)?;
        let records = self.records.share()?;
        let names = self.names.share()?;
        let leases = self.leases.share()?;
        let index = self.index.share()?;
        let counts = self.counts_at(now);
        Ok(Directory {
            records,
            names,
            leases,
            index,
            live: counts.live,
            text: counts.text,
            entries: entries + 1,
            at: now,
            last_number: lifted(self.last_number, first),
            swept_live: 0,
            swept: self.swept,
            alloc: self.alloc,
        })
    }

    /// Returns the version in which a run begins above `first` (RFC 9176 section 5, RFC 7252
    /// section 5.10.6).
    ///
    /// From then on, each registration of a new name gets a number above `first`, and entries are
    /// counted above it too. So no later entity tag counts `first` entries or fewer. Registrations
    /// stay. Numbers and the count never fall: one that is above `first` continues as before.
    /// `self` does not change.
    ///
    /// # Requires
    ///
    /// `now` is at most 10^15 milliseconds, and no earlier than the last entry and the last sweep,
    /// which the new version inherits.
    ///
    /// # Errors
    ///
    /// - `FullEntries` if 2^48 - 1 entries are counted, or if `first` is at least that.
    /// - `Starved` if memory runs out. It can take the place of `FullEntries`.
    pub fn begin(&self, now: Moment, first: u64) -> Result<Directory, Refusal>
        requires after_at { self.now.at ≤ now.0 }
        requires after_sweep { self.now.swept ≤ now.0 }
        requires moment { now.0 ≤ 10 ^ 15 }
        ensures stands { (counted : ℕ) (history : List Entry) (entry : Entry)
            → VersionStandsFor counted history self.now
            → IsBeginning now first entry
            → IfOk result (VersionStandsFor counted (history ++ entry ∷ [])) }
        ensures accepted { (counted : ℕ) (history : List Entry) (entry : Entry)
            → VersionStandsFor counted history self.now
            → IsBeginning now first entry
            → OnOk result (change_refusal counted history entry ≡ None) }
        ensures refused { (counted : ℕ) (history : List Entry) (entry : Entry)
            → VersionStandsFor counted history self.now
            → IsBeginning now first entry
            → IfErr result (IsRefusalOf counted history entry) }
        ensures swept { IfOk result (λ version. version.swept ≡ self.now.swept) }
        ensures at { IfOk result (λ version. version.at ≡ now.0) }
    {
        let _ = &self.alloc;
        self.begun(now, first)
    }
}
