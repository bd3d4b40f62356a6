//! Removals (RFC 9176 section 5.3.2).
ghost use Rattle.std.specs.Prelude.{◌≡◌, ◌≤◌, ◌^◌, ◌++◌, ◌∷◌, [], ℕ, List, None, IfOk, IfErr, OnOk};
ghost use Rattle.history_model.specs.declared.entries.Entry.{Entry};
ghost use Rattle.history_model.specs.Refusals.{change_refusal};
ghost use Rattle.history_model.specs.Versions.{VersionStandsFor};
ghost use Rattle.directory_core.specs.Answers.{IsRefusalOf};
ghost use Rattle.directory_core.specs.Changes.{IsRemovalOf};

use crate::{Directory, Refusal};
use rd_base::Moment;

impl Directory {
    /// Returns the version without the registration with this number (RFC 9176 section 5.3.2).
    /// `self` does not change.
    ///
    /// # Requires
    ///
    /// `now` is at most 10^15 milliseconds, and no earlier than the last entry and the last sweep,
    /// which the new version inherits.
    ///
    /// # Errors
    ///
    /// The first that applies. `Starved` (out of memory) can take the place of any of them.
    /// - `Gone` if no live registration has this number.
    /// - `FullEntries` if 2^48 - 1 entries have been counted.
    pub fn remove(&self, now: Moment, number: u64) -> Result<Directory, Refusal>
        requires after_at { self.now.at ≤ now.0 }
        requires after_sweep { self.now.swept ≤ now.0 }
        requires moment { now.0 ≤ 10 ^ 15 }
        ensures stands { (first : ℕ) (history : List Entry) (entry : Entry)
            → VersionStandsFor first history self.now
            → IsRemovalOf now number entry
            → IfOk result (VersionStandsFor first (history ++ entry ∷ [])) }
        ensures accepted { (first : ℕ) (history : List Entry) (entry : Entry)
            → VersionStandsFor first history self.now
            → IsRemovalOf now number entry
            → OnOk result (change_refusal first history entry ≡ None) }
        ensures refused { (first : ℕ) (history : List Entry) (entry : Entry)
            → VersionStandsFor first history self.now
            → IsRemovalOf now number entry
            → IfErr result (IsRefusalOf first history entry) }
        ensures swept { IfOk result (λ version. version.swept ≡ self.now.swept) }
        ensures at { IfOk result (λ version. version.at ≡ now.0) }
    {
        let _ = &self.alloc;
        let Some(old) = self.live_numbered(number, now) else {
            return Err(Refusal::Gone(number));
        };
        self.without(now, self.counts_at(now), old)
    }
}
