//! Updates (RFC 9176 section 5.3.1).
ghost use Rattle.std.specs.Prelude.{◌≡◌, ◌≤◌, ◌^◌, ◌++◌, ◌∷◌, [], ℕ, List, None, IfOk, IfErr, OnOk};
ghost use Rattle.history_model.specs.declared.entries.Entry.{Entry};
ghost use Rattle.history_model.specs.Refusals.{change_refusal};
ghost use Rattle.history_model.specs.Versions.{VersionStandsFor};
ghost use Rattle.record_model.specs.AllowedParameters.{IsAllowedChange};
ghost use Rattle.directory_core.specs.Answers.{IsRefusalOf};
ghost use Rattle.directory_core.specs.Changes.{IsUpdateOf};

use crate::updated_drafts::updated_draft;
use crate::{Directory, Refusal};
use rd_base::{Moment, Peer, UpdateParams};

impl Directory {
    /// Returns the version in which this peer updates the registration with this number (RFC 9176
    /// section 5.3.1).
    ///
    /// The lease starts again, and the given parameters replace the old ones. If no base is given,
    /// a base that a client gave earlier stays, and any other becomes that of the peer. The links
    /// are resolved against the new base. `self` does not change.
    ///
    /// # Requires
    ///
    /// `now` is at most 10^15 milliseconds, and no earlier than the last entry and the last sweep,
    /// which the new version inherits. `change` has allowed parameters.
    ///
    /// # Errors
    ///
    /// The first that applies. `Starved` (out of memory) can take the place of any of them.
    /// - `Gone` if no live registration has this number.
    /// - `FullText` if the live registrations would weigh more than 1,048,576 octets.
    /// - `FullEntries` if 2^48 - 1 entries have been counted.
    pub fn update(
        &self,
        now: Moment,
        number: u64,
        change: UpdateParams,
        peer: Peer,
    ) -> Result<Directory, Refusal>
        requires after_at { self.now.at ≤ now.0 }
        requires after_sweep { self.now.swept ≤ now.0 }
        requires moment { now.0 ≤ 10 ^ 15 }
        requires change { IsAllowedChange change }
        ensures stands { (first : ℕ) (history : List Entry) (entry : Entry)
            → VersionStandsFor first history self.now
            → IsUpdateOf now number change peer entry
            → IfOk result (VersionStandsFor first (history ++ entry ∷ [])) }
        ensures accepted { (first : ℕ) (history : List Entry) (entry : Entry)
            → VersionStandsFor first history self.now
            → IsUpdateOf now number change peer entry
            → OnOk result (change_refusal first history entry ≡ None) }
        ensures refused { (first : ℕ) (history : List Entry) (entry : Entry)
            → VersionStandsFor first history self.now
            → IsUpdateOf now number change peer entry
            → IfErr result (IsRefusalOf first history entry) }
        ensures swept { IfOk result (λ version. version.swept ≡ self.now.swept) }
        ensures at { IfOk result (λ version. version.at ≡ now.0) }
    {
        let _ = &self.alloc;
        let Some(old) = self.live_numbered(number, now) else {
            return Err(Refusal::Gone(number));
        };
        let (draft, links) = updated_draft(self.alloc, old.as_record(), change, peer)?;
        self.renewed(now, self.counts_at(now), old, now, draft, links)
    }
}
