//! Replacement of the links of a registration (RFC 9176 section 5.3).
ghost use Rattle.std.specs.Prelude.{◌≡◌, ◌≤◌, ◌<◌, ◌^◌, ◌++◌, ◌∷◌, []};
ghost use Rattle.std.specs.Prelude.{ℕ, true, List, None, IfOk};
ghost use Rattle.std.specs.Prelude.{IfErr, OnOk};
ghost use Rattle.record_model.specs.Parameters.{is_base};
ghost use Rattle.registration.specs.Drafts.{recorded};
ghost use Rattle.history_model.specs.declared.entries.Entry.{Entry};
ghost use Rattle.history_model.specs.Refusals.{change_refusal};
ghost use Rattle.history_model.specs.Replay.{replaced};
ghost use Rattle.history_model.specs.Versions.{VersionStandsFor};
ghost use Rattle.directory_core.specs.AfterEntries.{IsSound};
ghost use Rattle.directory_core.specs.Answers.{IsRefusalOf};
ghost use Rattle.directory_core.specs.Changes.{IsReplacementOf};

use crate::links_after::LinksAfter;
use crate::{Directory, Refusal};
use rd_base::{Moment, Record, Starved};
use registration::{Draft, Submitted};
use std::alloc::Global;

/// Returns a record with other links, as a draft under its name. The links are resolved against its
/// base; the rest stays.
#[rattlefmt::skip]
#[tactic(
    auto,
    unfolding(
        history_model::specs::Replay::replaced,
        registration::specs::Drafts::recorded
    )
)]
fn replaced_draft(alloc: Global, old: &Record, links: &Submitted) -> Result<Draft, Starved>
    requires lasting { (0 < old.now.lt) × (old.now.lt < 2 ^ 32) }
    requires base { is_base old.now.base ≡ true }
    ensures made { IfOk result
        (λ draft. recorded old.now.number old.now.granted draft ≡ replaced links.now old.now) }
    ensures named { IfOk result (λ draft. draft.name ≡ old.now.name) }
    ensures lease { IfOk result (λ draft. draft.lt ≡ old.now.lt) }
    ensures sound { IfOk result IsSound }
{
    let items = links.against(alloc, &old.base)?;
    let name = old.name.clone()?;
    let base = old.base.clone()?;
    let attrs = old.attrs.clone()?;
    Ok(Draft {
        name,
        lt: old.lt,
        base,
        base_given: old.base_given,
        attrs,
        items,
    })
}

impl Directory {
    /// Returns the version in which the registration with this number has these links (RFC 9176
    /// section 5.3).
    ///
    /// The links are resolved against the registration's current base. Its lease and the rest stay.
    /// Any peer may give the links. `self` does not change.
    ///
    /// # Requires
    ///
    /// `now` is at most 10^15 milliseconds, and no earlier than the last entry and the last sweep,
    /// which the new version inherits.
    ///
    /// # Errors
    ///
    /// The first that applies. `Starved` (out of memory) can take the place of any of them.
    /// - `Gone` if no live registration has this number.
    /// - `FullText` if the live registrations would weigh more than 1,048,576 octets.
    /// - `FullEntries` if 2^48 - 1 entries have been counted.
    pub fn replace(&self, now: Moment, number: u64, links: Submitted) -> Result<Directory, Refusal>
        requires after_at { self.now.at ≤ now.0 }
        requires after_sweep { self.now.swept ≤ now.0 }
        requires moment { now.0 ≤ 10 ^ 15 }
        ensures stands { (first : ℕ) (history : List Entry) (entry : Entry)
            → VersionStandsFor first history self.now
            → IsReplacementOf now number links entry
            → IfOk result (VersionStandsFor first (history ++ entry ∷ [])) }
        ensures accepted { (first : ℕ) (history : List Entry) (entry : Entry)
            → VersionStandsFor first history self.now
            → IsReplacementOf now number links entry
            → OnOk result (change_refusal first history entry ≡ None) }
        ensures refused { (first : ℕ) (history : List Entry) (entry : Entry)
            → VersionStandsFor first history self.now
            → IsReplacementOf now number links entry
            → IfErr result (IsRefusalOf first history entry) }
        ensures swept { IfOk result (λ version. version.swept ≡ self.now.swept) }
        ensures at { IfOk result (λ version. version.at ≡ now.0) }
    {
        let _ = &self.alloc;
        let Some(old) = self.live_numbered(number, now) else {
            return Err(Refusal::Gone(number));
        };
        let before = old.as_record();
        let granted = before.granted;
        let draft = replaced_draft(self.alloc, before, &links)?;
        let counts = self.counts_at(now);
        self.renewed(now, counts, old, granted, draft, LinksAfter::Replaced)
    }
}
