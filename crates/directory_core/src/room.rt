//! Limits of a version.
ghost use Rattle.std.specs.Prelude.{◌≡◌, ◌+◌, ◌≤◌, ℕ};
ghost use Rattle.history_model.specs.Refusals.{max_text};
ghost use Rattle.registration.specs.Drafts as drafts;
ghost use Rattle.registration.specs.Weights.{capped};
ghost use Rattle.directory_core.specs.AfterEntries.{HasEntryRoom, HasRoom};

use crate::Refusal;
use history_model::limits::{MAX_ENTRIES, MAX_TEXT};
use rd_base::{Moment, Record};
use registration::Draft;

/// Returns `FullEntries` if one more entry cannot be counted.
pub(crate) fn room_for_entry(entries: u64) -> Result<(), Refusal>
    ensures { HasEntryRoom entries result }
{
    if entries >= MAX_ENTRIES {
        return Err(Refusal::FullEntries);
    }
    Ok(())
}

/// Returns the weight with `octets` more octets, or the refusal if that is too much or if one more
/// entry cannot be counted.
pub(crate) fn text_with(before: u64, octets: u64, entries: u64) -> Result<u64, Refusal>
    requires { before ≤ max_text }
    ensures { (w : ℕ) → octets ≡ capped w → HasRoom (before + w) entries result }
{
    let text = before.saturating_add(octets);
    if text > MAX_TEXT {
        return Err(Refusal::FullText(text));
    }
    if entries >= MAX_ENTRIES {
        return Err(Refusal::FullEntries);
    }
    Ok(text)
}

/// Returns the record that a draft becomes under a number, at a moment.
#[tactic(auto, unfolding(registration::specs::Drafts::recorded))]
pub(crate) fn record_from(number: u64, now: Moment, draft: Draft) -> Record
    ensures { result ≡ drafts.recorded number now draft }
{
    let Draft {
        name,
        lt,
        base,
        base_given,
        attrs,
        items,
    } = draft;
    Record {
        number,
        name,
        lt,
        granted: now,
        base,
        base_given,
        attrs,
        items,
    }
}
