//! The effect of a change on the links of a record.
ghost use Rattle.registration.specs.Submissions.{IsOfBody};
ghost use Rattle.directory_core.specs.AfterEntries.{IsSound};
ghost use Rattle.directory_core.specs.LinksAgainst.{AreAfter};

use rd_base::Record;
use registration::Draft;

/// The effect of a change on the links of a record.
///
/// No contract can see whether two texts share one piece of memory. So the code that makes the
/// change reports it.
#[derive(Clone, Copy, Debug, PartialEq, Eq)]
pub(crate) enum LinksAfter {
    /// The links did not change, and both states of the record share them.
    Kept,
    /// Other links replace them, which may be equal to them.
    Replaced,
}

/// Returns what a draft does to the links of a record. If the draft has the base of the record and
/// the source of its links, the links are kept.
pub(crate) fn links_after(old: &Record, draft: &Draft) -> LinksAfter
    requires old { IsOfBody old.now }
    requires draft { IsSound draft.now }
    ensures { AreAfter result old.now.items draft.now.items }
{
    if old.base != draft.base {
        return LinksAfter::Replaced;
    }
    if old.items.source().as_bytes() != draft.items.source().as_bytes() {
        return LinksAfter::Replaced;
    }
    LinksAfter::Kept
}
