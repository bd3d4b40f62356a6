//! The beginning of a run, which gives a number. All later numbers and the count of entries are
//! above it (this project's profile).
ghost use Rattle.std.specs.Prelude.{◌≡◌, ◌≤◌, ◌^◌, ℕ, [], false, List, None, IfOk, IfSome};
ghost use Rattle.std.specs.Arc.{arc_value};
ghost use Rattle.history_model.specs.declared.entries.Entry.{Entry};
ghost use Rattle.history_model.specs.Versions.{VersionStandsFor};
ghost use Rattle.directory_core.specs.Answers.{IsRefusalOf};
ghost use Rattle.directory_core.specs.Boards.{HasOneMore};
ghost use Rattle.journal_model.specs.declared.steps.Step.{Step};
ghost use Rattle.journal_model.specs.declared.steps.StepKind.TheVariants as step;
ghost use Rattle.journal_model.specs.declared.rows.Row.{Row};
ghost use Rattle.journal_model.specs.Beginnings.{begin_entry};
ghost use Rattle.journal_model.specs.Rows.{row};
ghost use Rattle.rd_desk.specs.calls.Shown.{AreToldOf};
ghost use Rattle.rd_desk.specs.calls.Stepping.{is_starved_step};
ghost use Rattle.rd_desk.specs.calls.Steps.{IsCalled, Made};
ghost use Rattle.rd_desk.specs.parts.Beginnings.{IsBegun};
ghost use Rattle.rd_desk.specs.parts.Laying.{IsLaid};
ghost use Rattle.rd_desk.specs.parts.Outcomes.{IsReadyAt};

use crate::tables::Tables;
use crate::write::outcomes::Entering;
use crate::write::staging::lay;
use crate::{Mids, Stepped};
use directory_core::{Board, Directory, Refusal};
use observation::ChangeKind;
use rd_base::{Moment, Starved};
use std::alloc::Global;
use std::sync::Arc;

/// Returns `None` for a beginning that is refused, or `Starved` if memory ran out.
fn unbegun(refusal: Refusal) -> Result<Option<Entering>, Starved>
    ensures none { IfOk result (λ ready. ready ≡ None) }
    ensures begun { (history : List Entry) (swept : ℕ) (entry : Entry)
        → IsRefusalOf 0 history entry refusal
        → IfOk result (IsBegun history swept entry) }
{
    match refusal {
        Refusal::Gone(_) => Ok(None),
        Refusal::FullCount(_) => Ok(None),
        Refusal::FullText(_) => Ok(None),
        Refusal::FullEntries => Ok(None),
        Refusal::Starved => Err(Starved),
    }
}

/// Returns the version with the entry of a beginning, or `None` if the beginning is refused.
fn begun(
    alloc: Global,
    version: &Directory,
    now: Moment,
    first: u64,
) -> Result<Option<Entering>, Starved>
    requires after_at { version.now.at ≤ now.0 }
    requires after_sweep { version.now.swept ≤ now.0 }
    requires moment { now.0 ≤ 10 ^ 15 }
    ensures moments { IfOk result (λ ready. IfSome ready (IsReadyAt now.0)) }
    ensures next { (history : List Entry)
        → VersionStandsFor 0 history version.now
        → IfOk result (λ ready. IfSome ready (λ e. HasOneMore history (arc_value e.version))) }
    ensures begun { (history : List Entry) (s : Step)
        → VersionStandsFor 0 history version.now
        → IfOk result (IsBegun history version.now.swept (begin_entry now.0 s first)) }
{
    match version.begin(now, first) {
        Ok(version) => {
            let version = Arc::new(alloc, version)?;
            Ok(Some(Entering {
                version,
                number: 0,
                kind: ChangeKind::Beginning,
            }))
        }
        Err(refusal) => unbegun(refusal),
    }
}

impl Tables {
    /// Begins a run above `first`. `now` is at most 10^15 milliseconds; one earlier than the
    /// tables' moment is raised to it. Sends nothing and draws no Message ID. After `Starved`, the
    /// run has not begun.
    pub(crate) fn begin<B: Board>(
        &mut self,
        board: &mut B,
        now: Moment,
        first: u64,
        mids: &Mids,
    ) -> Stepped
        requires moment { now.0 ≤ 10 ^ 15 }
        requires free { B.has_staged board.old ≡ false }
        requires told { AreToldOf self.old.version (B.told board.old) }
        ensures made { (rows : List Row) (s : Step)
            → s.kind ≡ step.Begin first
            → IsCalled rows s now mids.now self.old
            → Made rows (row rows s (is_starved_step result)) self.new [] mids.now mids.now }
        ensures laid { IsLaid self.old.version self.new.version (B.staged board.old)
            (B.staged board.new) (B.has_staged board.new) }
        ensures name { B.name board.new ≡ B.name board.old }
        ensures told { B.told board.new ≡ B.told board.old }
    {
        self.pass(now);
        let Ok(ready) = begun(self.alloc, &*self.version, self.moment, first) else {
            return Stepped::Starved;
        };
        let Some(entering) = ready else {
            return Stepped::Done;
        };
        let Ok(()) = lay(board, &entering) else {
            return Stepped::Starved;
        };
        self.enter(entering);
        Stepped::Done
    }
}
