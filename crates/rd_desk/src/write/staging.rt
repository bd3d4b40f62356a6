//! Versions that a step stages on a board, to be published after it.
ghost use Rattle.std.specs.Prelude.{◌≡◌, ◌≤◌, false, Some, None, Ok, IfOk, IfSome, OnOk, OnErr};
ghost use Rattle.std.specs.Arc.{arc_value};
ghost use Rattle.directory_core.specs.Boards.{HasOneMore};
ghost use Rattle.rd_desk.specs.parts.Laying.{version_ready, IsNextOf, IsSweptBefore};

use crate::write::outcomes::{Entering, Outcome};
use directory_core::Board;
use rd_base::Starved;
use std::sync::Arc;

/// Stages the version of an entry that is ready. After `Starved`, nothing is staged.
pub(crate) fn lay<B: Board>(board: &mut B, entering: &Entering) -> Result<(), Starved>
    requires free { B.has_staged board.old ≡ false }
    requires next { IfSome (B.told board.old)
        (λ history. HasOneMore history (arc_value entering.now.version)) }
    requires swept { (arc_value entering.now.version).swept
        ≤ (arc_value entering.now.version).at }
    ensures laid { OnOk result (IfSome (B.staged board.old) (λ before. B.staged board.new
        ≡ Some (Some (arc_value entering.now.version)))) }
    ensures kept { OnErr result (B.staged board.new ≡ B.staged board.old) }
    ensures none_kept { OnErr result (B.has_staged board.new ≡ false) }
    ensures name { B.name board.new ≡ B.name board.old }
    ensures told { B.told board.new ≡ B.told board.old }
{
    let version = Arc::try_clone(&entering.version)?;
    board.stage(version)
}

/// Returns what is planned of a write, and stages the version of its entry, if it makes one. After
/// `Starved`, nothing is staged.
pub(crate) fn staged<B: Board>(
    board: &mut B,
    planned: Result<Outcome, Starved>,
) -> Result<Outcome, Starved>
    requires free { B.has_staged board.old ≡ false }
    requires next { IfSome (B.told board.old) (λ history. IfOk planned (IsNextOf history)) }
    requires swept { IfOk planned IsSweptBefore }
    ensures same { IfOk result (λ o. planned ≡ Ok o) }
    ensures laid { IfSome (B.staged board.old) (λ before. IfOk result (λ o. B.staged board.new
        ≡ Some (version_ready o.entering before))) }
    ensures kept { OnErr result (B.staged board.new ≡ B.staged board.old) }
    ensures none_laid { IfOk result (λ o. o.entering ≡ None → B.has_staged board.new ≡ false) }
    ensures none_kept { OnErr result (B.has_staged board.new ≡ false) }
    ensures name { B.name board.new ≡ B.name board.old }
    ensures told { B.told board.new ≡ B.told board.old }
{
    let outcome = planned?;
    if let Some(entering) = &outcome.entering {
        lay(board, entering)?;
    }
    Ok(outcome)
}
