//! Boards, on which a version is staged before it is published.
ghost use Rattle.std.specs.Prelude.{◌≡◌, ◌≤◌, ℕ, Bool, false, Option, Some, None, List, IfSome};
ghost use Rattle.std.specs.Prelude.{OnOk, OnErr};
ghost use Rattle.std.specs.Arc.{arc_value};
ghost use Rattle.history_model.specs.declared.entries.Entry.{Entry};
ghost use Rattle.history_model.specs.Versions.{Version};
ghost use Rattle.directory_core.specs.Boards.{HasOneMore};

use crate::Directory;
use rd_base::Starved;
use std::sync::Arc;

/// A board: the holder of the version to be published next.
pub trait Board {
    /// The name of the board.
    ghost name: { Self → List ℕ };

    /// The entries of the version that was published last, if the board exposes them.
    ghost told: { Self → Option (List Entry) };

    /// Whether a version is staged.
    ghost has_staged: { Self → Bool };

    /// The staged version, or that there is none, if the board exposes it.
    ghost staged: { Self → Option (Option Version) };

    /// Stages the version to be published next. Does not wait.
    ///
    /// # Requires
    ///
    /// Nothing is staged. The version was not swept after its last entry, and has one more entry
    /// than the board exposes, if it exposes any.
    ///
    /// # Errors
    ///
    /// `Starved` if memory runs out. The board does not change then.
    fn stage(&mut self, version: Arc<Directory>) -> Result<(), Starved>
        requires free { has_staged self.old ≡ false }
        requires swept { (arc_value version).swept ≤ (arc_value version).at }
        requires next { IfSome (told self.old) (λ history. HasOneMore history (arc_value version)) }
        ensures name { name self.new ≡ name self.old }
        ensures told { told self.new ≡ told self.old }
        ensures staged { OnOk result (IfSome (staged self.old)
            (λ before. staged self.new ≡ Some (Some (arc_value version)))) }
        ensures untold { staged self.old ≡ None → staged self.new ≡ None }
        ensures same { OnErr result (staged self.new ≡ staged self.old) }
        ensures free { OnErr result (has_staged self.new ≡ false) };
}

/// A board that publishes nothing: it exposes nothing, and never has a version staged.
#[derive(Clone, Copy, Debug)]
pub struct NoBoard;

impl Board for NoBoard {
    ghost use Rattle.std.specs.Prelude.{[], false, None};

    ghost name = { λ b. [] };

    ghost told = { λ b. None };

    ghost has_staged = { λ b. false };

    ghost staged = { λ b. None };

    fn stage(&mut self, version: Arc<Directory>) -> Result<(), Starved> {
        drop(version);
        Ok(())
    }
}
