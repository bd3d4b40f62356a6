//! Kept answers that are ready to replace those of a table.
use crate::caching::Cache;
use std::marker::Model;

/// The kept answers of a table, with further ones after them. All memory that they need is
/// allocated.
#[derive(Drop)]
pub struct Ready {
    /// The kept answers.
    pub(crate) answers: Cache,
}

impl Model for Ready {
    ghost use Rattle.std.specs.Prelude.{◌≡◌, List};
    ghost use Rattle.event_model.specs.KeptAnswers.{max_answers, KeptAnswer};
    ghost use Rattle.transfers.specs.Keeping.{values};

    ghost Value = { List KeptAnswer };

    ghost view = { λ r. values r.answers.entries };

    ghost invariant = { λ r. r.answers.cap ≡ max_answers };
}
