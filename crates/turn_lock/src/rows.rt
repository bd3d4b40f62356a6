//! What a locked value stands for, and the row that a step adds.

use std::marker::Brand;

/// A value that stands for a list of rows, the newest first.
pub trait Replays {
    /// One step of one worker.
    type Row;

    /// Plain data that is the same for all values of one lock.
    type Label;

    ghost use Rattle.std.specs.Prelude.{ℕ, List};

    // Whether the value stands for these rows.
    ghost stands: { List Self.Row → Self → Type 0 };

    // The number of the pass whose step made the row.
    ghost number: { Self.Row → ℕ };

    // The label of the value.
    ghost label: { Self → Self.Label };
}

/// The row that a call of [`crate::TurnLock::give`] adds, which only contracts see. The caller
/// names it.
pub trait Added<R> {
    ghost use Rattle.std.specs.Prelude.{Option};

    ghost added: { Option R };
}

impl<R> Added<R> for Brand {
    ghost use Rattle.std.specs.Prelude.{None};

    ghost added = { None };
}
