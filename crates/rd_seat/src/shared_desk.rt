//! The desk that the workers of a hall share.

use rd_desk::Desk;
use std::collections::LinkedList;
use turn_lock::Replays;
use version_board::Publisher;

/// A desk with the board of its hall. Only the holder of the turn has it. It cannot be dropped: its
/// hall ends it.
pub struct SharedDesk {
    /// The desk, behind a pointer because each turn moves it.
    pub(crate) desk: Box<Desk<Publisher>>,
}

impl Replays for SharedDesk {
    /// The row of a step of the desk.
    type Row = journal_model::Row;

    /// The name of the board.
    type Label = LinkedList<u64>;

    ghost use Rattle.rd_seat.specs.Turns.{StandsAtTurn};

    ghost stands = { λ rows shared. StandsAtTurn rows shared.desk.value };

    ghost number = { λ row. row.step.worker };

    ghost label = { λ shared. shared.desk.value.board.name };
}
