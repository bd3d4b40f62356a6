//! Laws of seats after any calls, and of a hall between any two turns.
ghost use Rattle.rd_seat.specs.Halls.{HallsHoldHistory, RowsAreOfSeats};
ghost use Rattle.rd_seat.specs.Runs.{SeatsAreSeats};

use crate::shared_desk::SharedDesk;
use turn_lock::Replays;

/// States a law: if the turn of a hall is free, its desk stands for one history.
///
/// The history's rows are steps of the desk, one after another. The registrations are the replay of
/// its entries, which contain each accepted request once, despite duplicates. An observer that is
/// not due was last given the current listing. Equal tags mean one state. The published version
/// stands for the same entries (RFC 9176 sections 5 and 6, RFC 7641).
pub fn halls_hold_history()
    ensures { HallsHoldHistory ⟦<SharedDesk as Replays>⟧ }
{}

/// States a law: the journal of a hall is that of its seats. Each row is of one of its workers. The
/// rows of a worker are exactly those that its seat made, in order. Until a seat makes a row, the
/// journal is empty.
pub fn rows_are_of_seats()
    ensures { RowsAreOfSeats ⟦<SharedDesk as Replays>⟧ }
{}

/// States a law of a seat after any calls. Its own rows are those of its worker in the journal that
/// it has seen, each once and in order. They are exactly the rows that its calls made. Each look
/// was answered from a history. That history begins with all that the seat had seen, and with the
/// histories of its earlier looks.
pub fn seats_are_seats()
    ensures { SeatsAreSeats }
{}
