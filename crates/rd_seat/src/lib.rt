//! One directory shared by up to 16 workers, each with a seat. Each step of a seat takes a turn and
//! is one row of one journal. Looks take no turn: the latest published version answers them.
#![tactic(auto)]

mod actions;
mod gates;
mod halls;
mod hearing;
mod looks;
mod publishing;
mod runs;
mod seat_lists;
mod seats;
mod shared_desk;
mod shares;
mod steps;
mod turns;

pub use gates::{Gate, OpenGate, Place};
pub use halls::Hall;
pub use hearing::SeatHeard;
pub use runs::{halls_hold_history, rows_are_of_seats, seats_are_seats};
pub use seat_lists::Seats;
pub use seats::Seat;
pub use shared_desk::SharedDesk;
