//! The context in which a worker works, and what it carries.
ghost use Rattle.std.specs.Prelude.{◌≡◌, []};

use crate::serving::served::Served;
use rd_desk::Outbox;
use rd_seat::Hall;

/// The context of a worker: the runtime, the hall of its seat, and the gate that it passes.
#[derive_where(Clone, Copy)]
pub(crate) struct Context<'a, R, G> {
    pub(crate) rt: &'a R,
    pub(crate) hall: &'a Hall,
    pub(crate) gate: &'a G,
}

/// What a worker carries: an outbox, which is empty between two calls of its seat, and its counts.
#[derive(Drop)]
pub(crate) struct Tally {
    pub(crate) out: Outbox,
    pub(crate) served: Served,
    ghost empty: { out ≡ [] },
}
