//! One worker's share of a hall.

use crate::shared_desk::SharedDesk;
use rd_base::Moment;
use rd_desk::Mids;
use std::alloc::Global;
use turn_lock::Pass;
use version_board::Looker;

/// One worker's share of a hall.
#[derive(Drop)]
pub(crate) struct Share {
    /// The allocator.
    pub(crate) alloc: Global,
    /// The worker's right to the turn.
    pub(crate) pass: Pass<SharedDesk>,
    /// The reader of published versions.
    pub(crate) looker: Looker,
    /// The Message IDs of the worker.
    pub(crate) mids: Mids,
    /// The latest moment of its rows and looks.
    pub(crate) last: Moment,
}
