//! The lookers of a board.
use crate::looker::Looker;
use rd_base::List;

/// The lookers of one board.
pub type Lookers = List<Looker>;
