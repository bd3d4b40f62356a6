//! The result of a step that does a job, or of a tick.

/// The result of a step that does a job, of a tick, or of the beginning of a run.
#[derive(Clone, Copy, Debug, PartialEq, Eq)]
pub enum Stepped {
    /// The step is done.
    Done,
    /// Memory ran out. If the step was made for a request, the request has been answered 5.00.
    Starved,
}
