//! The requests that a share received, in order. Only contracts see them.
ghost use Rattle.std.specs.Prelude.{◌≡◌, ◌∷◌, []};

use std::marker::Model;
use std::snapshot::Snapshot;

/// The requests that a share has received: the window and the source of each.
///
/// Contracts see them as a list, the latest first. All requests except the latest take no octets.
#[derive(Drop)]
pub(crate) struct ShareLog {
    last: Option<(u64, u64, Snapshot<ShareLog>)>,
}

impl Model for ShareLog {
    ghost use Rattle.std.specs.Prelude.{List, length};
    ghost use Rattle.hosting.specs.Shares.{Asked};
    ghost use Rattle.hosting.specs.ShareLogs.{log_shown};

    ghost Value = { List Asked };

    ghost size = { λ log. length log };

    ghost view = { λ log. log_shown (λ before. before.value) log.last };
}

impl ShareLog {
    /// Creates a log without requests.
    pub(crate) fn new() -> ShareLog
        ensures { result ≡ [] }
    {
        ShareLog { last: None }
    }

    /// Adds a request.
    pub(crate) fn add(&mut self, window: u64, source: u64)
        ensures { self.new ≡ (window, source) ∷ self.old }
    {
        let before = Snapshot::of(self);
        self.last = Some((window, source, before));
    }
}
