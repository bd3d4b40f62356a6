//! The source of a registration (RFC 9176 section 5.3).
ghost use Rattle.std.specs.Prelude.{◌≡◌, ◌≤◌, ℕ, List, IfOk};
ghost use Rattle.history_model.specs.declared.entries.Entry.{Entry};
ghost use Rattle.history_model.specs.Sources.{source};
ghost use Rattle.history_model.specs.Versions.{VersionStandsFor};

use crate::Directory;
use rd_base::{Bytes, Moment, Starved};

impl Directory {
    /// Returns the links of the registration with this number as they were submitted, as a link
    /// document. Returns `None` if no live registration has this number. The document is one copy
    /// of a text that the registration stores.
    ///
    /// # Requires
    ///
    /// `now` is no earlier than the last entry and the last sweep.
    ///
    /// # Errors
    ///
    /// `Starved` if memory runs out.
    pub fn source(&self, number: u64, now: Moment) -> Result<Option<Bytes>, Starved>
        requires after_at { self.now.at ≤ now.0 }
        requires after_sweep { self.now.swept ≤ now.0 }
        ensures { (first : ℕ) (history : List Entry)
            → VersionStandsFor first history self.now
            → IfOk result (λ found. found ≡ source number history now.0) }
    {
        let Some(registration) = self.record_of(number, now) else {
            return Ok(None);
        };
        let text = registration.items.source();
        let octets = Bytes::copy_of(self.alloc, text.as_bytes())?;
        Ok(Some(octets))
    }
}
