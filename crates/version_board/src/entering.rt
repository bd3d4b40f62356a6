//! The entry that a publication adds.
ghost use Rattle.history_model.specs.declared.entries.Entry.{Entry};
ghost use Rattle.history_model.specs.declared.entries.Change.TheVariants.{Remove};
ghost use Rattle.rd_base.specs.declared.peers.Host.TheVariants.{V4};
ghost use Rattle.std.specs.Prelude.{[]};

use std::marker::Brand;

/// The entry that a call of [`crate::Publisher::publish`] adds, which only contracts see. The
/// caller names it.
pub trait Entering {
    // The entry.
    ghost entered: { Entry };
}

impl Entering for Brand {
    ghost entered = { record {
      moment = record { 0 = 0 };
      worker = 0;
      peer = record
          { host = V4 []; port = 0 };
      change = Remove 0;
    } };
}
