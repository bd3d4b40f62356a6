//! Links as a device submitted them.
ghost use Rattle.std.specs.Prelude.{◌≡◌};
ghost use lib.Pointwise.{pointwise};
ghost use Rattle.std.proofs.Common.{rules};
ghost use Rattle.std.specs.Cmp.Rules.{comparing};

use crate::{List, Pairs, Text};

/// A link as it was submitted (RFC 6690 section 2), before any reference is resolved.
#[derive(Debug, PartialEq, Eq, Drop)]
pub struct SubmittedLink {
    /// The target as it was written.
    pub target_ref: Text,
    /// The first anchor as it was written.
    pub anchor_ref: Option<Text>,
    /// The attributes as they were written, each from its semicolon on, without anchors.
    pub raw: Text,
    /// The attributes, without anchors, with their values.
    pub pairs: Pairs,
}

/// Submitted links, in the order of the body.
pub type SubmittedLinks = List<SubmittedLink>;
