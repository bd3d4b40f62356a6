//! The links of a body before there is a base (RFC 9176 section 5.3).
ghost use Rattle.std.specs.Prelude.{◌≡◌, true, IfOk};
ghost use Rattle.std.specs.List.{list_all};
ghost use Rattle.record_model.specs.Parameters.{is_base};
ghost use Rattle.record_model.specs.Records as records;
ghost use Rattle.registration.specs.Drafts.{has_references};
ghost use Rattle.registration.specs.Submissions.{all_submitted, AreOfBody};

use crate::other_bases::rebased;
use rd_base::{Items, Starved, Text};
use std::alloc::Global;
use std::marker::Model;

/// The links of a body that has no fault, in its order, before there is a base. Contracts see it as
/// the list of the links that were submitted.
#[derive(Debug, Drop)]
pub struct Submitted {
    /// The links, which may have been read against any base.
    items: Items,
}

impl Model for Submitted {
    ghost use Rattle.std.specs.Prelude.{◌≡◌, List, true};
    ghost use Rattle.std.specs.List.{list_all};
    ghost use Rattle.rd_base.specs.declared.submitted_links.SubmittedLink.{SubmittedLink};
    ghost use Rattle.registration.specs.Drafts.{has_references};
    ghost use Rattle.registration.specs.Submissions.{all_submitted, AreOfBody};

    ghost Value = { List SubmittedLink };

    ghost view = { λ s. all_submitted s.items };

    ghost invariant = { λ s. (list_all has_references s.items ≡ true) × AreOfBody s.items };
}

impl Submitted {
    /// Returns the links of a body without a fault, given those links against any base.
    pub(crate) fn of(items: Items) -> Submitted
        requires references { list_all has_references items ≡ true }
        requires of_body { AreOfBody items }
        ensures { result ≡ all_submitted items }
    {
        Submitted { items }
    }

    /// Returns the links against a base. A target or an anchor with a scheme stays as it was
    /// written; any other one is resolved (RFC 3986 section 5.2).
    ///
    /// # Requires
    ///
    /// The base is one that a registration may give, or that of a peer.
    ///
    /// # Errors
    ///
    /// `Starved` if memory runs out.
    pub fn against(&self, alloc: Global, base: &Text) -> Result<Items, Starved>
        requires base { is_base base.now ≡ true }
        ensures items { IfOk result (λ items. items ≡ records.items_of base.now self.now) }
        ensures references { IfOk result (λ items. list_all has_references items ≡ true) }
        ensures of_body { IfOk result AreOfBody }
    {
        rebased(alloc, &self.items, base)
    }
}
