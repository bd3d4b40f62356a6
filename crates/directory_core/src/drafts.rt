//! Drafts of registrations, which share the links of live registrations (RFC 9176 section 5).
ghost use Rattle.std.specs.Prelude.{◌≡◌, ℕ, true, false, None, Some, IfOk, IfErr, IfSome, OnOk};
ghost use Rattle.std.specs.Prelude.{option_map};
ghost use Rattle.std.specs.List.{list_all};
ghost use Rattle.rd_base.specs.declared.moments.Moment.{Moment};
ghost use Rattle.record_model.specs.AllowedParameters.{AreAllowed};
ghost use Rattle.record_model.specs.Bodies.{linked_references};
ghost use Rattle.record_model.specs.BodyFaults.{body_fault};
ghost use Rattle.record_model.specs.Parameters.{is_base};
ghost use Rattle.record_model.specs.Records.{registered};
ghost use Rattle.record_model.specs.Refusals.{is_refused_as_limited};
ghost use Rattle.registration.specs.Drafts.{IsDraft, IsFaultOf, drafted, has_references, recorded};
ghost use Rattle.registration.specs.Submissions.{IsOfBody};

use crate::Directory;
use rd_base::{Moment, Name, Peer, Record, RegParams};
use registration::{Draft, DraftFault, build_sharing};

impl Directory {
    /// Returns the live registration with this name. Its links are those of a body that is not
    /// refused, against its base.
    fn live_of_body(&self, name: &Name, now: Moment) -> Option<&Record>
        ensures { IfSome result (λ old. IsOfBody old.now) }
    {
        match self.live_named(name, now) {
            Some(kept) => Some(kept.as_record()),
            None => None,
        }
    }

    /// Returns the draft of a registration from a peer (RFC 9176 section 5). It is the one that
    /// [`build`](registration::build) returns. If the live registration with its name has the same
    /// base, and the body is the source of its links, the draft shares these links, and the body is
    /// not read again.
    ///
    /// # Requires
    ///
    /// The base of the parameters is one that a registration may give.
    ///
    /// # Errors
    ///
    /// The first that applies. `Starved` (out of memory) can take the place of any of them.
    /// - `Links` if the body is not a link document.
    /// - `Reference` if a target or an anchor is not a URI-reference.
    /// - `Limited` if a link has an anchor with a scheme and a target without one.
    pub fn draft(
        &self,
        now: Moment,
        params: RegParams,
        peer: Peer,
        body: &[u8],
    ) -> Result<Draft, DraftFault>
        requires { IfSome params.base (λ base. is_base base ≡ true) }
        ensures draft { IfOk result (λ draft. option_map (drafted peer params)
            (linked_references body.now) ≡ Some draft) }
        ensures record_of { (number : ℕ) (granted : Moment)
            → IfOk result (λ draft. option_map (registered number granted peer params)
            (linked_references body.now) ≡ Some (recorded number granted draft)) }
        ensures good { IfOk result (λ draft. body_fault body.now ≡ None) }
        ensures limited { OnOk result (is_refused_as_limited body.now ≡ false) }
        ensures is_draft { AreAllowed params → IfOk result IsDraft }
        ensures base { IfOk result (λ draft. is_base draft.base ≡ true) }
        ensures references { IfOk result (λ draft. list_all has_references draft.items ≡ true) }
        ensures refused { IfErr result (λ fault. IsFaultOf body.now fault) }
    {
        let stored = self.live_of_body(&params.name, now);
        build_sharing(self.alloc, params, peer, body, stored)
    }
}
