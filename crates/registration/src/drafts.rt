//! Drafts of registrations: how a body and parameters make one, and why a body makes none (RFC 9176
//! section 5).
ghost use Rattle.std.specs.Prelude.{◌≡◌, ℕ, true, Some, None, IfOk, IfErr, IfSome, OnOk, false};
ghost use Rattle.std.specs.Prelude.{option_map};
ghost use Rattle.std.specs.List.{list_all};
ghost use Rattle.rd_base.specs.declared.moments.Moment.{Moment};
ghost use Rattle.rd_base.specs.Peers.{IsHost};
ghost use Rattle.record_model.specs.AllowedParameters.{AreAllowed};
ghost use Rattle.record_model.specs.Bases.{registered_base};
ghost use Rattle.record_model.specs.Bodies.{linked_references};
ghost use Rattle.record_model.specs.BodyFaults.{body_fault};
ghost use Rattle.record_model.specs.Parameters.{is_base};
ghost use Rattle.record_model.specs.Records.{registered};
ghost use Rattle.record_model.specs.Refusals.{is_refused_as_limited};
ghost use Rattle.ref_resolve.specs.ComponentsOfParts.{is_without_query};
ghost use Rattle.reference_model.specs.References.{reference};
ghost use Rattle.registration.specs.Drafts.{IsDraft, IsFaultOf, drafted, has_references, recorded};
ghost use Rattle.registration.specs.Links.{BodyReads, IsBody};
ghost use Rattle.registration.specs.Submissions.{IsOfBody};

use crate::links::read_links;
use crate::submissions::Submitted;
use link_format::{LinkBad, check};
use rd_base::{Items, LinksBuilder, Name, Pairs, Peer, Record, RegParams, Starved, Text, base_of};
use ref_resolve::parts_without_query;
use std::alloc::{AllocFailed, Global};

/// A registration before it has a number and a moment (RFC 9176 section 5).
#[derive(Debug, Drop)]
pub struct Draft {
    /// The name of the endpoint.
    pub name: Name,
    /// The lifetime in seconds.
    pub lt: u32,
    /// The base against which references are resolved.
    pub base: Text,
    /// Whether the base was given, instead of taken from the source address.
    pub base_given: bool,
    /// The extra attributes, in their order.
    pub attrs: Pairs,
    /// The links, in the order of the body.
    pub items: Items,
}

/// The reason why a body gives no draft. If several apply, the answer is the first of them in this
/// order, over the whole body. `Starved` can take the place of any.
#[derive(Clone, Copy, Debug, PartialEq, Eq)]
pub enum DraftFault {
    /// The body is no link document (RFC 6690 section 2). The field is the length of the longest
    /// prefix that begins one, in octets.
    Links(usize),
    /// A target or an anchor is no URI-reference (RFC 3986 section 4.1). The field is the offset in
    /// the body at which the first such reference begins, in octets.
    Reference(usize),
    /// An anchor has a scheme and the target of its link has none (RFC 9176 appendix C). The field
    /// is the index of the first such link, counted from 0.
    Limited(usize),
    /// Memory ran out.
    Starved,
}

impl From<Starved> for DraftFault {
    ghost use Rattle.std.specs.Prelude.{◌≡◌};
    ghost use Rattle.registration.specs.declared.drafts.DraftFault.TheVariants as fault;

    ghost from_gives = { λ _ e. e ≡ fault.Starved };

    /// Returns `Starved`.
    fn from(_: Starved) -> DraftFault {
        DraftFault::Starved
    }
}

impl<T: Drop> From<AllocFailed<T>> for DraftFault {
    ghost use Rattle.std.specs.Prelude.{◌≡◌};
    ghost use Rattle.registration.specs.declared.drafts.DraftFault.TheVariants as fault;

    ghost from_gives = { λ _ e. e ≡ fault.Starved };

    /// Returns `Starved`.
    fn from(_: AllocFailed<T>) -> DraftFault {
        DraftFault::Starved
    }
}

/// Returns the base of a registration: the given one, or that of the peer if none is given (RFC
/// 9176 section 5).
#[tactic(auto, using(record_model::proofs::PeerBases::peer_base_is_base))]
fn registered_base(alloc: Global, given: Option<Text>, peer: Peer) -> Result<Text, Starved>
    requires { IfSome given (λ base. is_base base ≡ true) }
    ensures fits { IsHost peer.host }
    ensures value { IfOk result (λ base. base ≡ registered_base given peer) }
    ensures base { IfOk result (λ base. is_base base ≡ true) }
{
    match given {
        Some(base) => Ok(base),
        None => base_of(alloc, &peer),
    }
}

/// Returns the links of a body against a base, or the first fault of the body. The base may be
/// empty.
fn items_of(alloc: Global, base: &str, body: &[u8]) -> Result<Items, DraftFault>
    requires { is_without_query (reference base.now) ≡ true }
    ensures { BodyReads base.now body.now result }
{
    let listed = usize::saturating_add(base.len(), body.len());
    let base = parts_without_query(base);
    match check(body) {
        Ok(links) => {
            let builder = LinksBuilder::with_room(alloc, body.len(), listed)?;
            read_links(alloc, &base, links, builder)
        }
        Err(LinkBad { at }) => Err(DraftFault::Links(at)),
    }
}

/// Returns the links of a record, shared, if it has this base and this body is the source of its
/// links. They are then the links of the body. Returns `Starved` if memory runs out.
fn shared(stored: &Record, base: &Text, body: &[u8]) -> Result<Option<Items>, Starved>
    requires { IsOfBody stored.now }
    ensures { IfOk result (λ items. IfSome items (IsBody base.now body.now)) }
{
    if stored.base != *base {
        return Ok(None);
    }
    if stored.items.source().as_bytes() != body {
        return Ok(None);
    }
    let items = stored.items.share()?;
    Ok(Some(items))
}

/// Returns the links of a body against a base, or the first fault of the body. The links are shared
/// with the record if it has this base and this body.
fn items_again(
    alloc: Global,
    base: &Text,
    body: &[u8],
    stored: &Record,
) -> Result<Items, DraftFault>
    requires base { is_base base.now ≡ true }
    requires stored { IsOfBody stored.now }
    ensures { BodyReads base.now body.now result }
{
    match shared(stored, base, body)? {
        Some(items) => Ok(items),
        None => items_of(alloc, base.as_str(), body),
    }
}

/// Returns the links of a body against a base, or the first fault of the body. The links are shared
/// with the record if there is one and it has this base and this body.
fn items_sharing(
    alloc: Global,
    base: &Text,
    body: &[u8],
    stored: Option<&Record>,
) -> Result<Items, DraftFault>
    requires base { is_base base.now ≡ true }
    requires stored { IfSome stored (λ old. IsOfBody old.now) }
    ensures { BodyReads base.now body.now result }
{
    match stored {
        Some(stored) => items_again(alloc, base, body, stored),
        None => items_of(alloc, base.as_str(), body),
    }
}

/// Returns the draft that [`build`](crate::build) returns, and shares the links of a record if it
/// can.
///
/// The draft shares them if the record has the base of the draft and the body is the source of its
/// links. The links are the same then, and the body is not read.
///
/// # Requires
///
/// The base of the parameters, if there is one, is one that a registration may give. The links of
/// the record, if there is one, are those of a body that is not refused, against its base.
///
/// # Errors
///
/// The first that applies, over the whole body. If none applies, the only error is `Starved`, which
/// can take the place of any result and leaves nothing.
/// - `Links` if the body is no link document.
/// - `Reference` if a target or an anchor is no URI-reference.
/// - `Limited` if a link has an anchor with a scheme and a target without one.
pub fn build_sharing(
    alloc: Global,
    params: RegParams,
    peer: Peer,
    body: &[u8],
    stored: Option<&Record>,
) -> Result<Draft, DraftFault>
    requires base { IfSome params.base (λ base. is_base base ≡ true) }
    requires stored { IfSome stored (λ old. IsOfBody old.now) }
    ensures draft { IfOk result (λ draft. option_map (drafted peer params)
        (linked_references body.now) ≡ Some draft) }
    ensures record_of { (number : ℕ) (now : Moment)
        → IfOk result (λ draft. option_map (registered number now peer params)
        (linked_references body.now) ≡ Some (recorded number now draft)) }
    ensures good { IfOk result (λ draft. body_fault body.now ≡ None) }
    ensures limited { OnOk result (is_refused_as_limited body.now ≡ false) }
    ensures is_draft { AreAllowed params → IfOk result IsDraft }
    ensures base { IfOk result (λ draft. is_base draft.base ≡ true) }
    ensures references { IfOk result (λ draft. list_all has_references draft.items ≡ true) }
    ensures refused { IfErr result (λ fault. IsFaultOf body.now fault) }
{
    let RegParams {
        name,
        lt,
        base,
        attrs,
    } = params;
    let base_given = base.is_some();
    let base = registered_base(alloc, base, peer)?;
    let items = items_sharing(alloc, &base, body, stored)?;
    Ok(Draft {
        name,
        lt,
        base,
        base_given,
        attrs,
        items,
    })
}

/// Returns the draft of a registration, with its links against its base (RFC 9176 section 5).
///
/// The base is the given one, or that of the peer if none is given. A target or an anchor with a
/// scheme stays as it was written; any other one is resolved (RFC 3986 section 5.2). If all
/// parameters are allowed, the draft is one that a directory accepts.
///
/// # Requires
///
/// The base of the parameters, if there is one, is one that a registration may give.
///
/// # Errors
///
/// The first that applies, over the whole body. If none applies, the only error is `Starved`, which
/// can take the place of any result and leaves nothing.
/// - `Links` if the body is no link document.
/// - `Reference` if a target or an anchor is no URI-reference.
/// - `Limited` if a link has an anchor with a scheme and a target without one.
pub fn build(alloc: Global, params: RegParams, peer: Peer, body: &[u8]) -> Result<Draft, DraftFault>
    requires { IfSome params.base (λ base. is_base base ≡ true) }
    ensures draft { IfOk result (λ draft. option_map (drafted peer params)
        (linked_references body.now) ≡ Some draft) }
    ensures record_of { (number : ℕ) (now : Moment)
        → IfOk result (λ draft. option_map (registered number now peer params)
        (linked_references body.now) ≡ Some (recorded number now draft)) }
    ensures good { IfOk result (λ draft. body_fault body.now ≡ None) }
    ensures limited { OnOk result (is_refused_as_limited body.now ≡ false) }
    ensures is_draft { AreAllowed params → IfOk result IsDraft }
    ensures base { IfOk result (λ draft. is_base draft.base ≡ true) }
    ensures references { IfOk result (λ draft. list_all has_references draft.items ≡ true) }
    ensures refused { IfErr result (λ fault. IsFaultOf body.now fault) }
{
    build_sharing(alloc, params, peer, body, None)
}

/// Returns the links of a body, before there is a base.
///
/// # Errors
///
/// The first that applies, over the whole body. If none applies, the only error is `Starved`, which
/// can take the place of any result and leaves nothing.
/// - `Links` if the body is no link document.
/// - `Reference` if a target or an anchor is no URI-reference.
/// - `Limited` if a link has an anchor with a scheme and a target without one.
pub fn submitted(alloc: Global, body: &[u8]) -> Result<Submitted, DraftFault>
    ensures links { IfOk result (λ links. linked_references body.now ≡ Some links) }
    ensures good { OnOk result (body_fault body.now ≡ None) }
    ensures limited { OnOk result (is_refused_as_limited body.now ≡ false) }
    ensures refused { IfErr result (λ fault. IsFaultOf body.now fault) }
{
    let items = items_of(alloc, "", body)?;
    Ok(Submitted::of(items))
}
