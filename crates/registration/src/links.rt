//! The links of a document, read one after another against the base of a registration.
ghost use Rattle.std.specs.Prelude.{◌≡◌, ◌<◌, ◌+◌, ◌≤◌, ◌^◌, ◌∷◌, ◌++◌, [], length, option_map};
ghost use Rattle.std.specs.Prelude.{IfOk};
ghost use Rattle.std.specs.String.{string_bytes};
ghost use Rattle.rd_base.specs.Drafted.{drafted};
ghost use Rattle.rd_base.specs.PairRefs.{text_seen};
ghost use Rattle.link_model.specs.Documents.{link_text};
ghost use Rattle.link_format.specs.Views.{link_seen};
ghost use Rattle.registration.specs.LinkParameters.{WaitsForNone};
ghost use Rattle.registration.specs.Links.{AnchorReads, LinkReads, Reads, added};
ghost use Rattle.registration.specs.Links.{is_limited_as_referred, noted, room_of};

use crate::drafts::DraftFault;
use crate::link_parameters::{Anchor, Gathered, gather};
use crate::references::{Referred, refer};
use link_format::{LinkRef, Links};
use rd_base::{Items, LinkParts, LinksBuilder, Starved};
use ref_resolve::Parts;
use std::alloc::Global;

/// The result of reading a link, with the links before it.
#[derive(Debug, Drop)]
struct Read {
    /// The links against the base.
    builder: LinksBuilder,
    /// Whether the last link is in the Limited Link Format (RFC 9176 appendix C).
    is_limited: bool,
    /// The offset in the body at which the last link ends, in octets.
    end: usize,
}

/// Writes an anchor against the base, if there is one, and returns whether it has a scheme. Returns
/// `Reference` if it is no URI-reference.
fn refer_anchor(
    alloc: Global,
    base: &Parts<'_>,
    anchor: &Option<Anchor>,
    referred: &mut String,
) -> Result<Option<bool>, DraftFault>
    ensures { AnchorReads base.now anchor.now (string_bytes referred.new) result }
{
    let Some(anchor) = anchor else {
        return Ok(None);
    };
    match refer(alloc, base, anchor.text.as_str(), referred)? {
        None => Err(DraftFault::Reference(anchor.offset)),
        Some(has_scheme) => Ok(Some(has_scheme)),
    }
}

/// Returns whether a link is in the Limited Link Format (RFC 9176 appendix C): its target has a
/// scheme, or it has no anchor with a scheme. The arguments say whether the target and the anchor,
/// if there is one, have a scheme.
fn is_limited(target: bool, anchor: Option<bool>) -> bool
    ensures { result ≡ is_limited_as_referred target anchor }
{
    match anchor {
        None => true,
        Some(anchor) => target || !anchor,
    }
}

/// Returns the text of an anchor as it was submitted, if there is one.
fn submitted_text(anchor: &Option<Anchor>) -> Option<&str>
    ensures { text_seen result ≡ option_map (λ a. a.text) anchor.now }
{
    match anchor {
        None => None,
        Some(anchor) => Some(anchor.text.as_str()),
    }
}

/// Returns the text of an anchor against the base, if there is one.
fn referred_text(anchor: Option<bool>, referred: &str) -> Option<&str>
    ensures { text_seen result ≡ option_map (λ _. referred.now) anchor }
{
    match anchor {
        None => None,
        Some(_) => Some(referred),
    }
}

/// Returns the builder with one more link, which gets the attributes that wait for it. The link has
/// its target and its anchor as they were submitted, and both against the base.
fn with_referred(
    builder: LinksBuilder,
    target_ref: &str,
    submitted: &Option<Anchor>,
    has_scheme: Option<bool>,
    referred: &Referred,
) -> Result<LinksBuilder, Starved>
    ensures { IfOk result (λ new. new ≡ drafted (builder.links
        ++ added target_ref.now submitted.now has_scheme referred.now builder ∷ []) [] []) }
{
    let anchor_ref = submitted_text(submitted);
    let target = referred.target.as_str();
    let anchor = referred_text(has_scheme, referred.anchor.as_str());
    let parts = LinkParts {
        target_ref,
        anchor_ref,
        target,
        anchor,
    };
    builder.with_link(&parts)
}

/// Reads one more link, which begins at this octet of the body, against a base. Returns `Reference`
/// if its target or its anchor is no URI-reference.
fn read_link(
    alloc: Global,
    base: &Parts<'_>,
    link: &LinkRef<'_>,
    start: usize,
    builder: LinksBuilder,
    referred: &mut Referred,
) -> Result<Read, DraftFault>
    requires fits { start + length (link_text (link_seen link.now)) < 2 ^ 63 }
    requires waits { WaitsForNone builder }
    ensures { LinkReads base.now start (link_seen link.now) builder.links result }
{
    let Some(has_scheme) = refer(alloc, base, link.target, &mut referred.target)? else {
        return Err(DraftFault::Reference(start + 1));
    };
    let gathered = gather(alloc, link, start + link.target.len() + 2, builder)?;
    let Gathered {
        builder,
        anchor: submitted,
        end,
    } = gathered;
    let anchor = refer_anchor(alloc, base, &submitted, &mut referred.anchor)?;
    let is_limited = is_limited(has_scheme, anchor);
    let builder = with_referred(builder, link.target, &submitted, anchor, referred)?;
    Ok(Read {
        builder,
        is_limited,
        end,
    })
}

/// Returns the index of the first link that is not limited, after the link at `index` was read.
fn noted(unlimited: Option<usize>, is_limited: bool, index: usize) -> Option<usize>
    ensures { result ≡ noted index is_limited unlimited }
{
    if unlimited.is_some() || is_limited {
        return unlimited;
    }
    Some(index)
}

/// Returns the links of a document against a base. The builder has no link yet.
///
/// # Errors
///
/// The first that applies. `Starved` can take the place of any result.
/// - `Reference` if a target or an anchor is no URI-reference.
/// - `Limited` if a link is not in the Limited Link Format (RFC 9176 appendix C).
pub fn read_links(
    alloc: Global,
    base: &Parts<'_>,
    links: Links<'_>,
    builder: LinksBuilder,
) -> Result<Items, DraftFault>
    requires room { room_of links ≤ 2 ^ 63 }
    requires empty { builder ≡ drafted [] [] [] }
    ensures { Reads base.now links.entry result }
{
    let mut builder = builder;
    let mut referred = Referred::new(alloc);
    let mut left = links;
    let mut start = 0;
    let mut index = 0;
    let mut unlimited = None;
    'links: while let Some(link) = left.next() {
        let read = read_link(alloc, base, &link, start, builder, &mut referred)?;
        unlimited = noted(unlimited, read.is_limited, index);
        start = read.end + 1;
        index += 1;
        builder = read.builder;
    }
    match unlimited {
        Some(index) => Err(DraftFault::Limited(index)),
        None => Ok(builder.build(alloc)?),
    }
}
