//! Links against another base (RFC 9176 section 5.3.1).
ghost use Rattle.std.specs.Prelude.{◌≡◌, true, map, option_map, IfOk, OnOk};
ghost use Rattle.std.specs.List.{list_all};
ghost use Rattle.std.specs.String.{string_bytes};
ghost use Rattle.rd_base.specs.PairRefs.{text_seen};
ghost use Rattle.record_model.specs.Bodies.{is_reference};
ghost use Rattle.record_model.specs.Parameters.{is_base};
ghost use Rattle.reference_model.specs.References.{where_present};
ghost use Rattle.record_model.specs.Records as records;
ghost use Rattle.registration.specs.Drafts.{has_references};
ghost use Rattle.registration.specs.LinkParameters.{WaitsForNone};
ghost use Rattle.registration.specs.OtherBases.{AddsRebased, AreBased, IsBased};

use crate::references::{Referred, refer};
use rd_base::{Items, Link, LinkParts, LinksBuilder, Starved, Text};
use ref_resolve::{Parts, parts_without_query};
use std::alloc::Global;

/// Writes a reference against a base.
fn refer_again(
    alloc: Global,
    base: &Parts<'_>,
    text: &str,
    referred: &mut String,
) -> Result<(), Starved>
    requires { is_reference text.now ≡ true }
    ensures { OnOk result (IsBased base.now text.now (string_bytes referred.new)) }
{
    match refer(alloc, base, text, referred)? {
        Some(_) => Ok(()),
        None => unreachable!(),
    }
}

/// Writes a reference against a base, if there is one.
fn refer_where_present(
    alloc: Global,
    base: &Parts<'_>,
    text: Option<&str>,
    referred: &mut String,
) -> Result<(), Starved>
    requires { where_present is_reference (text_seen text) ≡ true }
    ensures { OnOk result (AreBased base.now (text_seen text.entry) (string_bytes referred.new)) }
{
    match text {
        None => Ok(()),
        Some(text) => refer_again(alloc, base, text, referred),
    }
}

/// Returns the text that was written for a reference, if there is one.
fn written<'a>(text: Option<&str>, referred: &'a str) -> Option<&'a str>
    ensures { text_seen result ≡ option_map (λ _. referred.now) (text_seen text.entry) }
{
    match text {
        None => None,
        Some(_) => Some(referred),
    }
}

/// Returns the builder with one more link, against another base.
fn with_rebased(
    alloc: Global,
    base: &Parts<'_>,
    link: &Link<'_>,
    builder: LinksBuilder,
    referred: &mut Referred,
) -> Result<LinksBuilder, Starved>
    requires references { has_references link.now ≡ true }
    requires waits { WaitsForNone builder }
    ensures { IfOk result (λ new. AddsRebased base.now link.now builder.links new) }
{
    let target_ref = link.target_ref();
    let anchor_ref = link.anchor_ref();
    refer_again(alloc, base, target_ref, &mut referred.target)?;
    refer_where_present(alloc, base, anchor_ref, &mut referred.anchor)?;
    let target = referred.target.as_str();
    let anchor = written(anchor_ref, referred.anchor.as_str());
    let parts = LinkParts {
        target_ref,
        anchor_ref,
        target,
        anchor,
    };
    let builder = builder.with_pairs_of(link)?.with_link(&parts)?;
    Ok(builder)
}

/// Returns the links against another base. A target or an anchor with a scheme stays as it was
/// submitted; any other one is resolved anew.
///
/// # Requires
///
/// The targets and anchors of the links are URI-references as submitted, as in the links that
/// [`build`](crate::build) returns. The base is one that a registration may give, or that of a
/// peer.
///
/// # Errors
///
/// `Starved` if memory runs out.
pub fn rebased(alloc: Global, items: &Items, base: &Text) -> Result<Items, Starved>
    requires references { list_all has_references items.now ≡ true }
    requires base { is_base base.now ≡ true }
    ensures items { IfOk result (λ new. new ≡ map (records.rebased base.now) items.now) }
    ensures references { IfOk result (λ new. list_all has_references new ≡ true) }
{
    let base = parts_without_query(base.as_str());
    let none = LinksBuilder::with_room_of(alloc, items)?;
    let mut builder = none;
    let mut referred = Referred::new(alloc);
    let mut left = items.links();
    'links: while let Some(link) = left.next() {
        builder = with_rebased(alloc, &base, &link, builder, &mut referred)?;
    }
    builder.build(alloc)
}
