//! The links of the directory itself (RFC 9176 section 4.1, RFC 6690 section 4).
ghost use Rattle.std.specs.Prelude.{◌≡◌, ◌*◌, ◌++◌, ◌∷◌, ◌^◌, ◌<◌, ℕ, List, [], length, IfOk, OnOk};
ghost use Rattle.rd_base.specs.Drafted.{drafted};
ghost use Rattle.record_model.specs.Discovery as discovery_model;
ghost use Rattle.record_model.specs.ListingLines.{page_of};
ghost use Rattle.listing.specs.AppendedLines.{shown_lines};
ghost use Rattle.listing.specs.OwnLinks.{observable_pairs, observed_text, own_item};

use crate::parts::append_links;
use rd_base::{Bytes, Items, LinkParts, LinksBuilder, Query, Starved};
use std::alloc::Global;

/// Returns the builder. Marks the next link as that of an observable resource if `observable` holds
/// (RFC 7641 section 6).
fn with_observed(builder: LinksBuilder, observable: bool) -> Result<LinksBuilder, Starved>
    ensures { IfOk result (λ more. more ≡ drafted builder.links
        (observed_text observable builder.raw) (builder.pairs ++ observable_pairs observable)) }
{
    if observable {
        return builder.with_pair(";obs", "obs", "");
    }
    Ok(builder)
}

/// Returns the builder with one more link of the directory itself. The first attribute of the link
/// is its type.
fn with_own_link(
    builder: LinksBuilder,
    path: &str,
    typed: &str,
    kind: &str,
    observable: bool,
) -> Result<LinksBuilder, Starved>
    requires { builder ≡ drafted builder.links [] [] }
    ensures { IfOk result (λ more. more ≡ drafted (builder.links
        ++ own_item path.now typed.now kind.now observable ∷ []) [] []) }
{
    let typed = builder.with_pair(typed, "rt", kind)?;
    let formatted = typed.with_pair(";ct=40", "ct", "40")?;
    let observed = with_observed(formatted, observable)?;
    observed.with_link(&LinkParts {
        target_ref: path,
        anchor_ref: None,
        target: path,
        anchor: None,
    })
}

/// Returns the links of the directory itself.
#[tactic(auto, using(crate::proofs::OwnLaws::own_links))]
fn make_own_links(alloc: Global) -> Result<Items, Starved>
    ensures { IfOk result (λ items. items ≡ discovery_model.own_items) }
{
    let none = LinksBuilder::new(alloc);
    let one = with_own_link(none, "/rd", ";rt=\"core.rd\"", "core.rd", false)?;
    let two = with_own_link(
        one,
        "/rd-lookup/ep",
        ";rt=\"core.rd-lookup-ep\"",
        "core.rd-lookup-ep",
        true,
    )?;
    let three = with_own_link(
        two,
        "/rd-lookup/res",
        ";rt=\"core.rd-lookup-res\"",
        "core.rd-lookup-res",
        true,
    )?;
    three.build(alloc)
}

/// Returns how many lines precede this page, if each page has `count` lines.
fn page_start(page: u32, count: u32) -> u64
    ensures { result ≡ page * count }
{
    u64::from(page) * u64::from(count)
}

/// Returns how many lines precede the page that a query requests, and the most lines of that page.
pub fn page_bounds(query: &Query) -> (u64, u64)
    ensures { (lines : List (List ℕ)) → length lines < 2 ^ 64
        → page_of query.now.page query.now.count lines ≡ shown_lines result.0 result.1 lines }
{
    match query.count {
        Some(count) => (page_start(query.page.unwrap_or(0), count), u64::from(count)),
        None => (0, u64::MAX),
    }
}

/// Appends the links of the directory itself that the query lists, cut by its page and count.
fn append_own_links(query: &Query, items: &Items, into: &mut Bytes) -> Result<(), Starved>
    requires few { length items.now < 2 ^ 64 }
    requires own { items.now ≡ discovery_model.own_items }
    requires empty { into.old ≡ [] }
    ensures { OnOk result (into.new ≡ discovery_model.discovery query.now) }
{
    let (skip, most) = page_bounds(query);
    append_links(query, None, items, skip, most, into)?;
    Ok(())
}

/// Returns the payload for a discovery request (RFC 9176 section 4.1, RFC 6690 section 4).
///
/// It has the links of the directory itself that each criterion matches by themselves, cut by page
/// and count.
///
/// # Errors
///
/// `Starved` if memory runs out.
pub fn discovery(alloc: Global, query: &Query) -> Result<Bytes, Starved>
    ensures { IfOk result (λ text. text ≡ discovery_model.discovery query.now) }
{
    let items = make_own_links(alloc)?;
    let mut text = Bytes::new(alloc);
    append_own_links(query, &items, &mut text)?;
    Ok(text)
}
