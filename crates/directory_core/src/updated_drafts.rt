//! The draft that an update makes of a registration (RFC 9176 section 5.3.1).
ghost use Rattle.std.specs.Prelude.{◌≡◌, ◌<◌, ◌^◌, [], true, false, not, filter, map, None, IfOk};
ghost use Rattle.std.specs.Prelude.{IfSome};
ghost use Rattle.std.specs.List.{list_all};
ghost use Rattle.rd_base.specs.Peers.{IsHost};
ghost use Rattle.rd_base.specs.declared.moments.Moment.{Moment};
ghost use Rattle.record_model.specs.AllowedParameters.{IsAllowedChange};
ghost use Rattle.record_model.specs.Bases as bases;
ghost use Rattle.record_model.specs.Parameters.{is_base};
ghost use Rattle.record_model.specs.Records as records;
ghost use Rattle.registration.specs.Drafts.{has_references, recorded};
ghost use Rattle.registration.specs.Submissions.{AreOfBody};
ghost use Rattle.directory_core.specs.AfterEntries.{IsSound};
ghost use Rattle.directory_core.specs.LinksAgainst.{AreAfter, AreAgainst};
ghost use Rattle.directory_core.specs.declared.links_after.LinksAfter.TheVariants as after;

use crate::links_after::LinksAfter;
use rd_base::{Items, Pair, Pairs, Peer, Record, Starved, Text, UpdateParams, base_of};
use registration::{Draft, rebased};
use std::alloc::Global;

/// Returns the base that a peer's address gives.
#[tactic(auto, using(record_model::proofs::PeerBases::peer_base_is_base))]
fn base_of_peer(alloc: Global, peer: Peer) -> Result<Text, Starved>
    ensures fits { IsHost peer.host }
    ensures value { IfOk result (λ base. base ≡ bases.updated_base None false [] peer) }
    ensures base { IfOk result (λ base. is_base base ≡ true) }
{
    base_of(alloc, &peer)
}

/// Returns the base after an update: the given one, or else an earlier given one, or else that of
/// the peer.
fn base_after(alloc: Global, given: Option<Text>, old: &Record, peer: Peer) -> Result<Text, Starved>
    requires given { IfSome given (λ base. is_base base ≡ true) }
    requires old { is_base old.now.base ≡ true }
    ensures value { IfOk result (λ base. base ≡ bases.updated_base given old.now.base_given
        old.now.base peer) }
    ensures base { IfOk result (λ base. is_base base ≡ true) }
{
    match given {
        Some(base) => Ok(base),
        None => {
            if old.base_given {
                return Ok(old.base.clone()?);
            }
            base_of_peer(alloc, peer)
        }
    }
}

/// Returns whether one of these attributes has the same name as `pair`.
fn is_replaced(given: &[Pair], pair: &Pair) -> bool
    ensures { result ≡ records.is_replaced given.now pair.now }
{
    given
        .iter()
        .any(|other| pair.name.as_bytes() == other.name.as_bytes())
}

/// Returns copies of the attributes that are not replaced.
fn left_of(alloc: Global, given: &[Pair], old: &[Pair]) -> Result<Vec<Pair>, Starved>
    ensures { IfOk result (λ left. left.items ≡ filter
        (λ pair. not (records.is_replaced given.now pair)) old.now) }
{
    let mut left = Vec::new(alloc);
    'pairs: for pair in old {
        if !is_replaced(given, pair) {
            left.push(pair.clone()?)?;
        }
    }
    Ok(left)
}

/// Returns the extra attributes after an update: old ones with a name that it gives are dropped,
/// and its own are appended.
#[tactic(auto, unfolding(record_model::specs::Records::updated_attributes))]
fn attributes_after(alloc: Global, given: Pairs, old: &Pairs) -> Result<Pairs, Starved>
    ensures { IfOk result (λ pairs. pairs ≡ records.updated_attributes given old.now) }
{
    let mut pairs = left_of(alloc, given.as_slice(), old.as_slice())?;
    let mut more = given.into_vec();
    pairs.append(&mut more)?;
    Ok(Pairs::of(pairs))
}

/// Returns the links of a record against a base, and what the change did to them. If it is the
/// record's base, the links are shared unchanged. Otherwise each is resolved again (RFC 9176
/// section 5.3.1).
fn items_against(alloc: Global, old: &Record, base: &Text) -> Result<(Items, LinksAfter), Starved>
    requires references { list_all has_references old.now.items ≡ true }
    requires against { AreAgainst old.now.base old.now.items }
    requires of_body { AreOfBody old.now.items }
    requires base { is_base base.now ≡ true }
    ensures items { IfOk result (λ made. made.0 ≡ map (records.rebased base.now) old.now.items) }
    ensures references { IfOk result (λ made. list_all has_references made.0 ≡ true) }
    ensures against { IfOk result (λ made. AreAgainst base.now made.0) }
    ensures of_body { IfOk result (λ made. AreOfBody made.0) }
    ensures links { IfOk result (λ made. AreAfter made.1 old.now.items made.0) }
    ensures kept { IfOk result (λ made. base.now ≡ old.now.base → made.1 ≡ after.Kept) }
{
    if *base == old.base {
        let items = old.items.share()?;
        return Ok((items, LinksAfter::Kept));
    }
    let items = rebased(alloc, &old.items, base)?;
    Ok((items, LinksAfter::Replaced))
}

/// Returns what an update from a peer makes of a record, as a draft under its name, and what the
/// change did to its links. They are resolved against the new base, and are kept if the base did
/// not change.
#[rattlefmt::skip]
#[tactic(
    auto,
    unfolding(record_model::specs::Records::updated, registration::specs::Drafts::recorded)
)]
pub(crate) fn updated_draft(
    alloc: Global,
    old: &Record,
    change: UpdateParams,
    peer: Peer,
) -> Result<(Draft, LinksAfter), Starved>
    requires change { IsAllowedChange change }
    requires lasting { (0 < old.now.lt) × (old.now.lt < 2 ^ 32) }
    requires references { list_all has_references old.now.items ≡ true }
    requires against { AreAgainst old.now.base old.now.items }
    requires of_body { AreOfBody old.now.items }
    requires base { is_base old.now.base ≡ true }
    ensures made { IfOk result (λ made. (now : Moment)
        → recorded old.now.number now made.0 ≡ records.updated now peer change old.now) }
    ensures named { IfOk result (λ made. made.0.name ≡ old.now.name) }
    ensures sound { IfOk result (λ made. IsSound made.0) }
    ensures links { IfOk result (λ made. AreAfter made.1 old.now.items made.0.items) }
    ensures kept { IfOk result (λ made. made.0.base ≡ old.now.base → made.1 ≡ after.Kept) }
{
    let UpdateParams { lt, base, attrs } = change;
    let base_given = base.is_some() || old.base_given;
    let base = base_after(alloc, base, old, peer)?;
    let (items, links) = items_against(alloc, old, &base)?;
    let attrs = attributes_after(alloc, attrs, &old.attrs)?;
    let name = old.name.clone()?;
    let draft = Draft {
        name,
        lt: lt.unwrap_or(old.lt),
        base,
        base_given,
        attrs,
        items,
    };
    Ok((draft, links))
}
