//! Listings and sources built for requests that depend on the journal, and the kept answers with
//! them (RFC 7959 section 2.4).
ghost use Rattle.std.specs.Prelude.{◌≡◌, ◌<◌, ◌≤◌, ℕ, true, false, List, length, None};
ghost use Rattle.std.specs.Prelude.{IfOk, option_map};
ghost use Rattle.std.specs.Arc.{arc_value};
ghost use Rattle.message_model.specs.RequestKey.{key_in};
ghost use Rattle.history_model.specs.declared.entries.Entry.{Entry};
ghost use Rattle.history_model.specs.Versions.{VersionStandsFor};
ghost use Rattle.event_model.specs.Events.{Event};
ghost use Rattle.event_model.specs.KeptAnswers.{kept_answer};
ghost use Rattle.transfers.specs.TransferEvents.{TransfersStandFor};
ghost use Rattle.journal_model.specs.Sought.{has_tag, sought_in};
ghost use Rattle.coap_answers.specs.Outboxes.{most_datagrams};
ghost use Rattle.coap_answers.specs.Sendings.{IsStepOf, Sends};
ghost use Rattle.rd_request.specs.Accepted.{message_of};
ghost use Rattle.rd_desk.specs.parts.Lookups.{answer_listed, answer_at, answer_found, IsFormed};
ghost use Rattle.rd_desk.specs.parts.Lookups.{IsReadied};
ghost use Rattle.rd_desk.specs.parts.Lookups.{IsJoining};
ghost use Rattle.rd_desk.specs.parts.Lookups.{IsUsed};

use crate::lookup::keeps::with_listing;
use crate::{Mids, Outbox};
use coap_answers::{answer, body_reply, szx_of};
use coap_options::request_key;
use directory_core::Directory;
use exchange_core::Token;
use observation::Joining;
use rd_base::{Bytes, Key, Moment, Peer, Query, Starved, Tag};
use rd_look::{links_at, listing_at, send_block};
use rd_request::Request;
use std::alloc::Global;
use std::marker::Brand;
use std::sync::Arc;
use std::sync::ledger::Blank;
use transfers::{Ready, Transfers};

/// A listing or a source under its entity tag. The body is shared and never copied.
#[derive(Drop)]
pub(crate) struct Listed {
    /// The listing or the source.
    pub body: Arc<Bytes>,
    /// Its entity tag.
    pub tag: Tag,
}

/// A listing or a source built for a request, with the memory needed to keep it.
#[derive(Drop)]
pub(crate) struct Formed {
    /// The listing or the source.
    pub listed: Listed,
    /// The kept answers with it after them, if it is to be kept for its later blocks.
    pub ready: Option<Ready>,
}

/// Returns the listing of a query in a version at a moment, which is no earlier than the version's
/// last entry and last sweep.
pub(crate) fn listed_at(
    alloc: Global,
    version: &Directory,
    now: Moment,
    query: &Query,
) -> Result<Listed, Starved>
    requires after_at { version.now.at ≤ now.0 }
    requires after_sweep { version.now.swept ≤ now.0 }
    ensures { (history : List Entry)
        → VersionStandsFor 0 history version.now
        → IfOk result (λ listed. answer_listed listed ≡ answer_at history now.0 query.now) }
{
    let octets = listing_at::<Brand>(Blank::new(1), version, now, query)?;
    let body = Arc::new(alloc, octets)?;
    let tag = version.tag(now);
    Ok(Listed { body, tag })
}

/// Returns the listing of a lookup, or the source of a read, in a version at a moment. Returns
/// `None` if the registration to read is not live. The moment is no earlier than the version's last
/// entry and last sweep.
pub(crate) fn found_at(
    alloc: Global,
    version: &Directory,
    now: Moment,
    request: &Request<'_>,
) -> Result<Option<Listed>, Starved>
    requires seeks { has_tag (sought_in (message_of request.now)) ≡ true }
    requires after_at { version.now.at ≤ now.0 }
    requires after_sweep { version.now.swept ≤ now.0 }
    ensures { (history : List Entry)
        → VersionStandsFor 0 history version.now
        → IfOk result (λ found. option_map answer_listed found
        ≡ answer_found history now.0 (message_of request.now)) }
{
    let Some(octets) = links_at(alloc, version, now, request)? else {
        return Ok(None);
    };
    let body = Arc::new(alloc, octets)?;
    let current = version.tag(now);
    Ok(Some(Listed { body, tag: current }))
}

/// Allocates what is needed to keep a listing or a source, if it is to be kept.
pub(crate) fn form(
    transfers: &Transfers,
    alloc: Global,
    now: Moment,
    peer: Peer,
    request: &Request<'_>,
    keep: bool,
    listed: Listed,
) -> Result<Formed, Starved>
    ensures formed { IfOk result (IsFormed keep (answer_listed listed)) }
    ensures ready { IfOk result (IsReadied now.0 peer (key_in (message_of request.now))
        transfers.now.answers) }
{
    if !keep {
        return Ok(Formed {
            listed,
            ready: None,
        });
    }
    let ready = with_listing(
        transfers,
        alloc,
        now,
        peer,
        request,
        &listed.body,
        listed.tag,
    )?;
    Ok(Formed {
        listed,
        ready: Some(ready),
    })
}

/// Returns the client that asks to observe, from its request and the listing that answers it.
pub(crate) fn joining_by(
    alloc: Global,
    peer: Peer,
    request: &Request<'_>,
    listed: &Listed,
) -> Result<Joining, Starved>
    ensures { IfOk result (IsJoining peer (message_of request.now)
        (arc_value listed.now.body)) }
{
    let key = request_key(alloc, &request.meaning)?;
    let body = Arc::try_clone(&listed.body)?;
    Ok(Joining {
        peer,
        token: Token::of(request.meaning.view.token.octets),
        key,
        szx: szx_of(&request.asked),
        body,
    })
}

/// Sends the requested block of the answer kept under a peer and a key, and returns whether there
/// is one. This counts as a use of it, even if the block lies past its end. Does not allocate.
pub(crate) fn send_kept(
    transfers: &mut Transfers,
    now: Moment,
    mids: &mut Mids,
    peer: Peer,
    request: &Request<'_>,
    key: &Key,
    out: &mut Outbox,
) -> bool
    requires room { length out.old < most_datagrams }
    ensures used { result ≡ true
        → (at : ℕ) (events : List Event)
        → TransfersStandFor at events transfers.old
        → IsUsed at now.0 peer key.now (message_of request.now) events transfers.new out.old
        out.new mids.old mids.new }
    ensures none { result ≡ false
        → (at : ℕ) (events : List Event)
        → TransfersStandFor at events transfers.old
        → kept_answer now.0 (peer, key.now) events ≡ None }
    ensures unchanged { result ≡ false
        → (transfers.new ≡ transfers.old) × (out.new ≡ out.old) × (mids.new ≡ mids.old) }
{
    if let Some((body, tag)) = transfers.kept_block(now, peer, key) {
        send_block(mids, peer, request, Some(tag), None, body.as_slice(), out);
        return true;
    }
    false
}
