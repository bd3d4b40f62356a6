//! Answers to lookups, reads of a registration, and discovery, from one version of the directory
//! (RFC 9176 sections 4.1, 5.3.3 and 6, RFC 7252 section 5.10.6.2).
ghost use Rattle.std.specs.Prelude.{◌≡◌, ◌≤◌, ◌<◌, ◌^◌, ℕ, true, false, List, length, Ok, Some};
ghost use Rattle.std.specs.Prelude.{IfOk, option_and_then};
ghost use Rattle.std.specs.Option.{ForSome};
ghost use Rattle.message_model.specs.Reading.{reading};
ghost use Rattle.message_model.specs.Spelling.{spelling};
ghost use Rattle.coap_message.specs.Views.{message_in};
ghost use Rattle.history_model.specs.declared.entries.Entry.{Entry};
ghost use Rattle.history_model.specs.Listing.{listing, tag};
ghost use Rattle.history_model.specs.Sources.{source};
ghost use Rattle.history_model.specs.Versions.{VersionStandsFor};
ghost use Rattle.event_model.specs.declared.notes.Note.{Note};
ghost use Rattle.journal_model.specs.declared.steps.Step.{Step};
ghost use Rattle.journal_model.specs.Bodies as bodies_of;
ghost use Rattle.journal_model.specs.Effects.{answering};
ghost use Rattle.journal_model.specs.Looks as looks_of;
ghost use Rattle.journal_model.specs.Machine.{is_look_datagram};
ghost use Rattle.journal_model.specs.Requests as requests_of;
ghost use Rattle.journal_model.specs.Sought.{body, has_tag, sought_in};
ghost use Rattle.coap_answers.specs.Outboxes.{most_datagrams};
ghost use Rattle.coap_answers.specs.Replies.{IsReply, reply_said};
ghost use Rattle.coap_answers.specs.Sendings.{IsStepOf, Sends};
ghost use Rattle.rd_request.specs.Accepted.{message_of};
ghost use Rattle.coap_answers.specs.Replies.{tag_octets};
ghost use Rattle.rd_look.specs.Looking.{look_found, is_starved_look, look_done, look_left, IsHeld};

use crate::KeepJob;
use coap_answers::{Mids, Outbox, Reply, answer, answer_starved, body_reply, is_long};
use coap_options::{Meaning, etags};
use directory_core::Directory;
use listing::discovery;
use message_model::codes::{NOT_FOUND, VALID};
use rd_base::{Bytes, Moment, Peer, Query, Starved, Steps, Tag};
use rd_request::{Incoming, Request, Resource, query_of, read_datagram};
use std::alloc::Global;
use std::marker::Brand;
use std::sync::ledger::{Blank, Ledger};

/// The result of a look.
#[derive(Drop)]
pub enum Looked {
    /// The look has been answered.
    Done,
    /// The listing or source is longer than the requested block. Nothing has been sent yet, and the
    /// worker has this job.
    Held(KeepJob),
    /// Memory ran out, and the look has been answered 5.00.
    Starved,
}

/// A listing, or the source of a registration, under its entity tag.
#[derive(Drop)]
struct TaggedLinks {
    /// The listing or the source.
    octets: Bytes,
    /// Its entity tag.
    tag: Tag,
}

/// What a look finds in a version.
#[derive(Drop)]
enum Found {
    /// The client already has the listing or the source, under this tag.
    Valid(Tag),
    /// The listing or the source.
    Links(TaggedLinks),
    /// The links of the directory itself, which have no tag.
    OwnLinks(Bytes),
    /// The registration is not live, and has no source.
    NotLive,
}

/// Returns whether a tag is among those that the request names (RFC 7252 section 5.10.6.2).
fn names_tag(meaning: &Meaning<'_>, tag: Tag) -> bool
    ensures { result ≡ looks_of.names_tag tag.0 (message_in meaning.now.view) }
{
    'tags: for named in etags(meaning) {
        if tag.0.as_slice() == named {
            return true;
        }
    }
    false
}

/// Returns the listing of a query at a moment. Contracts count the steps of the lookup on `blank`.
///
/// # Requires
///
/// `now` is no earlier than the version's last entry and last sweep. `blank` is of the ledger `L`,
/// and has its number of parts, at least 1. For `Brand`, pass `Blank::new(1)`.
///
/// # Errors
///
/// `Starved` if memory runs out.
pub fn listing_at<L: Ledger>(
    blank: Blank,
    version: &Directory,
    now: Moment,
    query: &Query,
) -> Result<Bytes, Starved>
    requires name { blank.name ≡ L.name }
    requires parts { blank.parts ≡ L.parts }
    requires some { 0 < L.parts }
    requires after_at { version.now.at ≤ now.0 }
    requires after_sweep { version.now.swept ≤ now.0 }
    ensures { (history : List Entry)
        → VersionStandsFor 0 history version.now
        → IfOk result (λ octets. octets ≡ listing query.now history now.0) }
{
    let mut steps = Steps::<L>::new(blank);
    version.lookup(query, now, &mut steps)
}

/// Returns what a lookup finds in a version at a moment. It finds its listing, unless the client
/// already has it.
fn find_listing(
    version: &Directory,
    now: Moment,
    request: &Request<'_>,
    query: &Query,
) -> Result<Found, Starved>
    requires after_at { version.now.at ≤ now.0 }
    requires after_sweep { version.now.swept ≤ now.0 }
    ensures { (history : List Entry)
        → VersionStandsFor 0 history version.now
        → IfOk result (λ found. looks_of.found_under (Some (tag history now.0))
        (message_of request.now) (listing query.now history now.0)
        ≡ look_found (message_of request.now) found) }
{
    let tag = version.tag(now);
    if names_tag(&request.meaning, tag) {
        return Ok(Found::Valid(tag));
    }
    let octets = listing_at::<Brand>(Blank::new(1), version, now, query)?;
    Ok(Found::Links(TaggedLinks { octets, tag }))
}

/// Returns what a read of the registration with a number finds in a version at a moment. It finds
/// the source, unless the client already has it or the registration is not live.
fn find_source(
    version: &Directory,
    now: Moment,
    request: &Request<'_>,
    number: u64,
) -> Result<Found, Starved>
    requires after_at { version.now.at ≤ now.0 }
    requires after_sweep { version.now.swept ≤ now.0 }
    ensures { (history : List Entry)
        → VersionStandsFor 0 history version.now
        → IfOk result (λ found. looks_of.found_or_not (Some (tag history now.0))
        (message_of request.now) (source number history now.0)
        ≡ look_found (message_of request.now) found) }
{
    let Some(octets) = version.source(number, now)? else {
        return Ok(Found::NotLive);
    };
    let current = version.tag(now);
    if names_tag(&request.meaning, current) {
        return Ok(Found::Valid(current));
    }
    Ok(Found::Links(TaggedLinks {
        octets,
        tag: current,
    }))
}

/// Returns the listing of a lookup, or the source of a read, in a version at a moment. Returns
/// `None` if the registration to read is not live.
///
/// # Requires
///
/// The request is a lookup or a read of a registration. `now` is no earlier than the version's last
/// entry and last sweep.
///
/// # Errors
///
/// `Starved` if memory runs out.
pub fn links_at(
    alloc: Global,
    version: &Directory,
    now: Moment,
    request: &Request<'_>,
) -> Result<Option<Bytes>, Starved>
    requires seeks { has_tag (sought_in (message_of request.now)) ≡ true }
    requires after_at { version.now.at ≤ now.0 }
    requires after_sweep { version.now.swept ≤ now.0 }
    ensures { (history : List Entry)
        → VersionStandsFor 0 history version.now
        → IfOk result (λ found. found
        ≡ option_and_then (λ sought. body sought history now.0)
        (sought_in (message_of request.now))) }
{
    match request.resource {
        Resource::Location(number) => version.source(number, now),
        Resource::Lookup(_) => {
            let query = query_of(alloc, request)?;
            let octets = listing_at::<Brand>(Blank::new(1), version, now, &query)?;
            Ok(Some(octets))
        }
        Resource::Core | Resource::SimpleRegistration | Resource::Registration => unreachable!(),
    }
}

/// Returns what a look finds in a version at a moment.
fn find(
    alloc: Global,
    version: &Directory,
    now: Moment,
    request: &Request<'_>,
) -> Result<Found, Starved>
    requires looks { requests_of.only_looks (message_of request.now) ≡ true }
    requires after_at { version.now.at ≤ now.0 }
    requires after_sweep { version.now.swept ≤ now.0 }
    ensures { (history : List Entry)
        → VersionStandsFor 0 history version.now
        → IfOk result (λ found. looks_of.look history now.0 (message_of request.now)
        ≡ Some (look_found (message_of request.now) found)) }
{
    match request.resource {
        Resource::Core => {
            let query = query_of(alloc, request)?;
            let octets = discovery(alloc, &query)?;
            Ok(Found::OwnLinks(octets))
        }
        Resource::Lookup(_) => {
            let query = query_of(alloc, request)?;
            find_listing(version, now, request, &query)
        }
        Resource::Location(number) => find_source(version, now, request, number),
        Resource::SimpleRegistration | Resource::Registration => unreachable!(),
    }
}

/// Returns 2.03 with this tag alone. It answers a request that names the tag of what is found (RFC
/// 7252 section 5.10.6.2).
fn still_valid(tag: Tag) -> Reply<'static>
    ensures said { reply_said result ≡ looks_of.still_valid tag.0 }
    ensures reply { IsReply result }
{
    Reply {
        code: VALID,
        tag: Some(tag),
        observe: None,
        location: None,
        format: false,
        block2: None,
        block1: None,
        payload: b"",
    }
}

/// Answers 4.04 to a read of a registration that is not live (RFC 9176 section 5.3.3).
///
/// # Requires
///
/// `out` has room for one more datagram.
pub fn answer_not_live(mids: &mut Mids, peer: Peer, request: &Request<'_>, out: &mut Outbox)
    requires room { length out.old < most_datagrams }
    ensures { (s : Step) (notes : List Note)
        → IsStepOf s peer mids.old
        → Sends (answering s (message_of request.now) looks_of.not_live notes) out.old out.new
        mids.old mids.new }
{
    let reply = Reply::plain(NOT_FOUND, b"registration");
    answer(mids, peer, &request.meaning.view, &reply, out);
}

/// Sends the requested block of a body, or the first if none is requested, with a tag and an
/// Observe value. Sends 4.00 if the block lies past the end of the body.
///
/// # Requires
///
/// An Observe value is below 2^24, and `out` has room for one more datagram.
pub fn send_block(
    mids: &mut Mids,
    peer: Peer,
    request: &Request<'_>,
    tag: Option<Tag>,
    observe: Option<u32>,
    body: &[u8],
    out: &mut Outbox,
)
    requires observe { ForSome observe (λ value. value < 2 ^ 24) }
    requires room { length out.old < most_datagrams }
    ensures { (s : Step) (notes : List Note)
        → IsStepOf s peer mids.old
        → Sends (answering s (message_of request.now)
        (bodies_of.body_reply (tag_octets tag) observe
        (requests_of.asked_block (message_of request.now)) body.now) notes) out.old out.new
        mids.old mids.new }
{
    let reply = body_reply(tag, observe, &request.asked, body);
    answer(mids, peer, &request.meaning.view, &reply, out);
}

/// Sends what was found. Holds a listing or a source instead if it is longer than the requested
/// block.
fn give(
    alloc: Global,
    mids: &mut Mids,
    peer: Peer,
    request: &Request<'_>,
    found: Found,
    out: &mut Outbox,
) -> Looked
    requires read { reading (spelling (message_of request.now)) ≡ Ok (message_of request.now) }
    requires looks { is_look_datagram (spelling (message_of request.now)) ≡ true }
    requires room { length out.old < most_datagrams }
    ensures sends { (s : Step)
        → IsStepOf s peer mids.old
        → Sends (look_done (is_starved_look result) s (message_of request.now)
        (look_found (message_of request.now) found)) out.old out.new mids.old mids.new }
    ensures held { IsHeld peer (spelling (message_of request.now))
        (look_left (is_starved_look result)
        (look_found (message_of request.now) found)) result }
{
    match found {
        Found::Valid(tag) => {
            answer(mids, peer, &request.meaning.view, &still_valid(tag), out);
            return Looked::Done;
        }
        Found::Links(tagged) => {
            return give_links(alloc, mids, peer, request, tagged, out);
        }
        Found::NotLive => {
            answer_not_live(mids, peer, request, out);
            return Looked::Done;
        }
        Found::OwnLinks(octets) => {
            send_block(mids, peer, request, None, None, octets.as_slice(), out);
            return Looked::Done;
        }
    }
}

/// Sends a listing or a source. Holds it instead if it is longer than the requested block.
fn give_links(
    alloc: Global,
    mids: &mut Mids,
    peer: Peer,
    request: &Request<'_>,
    tagged: TaggedLinks,
    out: &mut Outbox,
) -> Looked
    requires read { reading (spelling (message_of request.now)) ≡ Ok (message_of request.now) }
    requires looks { is_look_datagram (spelling (message_of request.now)) ≡ true }
    requires room { length out.old < most_datagrams }
    ensures sends { (s : Step)
        → IsStepOf s peer mids.old
        → Sends (look_done (is_starved_look result) s (message_of request.now)
        (look_found (message_of request.now) (Found.Links tagged))) out.old out.new
        mids.old mids.new }
    ensures held { IsHeld peer (spelling (message_of request.now))
        (look_left (is_starved_look result)
        (look_found (message_of request.now) (Found.Links tagged))) result }
{
    let TaggedLinks { octets, tag } = tagged;
    if !is_long(&request.asked, octets.as_slice()) {
        send_block(mids, peer, request, Some(tag), None, octets.as_slice(), out);
        return Looked::Done;
    }
    let Ok(job) = KeepJob::of(alloc, peer, request, octets, tag) else {
        answer_starved(mids, peer, &request.meaning.view, out);
        return Looked::Starved;
    };
    Looked::Held(job)
}

/// Returns the request of a datagram that is a look ([`is_look`](rd_request::is_look)).
///
/// # Requires
///
/// The datagram is a look.
pub fn look_request(datagram: &[u8]) -> Request<'_>
    requires { is_look_datagram datagram.now ≡ true }
    ensures read { reading datagram.now ≡ Ok (message_of result) }
    ensures spelled { spelling (message_of result) ≡ datagram.now }
    ensures looks { requests_of.only_looks (message_of result) ≡ true }
{
    let Incoming::Look(request) = read_datagram(datagram) else {
        unreachable!()
    };
    request
}

/// Answers a look that was already read, as [`look`] answers its datagram.
///
/// # Requires
///
/// The request is a look, and its encoding reads as the same message. `now` is no earlier than the
/// version's last entry and last sweep. `out` has room for one more datagram.
pub fn answer_look(
    alloc: Global,
    version: &Directory,
    now: Moment,
    mids: &mut Mids,
    peer: Peer,
    request: &Request<'_>,
    out: &mut Outbox,
) -> Looked
    requires read { reading (spelling (message_of request.now)) ≡ Ok (message_of request.now) }
    requires looks { is_look_datagram (spelling (message_of request.now)) ≡ true }
    requires after_at { version.now.at ≤ now.0 }
    requires after_sweep { version.now.swept ≤ now.0 }
    requires room { length out.old < most_datagrams }
    ensures sends { (s : Step) (history : List Entry)
        → VersionStandsFor 0 history version.now
        → IsStepOf s peer mids.old
        → Sends (looks_of.looked (is_starved_look result) history now.0 s
        (reading (spelling (message_of request.now))))
        out.old out.new mids.old mids.new }
    ensures held { (history : List Entry)
        → VersionStandsFor 0 history version.now
        → IsHeld peer (spelling (message_of request.now)) (looks_of.held_after
        (is_starved_look result) history now.0
        (reading (spelling (message_of request.now)))) result }
{
    let Ok(found) = find(alloc, version, now, request) else {
        answer_starved(mids, peer, &request.meaning.view, out);
        return Looked::Starved;
    };
    give(alloc, mids, peer, request, found, out)
}

/// Answers a look ([`is_look`](rd_request::is_look)) from a version of the directory at a moment.
///
/// The answer is 2.05 with what is found, or 2.03 if the request names the tag of the listing or
/// source (RFC 7252 section 5.10.6.2). It is 4.04 if the request reads a registration that is not
/// live. If a listing or source is longer than the requested block, nothing is sent, and `Held`
/// returns the job to keep it first. After `Starved` (out of memory), the request has been answered
/// 5.00.
///
/// # Requires
///
/// The datagram is a look. `now` is no earlier than the version's last entry and last sweep. `out`
/// has room for one more datagram.
pub fn look(
    alloc: Global,
    version: &Directory,
    now: Moment,
    mids: &mut Mids,
    peer: Peer,
    datagram: &[u8],
    out: &mut Outbox,
) -> Looked
    requires looks { is_look_datagram datagram.now ≡ true }
    requires after_at { version.now.at ≤ now.0 }
    requires after_sweep { version.now.swept ≤ now.0 }
    requires room { length out.old < most_datagrams }
    ensures sends { (s : Step) (history : List Entry)
        → VersionStandsFor 0 history version.now
        → IsStepOf s peer mids.old
        → Sends (looks_of.looked (is_starved_look result) history now.0 s (reading datagram.now))
        out.old out.new mids.old mids.new }
    ensures held { (history : List Entry)
        → VersionStandsFor 0 history version.now
        → IsHeld peer datagram.now (looks_of.held_after (is_starved_look result) history now.0
        (reading datagram.now)) result }
{
    let request = look_request(datagram);
    answer_look(alloc, version, now, mids, peer, &request, out)
}

/// Answers 5.00 to a look for which no version is available (RFC 7252 section 5.9.3.1).
///
/// # Requires
///
/// The request is a look, and its encoding reads as the same message. `out` has room for one more
/// datagram.
pub fn look_starved(mids: &mut Mids, peer: Peer, request: &Request<'_>, out: &mut Outbox)
    requires read { reading (spelling (message_of request.now)) ≡ Ok (message_of request.now) }
    requires looks { is_look_datagram (spelling (message_of request.now)) ≡ true }
    requires room { length out.old < most_datagrams }
    ensures sends { (s : Step) (history : List Entry) (moment : ℕ)
        → IsStepOf s peer mids.old
        → Sends (looks_of.looked true history moment s
        (reading (spelling (message_of request.now))))
        out.old out.new mids.old mids.new }
{
    answer_starved(mids, peer, &request.meaning.view, out);
}
