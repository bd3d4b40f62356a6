//! What a tick plans for the observers that are due, before anything changes (RFC 7641 sections 1.3
//! and 4.2).
ghost use Rattle.std.specs.Prelude.{◌≡◌, ◌<◌, ◌≤◌, ◌+◌, ◌%◌, ◌^◌, ◌++◌, ◌∷◌, [], ℕ, Bool, true};
ghost use Rattle.std.specs.Prelude.{false, List, Some, IfOk, OnOk, length, bytes_eq, slice_get};
ghost use Rattle.std.specs.List.{list_any};
ghost use Rattle.std.specs.Arc.{arc_value};
ghost use Rattle.std.specs.Option.{ForSome};
ghost use Rattle.rd_base.specs.declared.peers.Peer.{Peer as Endpoint};
ghost use Rattle.message_model.specs.Blocks.{IsBlock};
ghost use Rattle.coap_message.specs.PartialMessages.{longest_datagram};
ghost use Rattle.event_model.specs.Flights.{Sent as Message};
ghost use Rattle.history_model.specs.Listing.{listing};
ghost use Rattle.history_model.specs.Versions.{VersionStandsFor};
ghost use Rattle.event_model.specs.declared.notes.Observer.{Observer as Observed};
ghost use Rattle.event_model.specs.Observers.{observers};
ghost use Rattle.event_model.specs.Same.{is_same_peer};
ghost use Rattle.journal_model.specs.declared.steps.Step.{Step};
ghost use Rattle.journal_model.specs.declared.rows.Row.{Row};
ghost use Rattle.journal_model.specs.Bodies as bodies_of;
ghost use Rattle.journal_model.specs.Effects.{Effects, mid_of};
ghost use Rattle.journal_model.specs.Journal as journal;
ghost use Rattle.journal_model.specs.Journal.{events, entries};
ghost use Rattle.journal_model.specs.UnfinishedRow.{making};
ghost use Rattle.observers.specs.Standing.{Standing};
ghost use Rattle.coap_answers.specs.declared.mids.Mids.{Mids as Drawn};
ghost use Rattle.observation.specs.Watching.{WatchingStandsFor};
ghost use Rattle.rd_desk.specs.declared.tick.planning.Planned.TheVariants as planned;
ghost use Rattle.rd_desk.specs.parts.Planning.{notification_spelled, AddsNotification};
ghost use Rattle.rd_desk.specs.parts.Planning as planning_of;
ghost use Rattle.rd_desk.specs.parts.UnderWay.{UnderWay};

use coap_answers::{body_reply, is_long, spell_notification};
use coap_message::TokenRef;
use directory_core::Directory;
use exchange_core::{Resend, Sent};
use message_model::{Block, MAX_SZX};
use observation::Watching;
use observers::Observer;
use rd_base::{Bytes, Moment, Peer, Starved, Tag};
use rd_look::listing_at;
use std::alloc::Global;
use std::marker::Brand;
use std::sync::Arc;
use std::sync::ledger::Blank;
use transfers::Answer;

/// The largest number of notifications that one tick builds.
pub(crate) const MAX_NOTIFICATIONS: usize = 64;

/// What is planned for an observer whose listing is examined.
#[derive(Drop)]
pub(crate) enum Planned {
    /// Its listing is unchanged.
    Unchanged,
    /// It gets this notification, with this body.
    Notified(Sent, Arc<Bytes>),
}

/// What is planned for the observers that are examined, in their order.
#[derive(Drop)]
pub(crate) struct Plan {
    /// An item for each of them.
    pub(crate) items: Vec<Planned>,
    /// The peers of the planned notifications, at most 64. Each gets no other (RFC 7252 section
    /// 4.7, NSTART).
    pub(crate) peers: Vec<Peer>,
    /// The answers to keep for their later blocks.
    pub(crate) kept: Vec<Answer>,
}

/// What the notifications of a tick have in common.
#[derive(Clone, Copy)]
pub(crate) struct Occasion {
    /// The moment at which they are sent.
    pub(crate) now: Moment,
    /// The random word that determines their initial timeouts.
    pub(crate) word: u32,
    /// The entity tag of their listings.
    pub(crate) tag: Tag,
}

/// Returns the block that an observer gets, given the exponent of the size that it requested: the
/// first block (RFC 7959 section 2.4).
fn block_of_notification(szx: u8) -> Option<Block>
    ensures first { result ≡ planning_of.block_of_notification szx }
    ensures block { ForSome result IsBlock }
{
    Some(Block {
        num: 0,
        more: false,
        szx: if szx < MAX_SZX { szx } else { MAX_SZX },
    })
}

/// Returns the block that a notification names. It names the first block if its body is longer than
/// that, and none otherwise.
fn block_named(szx: u8, body: &[u8]) -> Option<Block>
    ensures named { result ≡ planning_of.block_named szx body.now }
    ensures block { ForSome result IsBlock }
{
    let first = block_of_notification(szx);
    if is_long(&first, body) {
        return first;
    }
    None
}

/// Returns the octets of a notification to an observer, with a body (RFC 7641 section 4.2).
fn notification_octets(
    alloc: Global,
    observer: &Observer,
    tag: Tag,
    mid: u16,
    observe: u32,
    body: &[u8],
) -> Result<Bytes, Starved>
    requires { observe < 2 ^ 24 }
    ensures spelled { IfOk result (λ octets. octets
        ≡ notification_spelled observer.now tag.0 mid observe body.now) }
    ensures short { IfOk result (λ octets. length octets ≤ longest_datagram) }
{
    let named = block_named(observer.szx, body);
    let reply = body_reply(Some(tag), Some(observe), &named, body);
    let token = TokenRef {
        octets: observer.token.as_slice(),
    };
    spell_notification(alloc, mid, token, &reply)
}

/// Returns the Observe value that follows `given` values and `more` further ones (RFC 7641 section
/// 3.4).
pub(crate) fn observe_after(given: u64, more: u64) -> u32
    ensures value { result ≡ (given + more + 1) % 2 ^ 24 }
    ensures few { result < 2 ^ 24 }
{
    (given.wrapping_add(more).wrapping_add(1) % 16_777_216) as u32
}

/// Returns whether the body last built for an observer has these octets.
pub(crate) fn is_unchanged(observer: &Observer, body: &[u8]) -> bool
    ensures { result ≡ bytes_eq observer.now.last body.now }
{
    observer.last.as_slice() == body
}

/// Returns whether both are the same peer.
fn is_peer(one: &Peer, other: &Peer) -> bool
    ensures { result ≡ is_same_peer one.now other.now }
{
    *one == *other
}

impl Plan {
    /// Returns a plan without items. Does not allocate.
    pub(crate) fn empty(alloc: Global) -> Plan
        ensures items { result.items.items ≡ [] }
        ensures peers { result.peers.items ≡ [] }
        ensures kept { result.kept.items ≡ [] }
    {
        Plan {
            items: Vec::new(alloc),
            peers: Vec::new(alloc),
            kept: Vec::new(alloc),
        }
    }

    /// Returns whether a notification to a peer is planned.
    pub(crate) fn waits_for(&self, peer: &Peer) -> bool
        ensures { result ≡ list_any (λ q. is_same_peer q peer.now) self.now.peers.items }
    {
        self.peers.iter().any(|other| is_peer(other, peer))
    }

    /// Adds an observer whose listing is unchanged.
    pub(crate) fn add_unchanged(&mut self) -> Result<(), Starved>
        ensures items { OnOk result (self.new.items.items
            ≡ self.old.items.items ++ planned.Unchanged ∷ []) }
        ensures peers { self.new.peers.items ≡ self.old.peers.items }
        ensures kept { self.new.kept.items ≡ self.old.kept.items }
    {
        self.items.push(Planned::Unchanged)?;
        Ok(())
    }

    /// Plans to keep the body of a notification for its later blocks, if it is longer than the
    /// block that the observer gets.
    fn keep(&mut self, observer: &Observer, body: &Arc<Bytes>, tag: Tag) -> Result<(), Starved>
        ensures kept { OnOk result (self.new.kept.items
            ≡ self.old.kept.items ++ planning_of.kept_by observer.now (arc_value body.now) tag.0) }
        ensures peers { self.new.peers.items ≡ self.old.peers.items }
        ensures items { self.new.items.items ≡ self.old.items.items }
    {
        if !is_long(&block_of_notification(observer.szx), body.as_slice()) {
            return Ok(());
        }
        let key = observer.key.clone()?;
        let body = Arc::try_clone(body)?;
        self.kept.push(Answer {
            peer: observer.peer,
            key,
            body,
            tag,
        })?;
        Ok(())
    }

    /// Adds a notification with this body, Message ID and Observe value to an observer.
    pub(crate) fn add_notification(
        &mut self,
        alloc: Global,
        observer: &Observer,
        occasion: Occasion,
        mid: u16,
        observe: u32,
        body: Arc<Bytes>,
    ) -> Result<(), Starved>
        requires { observe < 2 ^ 24 }
        ensures { OnOk result ((sent : Message)
            × (self.new.items.items ≡ self.old.items.items ++ planned.Notified sent body ∷ [])
            × AddsNotification observer.now occasion.now.0 occasion.word occasion.tag.0
            (arc_value body)
            mid observe sent self.old self.new) }
    {
        let bytes = notification_octets(
            alloc,
            observer,
            occasion.tag,
            mid,
            observe,
            body.as_slice(),
        )?;
        self.keep(observer, &body, occasion.tag)?;
        self.peers.push(observer.peer)?;
        let sent = Sent {
            mid,
            bytes,
            resend: Resend::start(occasion.now, occasion.word),
        };
        self.items.push(Planned::Notified(sent, body))?;
        Ok(())
    }
}

/// Returns the body for the query of the observer with an index: the one kept for all its
/// observers, or else a new one.
pub(crate) fn formed_body(
    watching: &Watching,
    alloc: Global,
    version: &Directory,
    now: Moment,
    index: usize,
) -> Result<Arc<Bytes>, Starved>
    requires within { index < length watching.now.observers }
    requires after_at { version.now.at ≤ now.0 }
    requires after_sweep { version.now.swept ≤ now.0 }
    ensures { (rows : List Row) (o : Observed)
        → now.0 ≡ journal.now rows
        → WatchingStandsFor rows watching.now
        → VersionStandsFor 0 (entries rows) version.now
        → slice_get (observers (events rows)) index ≡ Some o
        → IfOk result (λ body. arc_value body ≡ listing o.query (entries rows) (journal.now rows)) }
{
    if let Some(body) = watching.body(index) {
        let body = Arc::try_clone(body)?;
        return Ok(body);
    }
    let octets = listing_at::<Brand>(Blank::new(1), version, now, watching.query(index))?;
    let body = Arc::new(alloc, octets)?;
    Ok(body)
}
