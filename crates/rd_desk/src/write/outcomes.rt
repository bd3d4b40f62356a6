//! What is planned for a write before anything changes: its answer, and the version with its entry
//! (RFC 9176 sections 5, 5.3.1, 5.3.2 and 5.3.3).
ghost use Rattle.std.specs.Prelude.{◌≡◌, ◌≤◌, ◌^◌, ℕ, [], List, IfOk};
ghost use Rattle.std.specs.Option.{ForSome};
ghost use Rattle.message_model.specs.Blocks.{IsBlock};
ghost use Rattle.message_model.specs.Message.{Opt};
ghost use Rattle.rd_base.specs.declared.parameters.RegParams.{RegParams};
ghost use Rattle.record_model.specs.AllowedParameters.{AreAllowed, IsAllowedChange};
ghost use Rattle.history_model.specs.declared.entries.Entry.{Entry};
ghost use Rattle.history_model.specs.declared.entries.Change.TheVariants as change_of;
ghost use Rattle.history_model.specs.Refusals.{change_refusal};
ghost use Rattle.history_model.specs.Versions.{VersionStandsFor};
ghost use Rattle.event_model.specs.declared.notes.Note.{Note};
ghost use Rattle.journal_model.specs.declared.steps.Step.{Step};
ghost use Rattle.journal_model.specs.Changes as changes;
ghost use Rattle.journal_model.specs.Changes.{body_read, change_made, created_at, entry_of_step};
ghost use Rattle.journal_model.specs.Changes.{body_used, changed_with, registration, replacement};
ghost use Rattle.journal_model.specs.Effects.{bare};
ghost use Rattle.message_model.specs.Codes as codes_of;
ghost use Rattle.history_model.specs.Replay.{replay, number_for};
ghost use Rattle.directory_core.specs.Answers.{IsRefusalOf};
ghost use Rattle.directory_core.specs.Changes.{IsRegistrationOf, IsReplacementOf};
ghost use Rattle.registration.specs.Drafts.{IsDraft, IsFaultOf};
ghost use Rattle.coap_answers.specs.Replies.{block1_options};
ghost use Rattle.rd_desk.specs.parts.Replies.{short_said};
ghost use Rattle.rd_desk.specs.parts.Laying.{IsNextOf};
ghost use Rattle.rd_desk.specs.parts.Outcomes.{HasEntry, IsTimely, IsPlanned, IsRefusedWith};
ghost use Rattle.rd_desk.specs.parts.Outcomes.{IsBadBody};

use crate::write::short_replies::ShortReply;
use directory_core::{Directory, Refusal};
use message_model::Block;
use message_model::codes::{
    BAD_REQUEST, CHANGED, CREATED, DELETED, NOT_FOUND, SERVICE_UNAVAILABLE,
};
use observation::ChangeKind;
use rd_base::{Moment, Peer, RegParams, Starved, UpdateParams};
use registration::{Draft, DraftFault, Submitted, submitted};
use std::alloc::Global;
use std::sync::Arc;

/// A version with one more entry.
#[derive(Drop)]
pub(crate) struct Entering {
    /// The version.
    pub version: Arc<Directory>,
    /// The number of the registration that the entry is about.
    pub number: u64,
    /// The kind of the change.
    pub kind: ChangeKind,
}

/// The outcome of a write.
#[derive(Drop)]
pub(crate) struct Outcome {
    /// The answer.
    pub reply: ShortReply,
    /// The entry, if the write is accepted.
    pub entering: Option<Entering>,
}

/// Returns the answer to a change that is refused (RFC 9176 section 5.3), or `Starved` if memory
/// ran out.
fn refused_reply(refusal: Refusal) -> Result<ShortReply, Starved>
    ensures { (history : List Entry) (entry : Entry)
        → IsRefusalOf 0 history entry refusal
        → IfOk result (IsRefusedWith (change_refusal 0 history entry)) }
{
    match refusal {
        Refusal::Gone(_) => Ok(ShortReply::plain(NOT_FOUND, b"registration")),
        Refusal::FullCount(_) => Ok(ShortReply::plain(SERVICE_UNAVAILABLE, b"registrations")),
        Refusal::FullText(_) => Ok(ShortReply::plain(SERVICE_UNAVAILABLE, b"text")),
        Refusal::FullEntries => Ok(ShortReply::plain(SERVICE_UNAVAILABLE, b"entries")),
        Refusal::Starved => Err(Starved),
    }
}

/// Returns the answer to a body without valid links (RFC 6690 section 2, RFC 9176 appendix C), or
/// `Starved` if memory ran out.
fn bad_body_reply(fault: DraftFault) -> Result<ShortReply, Starved>
    ensures { (body : List ℕ)
        → IsFaultOf body fault
        → IfOk result (IsBadBody (body_read body)) }
{
    match fault {
        DraftFault::Links(_) => Ok(ShortReply::plain(BAD_REQUEST, b"links")),
        DraftFault::Reference(_) => Ok(ShortReply::plain(BAD_REQUEST, b"links")),
        DraftFault::Limited(_) => Ok(ShortReply::plain(BAD_REQUEST, b"limited")),
        DraftFault::Starved => Err(Starved),
    }
}

/// Returns 2.01 with the location of a registration (RFC 9176 section 5). The answer names
/// `block1`, if there is one.
fn created(number: u64, block1: Option<Block>) -> ShortReply
    requires { ForSome block1 IsBlock }
    ensures { short_said result ≡ created_at number (block1_options block1) }
{
    ShortReply {
        code: CREATED,
        location: Some(number),
        block1,
        diagnostic: b"",
    }
}

/// Returns 2.04 for replaced links (RFC 9176 section 5.3.3). The answer names `block1`, if there is
/// one.
fn replaced_reply(block1: Option<Block>) -> ShortReply
    requires { ForSome block1 IsBlock }
    ensures { short_said result ≡ changed_with (block1_options block1) }
{
    ShortReply {
        code: CHANGED,
        location: None,
        block1,
        diagnostic: b"",
    }
}

/// Returns the outcome of an accepted change, from the version with its entry and its answer.
fn entered(
    alloc: Global,
    version: Directory,
    number: u64,
    kind: ChangeKind,
    reply: ShortReply,
) -> Result<Outcome, Starved>
    ensures moments { (moment : ℕ)
        → version.at ≡ moment
        → version.swept ≤ moment
        → IfOk result (IsTimely moment) }
    ensures planned { (history : List Entry) (swept : ℕ) (entry : Entry) (meant : changes.Outcome)
        → HasEntry history swept entry version number kind
        → short_said reply ≡ meant.reply
        → IfOk result (IsPlanned history swept meant.notes (change_made history entry meant)) }
{
    let version = Arc::new(alloc, version)?;
    let entering = Entering {
        version,
        number,
        kind,
    };
    Ok(Outcome {
        reply,
        entering: Some(entering),
    })
}

/// Returns the outcome of a change that is refused.
fn refused(refusal: Refusal) -> Result<Outcome, Starved>
    ensures moments { (moment : ℕ) → IfOk result (IsTimely moment) }
    ensures planned { (history : List Entry) (swept : ℕ) (entry : Entry) (meant : changes.Outcome)
        → IsRefusalOf 0 history entry refusal
        → IfOk result (IsPlanned history swept meant.notes (change_made history entry meant)) }
{
    let reply = refused_reply(refusal)?;
    Ok(Outcome {
        reply,
        entering: None,
    })
}

/// Returns the outcome of a body without valid links, whatever their purpose.
fn refused_body(fault: DraftFault) -> Result<Outcome, Starved>
    ensures moments { (moment : ℕ) → IfOk result (IsTimely moment) }
    ensures planned { (history : List Entry) (swept moment : ℕ) (s : Step)
        (purpose : changes.Purpose) (body : List ℕ) (options : List Opt) (further : List Note)
        → IsFaultOf body fault
        → IfOk result (IsPlanned history swept further
        (body_used purpose history moment s body options further)) }
{
    let reply = bad_body_reply(fault)?;
    Ok(Outcome {
        reply,
        entering: None,
    })
}

/// Returns the outcome of registering a draft (RFC 9176 section 5). The answer names `block1`, if
/// there is one.
fn draft_registered(
    alloc: Global,
    version: &Directory,
    now: Moment,
    draft: Draft,
    block1: Option<Block>,
) -> Result<Outcome, Starved>
    requires after_at { version.now.at ≤ now.0 }
    requires after_sweep { version.now.swept ≤ now.0 }
    requires moment { now.0 ≤ 10 ^ 15 }
    requires draft { IsDraft draft }
    requires block1 { ForSome block1 IsBlock }
    ensures moments { IfOk result (IsTimely now.0) }
    ensures planned { (history : List Entry) (entry : Entry) (meant : changes.Outcome)
        → VersionStandsFor 0 history version.now
        → IsRegistrationOf now draft entry
        → meant.reply
        ≡ created_at (number_for draft.name now.0 (replay history)) (block1_options block1)
        → IfOk result (IsPlanned history version.now.swept meant.notes
        (change_made history entry meant)) }
{
    match version.register(now, draft) {
        Ok((version, number)) => {
            let reply = created(number, block1);
            entered(alloc, version, number, ChangeKind::Registration, reply)
        }
        Err(refusal) => refused(refusal),
    }
}

/// Returns the outcome of a registration with these parameters and this body (RFC 9176 section 5).
/// The answer names `block1`, if there is one.
pub(crate) fn registered(
    alloc: Global,
    version: &Directory,
    now: Moment,
    peer: Peer,
    params: RegParams,
    body: &[u8],
    block1: Option<Block>,
) -> Result<Outcome, Starved>
    requires after_at { version.now.at ≤ now.0 }
    requires after_sweep { version.now.swept ≤ now.0 }
    requires moment { now.0 ≤ 10 ^ 15 }
    requires allowed { AreAllowed params }
    requires block1 { ForSome block1 IsBlock }
    ensures moments { IfOk result (IsTimely now.0) }
    ensures next { (history : List Entry)
        → VersionStandsFor 0 history version.now
        → IfOk result (IsNextOf history) }
    ensures planned { (history : List Entry) (s : Step) (further : List Note)
        → VersionStandsFor 0 history version.now
        → s.peer ≡ peer
        → IfOk result (IsPlanned history version.now.swept further
        (registration history now.0 s params body.now (block1_options block1) further)) }
{
    match version.draft(now, params, peer, body) {
        Ok(draft) => draft_registered(alloc, version, now, draft, block1),
        Err(fault) => refused_body(fault),
    }
}

/// Returns the outcome of replacing the links of the registration with a number (RFC 9176 section
/// 5.3.3). The answer names `block1`, if there is one.
fn links_replaced(
    alloc: Global,
    version: &Directory,
    now: Moment,
    number: u64,
    links: Submitted,
    block1: Option<Block>,
) -> Result<Outcome, Starved>
    requires after_at { version.now.at ≤ now.0 }
    requires after_sweep { version.now.swept ≤ now.0 }
    requires moment { now.0 ≤ 10 ^ 15 }
    requires block1 { ForSome block1 IsBlock }
    ensures moments { IfOk result (IsTimely now.0) }
    ensures planned { (history : List Entry) (entry : Entry) (meant : changes.Outcome)
        → VersionStandsFor 0 history version.now
        → IsReplacementOf now number links entry
        → meant.reply ≡ changed_with (block1_options block1)
        → IfOk result (IsPlanned history version.now.swept meant.notes
        (change_made history entry meant)) }
{
    match version.replace(now, number, links) {
        Ok(version) => {
            let reply = replaced_reply(block1);
            entered(alloc, version, number, ChangeKind::Replacement, reply)
        }
        Err(refusal) => refused(refusal),
    }
}

/// Returns the outcome of a body that replaces the links of the registration with a number (RFC
/// 9176 section 5.3.3). The answer names `block1`, if there is one.
pub(crate) fn replaced(
    alloc: Global,
    version: &Directory,
    now: Moment,
    number: u64,
    body: &[u8],
    block1: Option<Block>,
) -> Result<Outcome, Starved>
    requires after_at { version.now.at ≤ now.0 }
    requires after_sweep { version.now.swept ≤ now.0 }
    requires moment { now.0 ≤ 10 ^ 15 }
    requires block1 { ForSome block1 IsBlock }
    ensures moments { IfOk result (IsTimely now.0) }
    ensures next { (history : List Entry)
        → VersionStandsFor 0 history version.now
        → IfOk result (IsNextOf history) }
    ensures planned { (history : List Entry) (s : Step) (further : List Note)
        → VersionStandsFor 0 history version.now
        → IfOk result (IsPlanned history version.now.swept further
        (replacement history now.0 s number body.now (block1_options block1) further)) }
{
    match submitted(alloc, body) {
        Ok(links) => links_replaced(alloc, version, now, number, links, block1),
        Err(fault) => refused_body(fault),
    }
}

/// Returns the outcome of an update of the registration with a number (RFC 9176 section 5.3.1).
pub(crate) fn updated(
    alloc: Global,
    version: &Directory,
    now: Moment,
    number: u64,
    change: UpdateParams,
    peer: Peer,
) -> Result<Outcome, Starved>
    requires after_at { version.now.at ≤ now.0 }
    requires after_sweep { version.now.swept ≤ now.0 }
    requires moment { now.0 ≤ 10 ^ 15 }
    requires change { IsAllowedChange change }
    ensures moments { IfOk result (IsTimely now.0) }
    ensures next { (history : List Entry)
        → VersionStandsFor 0 history version.now
        → IfOk result (IsNextOf history) }
    ensures planned { (history : List Entry) (s : Step)
        → VersionStandsFor 0 history version.now
        → s.peer ≡ peer
        → IfOk result (IsPlanned history version.now.swept []
        (change_made history (entry_of_step now.0 s (change_of.Update number change))
        (record { reply = bare codes_of.changed; notes = [] }))) }
{
    match version.update(now, number, change, peer) {
        Ok(version) => {
            let reply = ShortReply::plain(CHANGED, b"");
            entered(alloc, version, number, ChangeKind::Update, reply)
        }
        Err(refusal) => refused(refusal),
    }
}

/// Returns the outcome of a removal of the registration with a number (RFC 9176 section 5.3.2).
pub(crate) fn removed(
    alloc: Global,
    version: &Directory,
    now: Moment,
    number: u64,
) -> Result<Outcome, Starved>
    requires after_at { version.now.at ≤ now.0 }
    requires after_sweep { version.now.swept ≤ now.0 }
    requires moment { now.0 ≤ 10 ^ 15 }
    ensures moments { IfOk result (IsTimely now.0) }
    ensures next { (history : List Entry)
        → VersionStandsFor 0 history version.now
        → IfOk result (IsNextOf history) }
    ensures planned { (history : List Entry) (s : Step)
        → VersionStandsFor 0 history version.now
        → IfOk result (IsPlanned history version.now.swept []
        (change_made history (entry_of_step now.0 s (change_of.Remove number))
        (record { reply = bare codes_of.deleted; notes = [] }))) }
{
    match version.remove(now, number) {
        Ok(version) => {
            let reply = ShortReply::plain(DELETED, b"");
            entered(alloc, version, number, ChangeKind::Removal, reply)
        }
        Err(refusal) => refused(refusal),
    }
}
