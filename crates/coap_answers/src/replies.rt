//! Answers to requests: what they say, and their octets (RFC 7252 sections 5.2 and 5.10).
ghost use Rattle.std.specs.Prelude.{◌≡◌, ◌+◌, ◌^◌, ◌<◌, ◌≤◌, [], List, length, IfOk};
ghost use Rattle.std.specs.Option.{ForSome};
ghost use Rattle.message_model.specs.Message.{Message, end_number};
ghost use Rattle.message_model.specs.Codes as codes_of;
ghost use Rattle.message_model.specs.Blocks.{IsBlock};
ghost use Rattle.message_model.specs.OptionTable as table;
ghost use Rattle.message_model.specs.Spelling.{spelling};
ghost use Rattle.coap_message.specs.PartialMessages.{longest_datagram, with_last_option};
ghost use Rattle.coap_message.specs.PartialMessages.{with_payload};
ghost use Rattle.coap_message.specs.Views.{message_in};
ghost use Rattle.event_model.specs.declared.notes.Note.{Note};
ghost use Rattle.journal_model.specs.declared.steps.Step.{Step};
ghost use Rattle.journal_model.specs.Effects as effects;
ghost use Rattle.journal_model.specs.Effects.{answering, drawn_for};
ghost use Rattle.journal_model.specs.UnfinishedRow.{drawing};
ghost use Rattle.coap_answers.specs.Outboxes.{most_datagrams};
ghost use Rattle.coap_answers.specs.Replies.{IsReply, reply_said, options_of, tag_octets};
ghost use Rattle.coap_answers.specs.Replies.{location_option, format_option, block1_options};
ghost use Rattle.coap_answers.specs.Writing.{IsReadyFor, with_options, notification_saying};
ghost use Rattle.journal_model.specs.Bodies.{tag_option, observe_option, block2_option};
ghost use Rattle.journal_model.specs.Changes.{location_options};
ghost use Rattle.message_model.specs.Numbers.{uint_bytes};
ghost use Rattle.message_model.specs.Blocks.{block_value};
ghost use Rattle.coap_answers.specs.Sendings.{IsStepOf, Sends};

use crate::{Datagram, Mids, Outbox};
use block_wise::{block_write, uint_write};
use coap_message::{Kind4, TokenRef, View, Writer};
use itoa::Buffer;
use message_model::Block;
use message_model::formats::LINK_FORMAT;
use message_model::options::{BLOCK1, BLOCK2, CONTENT_FORMAT, ETAG, LOCATION_PATH, OBSERVE};
use rd_base::{Bytes, Peer, Starved, Tag};
use std::alloc::Global;

/// The content of a response: its code, the options that a directory's answers have, and its
/// payload.
#[derive(Clone, Copy)]
pub struct Reply<'a> {
    /// The code.
    pub code: u8,
    /// The entity tag, in ETag.
    pub tag: Option<Tag>,
    /// The value of Observe, below 2^24.
    pub observe: Option<u32>,
    /// The number of a registration, for Location-Path.
    pub location: Option<u64>,
    /// Whether Content-Format says that the payload is a link document.
    pub format: bool,
    /// The block that the payload contains, in Block2.
    pub block2: Option<Block>,
    /// The block of the answered request, in Block1.
    pub block1: Option<Block>,
    /// The payload.
    pub payload: &'a [u8],
}

impl<'a> Reply<'a> {
    /// Returns a reply of a code and a payload, without options: the diagnostic payload of a
    /// refusal, or nothing.
    pub fn plain(code: u8, payload: &'a [u8]) -> Reply<'a>
        ensures { reply_said result ≡ effects.diagnostic code payload.now }
    {
        Reply {
            code,
            tag: None,
            observe: None,
            location: None,
            format: false,
            block2: None,
            block1: None,
            payload,
        }
    }
}

/// Appends an option with a value of at most 20 octets.
fn put(writer: &mut Writer, number: u32, value: &[u8])
    requires ready { IsReadyFor number writer.old }
    requires number { number ≤ table.block1 }
    requires value { length value.now ≤ 20 }
    requires room { length (spelling writer.old) ≤ 200 }
    ensures put { writer.new ≡ with_last_option writer.old (number, value.now) }
    ensures ready { IsReadyFor number writer.new }
    ensures size { length (spelling writer.new) ≤ length (spelling writer.old) + 25 }
{
    let Ok(()) = writer.option(number, value) else {
        unreachable!()
    };
}

/// Appends an option whose value is a number (RFC 7252 section 3.2).
fn put_uint(writer: &mut Writer, number: u32, value: u32)
    requires ready { IsReadyFor number writer.old }
    requires number { number ≤ table.block1 }
    requires value { value < 2 ^ 24 }
    requires room { length (spelling writer.old) ≤ 200 }
    ensures put { writer.new ≡ with_last_option writer.old (number, uint_bytes value) }
    ensures ready { IsReadyFor number writer.new }
    ensures size { length (spelling writer.new) ≤ length (spelling writer.old) + 25 }
{
    let mut octets = [0u8; 3];
    let end = uint_write(value, &mut octets);
    put(writer, number, &octets[..end]);
}

/// Appends an option whose value is a block (RFC 7959 section 2.2).
fn put_block(writer: &mut Writer, number: u32, block: &Block)
    requires ready { IsReadyFor number writer.old }
    requires number { number ≤ table.block1 }
    requires block { IsBlock block.now }
    requires room { length (spelling writer.old) ≤ 200 }
    ensures put { writer.new ≡ with_last_option writer.old (number, block_value block.now) }
    ensures ready { IsReadyFor number writer.new }
    ensures size { length (spelling writer.new) ≤ length (spelling writer.old) + 25 }
{
    let mut octets = [0u8; 3];
    let end = block_write(block, &mut octets);
    put(writer, number, &octets[..end]);
}

/// Appends the entity tag, if there is one.
fn put_tag(writer: &mut Writer, tag: Option<Tag>)
    requires ready { IsReadyFor table.etag writer.old }
    requires room { length (spelling writer.old) ≤ 200 }
    ensures put { writer.new ≡ with_options writer.old (tag_option (tag_octets tag)) }
    ensures ready { IsReadyFor table.etag writer.new }
    ensures size { length (spelling writer.new) ≤ length (spelling writer.old) + 25 }
{
    match tag {
        None => return,
        Some(tag) => {
            let octets = tag.0;
            return put(writer, ETAG, &octets);
        }
    }
}

/// Appends the value of Observe, if there is one.
fn put_observe(writer: &mut Writer, observe: Option<u32>)
    requires ready { IsReadyFor table.observe writer.old }
    requires value { ForSome observe (λ value. value < 2 ^ 24) }
    requires room { length (spelling writer.old) ≤ 200 }
    ensures put { writer.new ≡ with_options writer.old (observe_option observe) }
    ensures ready { IsReadyFor table.observe writer.new }
    ensures size { length (spelling writer.new) ≤ length (spelling writer.old) + 25 }
{
    match observe {
        None => return,
        Some(value) => return put_uint(writer, OBSERVE, value),
    }
}

/// Appends the location of a registration, if there is one (RFC 9176 section 5).
fn put_location(writer: &mut Writer, location: Option<u64>)
    requires ready { IsReadyFor table.location_path writer.old }
    requires room { length (spelling writer.old) ≤ 150 }
    ensures put { writer.new ≡ with_options writer.old (location_option location) }
    ensures ready { IsReadyFor table.location_path writer.new }
    ensures size { length (spelling writer.new) ≤ length (spelling writer.old) + 50 }
{
    match location {
        None => return,
        Some(number) => return put_place(writer, number),
    }
}

/// Appends the two segments of a location.
fn put_place(writer: &mut Writer, number: u64)
    requires ready { IsReadyFor table.location_path writer.old }
    requires room { length (spelling writer.old) ≤ 150 }
    ensures put { writer.new ≡ with_options writer.old (location_options number) }
    ensures ready { IsReadyFor table.location_path writer.new }
    ensures size { length (spelling writer.new) ≤ length (spelling writer.old) + 50 }
{
    let mut digits = Buffer::new();
    put(writer, LOCATION_PATH, b"rd");
    put(writer, LOCATION_PATH, digits.format(number).as_bytes());
}

/// Appends the format of link documents, if it is named (RFC 7252 section 12.3).
fn put_format(writer: &mut Writer, format: bool)
    requires ready { IsReadyFor table.content_format writer.old }
    requires room { length (spelling writer.old) ≤ 200 }
    ensures put { writer.new ≡ with_options writer.old (format_option format) }
    ensures ready { IsReadyFor table.content_format writer.new }
    ensures size { length (spelling writer.new) ≤ length (spelling writer.old) + 25 }
{
    if !format {
        return;
    }
    put_uint(writer, CONTENT_FORMAT, u32::from(LINK_FORMAT));
}

/// Appends the block that the payload contains, if it is one.
fn put_block2(writer: &mut Writer, block: &Option<Block>)
    requires ready { IsReadyFor table.block2 writer.old }
    requires block { ForSome block.now IsBlock }
    requires room { length (spelling writer.old) ≤ 200 }
    ensures put { writer.new ≡ with_options writer.old (block2_option block.now) }
    ensures ready { IsReadyFor table.block2 writer.new }
    ensures size { length (spelling writer.new) ≤ length (spelling writer.old) + 25 }
{
    match block {
        None => return,
        Some(block) => return put_block(writer, BLOCK2, block),
    }
}

/// Appends the block of the answered request, if there is one.
fn put_block1(writer: &mut Writer, block: &Option<Block>)
    requires ready { IsReadyFor table.block1 writer.old }
    requires block { ForSome block.now IsBlock }
    requires room { length (spelling writer.old) ≤ 200 }
    ensures put { writer.new ≡ with_options writer.old (block1_options block.now) }
    ensures ready { IsReadyFor table.block1 writer.new }
    ensures size { length (spelling writer.new) ≤ length (spelling writer.old) + 25 }
{
    match block {
        None => return,
        Some(block) => return put_block(writer, BLOCK1, block),
    }
}

/// Appends all options of a reply, in ascending order of their numbers (RFC 7252 section 3.1).
fn put_options(writer: &mut Writer, reply: &Reply<'_>)
    requires ready { IsReadyFor 0 writer.old }
    requires reply { IsReply reply.now }
    requires room { length (spelling writer.old) ≤ 12 }
    ensures put { writer.new ≡ with_options writer.old (options_of reply.now) }
    ensures ready { IsReadyFor table.block1 writer.new }
    ensures size { length (spelling writer.new) ≤ 200 }
{
    put_tag(writer, reply.tag);
    put_observe(writer, reply.observe);
    put_location(writer, reply.location);
    put_format(writer, reply.format);
    put_block2(writer, &reply.block2);
    put_block1(writer, &reply.block1);
}

/// Returns the type of the answer to a request of this type (RFC 7252 section 5.2).
fn answer_kind(kind: Kind4) -> Kind4
    ensures { result ≡ effects.answer_kind kind }
{
    match kind {
        Kind4::Con => Kind4::Ack,
        Kind4::Non | Kind4::Ack | Kind4::Rst => Kind4::Non,
    }
}

/// Returns the Message ID of the answer: that of a confirmable request, or else the next one drawn
/// (RFC 7252 section 4.4).
fn answer_mid(mids: &mut Mids, kind: Kind4, mid: u16) -> u16
    ensures mid { (s : Step) (m : Message)
        → s.worker ≡ mids.old.worker
        → s.drawn ≡ mids.old.drawn
        → m.mid ≡ mid
        → result ≡ effects.answer_mid s m kind }
    ensures worker { mids.new.worker ≡ mids.old.worker }
    ensures drawn { mids.new.drawn ≡ drawing (drawn_for kind) mids.old.drawn }
{
    match kind {
        Kind4::Con => mid,
        Kind4::Non | Kind4::Ack | Kind4::Rst => mids.next(),
    }
}

/// Begins the answer to a request in a writer, in place of what this has written, and appends its
/// options.
///
/// # Requires
///
/// `reply` has a code that is neither empty nor reserved, an Observe value below 2^24 if any, valid
/// blocks, and a payload of at most 1,024 octets.
pub(crate) fn begin_answer(writer: &mut Writer, mids: &mut Mids, view: &View<'_>, reply: &Reply<'_>)
    requires reply { IsReply reply.now }
    ensures begun { (s : Step)
        → s.worker ≡ mids.old.worker
        → s.drawn ≡ mids.old.drawn
        → with_payload writer.new reply.now.payload.now
        ≡ effects.answer s (message_in view.now) (reply_said reply.now) }
    ensures open_end { writer.new.payload ≡ [] }
    ensures filled { codes_of.empty < writer.new.code }
    ensures ends { end_number 0 writer.new.options ≤ table.block1 }
    ensures size { length (spelling writer.new) ≤ 200 }
    ensures worker { mids.new.worker ≡ mids.old.worker }
    ensures drawn { mids.new.drawn ≡ drawing (drawn_for view.now.kind) mids.old.drawn }
{
    let mid = answer_mid(mids, view.kind, view.mid);
    writer.restart(answer_kind(view.kind), reply.code, mid, view.token);
    put_options(writer, reply);
}

/// Sends the answer to a request (RFC 7252 section 5.3.1). Draws a Message ID if the request was
/// not confirmable.
///
/// # Requires
///
/// `reply` has a code that is neither empty nor reserved, an Observe value below 2^24 if any, valid
/// blocks, and a payload of at most 1,024 octets. `out` has room for one more datagram.
pub fn answer(mids: &mut Mids, peer: Peer, view: &View<'_>, reply: &Reply<'_>, out: &mut Outbox)
    requires reply { IsReply reply.now }
    requires room { length out.old < most_datagrams }
    ensures sends { (s : Step) (notes : List Note)
        → IsStepOf s peer mids.old
        → Sends (answering s (message_in view.now) (reply_said reply.now) notes) out.old out.new
        mids.old mids.new }
{
    begin_answer(&mut out.writer, mids, view, reply);
    let Ok(datagram) = out.writer.finish(reply.payload) else {
        unreachable!()
    };
    out.datagrams.push(peer, Datagram { octets: datagram });
}

/// Returns the octets of a notification (RFC 7641 section 4.2): a confirmable message with a reply,
/// under this Message ID and token.
///
/// # Requires
///
/// `reply` has a code that is neither empty nor reserved, an Observe value below 2^24 if any, valid
/// blocks, and a payload of at most 1,024 octets.
///
/// # Errors
///
/// `Starved` if memory runs out.
pub fn spell_notification(
    alloc: Global,
    mid: u16,
    token: TokenRef<'_>,
    reply: &Reply<'_>,
) -> Result<Bytes, Starved>
    requires reply { IsReply reply.now }
    ensures spelled { IfOk result (λ octets. octets
        ≡ spelling (notification_saying mid token.entry.octets.now (reply_said reply.now))) }
    ensures short { IfOk result (λ octets. length octets ≤ longest_datagram) }
{
    let mut writer = Writer::start(Kind4::Con, reply.code, mid, token);
    put_options(&mut writer, reply);
    let Ok(datagram) = writer.finish(reply.payload) else {
        unreachable!()
    };
    Bytes::copy_of(alloc, datagram)
}
