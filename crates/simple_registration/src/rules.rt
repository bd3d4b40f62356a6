//! What the parts of a response mean for its fetch (RFC 7959 section 2.4).
ghost use Rattle.std.specs.Prelude.{◌≡◌, ◌≤◌, length, option_map, IfSome};
ghost use Rattle.std.specs.Option.{ForSome};
ghost use Rattle.message_model.specs.Blocks.{IsBlock};
ghost use Rattle.message_model.specs.Refusals as refusals;
ghost use Rattle.message_model.specs.Responses.{block_said};
ghost use Rattle.coap_message.specs.Views.{message_in};
ghost use Rattle.message_model.specs.Responses as responses;
ghost use Rattle.simple_registration.specs.Responses.{has_names_of};

use crate::running::EntityTag;
use block_wise::{Block, block_read, block_size};
use coap_message::{Kind4, View};
use coap_options::{Meaning, etags};
use message_model::formats::LINK_FORMAT;

/// Returns whether a message has a token and, if it is an acknowledgement, a Message ID (RFC 7252
/// section 5.3.2).
pub(crate) fn has_names_of(view: &View<'_>, token: &[u8], mid: u16) -> bool
    ensures { result ≡ has_names_of (message_in view.now) token.now mid }
{
    if view.token.octets != token {
        return false;
    }
    match view.kind {
        Kind4::Ack => view.mid == mid,
        _ => true,
    }
}

/// Returns the block in the value of a Block2 option, or `None` if there is no such option or it
/// has the reserved exponent.
fn block_of(value: Option<&[u8]>) -> Option<Block>
    requires { ForSome value (λ v. length v.now ≤ 3) }
    ensures value { result ≡ block_said (option_map (λ v. v.now) value.entry) }
    ensures sound { IfSome result (λ b. IsBlock b) }
{
    match value {
        Some(octets) => block_read(octets).ok(),
        None => None,
    }
}

/// Returns the block that a response contains, if it contains one.
pub(crate) fn block_in(meaning: &Meaning<'_>) -> Option<Block>
    ensures value { result ≡ responses.block_in (message_in meaning.now.view) }
    ensures sound { IfSome result (λ b. IsBlock b) }
{
    block_of(meaning.block2)
}

/// Returns whether a block does not begin where the stored octets end.
pub(crate) fn is_elsewhere(block: &Option<Block>, size: usize) -> bool
    requires { ForSome block.now (λ b. IsBlock b) }
    ensures { result ≡ responses.is_elsewhere block.now size }
{
    match block {
        Some(block) => block.num as usize * block_size(block.szx) != size,
        None => false,
    }
}

/// Returns whether more blocks follow one that does not have the block size.
pub(crate) fn is_cut_short(block: &Option<Block>, size: usize) -> bool
    requires { ForSome block.now (λ b. IsBlock b) }
    ensures { result ≡ responses.is_cut_short block.now size }
{
    match block {
        Some(block) => block.more && size != block_size(block.szx),
        None => false,
    }
}

/// Returns whether a format is named that is not that of link documents.
pub(crate) fn is_other_format(format: Option<u16>) -> bool
    ensures { result ≡ refusals.is_other_format format }
{
    match format {
        Some(number) => number != LINK_FORMAT,
        None => false,
    }
}

/// Returns the first recognized entity tag of a response.
fn first_etag<'a>(meaning: &Meaning<'a>) -> Option<&'a [u8]>
    ensures { option_map (λ tag. tag.now) result ≡ responses.tag_in (message_in meaning.now.view) }
{
    etags(meaning).next()
}

/// Returns the entity tag of a response: the first recognized one, of at most eight octets (RFC
/// 7252 section 5.10.6).
pub(crate) fn tag_in<'a>(meaning: &Meaning<'a>) -> Option<&'a [u8]>
    ensures value { option_map (λ tag. tag.now) result
        ≡ responses.tag_in (message_in meaning.now.view) }
    ensures short { IfSome result (λ tag. length tag.now ≤ 8) }
{
    first_etag(meaning)
}

/// Returns whether two tags are the same. The absence of a tag counts as a value.
fn is_same_tag(first: &Option<EntityTag>, tag: Option<&[u8]>) -> bool
    ensures { result ≡ responses.is_same_tag first.now (option_map (λ t. t.now) tag.entry) }
{
    match first {
        None => tag.is_none(),
        Some(first) => match tag {
            None => false,
            Some(tag) => first.as_slice() == tag,
        },
    }
}

/// Returns whether a tag differs from that of the first block, if one came.
pub(crate) fn is_other_tag(first: &Option<Option<EntityTag>>, tag: Option<&[u8]>) -> bool
    ensures { result ≡ responses.is_other_tag first.now (option_map (λ t. t.now) tag.entry) }
{
    match first {
        None => false,
        Some(first) => !is_same_tag(first, tag),
    }
}
