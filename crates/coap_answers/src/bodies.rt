//! Answers with a body, whole or one block of it (RFC 7959 section 2.4, RFC 7641 section 3).
ghost use Rattle.std.specs.Prelude.{◌≡◌, ◌<◌, ◌^◌};
ghost use Rattle.std.specs.Option.{ForSome};
ghost use Rattle.message_model.specs.Blocks.{IsBlock};
ghost use Rattle.journal_model.specs.Bodies as bodies_of;
ghost use Rattle.journal_model.specs.Requests as requests_of;
ghost use Rattle.coap_answers.specs.AskedBlocks.{has_asked_block};
ghost use Rattle.coap_answers.specs.Replies.{IsReply, reply_said, tag_octets};

use crate::replies::Reply;
use block_wise::slice_of;
use message_model::codes::CONTENT;
use message_model::{Block, MAX_SZX};
use rd_base::Tag;

/// Returns the number of the requested block, or 0 if none is requested.
fn number_of(asked: &Option<Block>) -> u32
    ensures { result ≡ requests_of.number_of asked.now }
{
    match asked {
        None => 0,
        Some(block) => block.num,
    }
}

/// Returns the exponent of the size of the requested block, or the greatest one if none is
/// requested.
///
/// # Requires
///
/// `asked` is a valid block.
pub fn szx_of(asked: &Option<Block>) -> u8
    requires { ForSome asked.now IsBlock }
    ensures szx { result ≡ requests_of.szx_of asked.now }
    ensures short { result < 7 }
{
    match asked {
        None => MAX_SZX,
        Some(block) => block.szx,
    }
}

/// Returns the block that the answer names: the requested one, or else the first if more follow.
fn answered_block(asked: &Option<Block>, more: bool) -> Option<Block>
    requires { ForSome asked.now IsBlock }
    ensures answered { result ≡ bodies_of.answered_block asked.now more }
    ensures block { ForSome result IsBlock }
{
    match asked {
        Some(block) => {
            return Some(Block {
                num: block.num,
                more,
                szx: block.szx,
            });
        }
        None => return first_block(more),
    }
}

/// Returns the first block of the greatest size, if more follow.
fn first_block(more: bool) -> Option<Block>
    ensures answered { result ≡ bodies_of.answered_block None more }
    ensures block { ForSome result IsBlock }
{
    if !more {
        return None;
    }
    Some(Block {
        num: 0,
        more: true,
        szx: MAX_SZX,
    })
}

/// Returns the answer with the requested block of a body, or with the first if none is requested,
/// under a tag and an Observe value. Returns 4.00 if the block lies past the end of the body.
///
/// # Requires
///
/// `asked` is a valid block, and an Observe value is below 2^24.
#[tactic(auto, unfolding(journal_model::specs::Bodies::body_reply))]
pub fn body_reply<'a>(
    tag: Option<Tag>,
    observe: Option<u32>,
    asked: &Option<Block>,
    body: &'a [u8],
) -> Reply<'a>
    requires asked { ForSome asked.now IsBlock }
    requires observe { ForSome observe (λ value. value < 2 ^ 24) }
    ensures said { reply_said result
        ≡ bodies_of.body_reply (tag_octets tag) observe asked.now body.now }
    ensures reply { IsReply result }
{
    let Some((part, more)) = slice_of(body, number_of(asked), szx_of(asked)) else {
        return Reply::plain(128, b"block");
    };
    Reply {
        code: CONTENT,
        tag,
        observe,
        location: None,
        format: true,
        block2: answered_block(asked, more),
        block1: None,
        payload: part,
    }
}

/// Returns whether a body is longer than the requested block size, in octets.
///
/// # Requires
///
/// `asked` is a valid block.
pub fn is_long(asked: &Option<Block>, body: &[u8]) -> bool
    requires { ForSome asked.now IsBlock }
    ensures { result ≡ bodies_of.is_long asked.now body.now }
{
    body.len() > 1usize << (szx_of(asked) + 4)
}

/// Returns whether a body has the requested block, or the first if none is requested (RFC 7959
/// section 2.2).
///
/// # Requires
///
/// `asked` is a valid block.
pub fn has_asked_block(asked: &Option<Block>, body: &[u8]) -> bool
    requires { ForSome asked.now IsBlock }
    ensures { result ≡ has_asked_block asked.now body.now }
{
    slice_of(body, number_of(asked), szx_of(asked)).is_some()
}
