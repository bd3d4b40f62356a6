//! The request of a fetch: a confirmable GET of /.well-known/core (RFC 9176 section 5.1).
ghost use Rattle.std.specs.Prelude.{◌≡◌, ◌≤◌, ◌<◌, [], length, None, IfOk};
ghost use Rattle.message_model.specs.Codes as codes_of;
ghost use Rattle.message_model.specs.Message.{last_number, longest_value, end_number};
ghost use Rattle.message_model.specs.Blocks.{IsBlock};
ghost use Rattle.message_model.specs.Spelling.{spelling};
ghost use Rattle.message_model.specs.FetchRequests.{fetch_request};
ghost use Rattle.coap_message.specs.PartialMessages.{longest_datagram, with_last_option};

use block_wise::{Block, block_write};
use coap_message::{Kind4, TokenRef, TooLong, Writer};
use message_model::codes::GET;
use message_model::options::{BLOCK2, URI_PATH};
use rd_base::{Bytes, Peer, Starved};
use std::alloc::Global;

/// A request of a fetch to be sent.
#[derive(Debug, Drop, PartialEq, Eq)]
pub struct Ask {
    /// The peer to which it goes.
    pub peer: Peer,
    /// The datagram of the GET.
    pub bytes: Bytes,
}

/// Appends an option to a request that has room for it.
fn put_option(request: &mut Writer, number: u32, value: &[u8])
    requires filled { codes_of.empty < request.old.code }
    requires open { request.old.payload ≡ [] }
    requires ascends { end_number 0 request.old.options ≤ number }
    requires number { number ≤ last_number }
    requires value { length value.now ≤ longest_value }
    requires fits { length (spelling (with_last_option request.old (number, value.now)))
        ≤ longest_datagram }
    ensures { request.new ≡ with_last_option request.old (number, value.now) }
{
    match request.option(number, value) {
        Ok(()) => {}
        Err(TooLong) => unreachable!(),
    }
}

/// Begins the GET of /.well-known/core under a Message ID and a token.
fn core_request(mid: u16, token: TokenRef<'_>) -> Writer
    ensures { result ≡ fetch_request mid token.entry.octets.now None }
{
    let mut request = Writer::start(Kind4::Con, GET, mid, token);
    put_option(&mut request, URI_PATH, b".well-known");
    put_option(&mut request, URI_PATH, b"core");
    request
}

/// Returns the datagram of a request that has all its options and no payload.
#[tactic(auto, using(crate::proofs::AskLaws::spelled_some))]
fn datagram_of(alloc: Global, mut request: Writer) -> Result<Bytes, Starved>
    requires open { request.payload ≡ [] }
    requires fits { length (spelling request) ≤ longest_datagram }
    ensures spelled { IfOk result (λ bytes. bytes ≡ spelling request) }
    ensures some { IfOk result (λ bytes. 0 < length bytes) }
    ensures fits { IfOk result (λ bytes. length bytes ≤ longest_datagram) }
{
    match request.finish(b"") {
        Ok(octets) => {
            let bytes = Bytes::copy_of(alloc, octets)?;
            Ok(bytes)
        }
        Err(TooLong) => unreachable!(),
    }
}

/// Returns the datagram of the first request of a fetch, whose only option is its path (RFC 9176
/// section 5.1).
pub(crate) fn first_request(alloc: Global, mid: u16, token: TokenRef<'_>) -> Result<Bytes, Starved>
    ensures spelled { IfOk result (λ bytes. bytes
        ≡ spelling (fetch_request mid token.entry.octets.now None)) }
    ensures some { IfOk result (λ bytes. 0 < length bytes) }
    ensures fits { IfOk result (λ bytes. length bytes ≤ longest_datagram) }
{
    datagram_of(alloc, core_request(mid, token))
}

/// Returns the datagram of the request for a block (RFC 7959 section 2.4).
pub(crate) fn request_for(
    alloc: Global,
    mid: u16,
    token: TokenRef<'_>,
    block: &Block,
) -> Result<Bytes, Starved>
    requires block { IsBlock block.now }
    ensures spelled { IfOk result (λ bytes. bytes
        ≡ spelling (fetch_request mid token.entry.octets.now (Some block.now))) }
    ensures some { IfOk result (λ bytes. 0 < length bytes) }
    ensures fits { IfOk result (λ bytes. length bytes ≤ longest_datagram) }
{
    let mut value = [0u8; 3];
    let size = block_write(block, &mut value);
    let mut request = core_request(mid, token);
    put_option(&mut request, BLOCK2, &value[..size]);
    datagram_of(alloc, request)
}
