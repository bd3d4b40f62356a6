//! What a request asks beyond its options, and the refusals that it alone decides (RFC 9176
//! sections 4.1 and 6).
ghost use Rattle.std.specs.Prelude.{◌≡◌, Some, None, IfOk, IfErr};
ghost use Rattle.std.specs.Option.{ForSome};
ghost use Rattle.message_model.specs.Blocks.{IsBlock};
ghost use Rattle.coap_message.specs.Views.{message_in};
ghost use Rattle.journal_model.specs.Requests as requests_of;
ghost use Rattle.rd_request.specs.Accepted.{message_of};
ghost use Rattle.rd_request.specs.Asking.{begins_observation, refused_with};
ghost use Rattle.rd_request.specs.Asking.{IsRefusedBy};

use crate::accepted::Request;
use crate::resources::resource_at;
use block_wise::block_read;
use coap_message::View;
use coap_options::{Meaning, Path, Refusal, queries, request};
use message_model::Block;
use message_model::codes::POST;
use query_text::{Reading, fault};

/// Returns how to read the query options of a request: as those of a lookup, a simple registration,
/// a registration or an update. Returns `None` if they are not read.
fn reading_of(path: &Path, code: u8) -> Option<Reading>
    ensures { result ≡ requests_of.reading_of path.now code }
{
    match path {
        Path::Core => Some(Reading::Lookup),
        Path::SimpleRd => Some(Reading::Simple),
        Path::Rd => Some(Reading::Register),
        Path::Location(_) => reading_on_location(code),
        Path::Res => Some(Reading::Lookup),
        Path::Ep => Some(Reading::Lookup),
        Path::Other => None,
    }
}

/// Returns how to read the query options of a request to a registration. An update alone uses them.
/// Those of a read, a replacement and a removal are ignored.
fn reading_on_location(code: u8) -> Option<Reading>
    ensures { result ≡ requests_of.reading_on_location (requests_of.method_of code) }
{
    if code == POST {
        return Some(Reading::Update);
    }
    None
}

/// Returns whether the query options are refused (RFC 9176 sections 5, 5.1, 5.3.1 and 6.2).
fn has_bad_query(meaning: &Meaning<'_>) -> bool
    ensures { result ≡ requests_of.has_bad_query (message_in meaning.now.view) }
{
    match reading_of(&meaning.path, meaning.view.code) {
        None => false,
        Some(kind) => fault(kind, queries(meaning)).is_some(),
    }
}

/// Returns the requested block of the answer (RFC 7959 section 2.1).
fn asked_block(meaning: &Meaning<'_>) -> Option<Block>
    ensures asked { result ≡ requests_of.asked_block (message_in meaning.now.view) }
    ensures block { ForSome result IsBlock }
{
    match meaning.block2 {
        None => None,
        Some(value) => block_read(value).ok(),
    }
}

/// Returns the block that the payload contains (RFC 7959 section 2.1).
fn sent_block(meaning: &Meaning<'_>) -> Option<Block>
    ensures sent { result ≡ requests_of.sent_block (message_in meaning.now.view) }
    ensures block { ForSome result IsBlock }
{
    match meaning.block1 {
        None => None,
        Some(value) => block_read(value).ok(),
    }
}

/// Returns whether the requested block comes after the first.
pub fn is_later_block(request: &Request<'_>) -> bool
    ensures { result ≡ requests_of.is_later_block (message_of request.now) }
{
    match request.asked {
        None => false,
        Some(block) => block.num > 0,
    }
}

/// Returns whether the value of Observe begins or ends an observation (RFC 7641 section 2).
pub fn is_heeded(observe: Option<u32>) -> bool
    ensures { result ≡ requests_of.is_heeded observe }
{
    match observe {
        None => false,
        Some(value) => value == 0 || value == 1,
    }
}

/// Returns whether the value of Observe begins an observation (RFC 7641 section 2).
pub fn begins_observation(observe: Option<u32>) -> bool
    ensures { result ≡ begins_observation observe }
{
    match observe {
        None => false,
        Some(value) => value == 0,
    }
}

/// Returns whether the request has a payload although it must have none. Updates and simple
/// registrations must have none (RFC 9176 sections 5.1 and 5.3.1).
fn has_bad_payload(meaning: &Meaning<'_>) -> bool
    ensures { result ≡ requests_of.has_bad_payload (message_in meaning.now.view) }
{
    if !takes_no_payload(&meaning.path, meaning.view.code) {
        return false;
    }
    !meaning.view.payload.is_empty()
}

/// Returns whether a request with this path and code must have no payload.
fn takes_no_payload(path: &Path, code: u8) -> bool
    ensures { result ≡ requests_of.takes_no_payload path.now code }
{
    match path {
        Path::SimpleRd => true,
        Path::Location(_) => code == POST,
        Path::Core | Path::Rd | Path::Res | Path::Ep | Path::Other => false,
    }
}

/// A refusal that depends on the request alone.
#[derive(Clone, Copy, Debug)]
pub enum Refused {
    /// The request is refused for its options, its path, its method, a block or a format.
    Request(Refusal),
    /// The request is refused for its query options.
    Query,
    /// The request is refused for its payload.
    Payload,
}

/// Returns the request with this meaning, which is not refused.
fn accepted(meaning: Meaning<'_>) -> Request<'_>
    requires { requests_of.refusal_of_request (message_in meaning.view) ≡ None }
    ensures { message_of result ≡ message_in meaning.entry.view }
{
    let Some(resource) = resource_at(&meaning.path) else {
        unreachable!()
    };
    let asked = asked_block(&meaning);
    let sent = sent_block(&meaning);
    Request {
        meaning,
        resource,
        asked,
        sent,
    }
}

/// Returns what a request asks, or the first of the refusals that it alone decides.
#[tactic(auto, unfolding(journal_model::specs::Requests::refusal_of_request))]
pub(crate) fn asked<'a>(view: &View<'a>) -> Result<Request<'a>, Refused>
    ensures message { IfOk result (λ request. message_of request ≡ message_in view.now) }
    ensures refused { IfErr result (λ refused. requests_of.refusal_of_request (message_in view.now)
        ≡ Some (refused_with refused)) }
    ensures by { IfErr result (λ refused. IsRefusedBy refused (message_in view.now)) }
{
    let meaning = match request(view) {
        Ok(meaning) => meaning,
        Err(refusal) => return Err(Refused::Request(refusal)),
    };
    if has_bad_query(&meaning) {
        return Err(Refused::Query);
    }
    if has_bad_payload(&meaning) {
        return Err(Refused::Payload);
    }
    Ok(accepted(meaning))
}
