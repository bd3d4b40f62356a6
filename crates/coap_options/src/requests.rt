//! The first refusal that a request alone decides.

ghost use Rattle.std.specs.Prelude.{◌≡◌, ◌≤◌, ◌<◌, Some, None, length, IfSome, IfOk, IfErr, OnOk};
ghost use Rattle.std.specs.Option.{option_map, ForSome};
ghost use Rattle.message_model.specs.Blocks as blocks;
ghost use Rattle.message_model.specs.Refusals as refusals;
ghost use Rattle.message_model.specs.Refusals.{refusal_of};
ghost use Rattle.coap_message.specs.Views.{message_in};
ghost use Rattle.coap_options.specs.Meanings.{HasReadableBlocks, HasShortBlocks, IsMeaning};
ghost use Rattle.coap_options.specs.PartRefusals.{brings_links, has_bad_block};
ghost use Rattle.coap_options.specs.PartRefusals.{refusal_of_parts};

use crate::findings::BadOption;
use crate::meanings::Meaning;
use crate::methods::allowed;
use crate::option_walks::meaning;
use block_wise::{Block, block_read, block_size};
use coap_message::View;
use message_model::codes::{GET, POST, PUT};
use message_model::formats::LINK_FORMAT;
use message_model::{Path, Refusal};

/// Returns whether a path names no resource.
fn is_nowhere(path: &Path) -> bool
    ensures { result ≡ refusals.is_nowhere path.now }
{
    match *path {
        Path::Other => true,
        _ => false,
    }
}

/// Returns whether a request brings links, as a document: a POST to `/rd` registers, and a PUT on
/// the location of a registration replaces its links (RFC 9176 sections 5 and 5.3.3).
fn brings_links(code: u8, path: &Path) -> bool
    ensures { result ≡ brings_links code path.now }
{
    match *path {
        Path::Rd => code == POST,
        Path::Location(_) => code == PUT,
        Path::Core | Path::SimpleRd | Path::Res | Path::Ep | Path::Other => false,
    }
}

/// Returns whether a Block option has the reserved exponent (RFC 7959 section 2.2).
fn says_no_block(value: Option<&[u8]>) -> bool
    requires { ForSome value (λ v. length v.now ≤ 3) }
    ensures { result ≡ refusals.says_no_block (option_map (λ v. v.now) value.entry) }
{
    match value {
        Some(octets) => block_read(octets).is_err(),
        None => false,
    }
}

/// Returns whether a payload of this size does not fit its block. A block that more follow has
/// exactly the block size, and the last block is no longer (RFC 7959 section 2.2).
fn is_misfit(block: &Block, size: usize) -> bool
    requires { block.now.szx < blocks.reserved_szx }
    ensures { result ≡ blocks.is_misfit block.now size }
{
    let most = block_size(block.szx);
    if block.more {
        return size != most;
    }
    most < size
}

/// Returns whether a payload of this length does not fit the block that the value of a Block option
/// encodes, if it encodes one.
fn is_misfit_of(value: Option<&[u8]>, size: usize) -> bool
    requires { ForSome value (λ v. length v.now ≤ 3) }
    ensures { result ≡ refusals.is_misfit_of (option_map (λ v. v.now) value.entry) size }
{
    let Some(octets) = value else {
        return false;
    };
    let Ok(block) = block_read(octets) else {
        return false;
    };
    is_misfit(&block, size)
}

/// Returns whether a Block option has the reserved exponent, or the payload of a request that
/// brings links does not fit its Block1 (RFC 7959 sections 2.2 and 2.5).
fn has_bad_block(
    with_links: bool,
    block1: Option<&[u8]>,
    block2: Option<&[u8]>,
    size: usize,
) -> bool
    requires block1 { ForSome block1 (λ v. length v.now ≤ 3) }
    requires block2 { ForSome block2 (λ v. length v.now ≤ 3) }
    ensures { result
        ≡ has_bad_block with_links (option_map (λ v. v.now) block1.entry)
        (option_map (λ v. v.now) block2.entry) size }
{
    if says_no_block(block1) {
        return true;
    }
    if says_no_block(block2) {
        return true;
    }
    with_links && is_misfit_of(block1, size)
}

/// Returns whether a format is named that is not that of link documents.
fn is_other_format(format: Option<u16>) -> bool
    ensures { result ≡ refusals.is_other_format format }
{
    match format {
        Some(number) => number != LINK_FORMAT,
        None => false,
    }
}

/// Returns the first refusal after that of an unrecognized critical option.
#[tactic(auto, unfolding(crate::specs::PartRefusals::refusal_of_parts))]
fn refusal_after_options(meaning: &Meaning<'_>) -> Option<Refusal>
    ensures { result ≡ refusal_of_parts meaning.now.view.code meaning.now.path meaning.now.proxy
        (option_map (λ v. v.now) meaning.now.block1) (option_map (λ v. v.now) meaning.now.block2)
        meaning.now.accept meaning.now.format (length meaning.now.view.payload.now) }
{
    let code = meaning.view.code;
    if meaning.proxy {
        return Some(Refusal::Proxy);
    }
    if is_nowhere(&meaning.path) {
        return Some(Refusal::Path);
    }
    if !allowed(&meaning.path, code) {
        return Some(Refusal::Method);
    }
    let with_links = brings_links(code, &meaning.path);
    let size = meaning.view.payload.len();
    if has_bad_block(with_links, meaning.block1, meaning.block2, size) {
        return Some(Refusal::Block);
    }
    if code == GET && is_other_format(meaning.accept) {
        return Some(Refusal::Accept);
    }
    if with_links && is_other_format(meaning.format) {
        return Some(Refusal::Format);
    }
    None
}

/// Returns the meaning of a request, unless it is refused before its query is read (RFC 7252
/// section 5.9).
///
/// A request *brings links* if it is a registration or a replacement of links.
///
/// # Errors
///
/// The first that applies:
///
/// - `BadOption(n)` if a critical option is not recognized; `n` is the number of the first one.
/// - `Proxy` if the request has Proxy-Uri or Proxy-Scheme.
/// - `Path` if the path names no resource.
/// - `Method` if the resource does not have the method.
/// - `Block` if Block1 or Block2 has the exponent 7, or if the request brings links and its payload
///   does not fit its Block1.
/// - `Accept` if the request is a GET that accepts another format than that of link documents.
/// - `Format` if the request brings links and its body has another format.
pub fn request<'a>(view: &View<'a>) -> Result<Meaning<'a>, Refusal>
    ensures meaning { IfOk result (λ meaning. IsMeaning (message_in view.now) meaning) }
    ensures short { IfOk result HasShortBlocks }
    ensures readable { IfOk result HasReadableBlocks }
    ensures accepted { OnOk result (refusal_of (message_in view.now) ≡ None) }
    ensures refused { IfErr result (λ refusal. refusal_of (message_in view.now) ≡ Some refusal) }
{
    let meant = match meaning(view) {
        Ok(meant) => meant,
        Err(BadOption(number)) => return Err(Refusal::BadOption(number)),
    };
    match refusal_after_options(&meant) {
        Some(refusal) => Err(refusal),
        None => Ok(meant),
    }
}
