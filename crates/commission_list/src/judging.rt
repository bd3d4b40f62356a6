//! One line of a list: the request that it describes, or why it is bad.
ghost use Rattle.std.specs.Prelude.{◌≡◌, ◌≤◌, Ok, IfOk};
ghost use Rattle.line_model.specs.Lines.{fields};
ghost use Rattle.client_model.specs.Requests.{CanBeSent};
ghost use Rattle.commission_list.specs.declared.judging.TheConstants.{MAX_LINES};
ghost use Rattle.commission_list.specs.Lists as lists;
ghost use Rattle.commission_list.specs.Lists.{IsJudged, IsBody, has_base};

use message_model::options::URI_QUERY;
use rd_base::Bytes;
use registrant::{Ask, AskBad, register_ask};
use std::alloc::Global;
use std::str;
use trace_text::cut;

/// The maximum number of lines in a list.
pub const MAX_LINES: u64 = 1024;

/// The maximum length of a line in octets, without its line feed.
pub const MAX_LINE: usize = 20_000;

/// Why a line of a list is bad, in the order in which the reasons are checked.
#[derive(Clone, Copy, Debug, PartialEq, Eq)]
pub enum AskLine {
    /// It is line 1,025.
    Many,
    /// It is not a URI, one space and a body in hexadecimal digits or `-`, or it is too long.
    Form,
    /// No request can be built from its URI and its body.
    Ask,
    /// No part of its query begins with `base=`.
    Base,
}

/// Why a line was not read.
#[derive(Clone, Copy, Debug, PartialEq, Eq)]
pub(crate) enum LineFault {
    /// It is bad.
    Bad(AskLine),
    /// Memory ran out.
    Starved,
}

/// Reads the body that a text writes: `-` for the empty body, or octets in hexadecimal digits of
/// either case.
#[tactic(auto, unfolding(crate::specs::Lists::body_of))]
fn body_read(alloc: Global, text: &[u8]) -> Result<Bytes, LineFault>
    ensures { IsBody result (lists.body_of text.now) }
{
    if text == b"-".as_slice() {
        return Ok(Bytes::new(alloc));
    }
    if text.is_empty() {
        return Err(LineFault::Bad(AskLine::Form));
    }
    match hex::decode(alloc, text) {
        Ok(octets) => Ok(Bytes::of(octets)),
        Err(hex::FromHexError::OutOfMemory) => Err(LineFault::Starved),
        Err(_) => Err(LineFault::Bad(AskLine::Form)),
    }
}

/// Returns whether a request gives the base of its registration (RFC 9176 section 5).
fn has_base(ask: &Ask) -> bool
    ensures { result ≡ has_base ask.now }
{
    ask.options.as_slice().iter().any(|option| is_base(option))
}

/// Returns whether an option gives the base of a registration.
fn is_base(option: &(u32, Bytes)) -> bool
    ensures { result ≡ lists.is_base option.now }
{
    if option.0 != URI_QUERY {
        return false;
    }
    option.1.as_slice().starts_with(b"base=")
}

/// Returns why a line is bad if no request can be built from its URI and its body.
fn fault_of(bad: AskBad) -> LineFault
    ensures { result ≡ lists.fault_of bad }
{
    match bad {
        AskBad::Starved => LineFault::Starved,
        AskBad::Uri | AskBad::Scheme | AskBad::Host | AskBad::Part | AskBad::Size => {
            LineFault::Bad(AskLine::Ask)
        }
    }
}

/// Returns the request, or `Base` if it does not give its base.
fn based(ask: Ask) -> Result<Ask, LineFault>
    requires { CanBeSent ask }
    ensures exact { IsJudged result (lists.if_based (Ok ask)) }
    ensures sent { IfOk result CanBeSent }
{
    if !has_base(&ask) {
        return Err(LineFault::Bad(AskLine::Base));
    }
    Ok(ask)
}

/// Builds the request of a URI and a body.
#[tactic(auto, unfolding(crate::specs::Lists::asked))]
fn ask_read(alloc: Global, uri: &[u8], body: &Bytes) -> Result<Ask, LineFault>
    ensures exact { IsJudged result (lists.asked uri.now body.now) }
    ensures sent { IfOk result CanBeSent }
{
    let Ok(uri) = str::from_utf8(uri) else {
        return Err(LineFault::Bad(AskLine::Ask));
    };
    match register_ask(alloc, uri, body.as_slice()) {
        Ok(ask) => based(ask),
        Err(bad) => Err(fault_of(bad)),
    }
}

/// Builds the request of a line that is not too long.
fn fields_read(alloc: Global, line: &[u8]) -> Result<Ask, LineFault>
    ensures exact { IsJudged result (lists.asked_of (lists.two_of (fields line.now))) }
    ensures sent { IfOk result CanBeSent }
{
    let Some((uri, body)) = cut(line) else {
        return Err(LineFault::Bad(AskLine::Form));
    };
    if cut(body).is_some() {
        return Err(LineFault::Bad(AskLine::Form));
    }
    match body_read(alloc, body) {
        Ok(body) => ask_read(alloc, uri, &body),
        Err(fault) => Err(fault),
    }
}

/// Builds the request of a line with this number, from 1.
#[tactic(auto, unfolding(crate::specs::Lists::judged))]
pub(crate) fn line_read(alloc: Global, number: u64, line: &[u8]) -> Result<Ask, LineFault>
    ensures exact { IsJudged result (lists.judged number line.now) }
    ensures sent { IfOk result CanBeSent }
    ensures few { IfOk result (λ ask. number ≤ MAX_LINES) }
{
    if number > MAX_LINES {
        return Err(LineFault::Bad(AskLine::Many));
    }
    if line.len() > MAX_LINE {
        return Err(LineFault::Bad(AskLine::Form));
    }
    fields_read(alloc, line)
}
