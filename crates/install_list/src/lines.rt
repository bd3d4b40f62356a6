//! One line of a list: its request, or why it is bad.
ghost use Rattle.std.specs.Prelude.{◌≡◌, ◌≤◌, ◌∷◌, ◌++◌, [], Ok};
ghost use Rattle.std.specs.Prelude.{IfOk, IfSome, OnOk, flat_map, unwrap_or};
ghost use Rattle.client_model.specs.Requests.{CanBeSent};
ghost use Rattle.install_list.specs.declared.lines.TheConstants.{LIFETIME, LONGEST_LIFETIME};
ghost use Rattle.install_list.specs.Lists as lists;
ghost use Rattle.client_model.specs.Asks.{refresh, removal};
ghost use Rattle.install_list.specs.Lists.{IsJudged, IsLinks, IsSegment, IsPushed, IsPath};
ghost use Rattle.install_list.specs.Lists.{IsSendable};

use crate::entries::{Entry, Then};
use crate::{Order, Verb};
use client_model::{Ask, AskBad, Location};
use message_model::options::{URI_PATH, URI_QUERY};
use rd_base::{Bytes, Host, Starved, Text, Texts};
use registrant::{refresh_ask, register_ask, remove_ask};
use std::alloc::Global;
use std::str;
use trace_text::{number_read, offset_of};

/// The maximum number of lines of a list.
pub const MAX_LINES: u64 = 4_096;

/// The lifetime of a registration that names none, in seconds (RFC 9176 section 5).
pub const LIFETIME: u64 = 90_000;

/// The longest lifetime of a registration, in seconds (RFC 9176 section 5).
pub const LONGEST_LIFETIME: u64 = 4_294_967_295;

/// Why a line of a list is bad, in the order of the checks.
#[derive(Clone, Copy, Debug, PartialEq, Eq)]
pub enum LineBad {
    /// The line is line 4,097.
    Many,
    /// Its links begin with `0x`, and are not octets in hexadecimal digits.
    Form,
    /// No request can be built from its URI and its links.
    Ask,
    /// Its directory has a link-local address, which needs a zone, and a URI has none.
    Zone,
    /// The address of its directory has another family than the address from which the program
    /// sends.
    Family,
    /// No part of its query begins with `base=`.
    Base,
}

/// Why a line was not read.
#[derive(Clone, Copy, Debug, PartialEq, Eq)]
pub(crate) enum LineFault {
    /// The line is bad.
    Bad(LineBad),
    /// Memory ran out.
    Starved,
}

// ---- texts

/// Returns a text without the spaces, tabs and carriage returns around it.
fn trimmed(text: &[u8]) -> &[u8]
    ensures { result.now ≡ lists.trimmed text.now }
{
    text.trim_ascii()
}

/// Returns whether a trimmed line is ignored: it is empty, or begins with `#`.
#[tactic(auto, unfolding(crate::specs::Lists::is_passed))]
fn is_passed(line: &[u8]) -> bool
    ensures { result ≡ lists.is_passed line.now }
{
    line.is_empty() || line.starts_with(b"#")
}

/// Returns the URI of a line and the text after the next space, or `-` if there is no space.
fn parts_of(line: &[u8]) -> (&[u8], &[u8])
    ensures uri { result.0.now ≡ (lists.parts_of line.now).0 }
    ensures links { result.1.now ≡ (lists.parts_of line.now).1 }
{
    match offset_of(b' ', line) {
        Some(at) => (&line[..at], &line[at + 1..]),
        None => (line, b"-"),
    }
}

/// Returns whether a line names a device, by a URI with a query, and not a location.
fn is_named(line: &[u8]) -> bool
    ensures { result ≡ lists.is_named line.now }
{
    let (uri, _) = parts_of(line);
    offset_of(b'?', uri).is_some()
}

/// Returns the text of a line after its last space.
fn last_word(line: &[u8]) -> &[u8]
    ensures { result.now ≡ lists.last_word line.now }
{
    let mut left = line;
    'words: while let Some(at) = offset_of(b' ', left) {
        left = &left[at + 1..];
    }
    left
}

/// Reads the links of a device: none for `-`, octets in hexadecimal digits after `0x`, and any
/// other text as it is.
#[tactic(auto, unfolding(crate::specs::Lists::links_of))]
fn links_read(alloc: Global, text: &[u8]) -> Result<Bytes, LineFault>
    ensures { IsLinks result (lists.links_of text.now) }
{
    if text == b"-".as_slice() {
        return Ok(Bytes::new(alloc));
    }
    let Some(digits) = text.strip_prefix(b"0x".as_slice()) else {
        return copied(alloc, text);
    };
    match hex::decode(alloc, digits) {
        Ok(octets) => Ok(Bytes::of(octets)),
        Err(hex::FromHexError::OutOfMemory) => Err(LineFault::Starved),
        Err(_) => Err(LineFault::Bad(LineBad::Form)),
    }
}

/// Copies octets.
fn copied(alloc: Global, octets: &[u8]) -> Result<Bytes, LineFault>
    ensures { IsJudged result (Ok octets.now) }
{
    match Bytes::copy_of(alloc, octets) {
        Ok(copy) => Ok(copy),
        Err(Starved) => Err(LineFault::Starved),
    }
}

/// Appends an octet of a query, percent-encoded if it is a bracket.
#[tactic(auto, unfolding(crate::specs::Lists::quoted_octet))]
fn push_octet(into: &mut Bytes, octet: u8) -> Result<(), Starved>
    ensures { OnOk result (into.new ≡ into.old ++ lists.quoted_octet octet) }
{
    if octet == b'[' {
        return into.append(b"%5B");
    }
    if octet == b']' {
        return into.append(b"%5D");
    }
    into.push(octet)
}

/// Appends a query and percent-encodes its brackets.
fn push_query(into: &mut Bytes, query: &[u8]) -> Result<(), Starved>
    ensures { OnOk result (into.new
        ≡ into.old ++ flat_map lists.quoted_octet query.now) }
{
    'octets: for octet in query {
        push_octet(into, *octet)?;
    }
    Ok(())
}

/// Copies a URI and percent-encodes the brackets of its query, which an installer need not do (RFC
/// 3986 section 3.4).
fn uri_read(alloc: Global, text: &[u8]) -> Result<Bytes, Starved>
    ensures { IfOk result (λ uri. uri ≡ lists.quoted text.now) }
{
    let Some(at) = offset_of(b'?', text) else {
        return Bytes::copy_of(alloc, text);
    };
    let mut uri = Bytes::copy_of(alloc, &text[..at])?;
    push_query(&mut uri, &text[at..])?;
    Ok(uri)
}

// ---- directories

/// Returns whether an address is link-local (RFC 4291 section 2.5.6, RFC 3927 section 2.1).
fn is_link_local(host: Host) -> bool
    ensures { result ≡ lists.is_link_local host }
{
    match host {
        Host::V4(octets) => octets[0] == 169 && octets[1] == 254,
        Host::V6(groups) => groups[0] / 64 == 1018,
    }
}

/// Returns whether a socket at an address can send to another address.
fn is_reached(from: Option<Host>, to: Host) -> bool
    ensures { result ≡ lists.is_reached from to }
{
    match (from, to) {
        (None, _) => true,
        (Some(Host::V4(_)), Host::V4(_)) => true,
        (Some(Host::V4(_)), Host::V6(_)) => false,
        (Some(Host::V6(_)), Host::V4(_)) => false,
        (Some(Host::V6(_)), Host::V6(_)) => true,
    }
}

/// Returns the request, if a socket at this address can send to its directory.
#[tactic(auto, unfolding(crate::specs::Lists::reached))]
fn reached(from: Option<Host>, ask: Ask) -> Result<Ask, LineFault>
    requires { CanBeSent ask }
    ensures exact { IsJudged result (lists.reached from ask) }
    ensures sent { IfOk result CanBeSent }
{
    if is_link_local(ask.to.host) {
        return Err(LineFault::Bad(LineBad::Zone));
    }
    if !is_reached(from, ask.to.host) {
        return Err(LineFault::Bad(LineBad::Family));
    }
    Ok(ask)
}

// ---- requests

/// Returns why a line is bad if no request can be built from its URI and its links.
fn fault_of(bad: AskBad) -> LineFault
    ensures { result ≡ lists.fault_of bad }
{
    match bad {
        AskBad::Starved => LineFault::Starved,
        AskBad::Uri | AskBad::Scheme | AskBad::Host | AskBad::Part | AskBad::Size => {
            LineFault::Bad(LineBad::Ask)
        }
    }
}

/// Builds the request that registers links at the directory of a URI without brackets in its query.
#[tactic(auto, unfolding(crate::specs::Lists::asked_at))]
fn ask_read(alloc: Global, from: Option<Host>, uri: &[u8], links: &[u8]) -> Result<Ask, LineFault>
    ensures exact { IsJudged result (lists.asked_at from uri.now links.now) }
    ensures sent { IfOk result CanBeSent }
{
    let Ok(uri) = str::from_utf8(uri) else {
        return Err(LineFault::Bad(LineBad::Ask));
    };
    match register_ask(alloc, uri, links) {
        Ok(ask) => reached(from, ask),
        Err(bad) => Err(fault_of(bad)),
    }
}

/// Builds the request that registers links at the directory of a URI.
fn registration_read(
    alloc: Global,
    from: Option<Host>,
    uri: &[u8],
    links: &[u8],
) -> Result<Ask, LineFault>
    ensures exact { IsJudged result (lists.registered from uri.now links.now) }
    ensures sent { IfOk result CanBeSent }
{
    match uri_read(alloc, uri) {
        Ok(uri) => ask_read(alloc, from, uri.as_slice(), links),
        Err(Starved) => Err(LineFault::Starved),
    }
}

/// Builds the request of a line `URI LINKS`, of which the links may be absent.
fn named_read(alloc: Global, from: Option<Host>, line: &[u8]) -> Result<Ask, LineFault>
    ensures exact { IsJudged result (lists.named from line.now) }
    ensures sent { IfOk result CanBeSent }
{
    let (uri, links) = parts_of(line);
    match links_read(alloc, trimmed(links)) {
        Ok(links) => registration_read(alloc, from, uri, links.as_slice()),
        Err(fault) => Err(fault),
    }
}

/// Returns whether an option gives the base of a registration (RFC 9176 section 5).
fn is_base(option: &(u32, Bytes)) -> bool
    ensures { result ≡ lists.is_base option.now }
{
    if option.0 != URI_QUERY {
        return false;
    }
    option.1.as_slice().starts_with(b"base=")
}

/// Returns whether a request gives the base of its registration.
fn has_base(ask: &Ask) -> bool
    ensures { result ≡ lists.has_base ask.now }
{
    ask.options.as_slice().iter().any(|option| is_base(option))
}

/// Returns the request, if it gives the base of its registration.
fn based(ask: Ask) -> Result<Ask, LineFault>
    requires { CanBeSent ask }
    ensures exact { IsJudged result (lists.if_based (Ok ask)) }
    ensures sent { IfOk result CanBeSent }
{
    if !has_base(&ask) {
        return Err(LineFault::Bad(LineBad::Base));
    }
    Ok(ask)
}

/// Builds the request of a line of `register`, which gives a base.
fn register_read(alloc: Global, from: Option<Host>, line: &[u8]) -> Result<Ask, LineFault>
    ensures exact { IsJudged result (lists.registering from line.now) }
    ensures sent { IfOk result CanBeSent }
{
    match named_read(alloc, from, line) {
        Ok(ask) => based(ask),
        Err(fault) => Err(fault),
    }
}

// ---- locations

/// Copies a segment of a path, if it is UTF-8.
fn segment_read(alloc: Global, octets: &[u8]) -> Result<Text, LineFault>
    ensures { IsSegment result octets.now }
{
    let Ok(segment) = str::from_utf8(octets) else {
        return Err(LineFault::Bad(LineBad::Ask));
    };
    match Text::copy_of(alloc, segment) {
        Ok(segment) => Ok(segment),
        Err(Starved) => Err(LineFault::Starved),
    }
}

/// Appends a segment to a path.
#[tactic(auto, using(crate::proofs::LineLaws::pushed_one, crate::proofs::LineLaws::pushed_none))]
fn push_segment(alloc: Global, path: &mut Texts, octets: &[u8]) -> Result<(), LineFault>
    ensures { IsPushed result (octets.now ∷ []) path.old path.new }
{
    match segment_read(alloc, octets) {
        Ok(segment) => match path.push(segment) {
            Ok(()) => Ok(()),
            Err(Starved) => Err(LineFault::Starved),
        },
        Err(fault) => Err(fault),
    }
}

/// Appends the value of an option to a path, if the option is a segment.
#[tactic(auto, using(crate::proofs::LineLaws::option_past, crate::proofs::LineLaws::option_here))]
fn push_option(alloc: Global, path: &mut Texts, option: &(u32, Bytes)) -> Result<(), LineFault>
    ensures { IsPushed result (lists.path_of (option.now ∷ [])) path.old path.new }
{
    if option.0 != URI_PATH {
        return Ok(());
    }
    push_segment(alloc, path, option.1.as_slice())
}

/// Copies the segments of a path from these options, if all of them are UTF-8.
fn path_read(alloc: Global, options: &[(u32, Bytes)]) -> Result<Texts, LineFault>
    ensures { IsPath result options.now }
{
    let mut path = Texts::new(alloc);
    let mut left = options;
    'options: while let Some((option, more)) = left.split_first() {
        match push_option(alloc, &mut path, option) {
            Ok(()) => left = more,
            Err(fault) => return Err(fault),
        }
    }
    Ok(path)
}

/// Returns whether a request has a query. A location has none.
fn has_query(ask: &Ask) -> bool
    ensures { result ≡ lists.has_query ask.now }
{
    ask.options
        .as_slice()
        .iter()
        .any(|option| option.0 == URI_QUERY)
}

/// Returns the location that the path of a request names.
#[tactic(auto, using(crate::proofs::LineLaws::at_fault), unfolding(crate::specs::Lists::located))]
fn located(alloc: Global, ask: &Ask) -> Result<Location, LineFault>
    ensures { IsJudged result (lists.located ask.now) }
{
    let path = match path_read(alloc, ask.options.as_slice()) {
        Ok(path) => path,
        Err(fault) => return Err(fault),
    };
    if path.as_slice().is_empty() {
        return Err(LineFault::Bad(LineBad::Ask));
    }
    if has_query(ask) {
        return Err(LineFault::Bad(LineBad::Ask));
    }
    Ok(Location { to: ask.to, path })
}

/// Reads the location at the end of a line.
fn location_read(alloc: Global, from: Option<Host>, line: &[u8]) -> Result<Location, LineFault>
    ensures { IsJudged result (lists.location_of from line.now) }
{
    match registration_read(alloc, from, last_word(line), b"") {
        Ok(ask) => located(alloc, &ask),
        Err(fault) => Err(fault),
    }
}

/// Builds the request that refreshes the registration at a location.
fn refresh_at(alloc: Global, location: &Location) -> Result<Ask, LineFault>
    ensures exact { IsJudged result (lists.ask_at refresh (Ok location.now)) }
    ensures sent { IfOk result CanBeSent }
{
    match refresh_ask(alloc, location) {
        Ok(ask) => Ok(ask),
        Err(bad) => Err(fault_of(bad)),
    }
}

/// Builds the request that removes the registration at a location.
fn remove_at(alloc: Global, location: &Location) -> Result<Ask, LineFault>
    ensures exact { IsJudged result (lists.ask_at removal (Ok location.now)) }
    ensures sent { IfOk result CanBeSent }
{
    match remove_ask(alloc, location) {
        Ok(ask) => Ok(ask),
        Err(bad) => Err(fault_of(bad)),
    }
}

/// Builds the request of a line of `refresh`.
fn refresh_read(alloc: Global, from: Option<Host>, line: &[u8]) -> Result<Ask, LineFault>
    ensures exact { IsJudged result (lists.refreshing from line.now) }
    ensures sent { IfOk result CanBeSent }
{
    match location_read(alloc, from, line) {
        Ok(location) => refresh_at(alloc, &location),
        Err(fault) => Err(fault),
    }
}

/// Builds the request of a line of `remove` that ends with a location.
fn remove_read(alloc: Global, from: Option<Host>, line: &[u8]) -> Result<Ask, LineFault>
    ensures exact { IsJudged result (lists.removing from line.now) }
    ensures sent { IfOk result CanBeSent }
{
    match location_read(alloc, from, line) {
        Ok(location) => remove_at(alloc, &location),
        Err(fault) => Err(fault),
    }
}

// ---- lifetimes

/// Returns the lifetime that an option gives, in seconds.
#[tactic(auto, unfolding(crate::specs::Lists::lifetime_in))]
fn lifetime_in(option: &(u32, Bytes)) -> Option<u64>
    ensures exact { result ≡ lists.lifetime_in option.now }
    ensures within { IfSome result (λ n. n ≤ LONGEST_LIFETIME) }
{
    if option.0 != URI_QUERY {
        return None;
    }
    match option.1.as_slice().strip_prefix(b"lt=".as_slice()) {
        Some(digits) => number_read(LONGEST_LIFETIME, digits),
        None => None,
    }
}

/// Returns the lifetime that an option gives, or else `lifetime`, in seconds.
fn lifetime_next(lifetime: u64, option: &(u32, Bytes)) -> u64
    requires { lifetime ≤ LONGEST_LIFETIME }
    ensures exact { result ≡ unwrap_or (lists.lifetime_in option.now) lifetime }
    ensures within { result ≤ LONGEST_LIFETIME }
{
    match lifetime_in(option) {
        Some(named) => named,
        None => lifetime,
    }
}

/// Returns the last lifetime that options give, or else the default lifetime, in seconds.
fn lifetime_of(options: &[(u32, Bytes)]) -> u64
    ensures exact { result ≡ lists.lifetime_from LIFETIME options.now }
    ensures within { result ≤ LONGEST_LIFETIME }
{
    let mut lifetime = LIFETIME;
    let mut left = options;
    'options: while let Some((option, more)) = left.split_first() {
        lifetime = lifetime_next(lifetime, option);
        left = more;
    }
    lifetime
}

/// Returns half of the lifetime of a registration in milliseconds, at least a second.
fn half_of(ask: &Ask) -> u64
    ensures { result ≡ lists.half_of ask.now }
{
    let lifetime = lifetime_of(ask.options.as_slice());
    if lifetime < 2 {
        return 1_000;
    }
    lifetime * 500
}

// ---- a line

/// Builds the request of a line of `register`, after which nothing happens.
fn register_entry(alloc: Global, from: Option<Host>, line: &[u8]) -> Result<(Ask, Then), LineFault>
    ensures exact { IsJudged result (lists.registering_entry from line.now) }
    ensures sent { IfOk result (λ made. CanBeSent made.0) }
{
    match register_read(alloc, from, line) {
        Ok(ask) => Ok((ask, Then::Ends)),
        Err(fault) => Err(fault),
    }
}

/// Builds the request of a line of `refresh`, after which nothing happens.
fn refresh_entry(alloc: Global, from: Option<Host>, line: &[u8]) -> Result<(Ask, Then), LineFault>
    ensures exact { IsJudged result (lists.refreshing_entry from line.now) }
    ensures sent { IfOk result (λ made. CanBeSent made.0) }
{
    match refresh_read(alloc, from, line) {
        Ok(ask) => Ok((ask, Then::Ends)),
        Err(fault) => Err(fault),
    }
}

/// Builds the request of a line of `remove` that ends with a location, after which nothing happens.
fn remove_entry(alloc: Global, from: Option<Host>, line: &[u8]) -> Result<(Ask, Then), LineFault>
    ensures exact { IsJudged result (lists.removing_at from line.now) }
    ensures sent { IfOk result (λ made. CanBeSent made.0) }
{
    match remove_read(alloc, from, line) {
        Ok(ask) => Ok((ask, Then::Ends)),
        Err(fault) => Err(fault),
    }
}

/// Builds the request of a line of `remove` that names a device.
///
/// The request registers the device once more. The answer gives the location, and the registration
/// there is then removed.
fn named_entry(alloc: Global, from: Option<Host>, line: &[u8]) -> Result<(Ask, Then), LineFault>
    ensures exact { IsJudged result (lists.removing_named from line.now) }
    ensures sent { IfOk result (λ made. CanBeSent made.0) }
{
    match named_read(alloc, from, line) {
        Ok(ask) => Ok((ask, Then::Removes)),
        Err(fault) => Err(fault),
    }
}

/// Builds the request of a line of `remove`.
fn removal_entry(alloc: Global, from: Option<Host>, line: &[u8]) -> Result<(Ask, Then), LineFault>
    ensures exact { IsJudged result (lists.removing_entry from line.now) }
    ensures sent { IfOk result (λ made. CanBeSent made.0) }
{
    if is_named(line) {
        return named_entry(alloc, from, line);
    }
    remove_entry(alloc, from, line)
}

/// Builds the request of a line of `keep`, after which the registration is refreshed at intervals
/// of half its lifetime.
fn keep_entry(alloc: Global, from: Option<Host>, line: &[u8]) -> Result<(Ask, Then), LineFault>
    ensures exact { IsJudged result (lists.keeping_entry from line.now) }
    ensures sent { IfOk result (λ made. CanBeSent made.0) }
{
    match register_read(alloc, from, line) {
        Ok(ask) => {
            let half = half_of(&ask);
            Ok((ask, Then::Keeps(half)))
        }
        Err(fault) => Err(fault),
    }
}

/// Builds the request of a line that is not ignored, with what happens after it.
fn asked_read(alloc: Global, order: Order, line: &[u8]) -> Result<(Ask, Then), LineFault>
    ensures exact { IsJudged result (lists.asked order line.now) }
    ensures sent { IfOk result (λ made. CanBeSent made.0) }
{
    match order.verb {
        Verb::Register => register_entry(alloc, order.from, line),
        Verb::Refresh => refresh_entry(alloc, order.from, line),
        Verb::Remove => removal_entry(alloc, order.from, line),
        Verb::Keep => keep_entry(alloc, order.from, line),
    }
}

/// Reads a line that is not ignored.
fn line_read(
    alloc: Global,
    order: Order,
    number: u64,
    line: &[u8],
) -> Result<Option<Entry>, LineFault>
    ensures exact { IsJudged result (lists.entry_with number (lists.asked order line.now)) }
    ensures sent { IfOk result IsSendable }
{
    match asked_read(alloc, order, line) {
        Ok((ask, then)) => Ok(Some(Entry { number, ask, then })),
        Err(fault) => Err(fault),
    }
}

/// Reads the line with this number, from 1. Returns `None` if the line is ignored.
///
/// # Errors
///
/// `Bad` with the first reason why the line is bad; `Starved` if memory runs out.
#[tactic(auto, unfolding(crate::specs::Lists::judged))]
pub(crate) fn entry_read(
    alloc: Global,
    order: Order,
    number: u64,
    line: &[u8],
) -> Result<Option<Entry>, LineFault>
    ensures exact { IsJudged result (lists.judged order number line.now) }
    ensures sent { IfOk result IsSendable }
{
    if number > MAX_LINES {
        return Err(LineFault::Bad(LineBad::Many));
    }
    let line = trimmed(line);
    if is_passed(line) {
        return Ok(None);
    }
    line_read(alloc, order, number, line)
}
