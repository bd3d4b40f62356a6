//! Requests that are answered without a seat.
ghost use Rattle.std.specs.Prelude.{◌≡◌, false, None, Some};
ghost use Rattle.message_model.specs.Message.{Message};
ghost use Rattle.message_model.specs.Refusals.{refusal_of, is_rd};
ghost use Rattle.record_model.specs.Options.{has_named, is_named, option_name};
ghost use Rattle.record_model.specs.Parameters as parameters;
ghost use Rattle.coap_message.specs.Views.{message_in};
ghost use Rattle.coap_options.specs.Meanings.{IsMeaning};
ghost use Rattle.coap_options.specs.ValuesLeft.{queries_left};
ghost use Rattle.coap_stream.specs.Requests as spec;

use coap_message::View;
use coap_options::{Meaning, Path, QueryIter, Refusal, meaning, queries, request};
use message_model::codes::POST;

/// The reason for which a request of a connection is answered without a seat. The reasons are
/// tested in this order.
#[derive(Clone, Copy, Debug, PartialEq, Eq)]
pub enum Unasked {
    /// The refusal of an option, of a proxy, or of a path that names no resource, with its code and
    /// diagnostic payload (RFC 7252 section 5.9).
    Refused(Refusal),
    /// 4.04: it is a simple registration, for which the directory would have to open a connection
    /// to the registrant (RFC 9176 section 5.1).
    Simple,
    /// 4.00: it is a registration that gives no base, and the address of a connection cannot serve
    /// as one (RFC 9176 section 5).
    Baseless,
}

/// Returns whether a refusal is tested before the method.
fn is_before_method(refusal: Refusal) -> bool
    ensures { result ≡ spec.is_before_method refusal }
{
    match refusal {
        Refusal::BadOption(_) => true,
        Refusal::Proxy => true,
        Refusal::Path => true,
        Refusal::Method => false,
        Refusal::Block => false,
        Refusal::Accept => false,
        Refusal::Format => false,
    }
}

/// Returns whether a path is that of simple registrations.
fn is_simple_rd(path: Path) -> bool
    ensures { result ≡ spec.is_simple_rd path }
{
    matches!(path, Path::SimpleRd)
}

/// Returns whether a path is that of registrations.
fn is_rd(path: Path) -> bool
    ensures { result ≡ is_rd path }
{
    matches!(path, Path::Rd)
}

/// Returns whether a request is a simple registration (RFC 9176 section 5.1).
fn is_simple(meaning: &Meaning<'_>) -> bool
    ensures { (m : Message) → IsMeaning m meaning.now → result ≡ spec.is_simple m }
{
    meaning.view.code == POST && is_simple_rd(meaning.path)
}

/// Returns the name of a query option: the octets before its first equals sign, or all of them if
/// it has none.
fn name_of(query: &[u8]) -> &[u8]
    ensures { result.now ≡ option_name query.now }
{
    let mut at = 0;
    'octets: while at < query.len() {
        if query[at] == b'=' {
            return &query[..at];
        }
        at += 1;
    }
    query
}

/// Returns whether a query option gives a base.
fn is_base(query: &[u8]) -> bool
    ensures { result ≡ is_named parameters.base query.now }
{
    name_of(query) == b"base".as_slice()
}

/// Returns whether a base is given.
fn has_base(queries: QueryIter<'_>) -> bool
    ensures { result ≡ has_named parameters.base (queries_left queries.entry) }
{
    let mut left = queries;
    'queries: while let Some(query) = left.next() {
        if is_base(query) {
            return true;
        }
    }
    false
}

/// Returns whether a request is a registration that gives no base (RFC 9176 section 5).
fn is_baseless(meaning: &Meaning<'_>) -> bool
    ensures { (m : Message) → IsMeaning m meaning.now → result ≡ spec.is_baseless m }
{
    if meaning.view.code != POST {
        return false;
    }
    if !is_rd(meaning.path) {
        return false;
    }
    !has_base(queries(meaning))
}

/// Returns the reason for a request that is not refused before its query options are examined.
fn unasked_read(meaning: &Meaning<'_>) -> Option<Unasked>
    ensures { (m : Message) → IsMeaning m meaning.now
        → result ≡ spec.unasked_by None (spec.is_simple m) (spec.is_baseless m) }
{
    if is_simple(meaning) {
        return Some(Unasked::Simple);
    }
    if is_baseless(meaning) {
        return Some(Unasked::Baseless);
    }
    None
}

/// Returns the reason for a request that is refused by its content alone.
fn unasked_refused(view: &View<'_>, refusal: Refusal) -> Option<Unasked>
    requires { refusal_of (message_in view.now) ≡ Some refusal }
    ensures { result ≡ spec.unasked_of (message_in view.now) }
{
    if is_before_method(refusal) {
        return Some(Unasked::Refused(refusal));
    }
    let Ok(meant) = meaning(view) else {
        unreachable!()
    };
    if is_simple(&meant) {
        return Some(Unasked::Simple);
    }
    None
}

/// Returns the reason for which a request of a connection is answered without a seat, or `None` if
/// it is for a seat.
///
/// The reasons are that an option, a proxy or the path is refused, or that it is a simple
/// registration. Another reason is that it is a registration without a base, and is not refused
/// before its query options are examined.
pub fn why_unasked(view: &View<'_>) -> Option<Unasked>
    ensures { result ≡ spec.unasked_of (message_in view.now) }
{
    match request(view) {
        Ok(meant) => unasked_read(&meant),
        Err(refusal) => unasked_refused(view, refusal),
    }
}
