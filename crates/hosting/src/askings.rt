//! Which requests a share counts, and which lookups have too many query options.
ghost use Rattle.std.specs.Prelude.{◌≡◌, ◌==◌, nat_lt};
ghost use Rattle.std.specs.List.{list_all};
ghost use Rattle.coap_message.specs.OptionsLeft.{options_left};
ghost use Rattle.coap_message.specs.Views.{message_in};
ghost use Rattle.hosting.specs.Askings as spec;

use coap_message::{OptionsIter, Role, View, options_of, role_of};
use message_model::codes::{GET, POST};
use message_model::options::{BLOCK1, BLOCK2, OBSERVE, URI_PATH, URI_QUERY};

/// The class under which a share counts a request.
#[derive(Clone, Copy, Debug, PartialEq, Eq, Hash)]
pub enum Class {
    /// Any other write.
    Write,
    /// The first block of an upload (RFC 7959 section 2.5), or a simple registration (RFC 9176
    /// section 5.1).
    Begin,
    /// A request for an observation (RFC 7641 section 2).
    Observation,
    /// A lookup (RFC 9176 section 6), except for its later blocks.
    Lookup,
}

/// Returns whether one of these options is this path segment.
fn has_segment(options: OptionsIter<'_>, segment: &[u8]) -> bool
    ensures { result ≡ spec.has_segment segment.now (options_left options.entry) }
{
    let mut left = options;
    'options: while let Some(option) = left.next() {
        if option.number == URI_PATH && option.value == segment {
            return true;
        }
    }
    false
}

/// Returns whether the last octet of a Block option has number 0 and the flag for more blocks.
fn begins(octet: u8) -> bool
    ensures { result ≡ spec.begins octet }
{
    8 <= octet && octet < 16
}

/// Returns whether a Block option has number 0 and the flag for more blocks.
fn is_first_of_more(value: &[u8]) -> bool
    ensures { result ≡ spec.is_first_of_more value.now }
{
    match value {
        [a] => begins(*a),
        [a, b] => *a == 0 && begins(*b),
        [a, b, c] => *a == 0 && (*b == 0 && begins(*c)),
        _ => false,
    }
}

/// Returns whether these options belong to the first block of an upload.
fn begins_upload(options: OptionsIter<'_>) -> bool
    ensures { result ≡ spec.begins_upload (options_left options.entry) }
{
    let mut left = options;
    'options: while let Some(option) = left.next() {
        if option.number == BLOCK1 && is_first_of_more(option.value) {
            return true;
        }
    }
    false
}

/// Returns whether all octets are zeros.
fn is_zero(value: &[u8]) -> bool
    ensures { result ≡ list_all (λ octet. octet == 0) value.now }
{
    value.iter().all(|octet| *octet == 0)
}

/// Returns whether these options request an observation.
fn observes(options: OptionsIter<'_>) -> bool
    ensures { result ≡ spec.observes (options_left options.entry) }
{
    let mut left = options;
    'options: while let Some(option) = left.next() {
        if option.number == OBSERVE && is_zero(option.value) {
            return true;
        }
    }
    false
}

/// Returns whether a Block option has a number above 0.
fn is_later(value: &[u8]) -> bool
    ensures { result ≡ spec.is_later value.now }
{
    match value {
        [a] => 16 <= *a,
        [a, b] => 1 <= *a || 16 <= *b,
        [a, b, c] => 1 <= *a || (1 <= *b || 16 <= *c),
        _ => false,
    }
}

/// Returns whether these options request a later block of a response.
fn goes_on(options: OptionsIter<'_>) -> bool
    ensures { result ≡ spec.goes_on (options_left options.entry) }
{
    let mut left = options;
    'options: while let Some(option) = left.next() {
        if option.number == BLOCK2 && is_later(option.value) {
            return true;
        }
    }
    false
}

/// Returns whether there are more than `most` query options.
fn has_more_queries(options: OptionsIter<'_>, most: usize) -> bool
    ensures { result ≡ nat_lt most (spec.query_count (options_left options.entry)) }
{
    let mut left = options;
    let mut room = most;
    'options: while let Some(option) = left.next() {
        if option.number == URI_QUERY {
            if room == 0 {
                return true;
            }
            room -= 1;
        }
    }
    false
}

/// Returns whether options have neither Observe nor more query options than so many.
pub(crate) fn are_brief(options: OptionsIter<'_>, most: usize) -> bool
    ensures { result ≡ spec.are_brief most (options_left options.entry) }
{
    let mut left = options;
    let mut room = most;
    'options: while let Some(option) = left.next() {
        if option.number == OBSERVE {
            return false;
        }
        if option.number == URI_QUERY {
            if room == 0 {
                return false;
            }
            room -= 1;
        }
    }
    true
}

/// Returns the class of a write.
fn write_class(view: &View<'_>) -> Class
    ensures { result ≡ spec.write_class view.now.code (message_in view.now).options }
{
    if begins_upload(options_of(view)) {
        return Class::Begin;
    }
    if view.code == POST && has_segment(options_of(view), b".well-known") {
        return Class::Begin;
    }
    Class::Write
}

/// Returns the class of a GET, or `None` if no share counts it.
fn get_class(view: &View<'_>) -> Option<Class>
    ensures { result ≡ spec.get_class (message_in view.now).options }
{
    if observes(options_of(view)) {
        return Some(Class::Observation);
    }
    if goes_on(options_of(view)) {
        return None;
    }
    if has_segment(options_of(view), b"rd-lookup") {
        return Some(Class::Lookup);
    }
    None
}

/// Returns the class of a message, or `None` if it is no request that a share counts.
pub(crate) fn class_of(view: &View<'_>) -> Option<Class>
    ensures { result ≡ spec.class_of (message_in view.now) }
{
    if role_of(view) != Role::Request {
        return None;
    }
    if view.code != GET {
        return Some(write_class(view));
    }
    get_class(view)
}

/// Returns whether a message is a lookup with more than `most` query options.
pub(crate) fn passes_criteria(most: usize, view: &View<'_>) -> bool
    ensures { result ≡ spec.passes_criteria most (message_in view.now) }
{
    if role_of(view) != Role::Request || view.code != GET {
        return false;
    }
    has_segment(options_of(view), b"rd-lookup") && has_more_queries(options_of(view), most)
}
