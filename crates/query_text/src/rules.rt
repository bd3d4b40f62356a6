//! The reasons why one query option is refused.
ghost use Rattle.std.specs.Prelude.{◌≡◌, None, Some, MatchResult};
ghost use Rattle.record_model.specs.Parameters as parameters;
ghost use Rattle.record_model.specs.Options as options;
ghost use Rattle.query_text.specs.Rules as rules;
ghost use Rattle.query_text.specs.Numbers.{lifetime_in};

use crate::bases::base_fault;
use crate::occurrences::Occurred;
use crate::options::{has_control, is_extra_name, name_and_value, number};
use crate::{Reading, Why};
use std::str;

/// An option with its name and its value.
#[derive(Clone, Copy)]
pub(crate) struct Named<'a> {
    /// The text before the first equals sign.
    pub name: &'a str,
    /// The text after the first equals sign.
    pub value: &'a str,
}

/// Returns whether the parameters are those of an update.
fn is_update(kind: Reading) -> bool
    ensures { result ≡ parameters.is_update kind }
{
    matches!(kind, Reading::Update)
}

/// Returns whether the parameters are those of a simple registration.
fn is_simple(kind: Reading) -> bool
    ensures { result ≡ parameters.is_simple kind }
{
    matches!(kind, Reading::Simple)
}

/// Returns whether the options are those of a lookup.
fn is_lookup(kind: Reading) -> bool
    ensures { result ≡ rules.is_lookup kind }
{
    matches!(kind, Reading::Lookup)
}

/// Returns the lifetime that a text spells, a number of seconds and not 0 (RFC 9176 section 5, lt).
pub(crate) fn lifetime(text: &str) -> Option<u32>
    ensures { result ≡ lifetime_in text.now }
{
    let Some(seconds) = number(text) else {
        return None;
    };
    if seconds == 0 {
        return None;
    }
    Some(seconds)
}

/// Returns why the name of an endpoint or a sector is refused, if it is.
fn name_fault(kind: Reading, occurred: bool, value: &str) -> Option<Why>
    ensures { result ≡ rules.name_fault kind occurred value.now }
{
    if is_update(kind) {
        return Some(Why::NotHere);
    }
    if occurred {
        return Some(Why::Repeated);
    }
    if value.is_empty() {
        return Some(Why::Empty);
    }
    if value.len() > 63 {
        return Some(Why::TooLong);
    }
    None
}

/// Returns why a lifetime is refused, if it is.
fn lifetime_fault(occurred: bool, value: &str) -> Option<Why>
    ensures { result ≡ rules.lifetime_fault occurred value.now }
{
    if occurred {
        return Some(Why::Repeated);
    }
    if lifetime(value).is_none() {
        return Some(Why::Lt);
    }
    None
}

/// Returns why a base is refused, if it is.
fn given_base_fault(kind: Reading, occurred: bool, value: &str) -> Option<Why>
    ensures { result ≡ rules.given_base_fault kind occurred value.now }
{
    if is_simple(kind) {
        return Some(Why::NotHere);
    }
    if occurred {
        return Some(Why::Repeated);
    }
    base_fault(value)
}

/// Returns why an extra attribute is refused, if it is.
fn extra_fault(name: &str) -> Option<Why>
    ensures { result ≡ rules.extra_fault name.now }
{
    if !is_extra_name(name) {
        return Some(Why::Name);
    }
    None
}

/// Returns why a page or a count is refused, if it is.
fn cut_fault(occurred: bool, value: &str) -> Option<Why>
    ensures { result ≡ rules.cut_fault occurred value.now }
{
    if occurred {
        return Some(Why::Repeated);
    }
    if number(value).is_none() {
        return Some(Why::Number);
    }
    None
}

/// Returns why a criterion is refused, if it is.
fn criterion_fault(name: &str) -> Option<Why>
    ensures { result ≡ rules.criterion_fault name.now }
{
    if name.is_empty() {
        return Some(Why::Name);
    }
    None
}

/// Returns why the rules of its name refuse a parameter, if they do (RFC 9176 section 5).
#[tactic(auto, unfolding(crate::specs::Rules::parameter_rules))]
fn parameter_rules(kind: Reading, occurred: &Occurred, name: &str, value: &str) -> Option<Why>
    ensures { result ≡ rules.parameter_rules kind occurred.now name.now value.now }
{
    if name == "ep" {
        return name_fault(kind, occurred.ep, value);
    }
    if name == "d" {
        return name_fault(kind, occurred.sector, value);
    }
    if name == "lt" {
        return lifetime_fault(occurred.lifetime, value);
    }
    if name == "base" {
        return given_base_fault(kind, occurred.base, value);
    }
    extra_fault(name)
}

/// Returns why the rules of its name refuse an option of a lookup, if they do (RFC 9176 section
/// 6.2).
#[tactic(auto, unfolding(crate::specs::Rules::option_rules))]
fn option_rules(occurred: &Occurred, name: &str, value: &str) -> Option<Why>
    ensures { result ≡ rules.option_rules occurred.now name.now value.now }
{
    if name == "page" {
        return cut_fault(occurred.page, value);
    }
    if name == "count" {
        return cut_fault(occurred.count, value);
    }
    criterion_fault(name)
}

/// Returns why its characters or the rules of its name refuse an option, if they do.
#[tactic(auto, unfolding(crate::specs::Rules::named_fault))]
fn named_fault(kind: Reading, occurred: &Occurred, name: &str, value: &str) -> Option<Why>
    ensures { result ≡ rules.named_fault kind occurred.now name.now value.now }
{
    if is_lookup(kind) {
        return option_rules(occurred, name, value);
    }
    if has_control(value) {
        return Some(Why::Control);
    }
    parameter_rules(kind, occurred, name, value)
}

/// Returns an option with its name and its value, or why it is refused.
#[tactic(auto, unfolding(crate::specs::Rules::fault_after))]
pub(crate) fn judged<'a>(
    kind: Reading,
    occurred: &Occurred,
    option: &'a [u8],
) -> Result<Named<'a>, Why>
    ensures fault { MatchResult result (λ _. rules.fault_after kind occurred.now option.now ≡ None)
        (λ why. rules.fault_after kind occurred.now option.now ≡ Some why) }
    ensures parts { MatchResult result (λ named. (named.name.now ≡ options.option_name option.now) ×
        (named.value.now ≡ options.option_value option.now)) (λ _. Unit {0}) }
{
    let Ok(text) = str::from_utf8(option) else {
        return Err(Why::Utf8);
    };
    let (name, value) = name_and_value(text);
    match named_fault(kind, occurred, name, value) {
        Some(why) => Err(why),
        None => Ok(Named { name, value }),
    }
}

/// Returns why an option is missing after the last, if one is.
#[tactic(auto, unfolding(crate::specs::Rules::missing_after))]
pub(crate) fn missing(kind: Reading, occurred: &Occurred) -> Option<Why>
    ensures { result ≡ rules.missing_after kind occurred.now }
{
    if is_lookup(kind) {
        if occurred.page && !occurred.count {
            return Some(Why::PageAlone);
        }
        return None;
    }
    if is_update(kind) || occurred.ep {
        return None;
    }
    Some(Why::NoEp)
}
