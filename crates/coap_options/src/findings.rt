//! What is found in the options up to one of them, and in one more.

ghost use Rattle.std.specs.Prelude.{◌≡◌, ◌||◌, ◌==◌, ℕ, List, [], ◌∷◌, ◌++◌, Some, None};
ghost use Rattle.std.specs.Prelude.{if◌then◌else◌, OnOk, IfErr};
ghost use Rattle.std.specs.Option.{option_map, option_or};
ghost use Rattle.message_model.specs.Message as model;
ghost use Rattle.message_model.specs.OptionTable as table;
ghost use Rattle.message_model.specs.OptionTable.{stands_in, first_bad_option};
ghost use Rattle.coap_message.specs.OptionsLeft.{option_in};
ghost use Rattle.coap_options.specs.Segments.{AreSegments};
ghost use Rattle.coap_options.specs.Findings.{is_last, IsFound, IsFoundWith};

use crate::segments::{Segments, with_segment};
use crate::table::{is_critical, is_recognized};
use coap_message::Opt;
use message_model::options::{
    ACCEPT, BLOCK1, BLOCK2, CONTENT_FORMAT, ECHO, OBSERVE, PROXY_SCHEME, PROXY_URI, URI_PATH,
};

/// The values of recognized options, and the number of the last option.
#[derive(Clone, Copy)]
pub(crate) struct Found<'a> {
    /// The number of the last option, whether or not it is recognized.
    pub last: Option<u32>,
    /// The segments of the path.
    pub segments: Segments<'a>,
    /// The first value of each of the following options.
    pub observe: Option<&'a [u8]>,
    pub accept: Option<&'a [u8]>,
    pub format: Option<&'a [u8]>,
    pub block1: Option<&'a [u8]>,
    pub block2: Option<&'a [u8]>,
    pub echo: Option<&'a [u8]>,
    /// Whether an option asks for a proxy.
    pub proxy: bool,
}

/// Returns whether the last option has this number, too. Option numbers never fall.
pub(crate) fn is_last(last: Option<u32>, number: u32) -> bool
    ensures { result ≡ is_last last number }
{
    match last {
        Some(before) => before == number,
        None => false,
    }
}

/// Stores the value of an option with the wanted number, unless an earlier one is stored.
fn keep_first<'a>(found: &mut Option<&'a [u8]>, wanted: u32, option: &Opt<'a>)
    ensures { option_map (λ v. v.now) found.new
        ≡ option_or (option_map (λ v. v.now) found.old)
        (if option.now.number == wanted then Some option.now.value.now else None) }
{
    if found.is_some() {
        return;
    }
    if option.number == wanted {
        *found = Some(option.value);
    }
}

/// Adds the segment of an option, if it has one.
fn add_path<'a>(segments: &mut Segments<'a>, option: &Opt<'a>)
    ensures { (values : List (List ℕ)) → AreSegments segments.old values
        → AreSegments segments.new (values
        ++ (if option.now.number
        == table.uri_path then option.now.value.now ∷ [] else [])) }
{
    if option.number == URI_PATH {
        *segments = with_segment(*segments, option.value);
    }
}

/// Returns whether the option asks for a proxy (RFC 7252 section 5.10.2).
fn is_proxy(number: u32) -> bool
    ensures { result ≡ (number == table.proxy_uri || number == table.proxy_scheme) }
{
    number == PROXY_URI || number == PROXY_SCHEME
}

/// Adds a recognized option.
pub(crate) fn add_recognized<'a>(found: &mut Found<'a>, option: &Opt<'a>)
    ensures { IsFoundWith found.old (option_in option.now) found.new }
{
    found.last = Some(option.number);
    add_path(&mut found.segments, option);
    keep_first(&mut found.observe, OBSERVE, option);
    keep_first(&mut found.accept, ACCEPT, option);
    keep_first(&mut found.format, CONTENT_FORMAT, option);
    keep_first(&mut found.block1, BLOCK1, option);
    keep_first(&mut found.block2, BLOCK2, option);
    keep_first(&mut found.echo, ECHO, option);
    found.proxy = found.proxy || is_proxy(option.number);
}

/// Returns what is found in no options.
#[rattlefmt::skip]
#[tactic(
    auto,
    unfolding(
        message_model::specs::OptionTable::first_bad_option,
        message_model::specs::OptionTable::values,
        message_model::specs::OptionTable::recognized_options,
        message_model::specs::OptionTable::preceded_options
    )
)]
pub(crate) fn nothing_found<'a>() -> Found<'a>
    ensures { IsFound [] result }
{
    Found {
        last: None,
        segments: Segments::None,
        observe: None,
        accept: None,
        format: None,
        block1: None,
        block2: None,
        echo: None,
        proxy: false,
    }
}

/// The error of a critical option that is not recognized: the number of the first one (RFC 7252
/// section 5.4.1).
#[derive(Clone, Copy, Debug, PartialEq, Eq)]
pub struct BadOption(pub u32);

/// Adds an option: its value if it is recognized, and otherwise only its number. Returns an error
/// if it is critical and not recognized (RFC 7252 section 5.4.1).
pub(crate) fn add_option<'a>(found: &mut Found<'a>, option: &Opt<'a>) -> Result<(), BadOption>
    ensures found { OnOk result ((before : List model.Opt) → IsFound before found.old
        → stands_in option.now.number before ≡ is_last found.old.last option.now.number
        → IsFound (before ++ option_in option.now ∷ []) found.new) }
    ensures bad { IfErr result (λ bad. (before : List model.Opt) → IsFound before found.old
        → stands_in option.now.number before ≡ is_last found.old.last option.now.number
        → first_bad_option (before ++ option_in option.now ∷ []) ≡ Some bad.0) }
{
    let is_further = is_last(found.last, option.number);
    if is_recognized(option.number, is_further, option.value.len()) {
        add_recognized(found, option);
        return Ok(());
    }
    if is_critical(option.number) {
        return Err(BadOption(option.number));
    }
    found.last = Some(option.number);
    Ok(())
}
