//! The options of a message, one after the other, and the meaning of the message.

ghost use Rattle.std.specs.Prelude.{◌≡◌, ◌≤◌, Some, None, length, IfOk, IfErr, OnOk};
ghost use Rattle.std.specs.Option.{option_map, ForSome};
ghost use Rattle.message_model.specs.Numbers as numbers;
ghost use Rattle.message_model.specs.OptionTable.{first_bad_option};
ghost use Rattle.coap_message.specs.Views.{message_in};
ghost use Rattle.coap_options.specs.Findings.{IsFound};
ghost use Rattle.coap_options.specs.Meanings.{HasShortBlocks, IsMeaning};

use crate::findings::{BadOption, Found, add_option, nothing_found};
use crate::meanings::Meaning;
use crate::segments::path_of;
use crate::uint_values::short_uint_of;
use block_wise::uint_of;
use coap_message::{View, options_of};

/// Returns the number that a value of at most two octets encodes.
fn short_uint_in(value: Option<&[u8]>) -> Option<u16>
    requires { ForSome value (λ v. length v.now ≤ 2) }
    ensures { result ≡ option_map numbers.uint_of (option_map (λ v. v.now) value.entry) }
{
    match value {
        Some(octets) => Some(short_uint_of(octets)),
        None => None,
    }
}

/// Returns the number that a value of at most three octets encodes.
fn uint_in(value: Option<&[u8]>) -> Option<u32>
    requires { ForSome value (λ v. length v.now ≤ 3) }
    ensures { result ≡ option_map numbers.uint_of (option_map (λ v. v.now) value.entry) }
{
    match value {
        Some(octets) => Some(uint_of(octets)),
        None => None,
    }
}

/// Returns the meaning of a message in whose options this was found.
fn meaning_of<'a>(view: &View<'a>, found: &Found<'a>) -> Meaning<'a>
    requires { IsFound (message_in view.now).options found.now }
    ensures meaning { IsMeaning (message_in view.now) result }
    ensures short { HasShortBlocks result }
{
    Meaning {
        view: *view,
        path: path_of(found.segments),
        observe: uint_in(found.observe),
        accept: short_uint_in(found.accept),
        format: short_uint_in(found.format),
        block1: found.block1,
        block2: found.block2,
        proxy: found.proxy,
        echo: found.echo,
    }
}

/// Returns the meaning of the options of a message (RFC 7252 section 5.4).
///
/// An option is recognized if the table has its number and allows the length of its value. An
/// option that may appear only once is not recognized after another with its number. An elective
/// option that is not recognized is ignored.
///
/// # Errors
///
/// `BadOption(n)` if a critical option is not recognized; `n` is the number of the first one.
pub fn meaning<'a>(view: &View<'a>) -> Result<Meaning<'a>, BadOption>
    ensures meaning { IfOk result (λ meaning. IsMeaning (message_in view.now) meaning) }
    ensures short { IfOk result HasShortBlocks }
    ensures good { OnOk result (first_bad_option (message_in view.now).options ≡ None) }
    ensures bad { IfErr result
        (λ bad. first_bad_option (message_in view.now).options ≡ Some bad.0) }
{
    let mut found = nothing_found();
    'options: for option in options_of(view) {
        add_option(&mut found, &option)?;
    }
    Ok(meaning_of(view, &found))
}
