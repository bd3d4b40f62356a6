//! The table of options (RFC 7252 section 5.10, RFC 7641 section 2, RFC 7959 sections 2.1 and 4,
//! RFC 9175 section 2.2.1).

ghost use Rattle.std.specs.Prelude.{◌≡◌, ◌&&◌, nat_le};
ghost use Rattle.std.specs.Option.{option_map};
ghost use Rattle.message_model.specs.OptionTable as table;
ghost use Rattle.coap_options.specs.Definitions.{definition_in};

use message_model::options::{
    ACCEPT, BLOCK1, BLOCK2, CONTENT_FORMAT, ECHO, ETAG, LOCATION_PATH, OBSERVE, PROXY_SCHEME,
    PROXY_URI, SIZE1, SIZE2, URI_HOST, URI_PATH, URI_PORT, URI_QUERY,
};

/// What the table says of an option: the least and greatest length of its value in octets, and
/// whether it may be repeated.
#[derive(Clone, Copy)]
pub(crate) struct Definition {
    pub least: usize,
    pub most: usize,
    pub repeatable: bool,
}

/// Returns the entry of an option that appears at most once.
fn at_most_once(least: usize, most: usize) -> Option<Definition>
    ensures { option_map definition_in result ≡ table.at_most_once least most }
{
    Some(Definition {
        least,
        most,
        repeatable: false,
    })
}

/// Returns the entry of an option that may appear more than once.
fn any_number(least: usize, most: usize) -> Option<Definition>
    ensures { option_map definition_in result ≡ table.any_number least most }
{
    Some(Definition {
        least,
        most,
        repeatable: true,
    })
}

/// Returns the entry of the option with this number, if the table has it.
#[tactic(auto, unfolding(message_model::specs::OptionTable::definition_of))]
fn definition_of(number: u32) -> Option<Definition>
    ensures { option_map definition_in result ≡ table.definition_of number }
{
    match number {
        URI_HOST => at_most_once(1, 255),
        ETAG => any_number(1, 8),
        OBSERVE => at_most_once(0, 3),
        URI_PORT => at_most_once(0, 2),
        LOCATION_PATH => any_number(0, 255),
        URI_PATH => any_number(0, 255),
        CONTENT_FORMAT => at_most_once(0, 2),
        URI_QUERY => any_number(0, 255),
        ACCEPT => at_most_once(0, 2),
        BLOCK2 => at_most_once(0, 3),
        BLOCK1 => at_most_once(0, 3),
        SIZE2 => at_most_once(0, 4),
        PROXY_URI => at_most_once(1, 1034),
        PROXY_SCHEME => at_most_once(1, 255),
        SIZE1 => at_most_once(0, 4),
        ECHO => at_most_once(1, 40),
        _ => None,
    }
}

/// Returns whether a length is between the least and the greatest.
fn has_length(definition: &Definition, size: usize) -> bool
    ensures { result ≡ (nat_le definition.now.least size && nat_le size definition.now.most) }
{
    definition.least <= size && size <= definition.most
}

/// Returns whether the table has the option and allows this length. A further option of a number is
/// allowed only if the option may be repeated (RFC 7252 sections 5.4.3 and 5.4.5).
pub(crate) fn is_recognized(number: u32, is_further: bool, size: usize) -> bool
    ensures { result ≡ table.is_allowed_by (table.definition_of number) is_further size }
{
    let Some(definition) = definition_of(number) else {
        return false;
    };
    has_length(&definition, size) && (definition.repeatable || !is_further)
}

/// Returns whether an option is critical: its number is odd (RFC 7252 section 5.4.6).
pub(crate) fn is_critical(number: u32) -> bool
    ensures { result ≡ table.is_critical number }
{
    number % 2 == 1
}
