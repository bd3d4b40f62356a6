//! UTF-8, octet by octet (RFC 3629 section 4).
ghost use Rattle.std.specs.Prelude.{◌≡◌, option_map};
ghost use Rattle.std.specs.Int.{is_in_range};
ghost use Rattle.link_model.specs.Utf8Prefix as utf8;
ghost use Rattle.link_format.specs.Ranges.{tails_after};

/// The least and the greatest octet allowed at a position.
pub type OctetRange = (u8, u8);

/// The range of the octets that continue a character (UTF8-tail).
const TAIL: OctetRange = (0x80, 0xBF);

/// Returns the ranges of the octets that must follow the first octet of a character. Returns `None`
/// if no character begins with this octet.
#[tactic(auto, unfolding(link_model::specs::Utf8Prefix::tails_of))]
fn tails_of(octet: u8) -> Option<&'static [OctetRange]>
    ensures { option_map (λ tails. tails.now) result ≡ utf8.tails_of octet }
{
    match octet {
        0x00..=0x7F => Some(&[]),
        0xC2..=0xDF => Some(&[TAIL]),
        0xE0 => Some(&[(0xA0, 0xBF), TAIL]),
        0xED => Some(&[(0x80, 0x9F), TAIL]),
        0xE1..=0xEF => Some(&[TAIL, TAIL]),
        0xF0 => Some(&[(0x90, 0xBF), TAIL, TAIL]),
        0xF1..=0xF3 => Some(&[TAIL, TAIL, TAIL]),
        0xF4 => Some(&[(0x80, 0x8F), TAIL, TAIL]),
        _ => None,
    }
}

/// Returns the ranges of the octets that are due after `octet`, given those that were due before
/// it. Returns `None` if the octet is not allowed there.
pub fn tails_after(tails: &'static [OctetRange], octet: u8) -> Option<&'static [OctetRange]>
    ensures { option_map (λ more. more.now) result ≡ tails_after tails.now octet }
{
    let Some(((least, greatest), more)) = tails.split_first() else {
        return tails_of(octet);
    };
    if octet < *least {
        return None;
    }
    if octet > *greatest {
        return None;
    }
    Some(more)
}
