//! The parts of the first link of a document, and of the first parameter of a link (RFC 6690
//! section 2).
ghost use Rattle.std.specs.Prelude.{◌≡◌, option_map};
ghost use Rattle.link_format.specs.Parts as parts;

use crate::cuts::{Quotes, cut, split};

/// Returns the target of the first link, its parameters, and the links after its comma. Returns
/// `None` if the text has no target between `<` and `>`.
#[tactic(auto, unfolding(crate::specs::Parts::link_parts))]
pub fn link_parts(text: &str) -> Option<(&str, &str, &str)>
    ensures { option_map (λ p. (p.0.now, p.1.now, p.2.now)) result ≡ parts.link_parts text.now }
{
    let (_, opened) = cut(b'<', Quotes::Unread, text);
    let (target, closed) = cut(b'>', Quotes::Unread, opened?);
    let (params, further) = cut(b',', Quotes::Outside, closed?);
    Some((target, params, further.unwrap_or("")))
}

/// Returns the whole first parameter, its name, its value if there is one, and the parameters after
/// it. Returns `None` if that parameter has no semicolon, as in an empty text.
#[tactic(auto, unfolding(crate::specs::Parts::parameter_parts))]
pub fn parameter_parts(text: &str) -> Option<(&str, &str, Option<&str>, &str)>
    ensures { option_map (λ p. (p.0.now, p.1.now, option_map (λ value. value.now) p.2, p.3.now))
        result
        ≡ parts.parameter_parts text.now }
{
    let (raw, further) = split(b';', Quotes::Leading, text);
    let (_, inner) = cut(b';', Quotes::Unread, raw);
    let (name, value) = cut(b'=', Quotes::Unread, inner?);
    Some((raw, name, value, further))
}
