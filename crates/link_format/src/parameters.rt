//! The parameters of a link, one after the other (RFC 6690 section 2).
ghost use Rattle.std.specs.Prelude.{◌≡◌, is_some, option_map, true};
ghost use Rattle.link_model.specs.Documents.{parameter_text};
ghost use Rattle.link_format.specs.LinksOfText.{parameters_of, parameters_in};

use crate::parts::parameter_parts;
use std::marker::Model;

/// A parameter of a link (RFC 6690 section 2, link-param).
#[derive(Clone, Copy, Debug)]
pub struct Param<'a> {
    /// The name.
    pub name: &'a str,
    /// The value as it is spelled, with its quotes, if there is one.
    pub value: Option<&'a str>,
    /// The whole parameter from its semicolon on.
    pub raw: &'a str,
    ghost spelled: { raw.now
        ≡ parameter_text
        (record { name = name.now; value = option_map (λ text. text.now) value }) },
}

/// An iterator over the parameters of a link, in order, as [`params`](crate::params) returns it.
/// Contracts see it as the list of the parameters that are left.
#[derive(Clone, Debug, Drop)]
pub struct Params<'a> {
    rest: &'a str,
}

impl<'a> Model for Params<'a> {
    ghost use Rattle.std.specs.Prelude.{◌≡◌, List, is_some, true};
    ghost use Rattle.link_model.specs.Documents.{Parameter};
    ghost use Rattle.link_format.specs.LinksOfText.{parameters_of, parameters_in};

    ghost Value = { List Parameter };

    ghost view = { λ params. parameters_in params.rest.now };

    ghost invariant = { λ params. is_some (parameters_of params.rest.now) ≡ true };
}

/// Returns an iterator over the parameters of a text that spells a list of parameters.
pub fn params_of_text(text: &str) -> Params<'_>
    requires { is_some (parameters_of text.now) ≡ true }
    ensures { result ≡ parameters_in text.now }
{
    Params { rest: text }
}

impl<'a> Iterator for Params<'a> {
    ghost use Rattle.std.specs.Iterator.{YieldsFirstBy, item_count};
    ghost use Rattle.link_format.specs.Views.{parameter_seen};

    type Item = Param<'a>;

    ghost next_gives = { YieldsFirstBy parameter_seen (λ params. params) };

    ghost remaining = { item_count (λ params. params) };

    fn next(&mut self) -> Option<Param<'a>> {
        let (raw, name, value, rest) = parameter_parts(self.rest)?;
        self.rest = rest;
        Some(Param { name, value, raw })
    }
}
