//! The links of a document, one after the other (RFC 6690 section 2).
ghost use Rattle.std.specs.Prelude.{◌≡◌, is_some, true};
ghost use Rattle.link_format.specs.LinksOfText.{links_of, links_in, parameters_of, parameters_in};

use crate::parameters::{Params, params_of_text};
use crate::parts::link_parts;
use std::marker::Model;

/// A link of a document: its target, and the text of its parameters after it (RFC 6690 section 2,
/// link-value).
#[derive(Clone, Copy, Debug)]
pub struct LinkRef<'a> {
    /// The text between `<` and `>`.
    pub target: &'a str,
    /// The text of the parameters, each from its semicolon on.
    pub params: &'a str,
    ghost readable: { is_some (parameters_of params.now) ≡ true },
}

/// An iterator over the links of a document, in order, as [`check`](crate::check) returns it.
/// Contracts see it as the list of the links that are left.
#[derive(Clone, Debug, Drop)]
pub struct Links<'a> {
    rest: &'a str,
}

impl<'a> Model for Links<'a> {
    ghost use Rattle.std.specs.Prelude.{◌≡◌, List, is_some, true};
    ghost use Rattle.link_model.specs.Documents.{Link};
    ghost use Rattle.link_format.specs.LinksOfText.{links_of, links_in};

    ghost Value = { List Link };

    ghost view = { λ links. links_in links.rest.now };

    ghost invariant = { λ links. is_some (links_of links.rest.now) ≡ true };
}

/// Returns an iterator over the links of a text that spells a list of links.
pub fn links_of_text(text: &str) -> Links<'_>
    requires { is_some (links_of text.now) ≡ true }
    ensures { result ≡ links_in text.now }
{
    Links { rest: text }
}

impl<'a> Iterator for Links<'a> {
    ghost use Rattle.std.specs.Iterator.{YieldsFirstBy, item_count};
    ghost use Rattle.link_format.specs.Views.{link_seen};

    type Item = LinkRef<'a>;

    ghost next_gives = { YieldsFirstBy link_seen (λ links. links) };

    ghost remaining = { item_count (λ links. links) };

    fn next(&mut self) -> Option<LinkRef<'a>> {
        let (target, params, rest) = link_parts(self.rest)?;
        self.rest = rest;
        Some(LinkRef { target, params })
    }
}

/// Returns an iterator over the parameters of a link, in order. Does not allocate.
pub fn params<'a>(link: &LinkRef<'a>) -> Params<'a>
    ensures { result ≡ parameters_in link.now.params.now }
{
    params_of_text(link.params)
}
