//! Links that are read in place: parts of the texts of all links.
ghost use Rattle.std.specs.Prelude.{◌≡◌, ◌↔◌, ◌<◌, ◌^◌, ◌∷◌, [], length, slice_get, option_map};
ghost use Rattle.std.specs.Prelude.{IsTrue, MatchOption};
ghost use Rattle.rd_base.specs.LinkLines.{link_line};
ghost use Rattle.rd_base.specs.LinkTexts.{AreLinks, links_in};
ghost use Rattle.rd_base.specs.PairRefs.{text_seen};
ghost use Rattle.rd_base.specs.Spans.{IsStretchIfAny, placed};

use crate::link_texts::{LinkSpans, LinkTexts, PairSpans};
use crate::spans::{Stretch, at, at_stretch};
use std::marker::Model;

/// A borrowed attribute.
#[derive(Clone, Copy, Debug)]
pub struct PairRef<'a> {
    /// The name.
    pub name: &'a str,
    /// The value, without quotes and escapes.
    pub value: &'a str,
}

/// Returns where a text begins in another one, or 0 if it is apart.
fn begin(stretch: Stretch) -> usize {
    match stretch {
        Stretch::Here(span) => span.from as usize,
        Stretch::Apart(_) => 0,
    }
}

/// An iterator over the remaining attributes of a link, in order. Contracts see it as their list.
#[derive(Debug, Drop)]
pub struct LinkPairs<'a> {
    /// The attributes of the link as they were written.
    raw: &'a str,
    /// The values that lie apart.
    apart: &'a str,
    /// The spans of the remaining attributes.
    left: &'a [PairSpans],
}

impl<'a> Model for LinkPairs<'a> {
    ghost use Rattle.std.specs.Prelude.{List};
    ghost use Rattle.std.specs.List.{All};
    ghost use Rattle.rd_base.specs.declared.attributes.Pair.{Pair};
    ghost use Rattle.rd_base.specs.LinkTexts.{HoldsPair, pairs_of};

    ghost Value = { List Pair };

    ghost view = { λ p. pairs_of p.raw.now p.apart.now p.left.now };

    ghost invariant = { λ p. All (HoldsPair p.raw.now p.apart.now) p.left.now };
}

impl<'a> LinkPairs<'a> {
    /// Returns how many attributes are left.
    pub fn len(&self) -> usize
        ensures value { result ≡ length self.now }
        ensures counted { length self.now < 2 ^ 64 }
    {
        self.left.len()
    }

    /// Returns whether no attribute is left.
    pub fn is_empty(&self) -> bool
        ensures { IsTrue result ↔ (self.now ≡ []) }
    {
        self.left.is_empty()
    }

    /// Returns an iterator over the same attributes.
    pub fn again(&self) -> LinkPairs<'a>
        ensures { result ≡ self.now }
    {
        LinkPairs {
            raw: self.raw,
            apart: self.apart,
            left: self.left,
        }
    }

    /// Returns where the name and the value of the first attribute begin in the attributes as they
    /// were written, or 0 for one that lies apart.
    pub(crate) fn places(&self) -> (usize, usize) {
        match self.left.first() {
            None => (0, 0),
            Some(first) => (begin(first.name), begin(first.value)),
        }
    }
}

impl<'a> Iterator for LinkPairs<'a> {
    ghost use Rattle.std.specs.Iterator.{YieldsFirstBy, item_count};
    ghost use Rattle.rd_base.specs.PairRefs.{pair_seen};

    type Item = PairRef<'a>;

    ghost next_gives = { YieldsFirstBy pair_seen (λ pairs. pairs) };

    ghost remaining = { item_count (λ pairs. pairs) };

    fn next(&mut self) -> Option<PairRef<'a>> {
        let (first, rest) = self.left.split_first()?;
        let name = at_stretch(self.raw, self.apart, first.name);
        let value = at_stretch(self.raw, self.apart, first.value);
        self.left = rest;
        Some(PairRef { name, value })
    }
}

/// A link that is read in place. Contracts see it as the link.
#[derive(Debug, Drop)]
pub struct Link<'a> {
    /// The texts of all links.
    texts: &'a LinkTexts,
    /// The spans of its parts.
    spans: &'a LinkSpans,
}

impl<'a> Model for Link<'a> {
    ghost use Rattle.rd_base.specs.declared.records.Item.{Item};
    ghost use Rattle.rd_base.specs.LinkTexts.{HoldsIn, link_in};

    ghost Value = { Item };

    ghost view = { λ l. link_in l.texts.now l.spans.now };

    ghost invariant = { λ l. HoldsIn l.texts.now l.spans.now };
}

/// Returns the text at a stretch, if there is one.
fn at_stretch_if_any<'a>(text: &'a str, apart: &'a str, stretch: Option<Stretch>) -> Option<&'a str>
    requires { IsStretchIfAny text.now apart.now stretch }
    ensures { text_seen result ≡ option_map (placed text.now apart.now) stretch }
{
    match stretch {
        None => None,
        Some(stretch) => Some(at_stretch(text, apart, stretch)),
    }
}

impl<'a> Link<'a> {
    /// Returns the target as it was submitted.
    pub fn target_ref(&self) -> &'a str
        ensures { result.now ≡ self.now.target_ref }
    {
        at(self.texts.source.as_str(), self.spans.submitted.target)
    }

    /// Returns the anchor as it was submitted.
    pub fn anchor_ref(&self) -> Option<&'a str>
        ensures { text_seen result ≡ self.now.anchor_ref }
    {
        let source = self.texts.source.as_str();
        at_stretch_if_any(
            source,
            self.texts.apart.as_str(),
            self.spans.submitted.anchor,
        )
    }

    /// Returns the target, resolved against the base of the registration.
    pub fn target(&self) -> &'a str
        ensures { result.now ≡ self.now.target }
    {
        at(self.texts.listed.as_str(), self.spans.listed.target)
    }

    /// Returns the anchor, resolved against the base of the registration.
    pub fn anchor(&self) -> Option<&'a str>
        ensures { text_seen result ≡ self.now.anchor }
    {
        let listed = self.texts.listed.as_str();
        at_stretch_if_any(listed, self.texts.apart.as_str(), self.spans.listed.anchor)
    }

    /// Returns the attributes as they were written, each from its semicolon on, without anchors.
    pub fn raw(&self) -> &'a str
        ensures { result.now ≡ self.now.raw }
    {
        at(self.texts.source.as_str(), self.spans.submitted.raw)
    }

    /// Returns the line of the link in a listing (RFC 9176 section 6.4).
    pub fn line(&self) -> &'a str
        ensures { result.now ≡ link_line self.now }
    {
        at(self.texts.listed.as_str(), self.spans.listed.line)
    }

    /// Returns the attributes, without anchors, with their values.
    pub fn pairs(&self) -> LinkPairs<'a>
        ensures { result ≡ self.now.pairs }
    {
        let span = self.spans.pairs;
        LinkPairs {
            raw: self.raw(),
            apart: self.texts.apart.as_str(),
            left: &self.texts.pairs.as_slice()[span.from as usize..span.upto as usize],
        }
    }
}

/// An iterator over the remaining links, in order. Contracts see it as their list.
#[derive(Debug, Drop)]
pub struct Links<'a> {
    /// The texts of all links.
    texts: &'a LinkTexts,
    /// The spans of the remaining links.
    left: &'a [LinkSpans],
}

impl<'a> Model for Links<'a> {
    ghost use Rattle.std.specs.Prelude.{List, map};
    ghost use Rattle.std.specs.List.{All};
    ghost use Rattle.rd_base.specs.declared.records.Item.{Item};
    ghost use Rattle.rd_base.specs.LinkTexts.{HoldsIn, link_in};

    ghost Value = { List Item };

    ghost view = { λ l. map (link_in l.texts.now) l.left.now };

    ghost invariant = { λ l. All (HoldsIn l.texts.now) l.left.now };
}

/// Returns the links of these texts.
pub(crate) fn links_of_texts(texts: &LinkTexts) -> Links<'_>
    requires { AreLinks texts.now }
    ensures { result ≡ links_in texts.now }
{
    Links {
        texts,
        left: texts.links.as_slice(),
    }
}

impl<'a> Links<'a> {
    /// Returns how many links are left.
    pub fn len(&self) -> usize
        ensures value { result ≡ length self.now }
        ensures counted { length self.now < 2 ^ 64 }
    {
        self.left.len()
    }

    /// Returns whether no link is left.
    pub fn is_empty(&self) -> bool
        ensures { IsTrue result ↔ (self.now ≡ []) }
    {
        self.left.is_empty()
    }

    /// Returns an iterator over the same links.
    pub fn again(&self) -> Links<'a>
        ensures { result ≡ self.now }
    {
        Links {
            texts: self.texts,
            left: self.left,
        }
    }

    /// Returns the first link and those after it, or `None` if there is none.
    pub fn split_first(&self) -> Option<(Link<'a>, Links<'a>)>
        ensures { MatchOption result (self.now ≡ []) (λ parts. self.now ≡ parts.0 ∷ parts.1) }
    {
        let mut more = self.again();
        let first = more.next()?;
        Some((first, more))
    }

    /// Returns the link at an index, counted from 0, if there is one.
    pub fn get(&self, index: usize) -> Option<Link<'a>>
        ensures { result ≡ slice_get self.now index }
    {
        let spans = self.left.get(index)?;
        Some(Link {
            texts: self.texts,
            spans,
        })
    }
}

impl<'a> Iterator for Links<'a> {
    ghost use Rattle.std.specs.Iterator.{YieldsFirstBy, item_count};

    type Item = Link<'a>;

    ghost next_gives = { YieldsFirstBy (λ link. link) (λ links. links) };

    ghost remaining = { item_count (λ links. links) };

    fn next(&mut self) -> Option<Link<'a>> {
        let (spans, rest) = self.left.split_first()?;
        let texts = self.texts;
        self.left = rest;
        Some(Link { texts, spans })
    }
}
