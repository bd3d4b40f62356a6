//! A builder of links, one after the other.
ghost use Rattle.std.specs.Prelude.{◌≡◌, ◌++◌, ◌∷◌, [], IfOk, OnOk};
ghost use Rattle.std.specs.String.{string_bytes};
ghost use Rattle.rd_base.specs.Drafted.{drafted};
ghost use Rattle.rd_base.specs.LinkTexts.{comma_after};
ghost use Rattle.rd_base.specs.PairRefs.{link_made};

use crate::Starved;
use crate::link_reading::Link;
use crate::link_texts::{LinkSpans, LinkTexts, PairSpans, Room, append_line};
use crate::shared_links::Items;
use crate::spans::{Span, offset, push_mark, stretch_of};
use std::alloc::Global;
use std::marker::Model;

/// The parts of a link except its attributes.
#[derive(Clone, Copy, Debug)]
pub struct LinkParts<'a> {
    /// The target as it was submitted.
    pub target_ref: &'a str,
    /// The anchor as it was submitted.
    pub anchor_ref: Option<&'a str>,
    /// The target, resolved against the base of the registration.
    pub target: &'a str,
    /// The anchor, resolved against the base of the registration.
    pub anchor: Option<&'a str>,
}

/// How many octets of a body there are for each attribute, in most bodies.
const OCTETS_OF_PAIR: usize = 16;

/// How many octets of a body there are for each link, in most bodies.
const OCTETS_OF_LINK: usize = 40;

/// The most attributes for which a body's length asks for room.
const EXPECTED_PAIRS: usize = 16;

/// The most links for which a body's length asks for room.
const EXPECTED_LINKS: usize = 8;

/// A builder of links, with the attributes of the next link.
///
/// Each call takes the builder and returns it. After `Starved`, the builder is gone: memory ran
/// out, or a text would have more octets than a `u32` counts.
#[derive(Debug, Drop)]
pub struct LinksBuilder {
    /// The links.
    texts: LinkTexts,
    /// The attributes of the next link as they were written.
    raw: String,
    /// The number of attributes that the links have.
    taken: u32,
}

impl Model for LinksBuilder {
    ghost use Rattle.std.specs.String.{string_bytes};
    ghost use Rattle.rd_base.specs.Drafted.{Drafted, drafted_in, IsDrafted};

    ghost Value = { Drafted };

    ghost view = { λ b. drafted_in b.texts (string_bytes b.raw) b.taken };

    ghost invariant = { λ b. IsDrafted b.texts (string_bytes b.raw) b.taken };
}

/// Appends a comma, unless there is no link yet.
#[inline(always)]
fn separate(text: &mut String, links: &Vec<LinkSpans>) -> Result<(), Starved>
    ensures { OnOk result (string_bytes text.new ≡ string_bytes text.old
        ++ comma_after links.now.items) }
{
    if links.is_empty() {
        return Ok(());
    }
    push_mark(text, ',')
}

/// Returns where the value of an attribute is expected that is written from `from` on. This is
/// after its name of `name` octets, the equals sign, and the quote if there is one.
#[inline(always)]
fn value_from(raw: &str, from: usize, name: usize) -> usize {
    let from = from.saturating_add(name).saturating_add(2);
    match raw.as_bytes().get(from) {
        Some(b'"') => from.saturating_add(1),
        _ => from,
    }
}

impl LinksBuilder {
    /// Creates a builder without links. Does not allocate.
    #[tactic(auto, unfolding(crate::specs::LinkLines::submitted, crate::specs::LinkLines::listed))]
    pub fn new(alloc: Global) -> LinksBuilder
        ensures { result ≡ drafted [] [] [] }
    {
        LinksBuilder {
            texts: LinkTexts {
                source: String::new(alloc),
                listed: String::new(alloc),
                apart: String::new(alloc),
                pairs: Vec::new(alloc),
                links: Vec::new(alloc),
            },
            raw: String::new(alloc),
            taken: 0,
        }
    }

    /// Creates a builder without links. It has room for `submitted` octets in the text of what was
    /// submitted, and for `listed` octets in that of the lines of a listing.
    ///
    /// # Errors
    ///
    /// `Starved` if memory runs out.
    pub fn with_room(
        alloc: Global,
        submitted: usize,
        listed: usize,
    ) -> Result<LinksBuilder, Starved>
        ensures { IfOk result (λ builder. builder ≡ drafted [] [] []) }
    {
        let mut builder = LinksBuilder::new(alloc);
        builder.reserve(Room {
            submitted,
            listed,
            pairs: usize::min(submitted / OCTETS_OF_PAIR, EXPECTED_PAIRS),
            links: usize::min(submitted / OCTETS_OF_LINK, EXPECTED_LINKS),
        })?;
        Ok(builder)
    }

    /// Creates a builder without links, with room for as many as these and their attributes.
    ///
    /// # Errors
    ///
    /// `Starved` if memory runs out.
    pub fn with_room_of(alloc: Global, items: &Items) -> Result<LinksBuilder, Starved>
        ensures { IfOk result (λ builder. builder ≡ drafted [] [] []) }
    {
        let mut builder = LinksBuilder::new(alloc);
        builder.reserve(items.room())?;
        Ok(builder)
    }

    /// Makes room. The links do not change, even if memory runs out.
    fn reserve(&mut self, room: Room) -> Result<(), Starved>
        ensures { self.new ≡ self.old }
    {
        self.texts.source.reserve(room.submitted)?;
        self.texts.listed.reserve(room.listed)?;
        self.texts.pairs.reserve(room.pairs)?;
        self.texts.links.reserve(room.links)?;
        self.raw.reserve(room.submitted)?;
        Ok(())
    }

    /// Returns the builder with more of the written attributes of the next link.
    #[inline(always)]
    fn with_raw(self, raw: &str) -> Result<LinksBuilder, Starved>
        ensures { IfOk result (λ builder. builder ≡ drafted self.links (self.raw
            ++ raw.now) self.pairs) }
    {
        let LinksBuilder {
            texts,
            raw: mut written,
            taken,
        } = self;
        written.push_str(raw)?;
        Ok(LinksBuilder {
            texts,
            raw: written,
            taken,
        })
    }

    /// Returns the builder with one more attribute of the next link. Its name and its value are
    /// expected at these octets of the written attributes.
    #[inline(always)]
    fn with_placed(
        self,
        name_from: usize,
        name: &str,
        value_from: usize,
        value: &str,
    ) -> Result<LinksBuilder, Starved>
        ensures { IfOk result (λ builder. builder ≡ drafted self.links self.raw (self.pairs
            ++ record { name = name.now; value = value.now } ∷ [])) }
    {
        let LinksBuilder { texts, raw, taken } = self;
        let LinkTexts {
            source,
            listed,
            mut apart,
            mut pairs,
            links,
        } = texts;
        let written = raw.as_str();
        let name = stretch_of(written, name_from, name, &mut apart)?;
        let value = stretch_of(written, value_from, value, &mut apart)?;
        pairs.push(PairSpans { name, value })?;
        Ok(LinksBuilder {
            texts: LinkTexts {
                source,
                listed,
                apart,
                pairs,
                links,
            },
            raw,
            taken,
        })
    }

    /// Adds an attribute to the next link: what was written of it, its name and its value.
    ///
    /// # Errors
    ///
    /// `Starved` if memory runs out, or if a text would have more octets than a `u32` counts. The
    /// builder is then gone.
    #[inline(always)]
    pub fn with_pair(self, raw: &str, name: &str, value: &str) -> Result<LinksBuilder, Starved>
        ensures { IfOk result (λ builder. builder ≡ drafted self.links (self.raw
            ++ raw.now) (self.pairs ++ record { name = name.now; value = value.now } ∷ [])) }
    {
        let from = self.raw.len();
        let builder = self.with_raw(raw)?;
        let value_from = value_from(builder.raw.as_str(), from, name.len());
        builder.with_placed(from.saturating_add(1), name, value_from, value)
    }

    /// Adds the attributes of a link to the next link.
    ///
    /// # Errors
    ///
    /// `Starved` if memory runs out, or if a text would have more octets than a `u32` counts. The
    /// builder is then gone.
    pub fn with_pairs_of(self, link: &Link<'_>) -> Result<LinksBuilder, Starved>
        ensures { IfOk result (λ builder. builder ≡ drafted self.links (self.raw
            ++ link.now.raw) (self.pairs ++ link.now.pairs)) }
    {
        let from = self.raw.len();
        let mut builder = self.with_raw(link.raw())?;
        let mut left = link.pairs();
        let mut places = left.places();
        'pairs: while let Some(pair) = left.next() {
            let name_from = from.saturating_add(places.0);
            let value_from = from.saturating_add(places.1);
            builder = builder.with_placed(name_from, pair.name, value_from, pair.value)?;
            places = left.places();
        }
        Ok(builder)
    }

    /// Adds a link with these parts, and with the attributes that were added for it.
    ///
    /// # Errors
    ///
    /// `Starved` if memory runs out, or if a text would have more octets than a `u32` counts. The
    /// builder is then gone.
    pub fn with_link(self, parts: &LinkParts<'_>) -> Result<LinksBuilder, Starved>
        ensures { IfOk result (λ builder. builder ≡ drafted (self.links
            ++ link_made parts.now self.raw self.pairs ∷ []) [] []) }
    {
        let LinksBuilder {
            texts,
            mut raw,
            taken,
        } = self;
        let LinkTexts {
            mut source,
            mut listed,
            mut apart,
            pairs,
            mut links,
        } = texts;
        let LinkParts {
            target_ref,
            anchor_ref,
            target,
            anchor,
        } = *parts;
        separate(&mut source, &links)?;
        separate(&mut listed, &links)?;
        let written = raw.as_str();
        let submitted = append_line(&mut source, target_ref, written, anchor_ref, &mut apart)?;
        let shown = append_line(&mut listed, target, written, anchor, &mut apart)?;
        let end = offset(pairs.len())?;
        links.push(LinkSpans {
            submitted,
            listed: shown,
            pairs: Span {
                from: taken,
                upto: end,
            },
        })?;
        raw.clear();
        Ok(LinksBuilder {
            texts: LinkTexts {
                source,
                listed,
                apart,
                pairs,
                links,
            },
            raw,
            taken: end,
        })
    }

    /// Returns the links. Attributes that were added for a next link are dropped.
    ///
    /// # Errors
    ///
    /// `Starved` if memory runs out.
    pub fn build(self, alloc: Global) -> Result<Items, Starved>
        ensures { IfOk result (λ items. items ≡ self.links) }
    {
        let LinksBuilder { texts, .. } = self;
        Items::of_texts(alloc, texts)
    }
}
