//! The links of a registration in one shared piece of memory.
ghost use Rattle.std.specs.Prelude.{◌≡◌, ◌↔◌, ◌<◌, ◌^◌, [], length, IsTrue, IfOk};
ghost use Rattle.rd_base.specs.LinkLines.{listed, submitted};
ghost use Rattle.rd_base.specs.LinkTexts.{AreLinks, links_in};
ghost use lib.Pointwise.{pointwise};

use crate::Starved;
use crate::link_reading::{Links, links_of_texts};
use crate::link_texts::{LinkTexts, Room};
use crate::links_builder::LinksBuilder;
use std::alloc::Global;
use std::marker::Model;
use std::sync::Arc;

/// The links of a registration, in the order of the body, in one shared piece of memory. Contracts
/// see them as their list.
#[derive(Debug, Drop)]
pub struct Items {
    texts: Arc<LinkTexts>,
}

impl Model for Items {
    ghost use Rattle.std.specs.Prelude.{List};
    ghost use Rattle.std.specs.Arc.{arc_value};
    ghost use Rattle.rd_base.specs.declared.records.Item.{Item};

    ghost Value = { List Item };

    ghost use Rattle.rd_base.specs.LinkTexts.{AreLinks, links_in};

    ghost view = { λ l. links_in (arc_value l.texts) };

    ghost invariant = { λ l. AreLinks (arc_value l.texts) };
}

impl Items {
    /// Returns the links of these texts.
    pub(crate) fn of_texts(alloc: Global, texts: LinkTexts) -> Result<Items, Starved>
        requires { AreLinks texts }
        ensures { IfOk result (λ items. items ≡ links_in texts) }
    {
        let texts = Arc::new(alloc, texts)?;
        Ok(Items { texts })
    }

    /// Returns no links.
    ///
    /// # Errors
    ///
    /// `Starved` if memory runs out.
    pub fn none(alloc: Global) -> Result<Items, Starved>
        ensures { IfOk result (λ items. items ≡ []) }
    {
        LinksBuilder::new(alloc).build(alloc)
    }

    /// Returns the same links, without a copy.
    ///
    /// # Errors
    ///
    /// `Starved` if as many share them as can be counted.
    pub fn share(&self) -> Result<Items, Starved>
        ensures { IfOk result (λ items. items ≡ self.now) }
    {
        let texts = Arc::try_clone(&self.texts)?;
        Ok(Items { texts })
    }

    /// Returns how much room the links take.
    pub(crate) fn room(&self) -> Room {
        let texts: &LinkTexts = &*self.texts;
        Room {
            submitted: texts.source.len(),
            listed: texts.listed.len(),
            pairs: texts.pairs.len(),
            links: texts.links.len(),
        }
    }

    /// Returns the number of links.
    pub fn len(&self) -> usize
        ensures value { result ≡ length self.now }
        ensures counted { length self.now < 2 ^ 64 }
    {
        let texts: &LinkTexts = &*self.texts;
        texts.links.len()
    }

    /// Returns whether there are no links.
    pub fn is_empty(&self) -> bool
        ensures { IsTrue result ↔ (self.now ≡ []) }
    {
        let texts: &LinkTexts = &*self.texts;
        texts.links.is_empty()
    }

    /// Returns the links, in order.
    pub fn links(&self) -> Links<'_>
        ensures { result ≡ self.now }
    {
        let texts: &LinkTexts = &*self.texts;
        links_of_texts(texts)
    }

    /// Returns the lines of the links in a listing, with commas between them (RFC 9176 section
    /// 6.4).
    pub fn listed(&self) -> &str
        ensures { result.now ≡ listed self.now }
    {
        let texts: &LinkTexts = &*self.texts;
        texts.listed.as_str()
    }

    /// Returns the lines of the links as they were submitted, with commas between them: a document
    /// of these links (RFC 6690 section 2).
    pub fn source(&self) -> &str
        ensures { result.now ≡ submitted self.now }
    {
        let texts: &LinkTexts = &*self.texts;
        texts.source.as_str()
    }
}
