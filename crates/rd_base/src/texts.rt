//! Owned UTF-8 text, which contracts see as its list of octets.
ghost use Rattle.std.specs.Prelude.{◌≡◌, ◌↔◌, ◌^◌, ◌<◌, ◌≤◌, [], ◌++◌, length, IsTrue, IfOk, OnOk};
ghost use Rattle.std.specs.Prelude.{OnErr, nat_eq, encode_utf8};
ghost use Rattle.std.specs.String.{string_bytes};
ghost use Rattle.std.proofs.Common.{rules};
ghost use Rattle.rd_base.specs.Spelled.{octets_of};
ghost use Rattle.std.specs.Cmp.{partial_order_from_own_ties};
ghost use Rattle.std.specs.Cmp.Rules.{comparing, hashing};
ghost use Rattle.std.specs.Ordering.{nat_cmp, as_partial_cmp};
ghost use Rattle.std.specs.Cmp.Lexicographic.{slice_cmp};
ghost use Rattle.std.proofs.lemmas.Cmp.{nat_list_eq_equiv, nat_list_cmp_total};
ghost use lib.Pointwise.{pointwise};
ghost use Rattle.std.specs.Hash as fed;

use crate::{List, Starved};
use arrayvec::ArrayString;
use std::alloc::{AllocError, Global};
use std::cmp::Ordering;
use std::hash::{Hash, Hasher};
use std::marker::Model;

/// The most octets of a text that lies in the value itself.
const SHORT: usize = 16;

/// The place of the octets of a text.
#[derive(Debug, Drop)]
enum Spelled {
    /// In the value itself, which does not allocate.
    Short(ArrayString<SHORT>),
    /// In memory of its own.
    Long(String),
}

/// An owned text. A copy of at most 16 octets does not allocate.
#[derive(Debug, Drop)]
pub struct Text {
    spelled: Spelled,
}

/// Texts in order. Contracts see them as their list.
pub type Texts = List<Text>;

impl Model for Text {
    ghost use Rattle.std.specs.Prelude.{ℕ, List};
    ghost use Rattle.rd_base.specs.Spelled.{octets_of};

    ghost Value = { List ℕ };

    ghost view = { λ t. octets_of t.spelled };
}

impl Spelled {
    /// Returns a copy of a text, in the value itself if it has at most 16 octets. Only a longer one
    /// can fail, if memory runs out.
    fn of(alloc: Global, text: &str) -> Result<Spelled, AllocError>
        ensures ok { IfOk result (λ spelled. octets_of spelled ≡ text.now) }
        ensures short { OnErr result (16 < length text.now) }
    {
        match ArrayString::from(text) {
            Ok(short) => Ok(Spelled::Short(short)),
            Err(_) => Ok(Spelled::Long(String::from_str(alloc, text)?)),
        }
    }

    /// Returns the text.
    fn as_str(&self) -> &str
        ensures { result.now ≡ octets_of self.now }
    {
        match self {
            Spelled::Short(text) => text.as_str(),
            Spelled::Long(text) => text.as_str(),
        }
    }
}

impl Clone for Spelled {
    ghost is_clone = { λ spelled copy. octets_of copy ≡ octets_of spelled };

    ghost is_infallible = { λ spelled. length (octets_of spelled) ≤ 16 };

    fn clone(&self) -> Result<Spelled, AllocError> {
        match self {
            Spelled::Short(text) => Ok(Spelled::Short(*text)),
            Spelled::Long(text) => Spelled::of(*text.allocator(), text.as_str()),
        }
    }
}

/// Returns two texts, one after the other, in memory of their own.
fn joined(alloc: Global, text: &str, more: &str) -> Result<String, Starved>
    ensures { IfOk result (λ whole. string_bytes whole ≡ text.now ++ more.now) }
{
    let mut whole = String::with_capacity(alloc, usize::saturating_add(text.len(), more.len()))?;
    whole.push_str(text)?;
    whole.push_str(more)?;
    Ok(whole)
}

impl Text {
    /// Returns this text. Does not allocate.
    pub fn of(text: String) -> Text
        ensures { result ≡ string_bytes text }
    {
        Text {
            spelled: Spelled::Long(text),
        }
    }

    /// Returns the empty text. Does not allocate.
    pub fn new() -> Text
        ensures { result ≡ [] }
    {
        Text {
            spelled: Spelled::Short(ArrayString::new()),
        }
    }

    /// Returns a copy of a text.
    ///
    /// # Errors
    ///
    /// `Starved` if memory runs out, and only for a text of more than 16 octets.
    pub fn copy_of(alloc: Global, text: &str) -> Result<Text, Starved>
        ensures ok { IfOk result (λ t. t ≡ text.now) }
        ensures short { OnErr result (16 < length text.now) }
    {
        let spelled = Spelled::of(alloc, text)?;
        Ok(Text { spelled })
    }

    /// Returns the text.
    pub fn as_str(&self) -> &str
        ensures { result.now ≡ self.now }
    {
        self.spelled.as_str()
    }

    /// Returns the octets of the text.
    pub fn as_bytes(&self) -> &[u8]
        ensures { result.now ≡ self.now }
    {
        self.as_str().as_bytes()
    }

    /// Returns the number of octets.
    pub fn len(&self) -> usize
        ensures value { result ≡ length self.now }
        ensures counted { length self.now < 2 ^ 63 }
    {
        self.as_str().len()
    }

    /// Returns whether the text is empty.
    pub fn is_empty(&self) -> bool
        ensures { IsTrue result ↔ (self.now ≡ []) }
    {
        self.as_bytes().is_empty()
    }

    /// Appends a character.
    ///
    /// # Errors
    ///
    /// `Starved` if memory runs out. The text does not change.
    pub fn push(&mut self, alloc: Global, character: char) -> Result<(), Starved>
        ensures ok { OnOk result (self.new ≡ self.old ++ encode_utf8 character) }
        ensures err { OnErr result (self.new ≡ self.old) }
    {
        let mut octets = [0; 4];
        self.append(alloc, character.encode_utf8(&mut octets))
    }

    /// Appends a text.
    ///
    /// # Errors
    ///
    /// `Starved` if memory runs out. The text does not change.
    pub fn append(&mut self, alloc: Global, more: &str) -> Result<(), Starved>
        ensures ok { OnOk result (self.new ≡ self.old ++ more.now) }
        ensures err { OnErr result (self.new ≡ self.old) }
    {
        match &mut self.spelled {
            Spelled::Long(text) => {
                text.push_str(more)?;
                return Ok(());
            }
            Spelled::Short(text) => {
                if text.try_push_str(more).is_ok() {
                    return Ok(());
                }
            }
        }
        let whole = joined(alloc, self.as_str(), more)?;
        self.spelled = Spelled::Long(whole);
        Ok(())
    }
}

/// A clone of at most 16 octets does not allocate.
impl Clone for Text {
    ghost is_clone = { λ text copy. copy ≡ text };

    ghost is_infallible = { λ text. length text ≤ 16 };

    fn clone(&self) -> Result<Text, AllocError> {
        let spelled = self.spelled.clone()?;
        Ok(Text { spelled })
    }
}

impl PartialEq for Text {
    ghost eq = { pointwise nat_eq };

    ghost laws = { Prim.search (comparing, rules) };

    fn eq(&self, other: &Text) -> bool {
        self.as_str() == other.as_str()
    }
}

impl Eq for Text {
    ghost laws = { nat_list_eq_equiv };
}

impl Hash for Text {
    ghost hash_input = { fed.str };

    ghost respects_eq = { Prim.search (hashing, rules) };

    fn hash<H: Hasher>(&self, state: &mut H) {
        self.as_str().hash(state);
    }
}

impl Ord for Text {
    ghost cmp = { slice_cmp nat_cmp };

    ghost total = { nat_list_cmp_total };

    ghost matches_partial_cmp = { Prim.search (comparing, rules) };

    ghost matches_eq = { Prim.search (comparing, rules) };

    fn cmp(&self, other: &Text) -> Ordering {
        self.as_str().cmp(other.as_str())
    }
}

impl PartialOrd for Text {
    ghost partial_cmp = { as_partial_cmp (slice_cmp nat_cmp) };

    ghost laws = { partial_order_from_own_ties (Prim.search (comparing, rules))
        (Prim.search (comparing, rules)) };

    fn partial_cmp(&self, other: &Text) -> Option<Ordering> {
        Some(self.cmp(other))
    }
}
