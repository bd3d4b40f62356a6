//! Owned octets, which contracts see as their list.
ghost use Rattle.std.specs.Prelude.{◌≡◌, ◌↔◌, ◌^◌, ◌<◌, [], ◌∷◌, ◌++◌, length, take, IsTrue, IfOk};
ghost use Rattle.std.specs.Prelude.{OnOk, OnErr, nat_eq};
ghost use Rattle.std.proofs.Common.{rules};
ghost use Rattle.std.specs.Cmp.{partial_order_from_own_ties};
ghost use Rattle.std.specs.Cmp.Rules.{comparing, hashing};
ghost use Rattle.std.specs.Ordering.{nat_cmp, as_partial_cmp};
ghost use Rattle.std.specs.Cmp.Lexicographic.{slice_cmp};
ghost use Rattle.std.proofs.lemmas.Cmp.{nat_list_eq_equiv, nat_list_cmp_total};
ghost use lib.Pointwise.{pointwise};
ghost use Rattle.std.specs.Hash as fed;

use crate::Starved;
use std::alloc::{AllocError, Global};
use std::cmp::Ordering;
use std::hash::{Hash, Hasher};
use std::marker::Model;

/// Owned octets, such as a datagram or a body.
#[derive(Debug, Drop)]
pub struct Bytes {
    items: Vec<u8>,
}

impl Model for Bytes {
    ghost use Rattle.std.specs.Prelude.{ℕ, List};

    ghost Value = { List ℕ };

    ghost view = { λ b. b.items.items };
}

impl Bytes {
    /// Returns these octets. Does not allocate.
    pub fn of(items: Vec<u8>) -> Bytes
        ensures { result ≡ items.items }
    {
        Bytes { items }
    }

    /// Returns no octets. Does not allocate.
    pub fn new(alloc: Global) -> Bytes
        ensures { result ≡ [] }
    {
        Bytes {
            items: Vec::new(alloc),
        }
    }

    /// Returns a copy of the octets of a slice.
    ///
    /// # Errors
    ///
    /// `Starved` if memory runs out.
    pub fn copy_of(alloc: Global, slice: &[u8]) -> Result<Bytes, Starved>
        ensures { IfOk result (λ b. b ≡ slice.now) }
    {
        let items = Vec::from_slice(alloc, slice)?;
        Ok(Bytes { items })
    }

    /// Returns the octets.
    pub fn as_slice(&self) -> &[u8]
        ensures value { result.now ≡ self.now }
        ensures counted { length self.now < 2 ^ 63 }
    {
        self.items.as_slice()
    }

    /// Returns the number of octets.
    pub fn len(&self) -> usize
        ensures value { result ≡ length self.now }
        ensures counted { length self.now < 2 ^ 63 }
    {
        self.items.as_slice().len()
    }

    /// Returns whether there are no octets.
    pub fn is_empty(&self) -> bool
        ensures { IsTrue result ↔ (self.now ≡ []) }
    {
        self.items.is_empty()
    }

    /// Returns the vector of the octets. Does not allocate.
    pub fn into_vec(self) -> Vec<u8>
        ensures { result.items ≡ self }
    {
        let Bytes { items } = self;
        items
    }

    /// Removes all octets after the first `len`.
    pub fn truncate(&mut self, len: usize)
        ensures { self.new ≡ take len self.old }
    {
        self.items.truncate(len);
    }

    /// Appends an octet.
    ///
    /// # Errors
    ///
    /// `Starved` if memory runs out. The octets do not change.
    pub fn push(&mut self, octet: u8) -> Result<(), Starved>
        ensures ok { OnOk result (self.new ≡ self.old ++ octet ∷ []) }
        ensures err { OnErr result (self.new ≡ self.old) }
    {
        self.items.push(octet)?;
        Ok(())
    }

    /// Appends the octets of a slice.
    ///
    /// # Errors
    ///
    /// `Starved` if memory runs out. The octets do not change.
    pub fn append(&mut self, slice: &[u8]) -> Result<(), Starved>
        ensures ok { OnOk result (self.new ≡ self.old ++ slice.now) }
        ensures err { OnErr result (self.new ≡ self.old) }
    {
        self.items.extend_from_slice(slice)?;
        Ok(())
    }
}

impl Clone for Bytes {
    ghost is_clone = { λ octets copy. copy ≡ octets };

    fn clone(&self) -> Result<Bytes, AllocError> {
        let items = self.items.clone()?;
        Ok(Bytes { items })
    }
}

impl PartialEq for Bytes {
    ghost eq = { pointwise nat_eq };

    ghost laws = { Prim.search (comparing, rules) };

    fn eq(&self, other: &Bytes) -> bool {
        self.items.as_slice() == other.items.as_slice()
    }
}

impl Eq for Bytes {
    ghost laws = { nat_list_eq_equiv };
}

impl Hash for Bytes {
    ghost hash_input = { fed.slice fed.u8 };

    ghost respects_eq = { Prim.search (hashing, rules) };

    fn hash<H: Hasher>(&self, state: &mut H) {
        self.items.as_slice().hash(state);
    }
}

impl Ord for Bytes {
    ghost cmp = { slice_cmp nat_cmp };

    ghost total = { nat_list_cmp_total };

    ghost matches_partial_cmp = { Prim.search (comparing, rules) };

    ghost matches_eq = { Prim.search (comparing, rules) };

    fn cmp(&self, other: &Bytes) -> Ordering {
        self.items.as_slice().cmp(other.items.as_slice())
    }
}

impl PartialOrd for Bytes {
    ghost partial_cmp = { as_partial_cmp (slice_cmp nat_cmp) };

    ghost laws = { partial_order_from_own_ties (Prim.search (comparing, rules))
        (Prim.search (comparing, rules)) };

    fn partial_cmp(&self, other: &Bytes) -> Option<Ordering> {
        Some(self.cmp(other))
    }
}
