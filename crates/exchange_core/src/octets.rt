//! Short octet strings that are stored in place and do not allocate: tokens, and the answers to
//! writes.
ghost use Rattle.std.specs.Prelude.{◌≡◌, ◌≤◌, length, nat_eq};
ghost use Rattle.std.proofs.Common.{rules};
ghost use Rattle.std.specs.Cmp.Rules.{comparing, hashing};
ghost use Rattle.std.proofs.lemmas.Cmp.{nat_list_eq_equiv};
ghost use lib.Pointwise.{pointwise};
ghost use Rattle.std.specs.Hash as fed;

use arrayvec::ArrayVec;
use std::hash::{Hash, Hasher};
use std::marker::Model;

/// At most `N` octets. Contracts see their list.
#[derive(Debug, Drop)]
pub struct Octets<const N: usize> {
    /// The octets.
    octets: ArrayVec<u8, N>,
}

/// A token, which matches a response with its request: at most 8 octets (RFC 7252 section 5.3.1).
pub type Token = Octets<8>;

/// The octets of the answer to a write, at most 64.
pub type Reply = Octets<64>;

impl<const N: usize> Model for Octets<N> {
    ghost use Rattle.std.specs.Prelude.{ℕ, List};

    ghost Value = { List ℕ };

    ghost view = { λ r. r.octets.items };
}

impl<const N: usize> Octets<N> {
    /// Stores these octets. Does not allocate.
    ///
    /// # Requires
    ///
    /// There are at most `N` octets.
    pub fn of(octets: &[u8]) -> Octets<N>
        requires { length octets.now ≤ N }
        ensures { result ≡ octets.now }
    {
        let mut kept = ArrayVec::new();
        if kept.try_extend_from_slice(octets).is_err() {
            unreachable!()
        }
        Octets { octets: kept }
    }

    /// Returns the octets.
    pub fn as_slice(&self) -> &[u8]
        ensures value { result.now ≡ self.now }
        ensures fits { length self.now ≤ N }
    {
        self.octets.as_slice()
    }

    /// Returns a copy. Does not allocate.
    pub fn copy(&self) -> Octets<N>
        ensures { result ≡ self.now }
    {
        Octets::of(self.as_slice())
    }
}

impl<const N: usize> PartialEq for Octets<N> {
    ghost eq = { pointwise nat_eq };

    ghost laws = { Prim.search (comparing, rules) };

    fn eq(&self, other: &Octets<N>) -> bool {
        self.as_slice() == other.as_slice()
    }
}

impl<const N: usize> Eq for Octets<N> {
    ghost laws = { nat_list_eq_equiv };
}

impl<const N: usize> Hash for Octets<N> {
    ghost hash_input = { fed.slice fed.u8 };

    ghost respects_eq = { Prim.search (hashing, rules) };

    fn hash<H: Hasher>(&self, state: &mut H) {
        self.as_slice().hash(state);
    }
}
