//! Owned lists, which contracts see as the list of their elements.
ghost use Rattle.std.specs.Prelude.{◌≡◌, ◌↔◌, ◌<◌, ◌^◌, [], ◌∷◌, ◌++◌, length};
ghost use Rattle.std.specs.Prelude.{IsTrue, IfOk, OnOk, OnErr, IfSome, IfNone};
ghost use Rattle.std.specs.List.{AllZip};
ghost use Rattle.std.specs.Hash as fed;
ghost use Rattle.std.specs.Hash.{items_Alike};
ghost use Rattle.std.specs.Cmp.Lexicographic.{lists_per, lists_equiv};
ghost use lib.Pointwise.{pointwise};

use crate::Starved;
use std::alloc::{AllocError, Global};
use std::hash::{Hash, Hasher};
use std::marker::Model;

/// An owned list. Contracts see it as the list of what its elements are.
#[derive(Debug, Drop)]
pub struct List<T> {
    items: Vec<T>,
}

impl<T> Model for List<T> {
    ghost use Rattle.std.specs.Prelude.{List as ListOf};
    ghost use Rattle.std.specs.Coded.{coded_list};

    ghost Value = { ListOf T };

    ghost coded = { coded_list T.code };

    ghost view = { λ l. l.items.items };
}

impl<T> List<T> {
    /// Creates an empty list. Does not allocate.
    pub fn new(alloc: Global) -> List<T>
        ensures { result ≡ [] }
    {
        List {
            items: Vec::new(alloc),
        }
    }

    /// Returns the list of these elements, in order. Does not allocate.
    pub fn of(items: Vec<T>) -> List<T>
        ensures { result ≡ items.items }
    {
        List { items }
    }

    /// Returns the number of elements.
    pub fn len(&self) -> usize
        ensures value { result ≡ length self.now }
        ensures counted { length self.now < 2 ^ 64 }
    {
        self.items.len()
    }

    /// Returns whether there are no elements.
    pub fn is_empty(&self) -> bool
        ensures { IsTrue result ↔ (self.now ≡ []) }
    {
        self.items.is_empty()
    }

    /// Returns the elements, in order.
    pub fn as_slice(&self) -> &[T]
        ensures { result.now ≡ self.now }
    {
        self.items.as_slice()
    }

    /// Returns the vector of the elements. Does not allocate.
    pub fn into_vec(self) -> Vec<T>
        ensures { result.items ≡ self }
    {
        let List { items } = self;
        items
    }

    /// Removes and returns the first element, if there is one.
    pub fn take_first(&mut self) -> Option<T>
        ensures some { IfSome result (λ first. self.old ≡ first ∷ self.new) }
        ensures none { IfNone result ((self.old ≡ []) × (self.new ≡ [])) }
    {
        if self.items.is_empty() {
            return None;
        }
        Some(self.items.remove(0))
    }
}

impl<T: Drop> List<T> {
    /// Appends an element.
    ///
    /// # Errors
    ///
    /// `Starved` if memory runs out. The list does not change.
    pub fn push(&mut self, item: T) -> Result<(), Starved>
        ensures ok { OnOk result (self.new ≡ self.old ++ item ∷ []) }
        ensures err { OnErr result (self.new ≡ self.old) }
    {
        self.items.push(item)?;
        Ok(())
    }
}

impl<T: Clone> Clone for List<T> {
    ghost is_clone = { AllZip T.is_clone };

    fn clone(&self) -> Result<List<T>, AllocError> {
        let items = self.items.clone()?;
        Ok(List { items })
    }
}

impl<T: PartialEq> PartialEq for List<T> {
    ghost eq = { pointwise T.eq };

    ghost laws = { lists_per T.laws };

    fn eq(&self, other: &List<T>) -> bool {
        self.items.as_slice() == other.items.as_slice()
    }
}

impl<T: Eq> Eq for List<T> {
    ghost laws = { lists_equiv T.Eq.laws };
}

impl<T: Hash> Hash for List<T> {
    ghost hash_input = { fed.slice T.hash_input };

    ghost respects_eq = { (items_Alike (record { fed = T.respects_eq })).fed };

    fn hash<H: Hasher>(&self, state: &mut H) {
        self.items.as_slice().hash(state);
    }
}
