//! Values of names, as keys that versions share.
ghost use Rattle.std.specs.Prelude.{◌≡◌, [], IfOk, IfSome, IfNone, drop};
ghost use Rattle.std.proofs.Common.{rules};
ghost use Rattle.std.specs.Cmp.{partial_order_from_own_ties};
ghost use Rattle.std.specs.Cmp.Rules.{comparing};
ghost use Rattle.std.specs.Ordering.{as_partial_cmp};
ghost use Rattle.std.proofs.lemmas.Cmp.{
  nat_list_eq_equiv,
  nat_list_cmp_total,
  then_total,
  on_total,
  and_equiv,
  on_equiv,
};
ghost use Rattle.attribute_index.specs.Abbreviations.{IsAbbreviation, symbols_of};
ghost use Rattle.attribute_index.specs.Rows.{value_cmp, is_same_value};

use crate::abbreviations::Abbreviation;
use chunk_map::Shared;
use rd_base::{Pair, Starved, Text};
use std::alloc::Global;
use std::cmp::Ordering;
use std::marker::Model;
use std::sync::Arc;

/// A name and a value, with an abbreviation that orders them among most others without comparing
/// texts.
#[derive(Drop)]
struct Abbreviated {
    /// The abbreviation of the name and the value.
    abbreviation: Abbreviation,
    /// The name and the value.
    pair: Pair,
}

/// The stored form of a name and a value.
#[derive(Drop)]
enum Kept {
    /// An abbreviation that spells both whole, and is stored without allocating.
    Whole(Abbreviation),
    /// Texts, which versions share without copying them.
    Long(Arc<Abbreviated>),
}

/// A name with one of its values, or with one part of such a value.
///
/// Values are ordered by name, and values of one name by their texts. Copies of a value share its
/// texts. Contracts see it as the name and the value.
#[derive(Drop)]
pub struct Value {
    /// The name and the value.
    kept: Kept,
}

impl Model for Value {
    ghost use Rattle.std.specs.Prelude.{ℕ, List};
    ghost use Rattle.attribute_index.specs.Abbreviations.{IsAbbreviation};
    ghost use Rattle.attribute_index.specs.Values.{IsKept, abbreviation_in, value_in};

    ghost Value = { List ℕ × List ℕ };

    ghost view = { λ v. value_in v.kept };

    ghost invariant = { λ v. IsAbbreviation (abbreviation_in v.kept) (value_in v.kept)
        × IsKept v.kept };
}

/// Returns the order of two values by their texts, those of their names first.
fn order_of_texts(one: &Pair, other: &Pair) -> Ordering
    ensures { result ≡ value_cmp (one.now.name, one.now.value) (other.now.name, other.now.value) }
{
    match one.name.as_str().cmp(other.name.as_str()) {
        Ordering::Equal => one.value.as_str().cmp(other.value.as_str()),
        order => order,
    }
}

impl Value {
    /// Creates a value of a name. Allocates only for long texts.
    pub(crate) fn of(alloc: Global, name: &str, value: &str) -> Result<Value, Starved>
        ensures { IfOk result (λ v. v ≡ (name.now, value.now)) }
    {
        let abbreviation = Abbreviation::of(name, value);
        if abbreviation.is_whole() {
            return Ok(Value {
                kept: Kept::Whole(abbreviation),
            });
        }
        let name = Text::copy_of(alloc, name)?;
        let value = Text::copy_of(alloc, value)?;
        let pair = Pair { name, value };
        let abbreviated = Arc::new(alloc, Abbreviated { abbreviation, pair })?;
        Ok(Value {
            kept: Kept::Long(abbreviated),
        })
    }

    /// Returns the abbreviation of the name and the value.
    pub(crate) fn abbreviation(&self) -> &Abbreviation
        ensures { IsAbbreviation result.now self.now }
    {
        match &self.kept {
            Kept::Whole(abbreviation) => abbreviation,
            Kept::Long(abbreviated) => {
                let abbreviated: &Abbreviated = &**abbreviated;
                &abbreviated.abbreviation
            }
        }
    }

    /// Returns the name and the value as texts, or `None` if the abbreviation spells both whole.
    pub(crate) fn texts(&self) -> Option<&Pair>
        ensures some { IfSome result (λ pair. (pair.now.name, pair.now.value) ≡ self.now) }
        ensures none { IfNone result (drop 23 (symbols_of self.now) ≡ []) }
    {
        match &self.kept {
            Kept::Whole(_) => None,
            Kept::Long(abbreviated) => {
                let abbreviated: &Abbreviated = &**abbreviated;
                Some(&abbreviated.pair)
            }
        }
    }

    /// Returns the order of two values, the first of which is stored as texts.
    ///
    /// The order is that of the abbreviations. If these are equal and leave symbols out, it is that
    /// of the texts.
    #[inline(never)]
    fn order_by_texts(&self, other: &Value) -> Ordering
        ensures { result ≡ value_cmp self.now other.now }
    {
        match self.abbreviation().cmp(other.abbreviation()) {
            Ordering::Equal => {
                let Some(texts) = self.texts() else {
                    return Ordering::Equal;
                };
                let Some(other_texts) = other.texts() else {
                    return Ordering::Equal;
                };
                order_of_texts(texts, other_texts)
            }
            order => order,
        }
    }

    /// Returns the order of two values. If the abbreviation of the first spells it whole, that is
    /// the order of their abbreviations.
    fn order(&self, other: &Value) -> Ordering
        ensures { result ≡ value_cmp self.now other.now }
    {
        if self.texts().is_some() {
            return self.order_by_texts(other);
        }
        self.abbreviation().cmp(other.abbreviation())
    }
}

/// Returns an equal value, which shares the texts.
impl Shared for Value {
    fn share(&self) -> Result<Value, Starved> {
        match &self.kept {
            Kept::Whole(abbreviation) => Ok(Value {
                kept: Kept::Whole(*abbreviation),
            }),
            Kept::Long(abbreviated) => {
                let abbreviated = Arc::try_clone(abbreviated)?;
                Ok(Value {
                    kept: Kept::Long(abbreviated),
                })
            }
        }
    }
}

impl PartialEq for Value {
    ghost eq = { is_same_value };

    ghost laws = { Prim.search (comparing, rules) };

    fn eq(&self, other: &Value) -> bool {
        self.order(other).is_eq()
    }
}

impl Eq for Value {
    ghost laws = { and_equiv (on_equiv (λ p. p.0) nat_list_eq_equiv)
        (on_equiv (λ p. p.1) nat_list_eq_equiv) };
}

impl Ord for Value {
    ghost cmp = { value_cmp };

    ghost total = { then_total (on_total (λ p. p.0) nat_list_cmp_total)
        (on_total (λ p. p.1) nat_list_cmp_total) };

    ghost matches_partial_cmp = { Prim.search (comparing, rules) };

    ghost matches_eq = { Prim.search (comparing, rules) };

    fn cmp(&self, other: &Value) -> Ordering {
        self.order(other)
    }
}

impl PartialOrd for Value {
    ghost partial_cmp = { as_partial_cmp value_cmp };

    ghost laws = { partial_order_from_own_ties (Prim.search (comparing, rules))
        (Prim.search (comparing, rules)) };

    fn partial_cmp(&self, other: &Value) -> Option<Ordering> {
        Some(self.cmp(other))
    }
}
