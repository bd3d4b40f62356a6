//! The numbers of records by name, as immutable versions.
ghost use Rattle.std.specs.Prelude.{◌≡◌, ◌+◌, [], ◌∷◌, IfOk, IfSome, IfNone};
ghost use Rattle.std.specs.Map.{keys_of, remove_entry};
ghost use Rattle.std.specs.BTreeMap.{insert_entry, is_at};
ghost use Rattle.std.specs.BTreeMap.Range.{entries_from};
ghost use Rattle.directory_core.specs.NameSlots as hashes;

use chunk_map::{ChunkMap, RangeIter, Shared};
use rd_base::{Name, Starved, Steps};
use std::alloc::Global;
use std::marker::Model;
use std::sync::Arc;
use std::sync::ledger::Ledger;

/// The number of a record under the hash of its name.
#[derive(Clone, Copy, Debug, PartialEq, Eq, PartialOrd, Ord)]
pub struct NameSlot {
    /// The hash of the name.
    pub hash: u64,
    /// The number of the record.
    pub number: u64,
}

/// A slot is two numbers: sharing it copies them.
impl Shared for NameSlot {
    fn share(&self) -> Result<NameSlot, Starved> {
        Ok(*self)
    }

    fn is_plain() -> bool {
        true
    }
}

/// The initial value of a hash (FNV-1a, 64 bits).
const START: u64 = 0xCBF29CE484222325;

/// The factor by which each octet multiplies a hash (FNV-1a, 64 bits).
const PRIME: u64 = 0x00000100000001B3;

/// Returns a hash after one more octet.
fn mixed(hash: u64, octet: u8) -> u64
    ensures { result ≡ hashes.mixed hash octet }
{
    (hash ^ u64::from(octet)).wrapping_mul(PRIME)
}

/// Returns a hash after one more text.
#[tactic(auto, unfolding(crate::specs::NameSlots::with_text))]
fn with_text(hash: u64, text: &[u8]) -> u64
    ensures { result ≡ hashes.with_text hash text.now }
{
    text.iter().fold(hash, |hash, octet| mixed(hash, *octet))
}

/// Returns the hash of a name.
#[tactic(auto, unfolding(crate::specs::NameSlots::hash_of))]
fn hash_of(name: &Name) -> u64
    ensures { result ≡ hashes.hash_of name.now }
{
    let hash = with_text(START, name.ep.as_bytes());
    match &name.sector {
        None => hash,
        Some(sector) => with_text(mixed(hash, 0), sector.as_bytes()),
    }
}

/// The numbers of records, each under the hash of its name. Contracts see the list of their slots.
#[derive(Drop)]
pub struct Names {
    /// The slots as keys, so that versions share those that do not change.
    slots: Arc<ChunkMap<NameSlot, ()>>,
    /// The allocator of the names made from these.
    alloc: Global,
}

impl Model for Names {
    ghost use Rattle.std.specs.Prelude.{List};
    ghost use Rattle.std.specs.Arc.{arc_value};
    ghost use Rattle.std.specs.Map.{keys_of};
    ghost use Rattle.directory_core.specs.declared.names.NameSlot.{NameSlot};

    ghost Value = { List NameSlot };

    ghost view = { λ n. keys_of (arc_value n.slots) };
}

/// A cursor over the numbers under one hash. Contracts see the remaining numbers, in ascending
/// order.
#[derive(Drop)]
pub struct NumbersUnder<'a> {
    /// The remaining slots, including those of later hashes.
    left: RangeIter<'a, NameSlot, ()>,
    /// The hash.
    hash: u64,
}

impl<'a> Model for NumbersUnder<'a> {
    ghost use Rattle.std.specs.Prelude.{ℕ, List};
    ghost use Rattle.std.specs.Map.{keys_of};
    ghost use Rattle.directory_core.specs.NameSlots.{numbers_under};

    ghost Value = { List ℕ };

    ghost view = { λ n. numbers_under n.hash (keys_of n.left) };
}

impl Names {
    /// Prepares slots to be shared.
    fn of(alloc: Global, slots: ChunkMap<NameSlot, ()>) -> Result<Names, Starved>
        ensures { IfOk result (λ names. names ≡ keys_of slots) }
    {
        let slots = Arc::new(alloc, slots)?;
        Ok(Names { slots, alloc })
    }

    /// Returns an empty set of names.
    pub(crate) fn empty(alloc: Global) -> Result<Names, Starved>
        ensures { IfOk result (λ names. names ≡ []) }
    {
        let slots = ChunkMap::empty(alloc)?;
        Names::of(alloc, slots)
    }

    /// Returns the same names. Does not copy.
    pub(crate) fn share(&self) -> Result<Names, Starved>
        ensures { IfOk result (λ names. names ≡ self.now) }
    {
        let slots = Arc::try_clone(&self.slots)?;
        Ok(Names {
            slots,
            alloc: self.alloc,
        })
    }

    /// Returns the slots.
    fn slots(&self) -> &ChunkMap<NameSlot, ()>
        ensures { keys_of result.now ≡ self.now }
    {
        &*self.slots
    }

    /// Returns the names with one more number, under this name.
    pub(crate) fn put(&self, name: &Name, number: u64) -> Result<Names, Starved>
        ensures { IfOk result (λ names. names ≡ hashes.with_slot
            (record { hash = hashes.hash_of name.now; number = number }) self.now) }
    {
        let slot = NameSlot {
            hash: hash_of(name),
            number,
        };
        let slots = self.slots().put(slot, ())?;
        Names::of(self.alloc, slots)
    }

    /// Returns the names without this number, which is under this name.
    pub(crate) fn take(&self, name: &Name, number: u64) -> Result<Names, Starved>
        ensures { IfOk result (λ names. names ≡ hashes.without_slot
            (record { hash = hashes.hash_of name.now; number = number }) self.now) }
    {
        let slot = NameSlot {
            hash: hash_of(name),
            number,
        };
        let slots = self.slots().take(&slot)?;
        Names::of(self.alloc, slots)
    }

    /// Returns a cursor over the numbers under the hash of this name. These are the numbers of all
    /// records with the name, and of few others.
    pub(crate) fn under(&self, name: &Name) -> NumbersUnder<'_>
        ensures { result ≡ hashes.numbers_of_hash (hashes.hash_of name.now) self.now }
    {
        let hash = hash_of(name);
        NumbersUnder {
            left: self.slots().range(&NameSlot { hash, number: 0 }),
            hash,
        }
    }
}

impl<'a> NumbersUnder<'a> {
    /// Returns the next number, or `None` at the end. Each call counts one step.
    pub(crate) fn step<L: Ledger>(&mut self, steps: &mut Steps<L>) -> Option<u64>
        ensures next { IfSome result (λ number. self.old ≡ number ∷ self.new) }
        ensures end { IfNone result (self.old ≡ []) }
    {
        let (slot, _) = self.left.step(steps)?;
        if slot.hash != self.hash {
            return None;
        }
        Some(slot.number)
    }
}
