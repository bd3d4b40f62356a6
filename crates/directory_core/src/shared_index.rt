//! The index of attributes that versions share.
ghost use Rattle.std.specs.Prelude.{◌≡◌, [], IfOk};

use attribute_index::AttributeIndex;
use rd_base::Starved;
use std::alloc::Global;
use std::marker::Model;
use std::sync::Arc;

/// An index that versions share. A version that does not change it copies nothing of it. Contracts
/// see the entries of the index.
#[derive(Drop)]
pub struct SharedIndex {
    /// The index.
    shared: Arc<AttributeIndex>,
}

impl Model for SharedIndex {
    ghost use Rattle.std.specs.Prelude.{List};
    ghost use Rattle.std.specs.Arc.{arc_value};
    ghost use Rattle.attribute_index.specs.Entries.{Entry};

    ghost Value = { List Entry };

    ghost view = { λ i. arc_value i.shared };
}

impl SharedIndex {
    /// Returns the index without entries.
    pub(crate) fn empty(alloc: Global) -> Result<SharedIndex, Starved>
        ensures { IfOk result (λ index. index ≡ []) }
    {
        let index = AttributeIndex::empty(alloc)?;
        SharedIndex::of(alloc, index)
    }

    /// Prepares an index to be shared.
    pub(crate) fn of(alloc: Global, index: AttributeIndex) -> Result<SharedIndex, Starved>
        ensures { IfOk result (λ shared. shared ≡ index) }
    {
        let shared = Arc::new(alloc, index)?;
        Ok(SharedIndex { shared })
    }

    /// Returns the index.
    pub(crate) fn as_index(&self) -> &AttributeIndex
        ensures { result.now ≡ self.now }
    {
        &*self.shared
    }

    /// Returns the same index. Does not copy.
    pub(crate) fn share(&self) -> Result<SharedIndex, Starved>
        ensures { IfOk result (λ index. index ≡ self.now) }
    {
        let shared = Arc::try_clone(&self.shared)?;
        Ok(SharedIndex { shared })
    }
}
