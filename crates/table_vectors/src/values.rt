//! Values of maps: numbers, and numbers whose copies are counted.
ghost use Rattle.std.specs.Prelude.{◌≡◌, IfOk};

use chunk_map::Shared;
use rd_base::Starved;
use std::alloc::Global;
use std::marker::Model;
use std::sync::Arc;

/// A value that is identified by a number.
pub(crate) trait MapValue: Shared {
    /// Returns the value of a number, of the same kind as this one.
    fn of_kind(&self, number: u64) -> Result<Self, Starved>;

    /// Returns the number.
    fn number(&self) -> u64;
}

/// A number is identified by itself.
impl MapValue for u64 {
    fn of_kind(&self, number: u64) -> Result<u64, Starved> {
        Ok(number)
    }

    fn number(&self) -> u64 {
        *self
    }
}

/// A number with a mark that all values of a kind share, so that their copies can be counted.
#[derive(Drop)]
pub(crate) struct Marked {
    /// The number.
    number: u64,
    /// The mark.
    mark: Arc<u64>,
}

impl Model for Marked {
    ghost use Rattle.std.specs.Prelude.{ℕ};

    ghost Value = { ℕ };

    ghost view = { λ m. m.number };
}

impl Marked {
    /// Creates a value of a new kind.
    pub(crate) fn first(alloc: Global) -> Result<Marked, Starved> {
        Ok(Marked {
            number: 0,
            mark: Arc::new(alloc, 0)?,
        })
    }

    /// Returns the number of values of its kind.
    pub(crate) fn copies(&self) -> usize {
        Arc::strong_count(&self.mark)
    }
}

impl Shared for Marked {
    fn share(&self) -> Result<Marked, Starved> {
        self.of_kind(self.number)
    }
}

impl MapValue for Marked {
    fn of_kind(&self, number: u64) -> Result<Marked, Starved>
        ensures { IfOk result (λ value. value ≡ number) }
    {
        let mark = Arc::try_clone(&self.mark)?;
        Ok(Marked { number, mark })
    }

    fn number(&self) -> u64 {
        self.number
    }
}
