//! Values that are shared rather than copied.
ghost use Rattle.std.specs.Prelude.{◌≡◌, IfOk};

use rd_base::Starved;

/// A value of which an equal one is cheap to make, such as the keys and values of maps.
pub trait Shared: Drop {
    /// Returns an equal value.
    ///
    /// # Errors
    ///
    /// `Starved` if memory runs out.
    fn share(&self) -> Result<Self, Starved>
        ensures { IfOk result (λ equal. equal ≡ self.now) };

    /// Returns whether a value consists of numbers, so that an equal one costs nothing. Chunks of
    /// such pairs are larger.
    fn is_plain() -> bool {
        false
    }
}

/// Sharing a number copies it.
impl Shared for u64 {
    fn share(&self) -> Result<u64, Starved> {
        Ok(*self)
    }

    fn is_plain() -> bool {
        true
    }
}

/// The value of a map that is a set of its keys.
impl Shared for () {
    fn share(&self) -> Result<(), Starved> {
        Ok(())
    }

    fn is_plain() -> bool {
        true
    }
}
