//! Copies of values that own memory.

ghost use Rattle.std.specs.Prelude.{◌≡◌, IfOk};

use std::alloc::AllocError;

/// A value that can be copied if there is memory for the copy.
pub trait Duplicate {
    /// Returns a copy that equals this value. The only error is out of memory.
    fn copy(&self) -> Result<Self, AllocError>
        ensures { IfOk result (λ copied. copied ≡ self.now) };
}

impl Duplicate for u8 {
    fn copy(&self) -> Result<u8, AllocError> {
        Ok(*self)
    }
}

impl Duplicate for u64 {
    fn copy(&self) -> Result<u64, AllocError> {
        Ok(*self)
    }
}

impl<A: Duplicate + Drop, B: Duplicate> Duplicate for (A, B) {
    fn copy(&self) -> Result<(A, B), AllocError> {
        Ok((self.0.copy()?, self.1.copy()?))
    }
}
