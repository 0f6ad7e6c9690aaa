//! Copies that need memory.

ghost use Rattle.std.specs.Prelude.{◌≡◌, IfOk};

use crate::Memory;

/// A value that can be copied where there is memory.
pub trait TryCopy: Sized {
    /// An equal value, on the allocator of this one.
    fn copy(&self) -> Result<Self, Memory>
        ensures { IfOk result (λ copy. copy ≡ self.now) };
}

impl TryCopy for u32 {
    fn copy(&self) -> Result<u32, Memory> {
        Ok(*self)
    }
}

impl TryCopy for u64 {
    fn copy(&self) -> Result<u64, Memory> {
        Ok(*self)
    }
}

impl<T: TryCopy + Drop> TryCopy for Option<T> {
    fn copy(&self) -> Result<Option<T>, Memory> {
        match self {
            None => Ok(None),
            Some(value) => Ok(Some(value.copy()?)),
        }
    }
}

impl<A: TryCopy + Drop, B: TryCopy + Drop> TryCopy for (A, B) {
    fn copy(&self) -> Result<(A, B), Memory> {
        Ok((self.0.copy()?, self.1.copy()?))
    }
}
