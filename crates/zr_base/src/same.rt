//! A copy that is equal to its original, or want of memory.

ghost use Rattle.std.specs.Prelude.{◌≡◌, IfOk};

use std::alloc::AllocError;

/// A copy that is the same value to every contract.
pub trait Same: Sized {
    fn same(&self) -> Result<Self, AllocError>
        ensures { IfOk result (λ copy. copy ≡ self.now) };
}
