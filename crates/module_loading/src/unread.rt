//! Why no module is read.

ghost use Rattle.std.specs.Prelude.{◌≡◌};
ghost use Rattle.module_loading.specs.declared.unread.Unread.TheVariants.{OutOfMemory};

use std::alloc::AllocError;

/// A fault of the text, or want of memory.
#[derive(Debug, Drop)]
pub enum Unread<F> {
    Refused(F),
    OutOfMemory,
}

impl<F> From<AllocError> for Unread<F> {
    ghost from_gives = { λ _ unread. unread ≡ OutOfMemory };

    fn from(_error: AllocError) -> Unread<F> {
        Unread::OutOfMemory
    }
}
