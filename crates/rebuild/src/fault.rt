//! Why nothing is built.

ghost use Rattle.std.specs.Prelude.{◌≡◌};
ghost use Rattle.rebuild.specs.declared.fault.RebuildFault.TheVariants.{OutOfMemory};

use module_loading::LoadFault;
use std::alloc::AllocError;

/// The first fault of a graph: where it is loaded, or, after that, where it is linked. Neither is want of memory.
#[derive(Debug, Drop)]
pub enum RebuildFault<F, L> {
    Load(LoadFault<F>),
    Link(L),
    OutOfMemory,
}

impl<F, L> From<AllocError> for RebuildFault<F, L> {
    ghost from_gives = { λ _ fault. fault ≡ OutOfMemory };

    fn from(_error: AllocError) -> RebuildFault<F, L> {
        RebuildFault::OutOfMemory
    }
}
