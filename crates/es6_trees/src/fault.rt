ghost use Rattle.std.specs.Prelude.{◌≡◌};

use es6_ast::Expression;
use std::alloc::AllocError;

/// Why an expression is not refined.
#[derive(Drop)]
pub enum RefineFault {
    /// No pattern, or no parameters, are spelled so: the first part that isn't one begins at the offset. The expression is
    /// handed back as it was.
    NotAPattern { at: u32, expression: Expression },
    /// Memory ran out, or the expression is nested more than was to be looked at. It is dropped.
    OutOfMemory,
}

impl From<AllocError> for RefineFault {
    ghost use Rattle.es6_trees.specs.declared.fault.RefineFault.TheVariants.{OutOfMemory};

    ghost from_gives = { λ _ fault. fault ≡ OutOfMemory };

    fn from(_error: AllocError) -> RefineFault {
        RefineFault::OutOfMemory
    }
}

/// Why an expression that is looked at down to a depth is not refined. It is dropped.
#[derive(Clone, Copy, Debug, PartialEq, Eq)]
pub enum Unrefined {
    /// The first part that no pattern spells begins there.
    Misfit { at: u32 },
    /// It is nested more than is looked at.
    TooNested,
    OutOfMemory,
}

impl From<AllocError> for Unrefined {
    ghost use Rattle.es6_trees.specs.declared.fault.Unrefined.TheVariants.{OutOfMemory};

    ghost from_gives = { λ _ fault. fault ≡ OutOfMemory };

    fn from(_error: AllocError) -> Unrefined {
        Unrefined::OutOfMemory
    }
}
