//! Why a reader gives no node.

ghost use Rattle.std.specs.Prelude.{◌≡◌};

use es6_ast::Stop;
use std::alloc::AllocError;

/// Why a reader gives no node. The cursor stands at the token.
#[derive(Clone, Copy, Debug, PartialEq, Eq)]
pub enum Halt {
    Stopped(Stop),
    OutOfMemory,
}

impl From<AllocError> for Halt {
    ghost use Rattle.es6_cursor.specs.declared.halt.Halt.TheVariants.{OutOfMemory};

    ghost from_gives = { λ _ e. e ≡ OutOfMemory };

    fn from(_e: AllocError) -> Halt {
        Halt::OutOfMemory
    }
}
