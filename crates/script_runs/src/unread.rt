//! Why a script isn't run.

ghost use Rattle.std.specs.Prelude.{◌≡◌};

use run_lines::ScriptFault;
use std::alloc::AllocError;

/// Why a script isn't run.
#[derive(Debug, Drop)]
pub enum Unread {
    /// Its file has a fault.
    Refused(ScriptFault),
    OutOfMemory,
}

impl From<AllocError> for Unread {
    ghost use Rattle.script_runs.specs.declared.unread.Unread.TheVariants.{OutOfMemory};

    ghost from_gives = { λ _ fault. fault ≡ OutOfMemory };

    fn from(_error: AllocError) -> Unread {
        Unread::OutOfMemory
    }
}
