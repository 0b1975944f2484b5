//! Why a list of edits isn't done.

ghost use Rattle.std.specs.Prelude.{◌≡◌};

use shared_text::Name;
use std::alloc::AllocError;

/// Why a build ends all: the file with this path couldn't be read, or memory ran out.
#[derive(Debug, Drop)]
pub enum BuildFault {
    Unread(Name),
    OutOfMemory,
}

impl From<AllocError> for BuildFault {
    ghost use Rattle.listed_builds.specs.declared.fault.BuildFault.TheVariants.{OutOfMemory};

    ghost from_gives = { λ _ fault. fault ≡ OutOfMemory };

    fn from(_error: AllocError) -> BuildFault {
        BuildFault::OutOfMemory
    }
}
