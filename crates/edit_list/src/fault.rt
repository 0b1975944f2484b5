//! Why a text is no list of edits.

use std::alloc::AllocError;
use thiserror::Error;

/// Why a text is no list of edits.
#[derive(Clone, Copy, Debug, PartialEq, Eq, Error)]
pub enum ListFault {
    /// The line with this number, from 1, says no edit, doesn't end with LF, or is one build too many.
    #[error("bad edit in line {line}")]
    BadEdit { line: usize },
    #[error("out of memory")]
    OutOfMemory,
}

impl From<AllocError> for ListFault {
    ghost use Rattle.std.specs.Prelude.{◌≡◌};
    ghost use Rattle.edit_list.specs.declared.fault.ListFault.TheVariants.{OutOfMemory};

    ghost from_gives = { λ _ fault. fault ≡ OutOfMemory };

    fn from(_error: AllocError) -> ListFault {
        ListFault::OutOfMemory
    }
}
