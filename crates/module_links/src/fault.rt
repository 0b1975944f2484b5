//! Why a graph isn't linked.

ghost use Rattle.std.specs.Prelude.{◌≡◌};
ghost use Rattle.module_links.specs.declared.fault.LinkFault.TheVariants.{OutOfMemory};

use es_text::Place;
use shared_text::Name;
use std::alloc::AllocError;
use thiserror::Error;

/// A name that a module wants, which ends nowhere or in more than one place: the path of the module that wants it, where it stands
/// there, and the name.
#[derive(Debug, Drop, Error)]
pub enum LinkFault {
    #[error("unresolved name")]
    Unresolved {
        path: Name,
        place: Place,
        name: Name,
    },
    #[error("ambiguous name")]
    Ambiguous {
        path: Name,
        place: Place,
        name: Name,
    },
    #[error("out of memory")]
    OutOfMemory,
}

impl From<AllocError> for LinkFault {
    ghost from_gives = { λ _ fault. fault ≡ OutOfMemory };

    fn from(_error: AllocError) -> LinkFault {
        LinkFault::OutOfMemory
    }
}
