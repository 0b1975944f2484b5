//! Why a graph isn't loaded.

ghost use Rattle.std.specs.Prelude.{◌≡◌};
ghost use Rattle.module_loading.specs.declared.fault.LoadFault.TheVariants.{OutOfMemory};

use es_text::Place;
use shared_text::{Name, Units};
use std::alloc::AllocError;

/// The first fault of a load. Where there is a place, a specifier begins there in the module with the path; else the path is that of
/// the file.
#[derive(Debug, Drop)]
pub enum LoadFault<F> {
    BadSpecifier {
        path: Name,
        place: Place,
        specifier: Units,
    },
    TooManyModules {
        path: Name,
        place: Place,
    },
    ReadFault {
        path: Name,
    },
    EntryMissing,
    Missing {
        path: Name,
        place: Place,
        specifier: Units,
    },
    FileTooLong {
        path: Name,
    },
    GraphTooLong {
        path: Name,
    },
    InModule {
        path: Name,
        fault: F,
    },
    OutOfMemory,
}

impl<F> From<AllocError> for LoadFault<F> {
    ghost from_gives = { λ _ fault. fault ≡ OutOfMemory };

    fn from(_error: AllocError) -> LoadFault<F> {
        LoadFault::OutOfMemory
    }
}
