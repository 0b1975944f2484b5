use std::alloc::{AllocError, AllocFailed};
use thiserror::Error;

/// Why a text is no map, printed as its kind and place. A place `at` counts the characters of `mappings` from 0.
#[derive(Clone, Copy, Debug, PartialEq, Eq, Error)]
pub enum MapFault {
    /// The script's last line that isn't empty holds no map.
    #[error("NoMap")]
    NoMap,
    /// What follows the head of the map's line isn't standard base64.
    #[error("BadBase64")]
    BadBase64,
    /// The text isn't JSON of the form of a map.
    #[error("BadJson")]
    BadJson,
    /// `version` isn't the whole number 3.
    #[error("BadVersion")]
    BadVersion,
    /// A character that is no digit, or the first character of a field that doesn't end or is too large.
    #[error("BadDigit at {at}")]
    BadDigit { at: usize },
    /// The first character of a segment that hasn't 1, 4 or 5 fields.
    #[error("BadFields at {at}")]
    BadFields { at: usize },
    /// The first character of a field whose sum is out of its range.
    #[error("BadIndex at {at}")]
    BadIndex { at: usize },
    #[error("OutOfMemory")]
    OutOfMemory,
}

impl From<AllocError> for MapFault {
    ghost use Rattle.std.specs.Prelude.{◌≡◌};
    ghost use Rattle.source_map.specs.declared.fault.MapFault.TheVariants.{OutOfMemory};

    ghost from_gives = { λ _ e. e ≡ OutOfMemory };

    fn from(_: AllocError) -> MapFault {
        MapFault::OutOfMemory
    }
}

impl<T: Drop> From<AllocFailed<T>> for MapFault {
    ghost use Rattle.std.specs.Prelude.{◌≡◌};
    ghost use Rattle.source_map.specs.declared.fault.MapFault.TheVariants.{OutOfMemory};

    ghost from_gives = { λ _ e. e ≡ OutOfMemory };

    fn from(_: AllocFailed<T>) -> MapFault {
        MapFault::OutOfMemory
    }
}
