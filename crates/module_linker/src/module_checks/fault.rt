//! What the checks of a module find.

ghost use Rattle.std.specs.Prelude.{◌≡◌};
ghost use Rattle.module_linker.specs.declared.module_checks.fault.ModuleFault.TheVariants.{OutOfMemory};
ghost use Rattle.module_linker.specs.module_checks.Faults.{of_text};

use es_text::{Place, TextFault};
use es6_module::ParseFault;
use std::alloc::AllocError;
use thiserror::Error;

/// The first check that a module doesn't pass.
#[derive(Clone, Copy, Debug, Error)]
pub enum ModuleFault {
    /// It has more than 4,194,304 bytes.
    #[error("too long")]
    FileTooLong,
    /// Its bytes are no UTF-8; `at` is the length of their longest front that is.
    #[error("not UTF-8 at byte {at}")]
    NotUtf8 { at: u32 },
    /// Its tokens are no module; the fault is other than want of memory.
    #[error("{fault}")]
    Parse { place: Place, fault: ParseFault },
    /// It breaks a rule of table E of docs/PROFILE.md.
    #[error("early error E{rule}")]
    Early { place: Place, rule: u8 },
    /// A construct in it is outside the profile, by a rule of table U.
    #[error("outside the profile by U{rule}")]
    Outside { place: Place, rule: u8 },
    #[error("out of memory")]
    OutOfMemory,
}

impl From<AllocError> for ModuleFault {
    ghost from_gives = { λ _ fault. fault ≡ OutOfMemory };

    fn from(_error: AllocError) -> ModuleFault {
        ModuleFault::OutOfMemory
    }
}

impl From<TextFault> for ModuleFault {
    ghost from_gives = { λ error fault. fault ≡ of_text error };

    fn from(error: TextFault) -> ModuleFault {
        match error {
            TextFault::NotUtf8 { at } => ModuleFault::NotUtf8 { at },
            TextFault::OutOfMemory => ModuleFault::OutOfMemory,
        }
    }
}
