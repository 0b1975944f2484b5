//! Why a text is no script.

ghost use Rattle.std.specs.Prelude.{◌≡◌};
ghost use Rattle.es5_text.specs.Answer.{of_pair, of_text};

use es_text::TextFault;
use es5_early::{Pair, Rule};
use std::alloc::AllocError;
use thiserror::Error;

/// Why a text is no script of the ES5 profile (`docs/ES5_PROFILE.md`). `at` is an offset in bytes from 0, mostly that at
/// which a token begins.
#[derive(Clone, Copy, Debug, PartialEq, Eq, Error)]
pub enum Fault5 {
    /// No token is spelled there, or the bytes are UTF-8 only up to there.
    #[error("no token at byte {at}")]
    Lexical5 { at: u32 },
    /// No script goes on with the token, or none ends there.
    #[error("no script goes on at byte {at}")]
    Syntax5 { at: u32 },
    /// A row of table F: an early error.
    #[error("early error F{rule} at byte {at}")]
    Early5 { rule: u8, at: u32 },
    /// A row of table V: what the profile leaves out.
    #[error("outside the profile by V{rule} at byte {at}")]
    Outside5 { rule: u8, at: u32 },
    /// More than 2,048 constructs are open at once.
    #[error("too deep at byte {at}")]
    Depth5 { at: u32 },
    #[error("out of memory")]
    OutOfMemory,
}

impl From<AllocError> for Fault5 {
    ghost use Rattle.es5_text.specs.declared.fault.Fault5.TheVariants.{OutOfMemory};

    ghost from_gives = { λ _ fault. fault ≡ OutOfMemory };

    fn from(_error: AllocError) -> Fault5 {
        Fault5::OutOfMemory
    }
}

impl From<TextFault> for Fault5 {
    ghost use Rattle.es5_text.specs.Answer.{of_text};

    ghost from_gives = { λ fault5 fault. fault ≡ of_text fault5 };

    fn from(fault: TextFault) -> Fault5 {
        match fault {
            TextFault::NotUtf8 { at } => Fault5::Lexical5 { at },
            TextFault::OutOfMemory => Fault5::OutOfMemory,
        }
    }
}

impl From<Pair> for Fault5 {
    ghost use Rattle.es5_text.specs.Answer.{of_pair};

    ghost from_gives = { λ pair fault. fault ≡ of_pair pair };

    fn from(pair: Pair) -> Fault5 {
        let at = pair.at;
        match pair.rule {
            Rule::Early(rule) => Fault5::Early5 { rule, at },
            Rule::Outside(rule) => Fault5::Outside5 { rule, at },
        }
    }
}
