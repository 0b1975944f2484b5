ghost use Rattle.std.specs.Prelude.{◌≡◌, ℕ, ◌≤◌, Bool, false, Option, IfOk, MatchOption, option_map};

use crate::{Prim, Prims};
use std::alloc::{AllocError, Global};

/// What a host answers a call.
#[derive(Debug, Drop)]
pub enum HostAnswer {
    /// The call's value.
    Give(Prim),
    /// The value that the call throws.
    Throw(Prim),
    /// The host failed, and the count of faults rose.
    Failed,
    OutOfMemory,
}

impl HostAnswer {
    /// An equal answer.
    pub fn copy(&self, alloc: Global) -> Result<HostAnswer, AllocError>
        ensures { IfOk result (λ answer. answer ≡ self.now) }
    {
        match self {
            HostAnswer::Give(value) => Ok(HostAnswer::Give(value.copy(alloc)?)),
            HostAnswer::Throw(value) => Ok(HostAnswer::Throw(value.copy(alloc)?)),
            HostAnswer::Failed => Ok(HostAnswer::Failed),
            HostAnswer::OutOfMemory => Ok(HostAnswer::OutOfMemory),
        }
    }
}

/// An answer that the program sees.
#[derive(Debug, Drop)]
pub enum Reply {
    Give(Prim),
    Throw(Prim),
}

/// A function of the outside, which is called with primitive values and answers one.
pub trait Host: Drop {
    ghost use Rattle.es_outside.specs.Counts.{CountRose};
    ghost use Rattle.es_outside.specs.declared.talk.Talk.{Talk};
    ghost use Rattle.es_outside.specs.Talk.{talk_after};

    /// What was heard and replied so far, if it is told.
    ghost talk: { Self → Option Talk };

    /// How often the host has failed, up to the last value of 64 bits.
    ghost faults: { Self → ℕ };

    /// The host never fails.
    ghost sure: { Self → Bool };

    /// The answer to a call with these arguments.
    fn answer(&mut self, alloc: Global, args: &[Prim]) -> HostAnswer
        ensures told { talk self.new ≡ option_map (talk_after args.now result) (talk self.old) }
        ensures no_fall { faults self.old ≤ faults self.new }
        ensures failed { result ≡ HostAnswer.Failed → CountRose (faults self.old) (faults self.new) }
        ensures mark { sure self.new ≡ sure self.old }
        ensures unsure { result ≡ HostAnswer.Failed → sure self.old ≡ false };

    /// The argument lists heard so far, in order, if they are told.
    fn heard(&self) -> Option<&[Prims]>
        ensures { MatchOption result (talk self.now ≡ None) (λ lists. option_map (λ told. told.heard) (talk self.now) ≡ Some lists.now) };
}
