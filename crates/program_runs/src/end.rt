//! How a run ends that is written out.

ghost use Rattle.std.specs.Prelude.{◌≡◌};

use es_outside::Ending;
use std::alloc::AllocError;

/// How a run ends, whose lines are written.
#[derive(Clone, Copy, Debug, PartialEq, Eq)]
pub enum RunEnd {
    /// It came to the program's end.
    Ended,
    /// By a throw that nothing catches.
    Threw,
    /// It left the profile.
    Left,
    /// It is stopped after so many steps.
    StepsSpent,
    /// The host with this number failed.
    HostFailed { host: usize },
    /// The output took no more.
    WriteFailed,
    OutOfMemory,
}

/// Why a run is stopped before its end.
#[derive(Clone, Copy, Debug, PartialEq, Eq)]
pub(crate) enum Halt {
    HostFailed { host: usize },
    WriteFailed,
    OutOfMemory,
}

impl From<AllocError> for Halt {
    ghost use Rattle.program_runs.specs.declared.end.Halt.TheVariants.{OutOfMemory};

    ghost from_gives = { λ _ halt. halt ≡ OutOfMemory };

    fn from(_error: AllocError) -> Halt {
        Halt::OutOfMemory
    }
}

impl From<Halt> for RunEnd {
    ghost use Rattle.program_runs.specs.Outcomes.{end_of_halt};

    ghost from_gives = { λ halt end. end ≡ end_of_halt halt };

    fn from(halt: Halt) -> RunEnd {
        match halt {
            Halt::HostFailed { host } => RunEnd::HostFailed { host },
            Halt::WriteFailed => RunEnd::WriteFailed,
            Halt::OutOfMemory => RunEnd::OutOfMemory,
        }
    }
}

impl RunEnd {
    ghost use Rattle.program_runs.specs.Outcomes.{end_of};

    /// How a run ends that came to this ending, or was stopped.
    pub(crate) fn of(over: &Option<Ending>) -> RunEnd
        ensures { result ≡ end_of over.now }
    {
        match over {
            None => RunEnd::StepsSpent,
            Some(Ending::Ended) => RunEnd::Ended,
            Some(Ending::Threw(_)) => RunEnd::Threw,
            Some(Ending::Left { .. }) => RunEnd::Left,
        }
    }
}
