//! The run of a program, step by step.

ghost use Rattle.std.specs.Prelude.{◌≡◌, OnOk};

use es_outside::{Reply, Step};
use std::alloc::AllocError;

/// A run of a machine that some definition of a language has.
///
/// After want of memory nothing is said of it.
pub trait ProgramRun {
    ghost use Rattle.es_outside.specs.declared.host.Reply.{Reply};
    ghost use Rattle.program_runs.specs.Positions.{At, Awaits, IsAt, IsAwaiting, Next, Position, Steps};

    /// The states of the machine.
    ghost State: { Type 0 };

    /// What the machine does next from each state, which no call changes.
    ghost machine: { Self → State → Next State };

    /// Where the run stands.
    ghost position: { Self → Position State };

    /// Does one step of the machine.
    fn step(&mut self) -> Step
        requires { IsAt (position self.old) }
        ensures steps { (state : State) → position self.old ≡ At state
            → Steps result (position self.new) (machine self.old state) }
        ensures machine { machine self.new ≡ machine self.old };

    /// Hands in the reply that is awaited. It counts as no step.
    fn resume_with(&mut self, reply: Reply) -> Result<(), AllocError>
        requires { IsAwaiting (position self.old) }
        ensures resumes { (follow : Reply → State) → position self.old ≡ Awaits follow
            → OnOk result (position self.new ≡ At (follow reply)) }
        ensures machine { machine self.new ≡ machine self.old };
}
