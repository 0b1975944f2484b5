//! Where a run stands.

ghost use Rattle.std.specs.Prelude.{◌≡◌, IfOk};
ghost use Rattle.run_parts.specs.Stages.{status_of};

use crate::copies::{copy_ending, copy_event};
use es_outside::{Ending, Event, Step};
use std::alloc::{AllocError, Global};

/// Where a run stands, beside its state.
#[derive(Drop)]
pub enum Stage<C> {
    /// The next step does this.
    Goes(C),
    /// It asked this of a host, and awaits the reply.
    Awaits(Event),
    Over(Ending),
    /// It found no memory.
    Lost,
}

/// What a step answers that leads here.
pub fn status_of<C>(alloc: Global, stage: &Stage<C>) -> Result<Step, AllocError>
    ensures { IfOk result (λ status. status ≡ status_of stage.now) }
{
    match stage {
        Stage::Goes(_) => Ok(Step::Running),
        Stage::Awaits(event) => Ok(Step::Asks {
            event: copy_event(alloc, event)?,
        }),
        Stage::Over(ending) => Ok(Step::Is(copy_ending(alloc, ending)?)),
        Stage::Lost => Ok(Step::OutOfMemory),
    }
}
