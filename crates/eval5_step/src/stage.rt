//! Where a run stands.

ghost use Rattle.std.specs.Prelude.{◌≡◌, IfOk};
ghost use Rattle.eval5_step.specs.Stages.{Follows, ending_of, stage_after, status_of};

use crate::copies::{copy_ending, copy_event};
use core_machine::step;
use core_moves::{Finish, Move};
use core_state::Control;
use es_outside::{Ending, Event, Step};
use script_core::Nothing;
use script_rows::{ScriptRows, ScriptState};
use std::alloc::{AllocError, Global};

/// Where a run stands, beside its state.
#[derive(Drop)]
pub enum Stage<'a> {
    /// The next step does this.
    Goes(Control<'a, Nothing>),
    /// It asked this of a host, and awaits the reply.
    Awaits(Event),
    Over(Ending),
    /// It found no memory.
    Lost,
}

fn ending_of(finish: Finish) -> Ending
    ensures { result ≡ ending_of finish }
{
    match finish {
        Finish::Ended => Ending::Ended,
        Finish::Threw(seen) => Ending::Threw(seen),
    }
}

/// Where the answer of a step of the machine leads.
fn stage_after<'a>(moved: Move<'a, Nothing>) -> Stage<'a>
    ensures { result ≡ stage_after moved.entry }
{
    match moved {
        Move::Goes(control) => Stage::Goes(control),
        Move::Asks(event) => Stage::Awaits(event),
        Move::Ends(finish) => Stage::Over(ending_of(finish)),
        Move::Leaves { number, site } => Stage::Over(Ending::Left { exit: number, site }),
    }
}

/// What a step answers that leads here.
pub(crate) fn status_of<'a>(alloc: Global, stage: &Stage<'a>) -> Result<Step, AllocError>
    ensures { IfOk result (λ status. status ≡ status_of stage.now) }
{
    match stage {
        Stage::Goes(_) => Ok(Step::Running),
        Stage::Awaits(event) => Ok(Step::Asks {
            event: copy_event(alloc, event)?,
        }),
        Stage::Over(ending) => Ok(Step::Is(copy_ending(alloc, ending)?)),
        Stage::Lost => Ok(Step::OutOfMemory),
    }
}

/// Where the next step leads: a run that doesn't go on stays where it is.
#[tactic(auto, using(crate::proofs::Staged::moved_follows))]
pub(crate) fn stage_behind<'a>(
    rows: &ScriptRows<'a>,
    stage: Stage<'a>,
    st: &mut ScriptState<'a>,
) -> Result<Stage<'a>, AllocError>
    ensures { IfOk result (λ next. Follows rows.now.core.now stage.entry st.old next st.new) }
{
    match stage {
        Stage::Goes(control) => Ok(stage_after(step(rows, control, st)?)),
        other => Ok(other),
    }
}
