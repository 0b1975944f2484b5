//! Where the next step leads.

ghost use Rattle.std.specs.Prelude.{◌≡◌, IfOk};
ghost use Rattle.eval6_step.specs.Stages.{Follows, ending_of, stage_after};

use es_outside::Ending;
use run_parts::Stage;
use source_moves::{Finish, Move};
use source_state::{Control, State};
use source_step::{StepWork, step};
use std::alloc::{AllocError, Global};

fn ending_of(finish: Finish) -> Ending
    ensures { result ≡ ending_of finish }
{
    match finish {
        Finish::Ended => Ending::Ended,
        Finish::Threw(seen) => Ending::Threw(seen),
    }
}

/// Where the answer of a step leads.
fn stage_after<'a>(moved: Move<'a>) -> Stage<Control<'a>>
    ensures { result ≡ stage_after moved.entry }
{
    match moved {
        Move::Goes(control) => Stage::Goes(control),
        Move::Asks(event) => Stage::Awaits(event),
        Move::Ends(finish) => Stage::Over(ending_of(finish)),
        Move::Leaves { number, site } => Stage::Over(Ending::Left { exit: number, site }),
    }
}

/// Where the next step leads: a run that doesn't go on stays where it is.
#[tactic(auto, using(crate::proofs::Staged::moved_follows))]
pub(crate) fn stage_behind<'a, W: StepWork<'a>>(
    alloc: Global,
    stage: Stage<Control<'a>>,
    st: &mut State<'a, W>,
) -> Result<Stage<Control<'a>>, AllocError>
    ensures { IfOk result (λ next. Follows W.seen stage.entry st.old next st.new) }
{
    match stage {
        Stage::Goes(control) => Ok(stage_after(step(alloc, control, st)?)),
        other => Ok(other),
    }
}
