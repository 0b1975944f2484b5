//! One step, by what the control says.

ghost use Rattle.std.specs.Prelude.{◌≡◌};
ghost use Rattle.source_meaning.specs.Step.{step, step_by};
ghost use Rattle.source_meaning.specs.Steps.{with_control};
ghost use Rattle.source_moves.specs.Moves.{Steps};
ghost use Rattle.source_moves.specs.Seen.{state_of};

use crate::contexts::hand;
use crate::pending::StepWork;
use crate::turns::turn;
use source_begins::{
    begin_expression, refer_expression, run_items, run_statements, start_statement,
};
use source_entering::call_value;
use source_moves::Moved;
use source_patterns::destructure;
use source_state::{Control, State};
use std::alloc::Global;

fn step_by<'a, W: StepWork<'a>>(
    alloc: Global,
    control: Control<'a>,
    st: &mut State<'a, W>,
) -> Moved<'a>
    ensures { Steps W.seen result st.new (step_by (state_of W.seen st.old) control.entry) }
{
    match control {
        Control::Begin(x) => begin_expression(alloc, x, st),
        Control::Refer(x) => refer_expression(alloc, x, st),
        Control::Run(statements) => run_statements(alloc, &statements, st),
        Control::RunItems(items) => run_items(alloc, &items, st),
        Control::Start(labels, statement) => start_statement(alloc, labels, statement.get(), st),
        Control::Destructure(binds, pattern, value) => {
            destructure(alloc, binds, value, pattern.get(), st)
        }
        Control::Turn(call) => turn(alloc, call, st),
        Control::Calls(call) => call_value(alloc, call, st),
        Control::Hand(completion) => hand(alloc, completion, st),
    }
}

/// One step of a run of modules from this state, which does what `control` says: exactly what the definition's step gives. Where it gives
/// an error there was no memory, and nothing is said of the state.
#[tactic(auto, unfolding(source_meaning::specs::Step::step))]
pub fn step<'a, W: StepWork<'a>>(
    alloc: Global,
    control: Control<'a>,
    st: &mut State<'a, W>,
) -> Moved<'a>
    ensures { Steps W.seen result st.new (step (with_control control.entry (state_of W.seen st.old))) }
{
    step_by(alloc, control, st)
}
