//! One step, by what the control says.

ghost use Rattle.std.specs.Prelude.{◌≡◌};
ghost use Rattle.core_meaning.specs.Rows.{with_control};
ghost use Rattle.core_meaning.specs.Step.{step, step_by};
ghost use Rattle.core_moves.specs.Moves.{Steps};

use crate::contexts::hand;
use core_expressions::{begin, go};
use core_moves::{CoreRows, Moved, StateOf};
use core_state::Control;
use core_statements::{call_value, run_stats, turn};

fn step_by<'a, R: CoreRows<'a>>(
    rows: &R,
    control: Control<'a, R::Mark>,
    st: &mut StateOf<'a, R>,
) -> Moved<'a, R::Mark>
    ensures { Steps result st.new (step_by (R.rows rows.now) (R.core rows.now) st.old control.entry) }
{
    match control {
        Control::Begin(expression) => begin(rows, expression, st),
        Control::Go(current, links) => go(rows, current, links, st),
        Control::Run(stats) => run_stats(rows, stats, st),
        Control::Turn(site, call) => turn(rows, site, call, st),
        Control::Calls(call) => call_value(rows, call, st),
        Control::Hand(completion) => hand(rows, completion, st),
    }
}

/// One step of a core from this state, which does what `control` says: exactly what the definition's step gives, in the edition and
/// with the rows that it is handed. Where it gives an error there was no memory, and nothing is said of the state.
#[tactic(auto, unfolding(core_meaning::specs::Step::step))]
pub fn step<'a, R: CoreRows<'a>>(
    rows: &R,
    control: Control<'a, R::Mark>,
    st: &mut StateOf<'a, R>,
) -> Moved<'a, R::Mark>
    ensures { Steps result st.new (step (R.rows rows.now) (R.core rows.now) (with_control control.entry st.old)) }
{
    step_by(rows, control, st)
}
