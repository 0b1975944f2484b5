//! Operations on one value.

ghost use Rattle.std.specs.Prelude.{◌≡◌, []};
ghost use Rattle.es_operation_steps.specs.Operations.{number_of};
ghost use Rattle.source_meaning.specs.Patterns.{iterator_step};
ghost use Rattle.source_meaning.specs.Steps.{operates};
ghost use Rattle.source_moves.specs.Moves.{Steps};
ghost use Rattle.source_moves.specs.Seen.{state_of};

use es_operation_steps::Operation;
use es_value::Value;
use source_moves::{Moved, PendingWork, operate};
use source_state::State;
use sqlite_items::Items;
use std::alloc::Global;

/// Begins an operation on a value alone, whose result goes to this work.
pub fn operate_alone<'a, W: PendingWork<'a>>(
    alloc: Global,
    work: W,
    operation: Operation,
    base: Value,
    st: &mut State<'a, W>,
) -> Moved<'a>
    ensures { Steps W.seen result st.new (operates (W.seen work) (number_of operation) base [] (state_of W.seen st.old)) }
{
    let operands = Items::new(alloc);
    operate(alloc, work, operation, base, operands, st)
}

/// IteratorStep (ECMA-262, 6th edition, 7.4.5).
pub(crate) fn iterator_step<'a, W: PendingWork<'a>>(
    alloc: Global,
    work: W,
    iterator: Value,
    st: &mut State<'a, W>,
) -> Moved<'a>
    ensures { Steps W.seen result st.new (iterator_step (W.seen work) iterator (state_of W.seen st.old)) }
{
    operate_alone(alloc, work, Operation::IteratorStep, iterator, st)
}
