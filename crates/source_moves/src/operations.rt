//! How steps begin the internal operations of the standard.

ghost use Rattle.std.specs.Prelude.{◌≡◌};
ghost use Rattle.es_operation_steps.specs.Operations.{number_of};
ghost use Rattle.source_meaning.specs.Steps.{operates, turns};
ghost use Rattle.source_moves.specs.Moves.{Steps};
ghost use Rattle.source_moves.specs.Seen.{state_of};

use crate::moves::{Move, Moved};
use crate::pending::PendingWork;
use crate::states::push;
use es_operation_steps::Operation;
use es_value::Value;
use source_state::{Control, State};
use sqlite_items::Items;
use std::alloc::Global;

/// Begins an operation, whose result goes to the top frame.
pub fn turn<'a, W: PendingWork<'a>>(
    alloc: Global,
    operation: Operation,
    base: Value,
    operands: Items<Value>,
    st: &State<'a, W>,
) -> Moved<'a>
    ensures { Steps W.seen result st.now (turns (number_of operation) base operands (state_of W.seen st.now)) }
{
    Ok(Move::Goes(Control::Turn(operation.begin(alloc, base, operands))))
}

/// Begins an operation, whose result goes to this work.
pub fn operate<'a, W: PendingWork<'a>>(
    alloc: Global,
    work: W,
    operation: Operation,
    base: Value,
    operands: Items<Value>,
    st: &mut State<'a, W>,
) -> Moved<'a>
    ensures { Steps W.seen result st.new (operates (W.seen work) (number_of operation) base operands (state_of W.seen st.old)) }
{
    push(st, work)?;
    turn(alloc, operation, base, operands, st)
}
