//! What takes a value and is told of a throw: an operation that calls, the caller of a generator.

ghost use Rattle.source_ends.specs.Taken.{caller_done, caller_given};
ghost use Rattle.source_meaning.specs.Frames.{received, thrown_out};
ghost use Rattle.source_meaning.specs.State.{Turn};
ghost use Rattle.source_meaning.specs.Steps.{controls};
ghost use Rattle.source_moves.specs.Moves.{Steps};
ghost use Rattle.source_moves.specs.Seen.{state_of};
ghost use Rattle.source_takers.specs.Rows.{caller_left, operation_left};

use es_calls::BuiltinCall;
use es_operation_steps::drops_throw;
use es_value::Value;
use source_calls::{CallWork, generated};
use source_moves::{Move, Moved, PendingWork, impossible};
use source_state::{Completion, Control, State};
use source_takers::CallerTaker;
use std::alloc::Global;

/// What the call waited for is handed in.
fn receive<'a, W: PendingWork<'a>>(call: BuiltinCall, value: Value, st: &State<'a, W>) -> Moved<'a>
    ensures { Steps W.seen result st.now (controls (Turn (received call value)) (state_of W.seen st.now)) }
{
    let mut call = call;
    call.receive(value);
    Ok(Move::Goes(Control::Turn(call)))
}

/// The function that a call waited for threw this.
fn thrown_out<'a, W: PendingWork<'a>>(
    call: BuiltinCall,
    value: Value,
    st: &State<'a, W>,
) -> Moved<'a>
    ensures { Steps W.seen result st.now (thrown_out call value (state_of W.seen st.now)) }
{
    if drops_throw(&call) {
        receive(call, Value::Undefined, st)
    } else {
        Ok(Move::hand(Completion::Throws(value)))
    }
}

/// A value is handed to a caller.
fn caller_given<'a, W: CallWork<'a>>(
    alloc: Global,
    taker: CallerTaker,
    value: Value,
    st: &mut State<'a, W>,
) -> Moved<'a>
    ensures { Steps W.seen result st.new (caller_given taker (state_of W.seen st.old) value) }
{
    match taker {
        CallerTaker::Operation(call) => receive(call, value, st),
        CallerTaker::Generates(number) => generated(alloc, number, Completion::Gives(value), st),
    }
}

/// The call that an operation waits for is left.
fn operation_left<'a, W: PendingWork<'a>>(
    call: BuiltinCall,
    completion: Completion<'a>,
    st: &State<'a, W>,
) -> Moved<'a>
    ensures { Steps W.seen result st.now (operation_left call (state_of W.seen st.now) completion.entry) }
{
    match completion {
        Completion::Throws(value) => thrown_out(call, value, st),
        other => Ok(Move::hand(other)),
    }
}

/// What is called is left.
fn caller_left<'a, W: PendingWork<'a>>(
    alloc: Global,
    taker: CallerTaker,
    completion: Completion<'a>,
    st: &mut State<'a, W>,
) -> Moved<'a>
    ensures { Steps W.seen result st.new (caller_left taker (state_of W.seen st.old) completion.entry) }
{
    match taker {
        CallerTaker::Operation(call) => operation_left(call, completion, st),
        CallerTaker::Generates(number) => generated(alloc, number, completion, st),
    }
}

/// A completion is handed to a caller.
pub fn caller_handed<'a, W: CallWork<'a>>(
    alloc: Global,
    taker: CallerTaker,
    completion: Completion<'a>,
    st: &mut State<'a, W>,
) -> Moved<'a>
    ensures { Steps W.seen result st.new (caller_done taker (state_of W.seen st.old) completion.entry) }
{
    match completion {
        Completion::Gives(value) => caller_given(alloc, taker, value, st),
        Completion::Refers(_) | Completion::Done | Completion::Resumes(..) => impossible(st),
        Completion::Throws(value) => caller_left(alloc, taker, Completion::Throws(value), st),
        Completion::Returns(value) => caller_left(alloc, taker, Completion::Returns(value), st),
        Completion::Breaks(label) => caller_left(alloc, taker, Completion::Breaks(label), st),
        Completion::Continues(label) => caller_left(alloc, taker, Completion::Continues(label), st),
    }
}
