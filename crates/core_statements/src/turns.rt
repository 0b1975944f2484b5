//! Turns of operations and of functions of the library.

ghost use Rattle.core_meaning.specs.Step.{after_turn, received, thrown_out, turn};
ghost use Rattle.core_meaning.specs.Rows.{controls, leaves, pushed};
ghost use Rattle.core_moves.specs.Moves.{Steps};
ghost use Rattle.core_state.specs.declared.frame.Control.{Control};
ghost use Rattle.core_state.specs.declared.frame.Frame.{Frame};
ghost use Rattle.es_calls.specs.Calls.{arg};
ghost use Rattle.es_operations.specs.Steps.{asks_presence};

use core_moves::{
    CoreRows, Move, Moved, StateOf, call as call_function, due, leave, push, raise, unlawful,
};
use core_state::{Completion, Control, CoreValue, Frame, State};
use es_calls::{BuiltinCall, BuiltinStep, Resumption};
use es_heap::Key;
use es_operation_steps::{asks_presence, drops_throw, step_operation};
use es_outside::Site;
use es_value::{ObjId, Value};

/// A key of a namespace object is asked for.
fn read_out<'a, R: CoreRows<'a>>(
    rows: &R,
    site: Option<Site>,
    call: BuiltinCall,
    object: ObjId,
    key: &Key,
    st: &mut StateOf<'a, R>,
) -> Moved<'a, R::Mark>
    ensures { Steps result st.new ((R.rows rows.now).read_out (asks_presence call) object key.now (pushed (Frame.Operation site call) st.old)) }
{
    let presence = asks_presence(&call);
    push(st, Frame::Operation(site, call))?;
    rows.read_out(presence, object, key, st)
}

/// A generator is resumed.
fn resume<'a, R: CoreRows<'a>>(
    rows: &R,
    kind: Resumption,
    call: BuiltinCall,
    st: &mut StateOf<'a, R>,
) -> Moved<'a, R::Mark>
    ensures { Steps result st.new ((R.rows rows.now).resume kind call.this_value (arg call 0) st.old) }
{
    let given = call.arg(0)?;
    rows.resume(kind, call.this_value, given, st)
}

/// A turn leaves the profile, at the place of its call.
fn leave_turn<'a, M: Drop, O, W: Drop, S>(
    site: Option<Site>,
    call: BuiltinCall,
    number: u8,
    st: &mut State<'a, M, O, W, S>,
) -> Moved<'a, M>
    ensures { Steps result st.new (leaves number (pushed (Frame.Operation site call) st.old)) }
{
    push(st, Frame::Operation(site, call))?;
    leave(st, number)
}

fn after_turn<'a, R: CoreRows<'a>>(
    rows: &R,
    site: Option<Site>,
    call: BuiltinCall,
    step: BuiltinStep,
    st: &mut StateOf<'a, R>,
) -> Moved<'a, R::Mark>
    ensures { Steps result st.new (after_turn (R.rows rows.now) site call st.old step) }
{
    match step {
        BuiltinStep::Running => Ok(Move::Goes(Control::Turn(site, call))),
        BuiltinStep::CallOut {
            callee,
            this_value,
            args,
        } => call_function(
            Frame::Operation(site, call),
            due(callee, this_value, args, site),
            st,
        ),
        BuiltinStep::ReadOut { object, key } => read_out(rows, site, call, object, &key, st),
        BuiltinStep::Resume(kind) => resume(rows, kind, call, st),
        BuiltinStep::Done(value) => Ok(Move::hand(Completion::Gives(CoreValue::User(value)))),
        BuiltinStep::Throws(kind) => raise(rows.alloc(), kind, st),
        BuiltinStep::Leaves(number) => leave_turn(site, call, number, st),
        BuiltinStep::Unknown | BuiltinStep::OutOfMemory => unlawful(st),
    }
}

/// One turn.
#[tactic(auto, unfolding(core_meaning::specs::Step::turn))]
pub fn turn<'a, R: CoreRows<'a>>(
    rows: &R,
    site: Option<Site>,
    call: BuiltinCall,
    st: &mut StateOf<'a, R>,
) -> Moved<'a, R::Mark>
    ensures { Steps result st.new (turn (R.rows rows.now) site call st.old) }
{
    let mut call = call;
    let step = step_operation(&mut call, rows.alloc(), rows.edition(), &mut st.heap)?;
    after_turn(rows, site, call, step, st)
}

/// What the call waited for is handed in.
pub fn receive<'a, M, O, W, S>(
    site: Option<Site>,
    call: BuiltinCall,
    value: Value,
    st: &State<'a, M, O, W, S>,
) -> Moved<'a, M>
    ensures { Steps result st.now (controls (Control.Turn site (received call value)) st.now) }
{
    let mut call = call;
    call.receive(value);
    Ok(Move::Goes(Control::Turn(site, call)))
}

/// The function that a call waited for threw this.
pub fn thrown_out<'a, M: Drop, O, W, S>(
    site: Option<Site>,
    call: BuiltinCall,
    value: Value,
    st: &State<'a, M, O, W, S>,
) -> Moved<'a, M>
    ensures { Steps result st.now (thrown_out site call value st.now) }
{
    if drops_throw(&call) {
        receive(site, call, Value::Undefined, st)
    } else {
        Ok(Move::hand(Completion::Throws(value)))
    }
}
