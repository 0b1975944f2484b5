//! Turns of operations and of functions of the library.

ghost use Rattle.std.specs.Prelude.{◌≡◌};
ghost use Rattle.es_calls.specs.Calls.{arg};
ghost use Rattle.es_operations.specs.Steps.{asks_presence};
ghost use Rattle.source_meaning.specs.Generators.{resume};
ghost use Rattle.source_meaning.specs.Modules.{read_out};
ghost use Rattle.source_meaning.specs.State.{Operation};
ghost use Rattle.source_meaning.specs.Step.{after_turn, turn};
ghost use Rattle.source_meaning.specs.Steps.{pushed};
ghost use Rattle.source_moves.specs.Moves.{Steps};
ghost use Rattle.source_moves.specs.Seen.{state_of};

use crate::pending::StepWork;
use es_calls::{BuiltinCall, BuiltinStep, Resumption};
use es_heap::Key;
use es_operation_steps::{asks_presence, step_operation};
use es_realm::Edition;
use es_value::ObjId;
use source_calls::resume;
use source_modules::read_out;
use source_moves::{Move, Moved, call as call_function, due, impossible, leave, push, raise};
use source_state::{Control, State};
use std::alloc::Global;

/// A key of a namespace object is asked for.
fn read_key<'a, W: StepWork<'a>>(
    alloc: Global,
    call: BuiltinCall,
    object: ObjId,
    key: &Key,
    st: &mut State<'a, W>,
) -> Moved<'a>
    ensures { Steps W.seen result st.new (read_out (asks_presence call) object key.now (pushed (Operation call) (state_of W.seen st.old))) }
{
    let presence = asks_presence(&call);
    push(st, W::operation(call))?;
    read_out(alloc, presence, object, key, st)
}

/// A generator is resumed.
fn resume_generator<'a, W: StepWork<'a>>(
    alloc: Global,
    kind: Resumption,
    call: BuiltinCall,
    st: &mut State<'a, W>,
) -> Moved<'a>
    ensures { Steps W.seen result st.new (resume kind call.this_value (arg call 0) (state_of W.seen st.old)) }
{
    let given = call.arg(0)?;
    resume(alloc, kind, call.this_value, given, st)
}

fn after_turn<'a, W: StepWork<'a>>(
    alloc: Global,
    call: BuiltinCall,
    step: BuiltinStep,
    st: &mut State<'a, W>,
) -> Moved<'a>
    ensures { Steps W.seen result st.new (after_turn call (state_of W.seen st.old) step) }
{
    match step {
        BuiltinStep::Running => Ok(Move::Goes(Control::Turn(call))),
        BuiltinStep::CallOut {
            callee,
            this_value,
            args,
        } => call_function(W::operation(call), due(callee, this_value, args, None), st),
        BuiltinStep::ReadOut { object, key } => read_key(alloc, call, object, &key, st),
        BuiltinStep::Resume(kind) => resume_generator(alloc, kind, call, st),
        BuiltinStep::Done(value) => Ok(Move::give(value)),
        BuiltinStep::Throws(kind) => raise(alloc, kind, st),
        BuiltinStep::Leaves(number) => leave(st, number),
        BuiltinStep::Unknown | BuiltinStep::OutOfMemory => impossible(st),
    }
}

/// One turn.
#[tactic(auto, unfolding(source_meaning::specs::Step::turn))]
pub(crate) fn turn<'a, W: StepWork<'a>>(
    alloc: Global,
    call: BuiltinCall,
    st: &mut State<'a, W>,
) -> Moved<'a>
    ensures { Steps W.seen result st.new (turn call (state_of W.seen st.old)) }
{
    let mut call = call;
    let step = step_operation(&mut call, alloc, Edition::Sixth, &mut st.heap)?;
    after_turn(alloc, call, step, st)
}
