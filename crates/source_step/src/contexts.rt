//! The end of contexts (ECMA-262, 6th edition, 9.2.1, 6 to 9, and 15.2.1.16.5).

ghost use Rattle.std.specs.Prelude.{◌≡◌};
ghost use Rattle.source_meaning.specs.Step.{hand, next_module, outermost, result_of, returned};
ghost use Rattle.source_moves.specs.Moves.{Steps};
ghost use Rattle.source_moves.specs.Seen.{state_of};

use crate::handed::handed;
use crate::pending::StepWork;
use es_operators::seen;
use es_value::Value;
use source_modules::within_module;
use source_moves::{Finish, Move, Moved, PendingWork, impossible};
use source_state::{Completion, Control, State};
use std::alloc::Global;

/// A call gives what was returned, or undefined.
fn result_of<'a, W: PendingWork<'a>>(completion: Completion<'a>, st: &State<'a, W>) -> Moved<'a>
    ensures { Steps W.seen result st.now (result_of (state_of W.seen st.now) completion.entry) }
{
    match completion {
        Completion::Returns(value) => Ok(Move::give(value)),
        Completion::Throws(value) => Ok(Move::hand(Completion::Throws(value))),
        _ => Ok(Move::give(Value::Undefined)),
    }
}

/// The next module is evaluated, if there is one.
fn next_module<'a, W: PendingWork<'a>>(alloc: Global, st: &mut State<'a, W>) -> Moved<'a>
    ensures { Steps W.seen result st.new (next_module (state_of W.seen st.old) st.old.due) }
{
    match st.due.pop() {
        None => Ok(Move::Ends(Finish::Ended)),
        Some(due) => {
            within_module(alloc, due.home, st)?;
            Ok(Move::Goes(Control::RunItems(due.items)))
        }
    }
}

/// The end of the outermost context.
fn outermost<'a, W: PendingWork<'a>>(
    alloc: Global,
    completion: Completion<'a>,
    st: &mut State<'a, W>,
) -> Moved<'a>
    ensures { Steps W.seen result st.new (outermost (state_of W.seen st.old) completion.entry) }
{
    match completion {
        Completion::Throws(value) => {
            let thrown = seen(alloc, &st.heap, &value)?;
            Ok(Move::Ends(Finish::Threw(thrown)))
        }
        Completion::Done => next_module(alloc, st),
        _ => impossible(st),
    }
}

/// The end of a context.
fn returned<'a, W: PendingWork<'a>>(
    alloc: Global,
    completion: Completion<'a>,
    st: &mut State<'a, W>,
) -> Moved<'a>
    ensures { Steps W.seen result st.new (returned (state_of W.seen st.old) completion.entry (state_of W.seen st.old).callers) }
{
    match st.callers.pop() {
        None => outermost(alloc, completion, st),
        Some(caller) => {
            st.context = caller;
            result_of(completion, st)
        }
    }
}

/// Hands a completion to the top frame, or behind the last one to the caller.
#[tactic(auto, unfolding(source_meaning::specs::Step::hand))]
pub(crate) fn hand<'a, W: StepWork<'a>>(
    alloc: Global,
    completion: Completion<'a>,
    st: &mut State<'a, W>,
) -> Moved<'a>
    ensures { Steps W.seen result st.new (hand (state_of W.seen st.old) completion.entry (state_of W.seen st.old).context.frames) }
{
    match st.context.frames.pop() {
        None => returned(alloc, completion, st),
        Some(frame) => {
            st.context.place = frame.place;
            handed(alloc, frame.work, completion, st)
        }
    }
}
