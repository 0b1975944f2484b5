//! The end of contexts (ECMA-262, 6th edition, 9.2.1, 6 to 9, and 15.2.1.16.5).

ghost use Rattle.std.specs.Prelude.{◌≡◌};
ghost use Rattle.core_meaning.specs.Step.{hand, next_body, outermost, result_of, returned};
ghost use Rattle.core_moves.specs.Moves.{Steps};

use crate::frames::handed;
use core_moves::{CoreRows, Finish, Move, Moved, StateOf, unlawful};
use core_state::{Completion, Control, CoreValue, State};
use es_operators::seen;
use es_value::Value;
use std::alloc::Global;

/// A call gives what was returned, or undefined.
fn result_of<'a, M: Drop, O, W, S>(
    completion: Completion<M>,
    st: &State<'a, M, O, W, S>,
) -> Moved<'a, M>
    ensures { Steps result st.now (result_of st.now completion) }
{
    match completion {
        Completion::Returns(value) => Ok(Move::hand(Completion::Gives(value))),
        Completion::Throws(value) => Ok(Move::hand(Completion::Throws(value))),
        Completion::Jumps(..) => unlawful(st),
        Completion::Gives(_) | Completion::Done => Ok(Move::hand(Completion::Gives(CoreValue::User(
            Value::Undefined,
        )))),
    }
}

/// The next body runs, if there is one.
fn next_body<'a, M, O, W, S>(st: &mut State<'a, M, O, W, S>) -> Moved<'a, M>
    ensures { Steps result st.new (next_body st.old st.old.ahead) }
{
    match st.ahead.pop() {
        None => Ok(Move::Ends(Finish::Ended)),
        Some(body) => Ok(Move::Goes(Control::Run(body))),
    }
}

/// The end of the outermost context.
fn outermost<'a, M: Drop, O, W, S>(
    alloc: Global,
    completion: Completion<M>,
    st: &mut State<'a, M, O, W, S>,
) -> Moved<'a, M>
    ensures { Steps result st.new (outermost st.old completion) }
{
    match completion {
        Completion::Throws(value) => {
            let thrown = seen(alloc, &st.heap, &value)?;
            Ok(Move::Ends(Finish::Threw(thrown)))
        }
        Completion::Done => next_body(st),
        Completion::Gives(_) | Completion::Returns(_) | Completion::Jumps(..) => unlawful(st),
    }
}

/// The end of a context.
fn returned<'a, M: Drop, O: Drop, W: Drop, S>(
    alloc: Global,
    completion: Completion<M>,
    st: &mut State<'a, M, O, W, S>,
) -> Moved<'a, M>
    ensures { Steps result st.new (returned st.old completion st.old.callers) }
{
    match st.callers.pop() {
        None => outermost(alloc, completion, st),
        Some(caller) => {
            st.context = caller;
            result_of(completion, st)
        }
    }
}

/// Hands a completion to the top frame, or behind the last one to the caller.
#[tactic(auto, unfolding(core_meaning::specs::Step::hand))]
pub(crate) fn hand<'a, R: CoreRows<'a>>(
    rows: &R,
    completion: Completion<R::Mark>,
    st: &mut StateOf<'a, R>,
) -> Moved<'a, R::Mark>
    ensures { Steps result st.new (hand (R.rows rows.now) (R.core rows.now) st.old completion st.old.context.frames) }
{
    match st.context.frames.pop() {
        None => returned(rows.alloc(), completion, st),
        Some(frame) => handed(rows, frame, completion, st),
    }
}
