//! What takes a value or an end: the end of a scope, the begin of a loop, a value that counts for whatever is given.

ghost use Rattle.source_ends.specs.Taken.{scope_done, scope_given, scope_over};
ghost use Rattle.source_meaning.specs.Steps.{hands, within};
ghost use Rattle.source_moves.specs.Moves.{Steps};
ghost use Rattle.source_moves.specs.Seen.{state_of};
ghost use Rattle.source_takers.specs.Rows.{scope_left};

use core_state::Environment;
use es_value::Value;
use source_moves::{Move, Moved, PendingWork, impossible};
use source_state::{Completion, State};
use source_statements::{StatementWork, loop_begun};
use source_takers::ScopeTaker;
use std::alloc::Global;

/// The scope of before is there again.
fn restore<'a, W: PendingWork<'a>>(
    environment: Environment,
    completion: Completion<'a>,
    st: &mut State<'a, W>,
) -> Moved<'a>
    ensures { Steps W.seen result st.new (hands completion.entry (within environment (state_of W.seen st.old))) }
{
    st.context.environment = environment;
    Ok(Move::hand(completion))
}

/// A value is handed to what takes it or an end.
fn scope_given<'a, W: StatementWork<'a>>(
    alloc: Global,
    taker: ScopeTaker<'a>,
    value: Value,
    st: &mut State<'a, W>,
) -> Moved<'a>
    ensures { Steps W.seen result st.new (scope_given taker.entry (state_of W.seen st.old) value) }
{
    match taker {
        ScopeTaker::Behind(other) => Ok(Move::give(other)),
        ScopeTaker::Restore(environment) => restore(environment, Completion::Gives(value), st),
        ScopeTaker::LoopBegin(of) => loop_begun(alloc, of, st),
    }
}

/// An end is handed to what takes it or a value.
fn scope_over<'a, W: StatementWork<'a>>(
    alloc: Global,
    taker: ScopeTaker<'a>,
    st: &mut State<'a, W>,
) -> Moved<'a>
    ensures { Steps W.seen result st.new (scope_over taker.entry (state_of W.seen st.old)) }
{
    match taker {
        ScopeTaker::Behind(value) => Ok(Move::give(value)),
        ScopeTaker::Restore(environment) => restore(environment, Completion::Done, st),
        ScopeTaker::LoopBegin(of) => loop_begun(alloc, of, st),
    }
}

/// A scope is left.
fn scope_left<'a, W: PendingWork<'a>>(
    taker: ScopeTaker<'a>,
    completion: Completion<'a>,
    st: &mut State<'a, W>,
) -> Moved<'a>
    ensures { Steps W.seen result st.new (scope_left taker.entry (state_of W.seen st.old) completion.entry) }
{
    match taker {
        ScopeTaker::Restore(environment) => restore(environment, completion, st),
        ScopeTaker::Behind(_) | ScopeTaker::LoopBegin(_) => Ok(Move::hand(completion)),
    }
}

/// A completion is handed to what takes a value or an end.
pub fn scope_handed<'a, W: StatementWork<'a>>(
    alloc: Global,
    taker: ScopeTaker<'a>,
    completion: Completion<'a>,
    st: &mut State<'a, W>,
) -> Moved<'a>
    ensures { Steps W.seen result st.new (scope_done taker.entry (state_of W.seen st.old) completion.entry) }
{
    match completion {
        Completion::Gives(value) => scope_given(alloc, taker, value, st),
        Completion::Done => scope_over(alloc, taker, st),
        Completion::Refers(_) | Completion::Resumes(..) => impossible(st),
        Completion::Throws(value) => scope_left(taker, Completion::Throws(value), st),
        Completion::Returns(value) => scope_left(taker, Completion::Returns(value), st),
        Completion::Breaks(label) => scope_left(taker, Completion::Breaks(label), st),
        Completion::Continues(label) => scope_left(taker, Completion::Continues(label), st),
    }
}
