//! What takes an end, and is told how it is left otherwise: bodies of statements, array patterns.

ghost use Rattle.source_ends.specs.Taken.{body_done, body_over};
ghost use Rattle.std.specs.Prelude.{List, ℕ};
ghost use Rattle.source_moves.specs.Moves.{Steps};
ghost use Rattle.source_moves.specs.Seen.{state_of};
ghost use Rattle.source_takers.specs.Rows.{block_left, body_left, label_left, loop_left, switch_left};

use es6_ast::Catch;
use source_moves::{Move, Moved, PendingWork, impossible};
use source_patterns::{closes_unless, elements_rest};
use source_state::{BorrowedName, Completion, Loop, State};
use source_statements::{
    StatementWork, broken, broken_at, catches, finish, for_of_jumped, for_of_step, loop_continued,
    loop_on,
};
use source_takers::BodyTaker;
use std::alloc::Global;

/// The end of a body.
fn body_over<'a, W: StatementWork<'a>>(
    alloc: Global,
    taker: BodyTaker<'a>,
    st: &mut State<'a, W>,
) -> Moved<'a>
    ensures { Steps W.seen result st.new (body_over taker.entry (state_of W.seen st.old)) }
{
    match taker {
        BodyTaker::SwitchBody | BodyTaker::Labelling(_) | BodyTaker::Catching(_) => {
            Ok(Move::hand(Completion::Done))
        }
        BodyTaker::Finishing(last) => finish(alloc, last.get(), Completion::Done, st),
        BodyTaker::LoopBody(of) => loop_on(alloc, of, st),
        BodyTaker::ForOfBody(of, iterator) => for_of_step(alloc, of, iterator, st),
        BodyTaker::ElementsRest(done, taking) => elements_rest(alloc, done, taking, st),
    }
}

/// The body of `switch` is left (13.12.11).
fn switch_left<'a, W: PendingWork<'a>>(completion: Completion<'a>, st: &State<'a, W>) -> Moved<'a>
    ensures { Steps W.seen result st.now (switch_left (state_of W.seen st.now) completion.entry) }
{
    match completion {
        Completion::Breaks(label) => broken(label, st),
        other => Ok(Move::hand(other)),
    }
}

/// A labelled statement is left (13.13.14).
fn label_left<'a, W: PendingWork<'a>>(
    label: &BorrowedName<'a>,
    completion: Completion<'a>,
    st: &State<'a, W>,
) -> Moved<'a>
    ensures { Steps W.seen result st.now (label_left label.now (state_of W.seen st.now) completion.entry) }
{
    match completion {
        Completion::Breaks(target) => broken_at(label, target, st),
        other => Ok(Move::hand(other)),
    }
}

/// A block with a handler is left (13.15.8).
fn block_left<'a, W: StatementWork<'a>>(
    alloc: Global,
    catch: &'a Catch,
    completion: Completion<'a>,
    st: &mut State<'a, W>,
) -> Moved<'a>
    ensures { Steps W.seen result st.new (block_left catch.now (state_of W.seen st.old) completion.entry) }
{
    match completion {
        Completion::Throws(value) => catches(alloc, catch, value, st),
        other => Ok(Move::hand(other)),
    }
}

/// The body of a loop is left (13.7.1.2).
fn loop_left<'a, W: StatementWork<'a>>(
    alloc: Global,
    of: Loop<'a>,
    completion: Completion<'a>,
    st: &mut State<'a, W>,
) -> Moved<'a>
    ensures { Steps W.seen result st.new (loop_left of.entry (state_of W.seen st.old) completion.entry) }
{
    match completion {
        Completion::Breaks(label) => broken(label, st),
        Completion::Continues(label) => loop_continued(alloc, of, label, st),
        other => Ok(Move::hand(other)),
    }
}

/// A body is left.
fn body_left<'a, W: StatementWork<'a>>(
    alloc: Global,
    taker: BodyTaker<'a>,
    completion: Completion<'a>,
    st: &mut State<'a, W>,
) -> Moved<'a>
    ensures { Steps W.seen result st.new (body_left taker.entry (state_of W.seen st.old) completion.entry) }
{
    match taker {
        BodyTaker::SwitchBody => switch_left(completion, st),
        BodyTaker::Labelling(label) => label_left(&label, completion, st),
        BodyTaker::Catching(catch) => block_left(alloc, catch.get(), completion, st),
        BodyTaker::Finishing(last) => finish(alloc, last.get(), completion, st),
        BodyTaker::LoopBody(of) => loop_left(alloc, of, completion, st),
        BodyTaker::ForOfBody(of, iterator) => for_of_jumped(alloc, of, iterator, completion, st),
        BodyTaker::ElementsRest(done, taking) => {
            closes_unless(alloc, done, taking.iterator, completion, st)
        }
    }
}

/// A completion is handed to a body.
pub fn body_handed<'a, W: StatementWork<'a>>(
    alloc: Global,
    taker: BodyTaker<'a>,
    completion: Completion<'a>,
    st: &mut State<'a, W>,
) -> Moved<'a>
    ensures { Steps W.seen result st.new (body_done taker.entry (state_of W.seen st.old) completion.entry) }
{
    match completion {
        Completion::Done => body_over(alloc, taker, st),
        Completion::Gives(_) | Completion::Refers(_) | Completion::Resumes(..) => impossible(st),
        Completion::Throws(value) => body_left(alloc, taker, Completion::Throws(value), st),
        Completion::Returns(value) => body_left(alloc, taker, Completion::Returns(value), st),
        Completion::Breaks(label) => body_left(alloc, taker, Completion::Breaks(label), st),
        Completion::Continues(label) => body_left(alloc, taker, Completion::Continues(label), st),
    }
}
