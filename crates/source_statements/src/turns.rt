//! Tests, turns and updates of loops (ECMA-262, 6th edition, 13.7.2.6, 13.7.3.6, 13.7.4.8).

ghost use Rattle.std.specs.Prelude.{◌≡◌, OnOk};
ghost use Rattle.source_meaning.specs.Loops.{loop_begun, loop_continued, loop_on, loop_tested, run_turn, test_loop, update_by, with_copies};
ghost use Rattle.source_moves.specs.Moves.{Steps};
ghost use Rattle.source_moves.specs.Seen.{state_of};

use crate::conditions::start;
use crate::jumps::is_for;
use crate::pending::StatementWork;
use es_operators::truth_of;
use es_value::Value;
use es6_ast::Expression;
use source_moves::{Move, Moved, begin, copy_innermost, push};
use source_state::{BorrowedName, Completion, Loop, Node, State};
use std::alloc::{AllocError, Global};

fn share<'a>(node: &Option<Node<'a, Expression>>) -> Option<Node<'a, Expression>>
    ensures { result ≡ node.now }
{
    match node {
        None => None,
        Some(node) => Some(node.share()),
    }
}

/// One turn of a loop.
pub fn run_turn<'a, W: StatementWork<'a>>(
    alloc: Global,
    of: Loop<'a>,
    st: &mut State<'a, W>,
) -> Moved<'a>
    ensures { Steps W.seen result st.new (run_turn of.entry (state_of W.seen st.old)) }
{
    let body = of.body.share();
    push(st, W::loop_body(of))?;
    start(alloc, &body, st)
}

/// A loop at its test.
pub fn test_loop<'a, W: StatementWork<'a>>(
    alloc: Global,
    of: Loop<'a>,
    st: &mut State<'a, W>,
) -> Moved<'a>
    ensures { Steps W.seen result st.new (test_loop of.entry (state_of W.seen st.old)) }
{
    match share(&of.test) {
        None => run_turn(alloc, of, st),
        Some(test) => begin(W::loop_test(of), test, st),
    }
}

/// The test of a loop gave this.
pub fn loop_tested<'a, W: StatementWork<'a>>(
    alloc: Global,
    of: Loop<'a>,
    value: &Value,
    st: &mut State<'a, W>,
) -> Moved<'a>
    ensures { Steps W.seen result st.new (loop_tested of.entry (state_of W.seen st.old) value.now) }
{
    if truth_of(value) {
        run_turn(alloc, of, st)
    } else {
        Ok(Move::hand(Completion::Done))
    }
}

/// The names of `let` are copied before the first test, and before each update (13.7.4.9).
fn with_copies<'a, W: StatementWork<'a>>(
    alloc: Global,
    of: &Loop<'a>,
    st: &mut State<'a, W>,
) -> Result<(), AllocError>
    ensures { OnOk result (state_of W.seen st.new ≡ with_copies of.now (state_of W.seen st.old)) }
{
    if of.copies {
        copy_innermost(alloc, st)
    } else {
        Ok(())
    }
}

/// A loop before its first test.
pub fn loop_begun<'a, W: StatementWork<'a>>(
    alloc: Global,
    of: Loop<'a>,
    st: &mut State<'a, W>,
) -> Moved<'a>
    ensures { Steps W.seen result st.new (loop_begun of.entry (state_of W.seen st.old)) }
{
    with_copies(alloc, &of, st)?;
    test_loop(alloc, of, st)
}

fn update_by<'a, W: StatementWork<'a>>(
    alloc: Global,
    of: Loop<'a>,
    st: &mut State<'a, W>,
) -> Moved<'a>
    ensures { Steps W.seen result st.new (update_by of.entry (state_of W.seen st.old) of.entry.update) }
{
    match share(&of.update) {
        None => test_loop(alloc, of, st),
        Some(update) => begin(W::loop_update(of), update, st),
    }
}

/// A loop at its update.
pub fn loop_on<'a, W: StatementWork<'a>>(
    alloc: Global,
    of: Loop<'a>,
    st: &mut State<'a, W>,
) -> Moved<'a>
    ensures { Steps W.seen result st.new (loop_on of.entry (state_of W.seen st.old)) }
{
    with_copies(alloc, &of, st)?;
    update_by(alloc, of, st)
}

/// A jump to the next turn of a loop, if it is this one's.
pub fn loop_continued<'a, W: StatementWork<'a>>(
    alloc: Global,
    of: Loop<'a>,
    label: Option<BorrowedName<'a>>,
    st: &mut State<'a, W>,
) -> Moved<'a>
    ensures { Steps W.seen result st.new (loop_continued of.entry (state_of W.seen st.old) label.entry) }
{
    if is_for(&of.labels, &label) {
        loop_on(alloc, of, st)
    } else {
        Ok(Move::hand(Completion::Continues(label)))
    }
}
