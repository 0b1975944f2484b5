//! `if` (ECMA-262, 6th edition, 13.6.7): the conditions in order.

ghost use Rattle.std.specs.Prelude.{◌≡◌, ◌∷◌, []};
ghost use Rattle.source_meaning.specs.State.{Start};
ghost use Rattle.source_meaning.specs.Statements.{chosen, conditions_on, otherwise_started};
ghost use Rattle.source_meaning.specs.Steps.{controls};
ghost use Rattle.source_moves.specs.Moves.{Steps};
ghost use Rattle.source_moves.specs.Seen.{state_of};

use crate::pending::StatementWork;
use core_state::Stack;
use es_operators::truth_of;
use es_value::Value;
use es6_ast::{Condition, Statement};
use source_moves::{Move, Moved, PendingWork, begin};
use source_state::{Completion, Control, Node, Nodes, State};
use sqlite_items::Boxed;
use std::alloc::Global;

/// A statement without labels is begun.
pub fn start<'a, W: PendingWork<'a>>(
    alloc: Global,
    body: &Node<'a, Boxed<Statement>>,
    st: &State<'a, W>,
) -> Moved<'a>
    ensures { Steps W.seen result st.now (controls (Start [] body.now) (state_of W.seen st.now)) }
{
    let statement = Node::of(body.get().get());
    Ok(Move::Goes(Control::Start(Stack::new(alloc), statement)))
}

/// What stands behind `else`, if anything does.
fn otherwise_started<'a, W: StatementWork<'a>>(
    alloc: Global,
    otherwise: Option<Node<'a, Boxed<Statement>>>,
    st: &State<'a, W>,
) -> Moved<'a>
    ensures { Steps W.seen result st.now (otherwise_started otherwise.entry (state_of W.seen st.now)) }
{
    match otherwise {
        None => Ok(Move::hand(Completion::Done)),
        Some(body) => start(alloc, &body, st),
    }
}

/// A condition with those behind it: its test is evaluated.
pub fn test_condition<'a, W: StatementWork<'a>>(
    condition: &'a Condition,
    rest: Nodes<'a, Condition>,
    otherwise: Option<Node<'a, Boxed<Statement>>>,
    st: &mut State<'a, W>,
) -> Moved<'a>
    ensures { Steps W.seen result st.new (conditions_on (condition.now ∷ rest.entry) otherwise.entry (state_of W.seen st.old)) }
{
    let work = W::chosen(Node::of(&condition.body), rest, otherwise);
    begin(work, Node::of(condition.test.get()), st)
}

/// The conditions that are left.
pub fn conditions_on<'a, W: StatementWork<'a>>(
    alloc: Global,
    conditions: Nodes<'a, Condition>,
    otherwise: Option<Node<'a, Boxed<Statement>>>,
    st: &mut State<'a, W>,
) -> Moved<'a>
    ensures { Steps W.seen result st.new (conditions_on conditions.entry otherwise.entry (state_of W.seen st.old)) }
{
    match conditions.first() {
        None => otherwise_started(alloc, otherwise, st),
        Some((condition, rest)) => test_condition(condition, rest, otherwise, st),
    }
}

/// The test of a condition gave this.
pub fn chosen<'a, W: StatementWork<'a>>(
    alloc: Global,
    body: Node<'a, Boxed<Statement>>,
    conditions: Nodes<'a, Condition>,
    otherwise: Option<Node<'a, Boxed<Statement>>>,
    value: &Value,
    st: &mut State<'a, W>,
) -> Moved<'a>
    ensures { Steps W.seen result st.new (chosen body.entry conditions.entry otherwise.entry (state_of W.seen st.old) value.now) }
{
    if truth_of(value) {
        start(alloc, &body, st)
    } else {
        conditions_on(alloc, conditions, otherwise, st)
    }
}
