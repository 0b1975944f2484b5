//! Assignments (ECMA-262, 6th edition, 12.14.4; the 7th edition, 12.15).

ghost use Rattle.std.specs.Prelude.{◌≡◌};
ghost use Rattle.es_operation_steps.specs.Operations.{number_of};
ghost use Rattle.es6_ast.specs.declared.tree.Pattern.{out-Pattern};
ghost use Rattle.source_meaning.specs.Expressions.{assign_number, assign_referred, assign_right, assign_to, begin_assignment};
ghost use Rattle.source_meaning.specs.References.{reads};
ghost use Rattle.source_moves.specs.Moves.{Steps};
ghost use Rattle.source_moves.specs.Seen.{state_of};
ghost use Rattle.source_state.specs.declared.work.Work.TheVariants.{AssignOld};

use crate::pending::ExpressionWork;
use crate::references::share_reference;
use es_calls::ErrorKind;
use es_operation_steps::Operation;
use es_value::Value;
use es6_ast::{AssignOperator, Expression, Pattern};
use source_moves::{Moved, begin, operate, raise, read, refer};
use source_state::{Completion, Node, Reference, State};
use sqlite_items::Items;
use std::alloc::Global;

/// The operation of the operator before a `=`.
#[tactic(auto, unfolding(source_meaning::specs::Expressions::assign_number))]
fn operation_of(operator: AssignOperator) -> Operation
    ensures { number_of result ≡ assign_number operator }
{
    match operator {
        AssignOperator::MultiplyAssign => Operation::Multiply,
        AssignOperator::DivideAssign => Operation::Divide,
        AssignOperator::RemainderAssign => Operation::Remainder,
        AssignOperator::SubtractAssign => Operation::Subtract,
        AssignOperator::ShiftLeftAssign => Operation::ShiftLeft,
        AssignOperator::ShiftRightAssign => Operation::ShiftRight,
        AssignOperator::ShiftRightUnsignedAssign => Operation::ShiftRightUnsigned,
        AssignOperator::BitAndAssign => Operation::And,
        AssignOperator::BitXorAssign => Operation::ExclusiveOr,
        AssignOperator::BitOrAssign => Operation::Or,
        AssignOperator::PowerAssign => Operation::Power,
        AssignOperator::Assign | AssignOperator::AddAssign => Operation::Add,
    }
}

/// The old value of a reference is read, before the right side is evaluated.
fn read_old<'a, W: ExpressionWork<'a>>(
    alloc: Global,
    operator: AssignOperator,
    x: Node<'a, Expression>,
    reference: Reference<'a>,
    st: &mut State<'a, W>,
) -> Moved<'a>
    ensures { Steps W.seen result st.new (reads (AssignOld operator reference.entry x.entry) reference.entry (state_of W.seen st.old)) }
{
    let source = share_reference(&reference)?;
    read(alloc, W::assign_old(operator, reference, x), source, st)
}

/// The target refers to this.
fn assign_to<'a, W: ExpressionWork<'a>>(
    alloc: Global,
    operator: AssignOperator,
    x: Node<'a, Expression>,
    reference: Reference<'a>,
    st: &mut State<'a, W>,
) -> Moved<'a>
    ensures { Steps W.seen result st.new (assign_to operator x.entry (state_of W.seen st.old) reference.entry) }
{
    match operator {
        AssignOperator::Assign => begin(W::assign_value(reference), x, st),
        _ => read_old(alloc, operator, x, reference, st),
    }
}

/// The target is there; only a reference is one.
pub fn assign_referred<'a, W: ExpressionWork<'a>>(
    alloc: Global,
    operator: AssignOperator,
    x: Node<'a, Expression>,
    completion: Completion<'a>,
    st: &mut State<'a, W>,
) -> Moved<'a>
    ensures { Steps W.seen result st.new (assign_referred operator x.entry (state_of W.seen st.old) completion.entry) }
{
    match completion {
        Completion::Refers(reference) => assign_to(alloc, operator, x, reference, st),
        _ => raise(alloc, ErrorKind::ReferenceError, st),
    }
}

/// The right side is there, behind the old value.
pub fn assign_right<'a, W: ExpressionWork<'a>>(
    alloc: Global,
    operator: AssignOperator,
    reference: Reference<'a>,
    old: Value,
    value: Value,
    st: &mut State<'a, W>,
) -> Moved<'a>
    ensures { Steps W.seen result st.new (assign_right operator reference.entry old (state_of W.seen st.old) value) }
{
    let mut operands = Items::new(alloc);
    operands.push(value)?;
    let work = W::assign_value(reference);
    operate(alloc, work, operation_of(operator), old, operands, st)
}

/// Begins an assignment: with the target's reference, or of a pattern with the right side.
pub fn begin_assignment<'a, W: ExpressionWork<'a>>(
    operator: AssignOperator,
    pattern: &'a Pattern,
    x: Node<'a, Expression>,
    st: &mut State<'a, W>,
) -> Moved<'a>
    ensures { Steps W.seen result st.new (begin_assignment operator pattern.now x.entry (state_of W.seen st.old) (out-Pattern pattern.now)) }
{
    match pattern {
        Pattern::Target(target) => {
            refer(W::assign_reference(operator, x), Node::of(target.get()), st)
        }
        _ => begin(W::assign_pattern(Node::of(pattern)), x, st),
    }
}
