//! Operators on two values, and sequences (ECMA-262, 6th edition, 12.6 to 12.12, 12.15).

ghost use Rattle.std.specs.Prelude.{◌≡◌, ◌∷◌, []};
ghost use Rattle.es_operation_steps.specs.Operations.{number_of};
ghost use Rattle.es_value.specs.declared.value.Value.TheVariants.{Bool as ValueBool};
ghost use Rattle.es6_ast.specs.declared.tree.Operand.{out-Operand};
ghost use Rattle.source_expressions.specs.Operands.{decides, undecided};
ghost use Rattle.source_meaning.specs.Expressions.{binary_number, operands_on, operate, sequence_on};
ghost use Rattle.source_meaning.specs.Steps.{gives, operates, pushed};
ghost use Rattle.source_moves.specs.Moves.{Steps};
ghost use Rattle.source_moves.specs.Seen.{state_of};

use crate::pending::ExpressionWork;
use es_operation_steps::Operation;
use es_operators::truth_of;
use es_value::{Value, same};
use es6_ast::{BinaryOperator, Expression, Operand};
use source_moves::{Move, Moved, PendingWork, begin, operate as operates, push};
use source_state::{Node, Nodes, State};
use sqlite_items::Items;
use std::alloc::Global;

/// The operation that an operator is, but for `===` and `!==`, `&&` and `||`.
fn operation_of(operator: BinaryOperator) -> Operation
    ensures { number_of result ≡ binary_number operator }
{
    match operator {
        BinaryOperator::BitOr => Operation::Or,
        BinaryOperator::BitXor => Operation::ExclusiveOr,
        BinaryOperator::BitAnd => Operation::And,
        BinaryOperator::Equal => Operation::Equal,
        BinaryOperator::NotEqual => Operation::NotEqual,
        BinaryOperator::Less => Operation::Less,
        BinaryOperator::Greater => Operation::Greater,
        BinaryOperator::AtMost => Operation::AtMost,
        BinaryOperator::AtLeast => Operation::AtLeast,
        BinaryOperator::InstanceOf => Operation::InstanceOf,
        BinaryOperator::In => Operation::HasProperty,
        BinaryOperator::ShiftLeft => Operation::ShiftLeft,
        BinaryOperator::ShiftRight => Operation::ShiftRight,
        BinaryOperator::ShiftRightUnsigned => Operation::ShiftRightUnsigned,
        BinaryOperator::Subtract => Operation::Subtract,
        BinaryOperator::Multiply => Operation::Multiply,
        BinaryOperator::Divide => Operation::Divide,
        BinaryOperator::Remainder => Operation::Remainder,
        _ => Operation::Add,
    }
}

/// A truth value goes to this work.
fn compare<'a, W: PendingWork<'a>>(work: W, truth: bool, st: &mut State<'a, W>) -> Moved<'a>
    ensures { Steps W.seen result st.new (gives (ValueBool truth) (pushed (W.seen work) (state_of W.seen st.old))) }
{
    push(st, work)?;
    Ok(Move::give(Value::Bool(truth)))
}

/// An operation on two values, whose result goes to this work.
fn operate_on<'a, W: PendingWork<'a>>(
    alloc: Global,
    work: W,
    operation: Operation,
    left: Value,
    right: Value,
    st: &mut State<'a, W>,
) -> Moved<'a>
    ensures { Steps W.seen result st.new (operates (W.seen work) (number_of operation) left (right ∷ []) (state_of W.seen st.old)) }
{
    let mut operands = Items::new(alloc);
    operands.push(right)?;
    operates(alloc, work, operation, left, operands, st)
}

/// An operator on two values, whose result goes to this work: `===` and `!==` convert nothing.
#[tactic(auto, unfolding(source_meaning::specs::Expressions::operate))]
pub fn operate<'a, W: PendingWork<'a>>(
    alloc: Global,
    work: W,
    operator: BinaryOperator,
    left: Value,
    right: Value,
    st: &mut State<'a, W>,
) -> Moved<'a>
    ensures { Steps W.seen result st.new (operate (W.seen work) operator left right (state_of W.seen st.old)) }
{
    match operator {
        BinaryOperator::Same => compare(work, same(&left, &right), st),
        BinaryOperator::NotSame => compare(work, !same(&left, &right), st),
        _ => operate_on(alloc, work, operation_of(operator), left, right, st),
    }
}

/// Whether the left side decides for both, so that the right one isn't evaluated (12.12.3).
fn decides(operator: BinaryOperator, left: &Value) -> bool
    ensures { result ≡ decides operator left.now }
{
    match operator {
        BinaryOperator::And => !truth_of(left),
        BinaryOperator::Or => truth_of(left),
        _ => false,
    }
}

/// Evaluates the right side of an operator.
fn begin_right<'a, W: ExpressionWork<'a>>(
    left: Value,
    operator: BinaryOperator,
    x: Node<'a, Expression>,
    rest: Nodes<'a, Operand>,
    st: &mut State<'a, W>,
) -> Moved<'a>
    ensures { Steps W.seen result st.new (undecided left (state_of W.seen st.old) x.entry rest.entry operator) }
{
    match operator {
        BinaryOperator::And | BinaryOperator::Or => begin(W::operands(rest), x, st),
        _ => begin(W::operand_right(left, operator, rest), x, st),
    }
}

/// The operands that are left, behind this value.
#[tactic(auto, using(crate::proofs::Deciding::evaluated, crate::proofs::Deciding::skipped))]
pub fn operands_on<'a, W: ExpressionWork<'a>>(
    operands: Nodes<'a, Operand>,
    value: Value,
    st: &mut State<'a, W>,
) -> Moved<'a>
    ensures { Steps W.seen result st.new (operands_on operands.entry (state_of W.seen st.old) value) }
{
    let mut rest = operands;
    while let Some((operand, behind)) = rest.first() {
        if !decides(operand.operator, &value) {
            return begin_right(
                value,
                operand.operator,
                Node::of(&operand.value),
                behind,
                st,
            );
        }
        rest = behind;
    }
    Ok(Move::give(value))
}

/// The expressions that are left, behind this value (12.15).
pub fn sequence_on<'a, W: ExpressionWork<'a>>(
    expressions: Nodes<'a, Expression>,
    value: Value,
    st: &mut State<'a, W>,
) -> Moved<'a>
    ensures { Steps W.seen result st.new (sequence_on expressions.entry (state_of W.seen st.old) value) }
{
    match expressions.first() {
        None => Ok(Move::give(value)),
        Some((x, rest)) => begin(W::sequence_rest(rest), Node::of(x), st),
    }
}
