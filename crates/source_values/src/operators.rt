//! Values that operators take (ECMA-262, 6th edition, 12.5 to 12.13, 12.15).

ghost use Rattle.std.specs.Prelude.{[], if◌then◌else◌, ◌∷◌};
ghost use Rattle.es_operations.specs.Numbers as number;
ghost use Rattle.es_operators.specs.Primitives.{truth_of};
ghost use Rattle.source_meaning.specs.State.{Begin};
ghost use Rattle.source_meaning.specs.Steps.{controls, turns};
ghost use Rattle.source_moves.specs.Moves.{Steps};
ghost use Rattle.source_moves.specs.Seen.{state_of};
ghost use Rattle.source_values.specs.Given.{operator_given};

use crate::pending::ValueWork;
use es_operation_steps::Operation;
use es_operators::truth_of;
use es_value::Value;
use es6_ast::Expression;
use source_expressions::{operands_on, operate, sequence_on, unary_valued};
use source_moves::{Move, Moved, PendingWork, begin, turn};
use source_state::{Control, Node, State};
use source_takers::OperatorTaker;
use sqlite_items::Items;
use std::alloc::Global;

/// Both sides of a power are there.
fn raise_power<'a, W: PendingWork<'a>>(
    alloc: Global,
    base: Value,
    exponent: Value,
    st: &State<'a, W>,
) -> Moved<'a>
    ensures { Steps W.seen result st.now (turns number.power_number base (exponent ∷ []) (state_of W.seen st.now)) }
{
    let mut operands = Items::new(alloc);
    operands.push(exponent)?;
    turn(alloc, Operation::Power, base, operands, st)
}

/// A branch of a conditional (12.13).
fn branch<'a, W: PendingWork<'a>>(
    yes: Node<'a, Expression>,
    no: Node<'a, Expression>,
    value: &Value,
    st: &State<'a, W>,
) -> Moved<'a>
    ensures { Steps W.seen result st.now (controls (Begin (if truth_of value.now then yes.entry else no.entry)) (state_of W.seen st.now)) }
{
    if truth_of(value) {
        Ok(Move::Goes(Control::Begin(yes)))
    } else {
        Ok(Move::Goes(Control::Begin(no)))
    }
}

/// A value is handed to an operator.
pub(crate) fn operator_given<'a, W: ValueWork<'a>>(
    alloc: Global,
    taker: OperatorTaker<'a>,
    value: Value,
    st: &mut State<'a, W>,
) -> Moved<'a>
    ensures { Steps W.seen result st.new (operator_given taker.entry (state_of W.seen st.old) value) }
{
    match taker {
        OperatorTaker::UnaryValue(operator) => unary_valued(alloc, operator, value, st),
        OperatorTaker::PowerBase(exponent) => begin(W::power_exponent(value), exponent, st),
        OperatorTaker::PowerExponent(base) => raise_power(alloc, base, value, st),
        OperatorTaker::Operands(operands) => operands_on(operands, value, st),
        OperatorTaker::OperandRight(left, operator, operands) => {
            operate(alloc, W::operands(operands), operator, left, value, st)
        }
        OperatorTaker::Branches(yes, no) => branch(yes, no, &value, st),
        OperatorTaker::SequenceRest(expressions) => sequence_on(expressions, value, st),
    }
}
