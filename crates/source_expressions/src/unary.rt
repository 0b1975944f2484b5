//! Operators on one value (ECMA-262, 6th edition, 12.5).

ghost use Rattle.std.specs.Prelude.{◌≡◌, ◌∷◌, []};
ghost use Rattle.es_operation_steps.specs.Operations.{number_of};
ghost use Rattle.es_operations.specs.Numbers.{delete_number};
ghost use Rattle.es_operations.specs.Turning.{key_operand};
ghost use Rattle.es_operators.specs.Primitives.{type_name};
ghost use Rattle.es_value.specs.declared.value.Value.TheVariants.{Text as ValueText};
ghost use Rattle.source_meaning.specs.Expressions.{deleted, unary_valued};
ghost use Rattle.source_meaning.specs.Steps.{gives, turns};
ghost use Rattle.source_moves.specs.Moves.{Steps};
ghost use Rattle.source_moves.specs.Seen.{state_of};
ghost use Rattle.source_state.specs.declared.completion.Completion.{Completion};

use es_heap::Key;
use es_operation_steps::{Operation, key_operand};
use es_operators::{truth_of, type_name};
use es_value::{Str, Value};
use es6_ast::UnaryOperator;
use source_moves::{Move, Moved, PendingWork, impossible, turn};
use source_state::{Completion, Reference, State};
use sqlite_items::Items;
use std::alloc::Global;

/// The name of a value's type is given (12.5.6).
fn type_of<'a, W: PendingWork<'a>>(alloc: Global, value: &Value, st: &State<'a, W>) -> Moved<'a>
    ensures { Steps W.seen result st.now (gives (ValueText (type_name st.now.heap value.now)) (state_of W.seen st.now)) }
{
    let name = Str::of_bytes(alloc, type_name(&st.heap, value))?;
    Ok(Move::give(Value::Text(name)))
}

/// An operation without operands.
fn convert<'a, W: PendingWork<'a>>(
    alloc: Global,
    operation: Operation,
    value: Value,
    st: &State<'a, W>,
) -> Moved<'a>
    ensures { Steps W.seen result st.now (turns (number_of operation) value [] (state_of W.seen st.now)) }
{
    let operands = Items::new(alloc);
    turn(alloc, operation, value, operands, st)
}

/// An operator on the value of its operand.
#[tactic(auto, unfolding(source_meaning::specs::Expressions::unary_valued))]
pub fn unary_valued<'a, W: PendingWork<'a>>(
    alloc: Global,
    operator: UnaryOperator,
    value: Value,
    st: &State<'a, W>,
) -> Moved<'a>
    ensures { Steps W.seen result st.now (unary_valued operator (state_of W.seen st.now) value) }
{
    match operator {
        UnaryOperator::Void => Ok(Move::give(Value::Undefined)),
        UnaryOperator::Typeof => type_of(alloc, &value, st),
        UnaryOperator::Not => Ok(Move::give(Value::Bool(!truth_of(&value)))),
        UnaryOperator::Plus => convert(alloc, Operation::ToNumber, value, st),
        UnaryOperator::Minus => convert(alloc, Operation::Negate, value, st),
        UnaryOperator::BitNot => convert(alloc, Operation::Invert, value, st),
        UnaryOperator::Delete => impossible(st),
    }
}

/// A property is deleted.
fn delete_property<'a, W: PendingWork<'a>>(
    alloc: Global,
    base: Value,
    key: &Key,
    st: &State<'a, W>,
) -> Moved<'a>
    ensures { Steps W.seen result st.now (turns delete_number base (key_operand key.now ∷ []) (state_of W.seen st.now)) }
{
    let mut operands = Items::new(alloc);
    operands.push(key_operand(key)?)?;
    turn(alloc, Operation::Delete, base, operands, st)
}

/// What a reference names is deleted.
fn delete_reference<'a, W: PendingWork<'a>>(
    alloc: Global,
    reference: Reference<'a>,
    st: &State<'a, W>,
) -> Moved<'a>
    ensures { Steps W.seen result st.now (deleted (state_of W.seen st.now) (Completion.Refers reference.entry)) }
{
    match reference {
        Reference::OfProperty(base, key) => delete_property(alloc, base, &key, st),
        _ => impossible(st),
    }
}

/// `delete` (12.5.4.2): of what is no reference nothing is deleted.
pub fn deleted<'a, W: PendingWork<'a>>(
    alloc: Global,
    completion: Completion<'a>,
    st: &State<'a, W>,
) -> Moved<'a>
    ensures { Steps W.seen result st.now (deleted (state_of W.seen st.now) completion.entry) }
{
    match completion {
        Completion::Refers(reference) => delete_reference(alloc, reference, st),
        Completion::Gives(_) => Ok(Move::give(Value::Bool(true))),
        _ => impossible(st),
    }
}
