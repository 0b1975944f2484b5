//! The operators with their conversions (ECMA-262, 6th edition, 7.1 and 12.5 to 12.11; 7th edition, 12.6; 5.1 edition, 9 and 11.4 to
//! 11.10).
ghost use Rattle.std.specs.Prelude.{◌≡◌, IfOk};
ghost use Rattle.es_heap.specs.Heaps.{Heap as HeapValue};
ghost use Rattle.es_value.specs.Convert.{number_of};
ghost use Rattle.es_operations.specs.Operators.{add, calculate, compare, compared, concludes, converted, equal, invert, is_instance, left_converted, negate, relate, right_behind, tested, then_right, to_number, to_text, walked};
ghost use Rattle.es_operation_steps.specs.Asks.{Acts};

use crate::turning::{Ask, Asked};
use es_calls::{BuiltinCall, ErrorKind, Place, Want};
use es_heap::Heap;
use es_operators::{
    Arithmetic, Equality, Hint, Instance, Outcome, Relation, add_values, arithmetic_of,
    complement_of, instance_of, instance_walk, key_of_word, loose_equality, negation_of,
    relation_of,
};
use es_realm::Edition;
use es_value::Value;
use std::alloc::Global;

/// The call ends with what an operator gives.
fn concludes(call: &BuiltinCall, outcome: Outcome) -> Asked
    ensures { (heap : HeapValue) → Acts result call.now heap (concludes heap call.now outcome) }
{
    match outcome {
        Outcome::Gives(value) => Ok(Ask::gives(value)),
        Outcome::Leaves(exit) => Ok(Ask::leaves(exit)),
    }
}

/// The receiver is converted.
fn converted(call: &mut BuiltinCall, hint: Hint) -> Asked
    ensures { (heap : HeapValue) → Acts result call.new heap (converted heap call.old hint) }
{
    let value = call.this_value.share()?;
    call.place = Place::End;
    Ok(Ask::Primitive(value, hint))
}

/// ToString (7.1.12).
pub(crate) fn to_text(call: &mut BuiltinCall, alloc: Global) -> Asked
    ensures { (heap : HeapValue) → Acts result call.new heap (to_text heap call.old call.old.place) }
{
    match call.place {
        Place::Begin => converted(call, Hint::Text),
        _ => Ok(Ask::gives(Value::Text(es_value::to_text(alloc, &call.input)?))),
    }
}

/// ToNumber (7.1.3), which is `+` (12.5.9).
pub(crate) fn to_number(call: &mut BuiltinCall) -> Asked
    ensures { (heap : HeapValue) → Acts result call.new heap (to_number heap call.old call.old.place) }
{
    match call.place {
        Place::Begin => converted(call, Hint::Number),
        _ => match es_value::to_number(&call.input) {
            Ok(number) => Ok(Ask::gives(Value::Number(number))),
            Err(exit) => Ok(Ask::leaves(exit.number())),
        },
    }
}

/// `-` (12.5.10).
pub(crate) fn negate(call: &mut BuiltinCall) -> Asked
    ensures { (heap : HeapValue) → Acts result call.new heap (negate heap call.old call.old.place) }
{
    match call.place {
        Place::Begin => converted(call, Hint::Number),
        _ => concludes(call, negation_of(&call.input)),
    }
}

/// `~` (12.5.11).
pub(crate) fn invert(call: &mut BuiltinCall) -> Asked
    ensures { (heap : HeapValue) → Acts result call.new heap (invert heap call.old call.old.place) }
{
    match call.place {
        Place::Begin => converted(call, Hint::Number),
        _ => concludes(call, complement_of(&call.input)),
    }
}

/// The left operand, which is the receiver, is converted first.
fn left_converted(call: &mut BuiltinCall) -> Asked
    ensures { (heap : HeapValue) → Acts result call.new heap (left_converted heap call.old) }
{
    let left = call.this_value.share()?;
    call.place = Place::Receiver;
    Ok(Ask::Primitive(left, Hint::Number))
}

/// The right operand is converted, behind this left one.
fn then_right(call: &mut BuiltinCall, left: Value) -> Asked
    ensures { (heap : HeapValue) → Acts result call.new heap (then_right heap call.old left) }
{
    let right = call.arg(0)?;
    call.kept = left;
    call.place = Place::Position;
    Ok(Ask::Primitive(right, Hint::Number))
}

/// `+` (12.7.3).
pub(crate) fn add(call: &mut BuiltinCall, alloc: Global) -> Asked
    ensures { (heap : HeapValue) → Acts result call.new heap (add heap call.old call.old.place) }
{
    match call.place {
        Place::Begin => left_converted(call),
        Place::Receiver => {
            let left = call.input.share()?;
            then_right(call, left)
        }
        _ => concludes(call, add_values(alloc, &call.kept, &call.input)?),
    }
}

/// `<`, `>`, `<=` and `>=` (7.2.11).
pub(crate) fn relate(call: &mut BuiltinCall, relation: Relation) -> Asked
    ensures { (heap : HeapValue) → Acts result call.new heap (relate relation heap call.old call.old.place) }
{
    match call.place {
        Place::Begin => left_converted(call),
        Place::Receiver => {
            let left = call.input.share()?;
            then_right(call, left)
        }
        _ => concludes(call, relation_of(relation, &call.kept, &call.input)),
    }
}

/// The left operand's number is there before the right one is looked at.
fn right_behind(call: &mut BuiltinCall) -> Asked
    ensures { (heap : HeapValue) → Acts result call.new heap (right_behind heap call.old (number_of call.old.input)) }
{
    match es_value::to_number(&call.input) {
        Ok(number) => {
            let right = call.arg(0)?;
            call.kept = Value::Number(number);
            call.place = Place::Position;
            Ok(Ask::Primitive(right, Hint::Number))
        }
        Err(exit) => Ok(Ask::leaves(exit.number())),
    }
}

/// The other operators on two numbers (12.6, 12.7.4, 12.8, 12.11).
pub(crate) fn calculate(call: &mut BuiltinCall, operator: Arithmetic) -> Asked
    ensures { (heap : HeapValue) → Acts result call.new heap (calculate operator heap call.old call.old.place) }
{
    match call.place {
        Place::Begin => left_converted(call),
        Place::Receiver => right_behind(call),
        _ => concludes(call, arithmetic_of(operator, &call.kept, &call.input)),
    }
}

/// What a comparison gives; an object beside a primitive is converted, and then they are compared again.
fn compared(
    call: &mut BuiltinCall,
    wanted: bool,
    left: Value,
    right: Value,
    equality: Equality,
) -> Asked
    ensures { (heap : HeapValue) → Acts result call.new heap (compared heap call.old wanted left right equality) }
{
    match equality {
        Equality::Is(same) => Ok(Ask::gives(Value::Bool(if wanted { same } else { !same }))),
        Equality::ConvertLeft => {
            call.kept = right;
            call.place = Place::Receiver;
            Ok(Ask::Primitive(left, Hint::Number))
        }
        Equality::ConvertRight => {
            call.kept = left;
            call.place = Place::Position;
            Ok(Ask::Primitive(right, Hint::Number))
        }
        Equality::Leaves(exit) => Ok(Ask::leaves(exit)),
    }
}

fn compare(call: &mut BuiltinCall, wanted: bool, left: Value, right: Value) -> Asked
    ensures { (heap : HeapValue) → Acts result call.new heap (compare wanted heap call.old left right) }
{
    let equality = loose_equality(&left, &right);
    compared(call, wanted, left, right, equality)
}

/// `==` (7.2.12), or `!=` where `wanted` is false.
pub(crate) fn equal(call: &mut BuiltinCall, wanted: bool) -> Asked
    ensures { (heap : HeapValue) → Acts result call.new heap (equal wanted heap call.old call.old.place) }
{
    let (left, right) = match call.place {
        Place::Begin => (call.this_value.share()?, call.arg(0)?),
        Place::Receiver => (call.input.share()?, call.kept.share()?),
        _ => (call.kept.share()?, call.input.share()?),
    };
    compare(call, wanted, left, right)
}

/// What a step of `instanceof` gives.
fn tested(call: &mut BuiltinCall, alloc: Global, instance: Instance) -> Asked
    ensures { (heap : HeapValue) → Acts result call.new heap (tested heap call.old instance) }
{
    match instance {
        Instance::Is(answer) => Ok(Ask::gives(Value::Bool(answer))),
        Instance::ReadPrototype(id) => {
            let key = key_of_word(alloc, b"prototype")?;
            call.place = Place::Element;
            Ok(Ask::Wants(Want::Get(Value::Object(id), key)))
        }
        Instance::Fails => Ok(Ask::throws(ErrorKind::TypeError)),
        Instance::Leaves(exit) => Ok(Ask::leaves(exit)),
    }
}

/// The walk of the left side's chain, once the right side's `prototype` was read.
fn walked(call: &mut BuiltinCall, alloc: Global, heap: &Heap) -> Asked
    ensures { Acts result call.new heap.now (walked heap.now call.old call.old.this_value call.old.input) }
{
    let (Value::Object(left), Value::Object(above)) = (&call.this_value, &call.input) else {
        return Ok(Ask::throws(ErrorKind::TypeError));
    };
    let instance = instance_walk(heap, *left, *above);
    tested(call, alloc, instance)
}

/// `instanceof` (12.9.4, 7.3.19).
pub(crate) fn is_instance(
    call: &mut BuiltinCall,
    alloc: Global,
    edition: Edition,
    heap: &Heap,
) -> Asked
    ensures { Acts result call.new heap.now (is_instance edition heap.now call.old call.old.place) }
{
    match call.place {
        Place::Begin => {
            let instance = instance_of(edition, heap, &call.this_value, &call.arg(0)?);
            tested(call, alloc, instance)
        }
        _ => walked(call, alloc, heap),
    }
}
