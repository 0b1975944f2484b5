//! The operators on primitives, and what `new`, a heritage, `instanceof`, a write and a deletion do.
use crate::outcome::{Ending, Outcome};
use es_builtins::ErrorKind;
use es_heap::{Heap, Key};
use es_operators::{
    Arithmetic, Constructor, Equality, Instance, Outcome as Operated, Relation, add_values,
    arithmetic_of, complement_of, constructor_of, heritage_of, instance_of, instance_walk,
    is_object, key_of_word, loose_equality, negation_of, plus_of, relation_of, truth_of, type_name,
};
use es_realm::{Edition, Read, Write, delete_value, read_object, write_object, write_primitive};
use es_value::{Str, Value};
use std::alloc::{AllocError, Global};

fn arithmetic_named(name: &str) -> Option<Arithmetic> {
    match name {
        "-" => Some(Arithmetic::Subtract),
        "*" => Some(Arithmetic::Multiply),
        "/" => Some(Arithmetic::Divide),
        "%" => Some(Arithmetic::Remainder),
        "**" => Some(Arithmetic::Power),
        "&" => Some(Arithmetic::And),
        "|" => Some(Arithmetic::Or),
        "^" => Some(Arithmetic::ExclusiveOr),
        "<<" => Some(Arithmetic::ShiftLeft),
        ">>" => Some(Arithmetic::ShiftRight),
        ">>>" => Some(Arithmetic::ShiftRightUnsigned),
        _ => None,
    }
}

fn relation_named(name: &str) -> Option<Relation> {
    match name {
        "<" => Some(Relation::Less),
        ">" => Some(Relation::Greater),
        "<=" => Some(Relation::LessOrEqual),
        ">=" => Some(Relation::GreaterOrEqual),
        _ => None,
    }
}

fn given(operated: Operated) -> Outcome {
    match operated {
        Operated::Gives(value) => Outcome::Value(value),
        Operated::Leaves(exit) => Outcome::Leaves(exit),
    }
}

/// An operator on two values, of which `==` alone takes objects.
pub fn binary(alloc: Global, name: &str, left: &Value, right: &Value) -> Ending {
    if name == "==" {
        return Ok(equal(left, right));
    }
    if is_object(left) || is_object(right) {
        return Ok(Outcome::Stuck);
    }
    if name == "+" {
        return Ok(given(add_values(alloc, left, right)?));
    }
    if let Some(operator) = arithmetic_named(name) {
        return Ok(given(arithmetic_of(operator, left, right)));
    }
    match relation_named(name) {
        Some(relation) => Ok(given(relation_of(relation, left, right))),
        None => Ok(Outcome::Stuck),
    }
}

fn equal(left: &Value, right: &Value) -> Outcome {
    match loose_equality(left, right) {
        Equality::Is(truth) => Outcome::Value(Value::Bool(truth)),
        Equality::Leaves(exit) => Outcome::Leaves(exit),
        Equality::ConvertLeft | Equality::ConvertRight => Outcome::Stuck,
    }
}

/// `!`, `typeof`, and on primitives `~` and the signs.
pub fn unary(alloc: Global, heap: &Heap, name: &str, value: &Value) -> Ending {
    match name {
        "!" => Ok(Outcome::Value(Value::Bool(!truth_of(value)))),
        "typeof" => {
            let text = Str::of_bytes(alloc, type_name(heap, value))?;
            Ok(Outcome::Value(Value::Text(text)))
        }
        _ if is_object(value) => Ok(Outcome::Stuck),
        "~" => Ok(given(complement_of(value))),
        "+" => Ok(given(plus_of(value))),
        _ => Ok(given(negation_of(value))),
    }
}

/// What a write or a deletion answers, whose setter isn't called. Each binding of a namespace object is there, so it can't go.
pub fn written(answer: Write) -> Outcome {
    match answer {
        Write::Done => Outcome::Value(Value::Undefined),
        Write::Refused | Write::Binding => Outcome::Throws(ErrorKind::TypeError),
        Write::OutOfRange => Outcome::Throws(ErrorKind::RangeError),
        Write::Leaves(exit) => Outcome::Leaves(exit),
        Write::Setter(_) | Write::Convert => Outcome::Stuck,
    }
}

/// A write of a property.
pub fn write(
    alloc: Global,
    edition: Edition,
    heap: &mut Heap,
    base: &Value,
    key: Key,
    value: Value,
) -> Result<Write, AllocError> {
    match base {
        Value::Object(id) => write_object(alloc, edition, heap, *id, key, value),
        _ => write_primitive(alloc, edition, heap, base, &key),
    }
}

pub fn delete(alloc: Global, edition: Edition, heap: &mut Heap, base: &Value, key: &Key) -> Ending {
    Ok(written(delete_value(alloc, edition, heap, base, key)?))
}

fn constructor(alloc: Global, answer: Constructor) -> Ending {
    match answer {
        Constructor::Fails => Ok(Outcome::Throws(ErrorKind::TypeError)),
        Constructor::Leaves(exit) => Ok(Outcome::Leaves(exit)),
        Constructor::Runs(_) => Ok(Outcome::Value(Value::Text(Str::of_bytes(alloc, b"runs")?))),
        Constructor::MakesError(number) => Ok(Outcome::Value(Value::Number(i64::from(number)))),
    }
}

/// What `new` begins: a text where the function runs, or the number of an error's constructor.
pub fn construct(alloc: Global, edition: Edition, heap: &Heap, value: &Value) -> Ending {
    let answer = constructor_of(alloc, edition, heap, value)?;
    constructor(alloc, answer)
}

/// Whether a class may extend the value.
pub fn extend(alloc: Global, heap: &Heap, value: &Value) -> Ending {
    let answer = heritage_of(alloc, heap, value)?;
    constructor(alloc, answer)
}

/// `instanceof`, where the right side's `prototype` is plain.
pub fn instance(
    alloc: Global,
    edition: Edition,
    heap: &Heap,
    left: &Value,
    right: &Value,
) -> Ending {
    let Instance::ReadPrototype(id) = instance_of(edition, heap, left, right) else {
        return Ok(instance_found(instance_of(edition, heap, left, right)));
    };
    match (
        left,
        read_object(edition, heap, id, &key_of_word(alloc, b"prototype")?)?,
    ) {
        (Value::Object(place), Read::Have(Value::Object(target))) => Ok(instance_found(
            instance_walk(heap, *place, target),
        )),
        (_, Read::Leaves(exit)) => Ok(Outcome::Leaves(exit)),
        _ => Ok(Outcome::Throws(ErrorKind::TypeError)),
    }
}

fn instance_found(answer: Instance) -> Outcome {
    match answer {
        Instance::Is(truth) => Outcome::Value(Value::Bool(truth)),
        Instance::Fails => Outcome::Throws(ErrorKind::TypeError),
        Instance::Leaves(exit) => Outcome::Leaves(exit),
        Instance::ReadPrototype(_) => Outcome::Stuck,
    }
}
