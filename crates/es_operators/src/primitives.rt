//! Primitive values, and those that pass between a program and its hosts.
ghost use Rattle.std.specs.Prelude.{◌≡◌, IfOk};
ghost use Rattle.es_operators.specs.Primitives.{to_prim, with_prim, to_prims, of_prim, is_object, to_key, has_units, truth_of, is_callable, type_name};

use es_heap::{Heap, Key};
use es_outside::{Prim, Prims, Units};
use es_realm::is_function;
use es_value::{Str, Value, to_text};
use std::alloc::{AllocError, Global};

/// The primitive that a value is, or None for an object.
pub fn to_prim(alloc: Global, value: &Value) -> Result<Option<Prim>, AllocError>
    ensures { IfOk result (λ prim. prim ≡ to_prim value.now) }
{
    let prim = match value {
        Value::Undefined => Prim::Undefined,
        Value::Null => Prim::Null,
        Value::Bool(truth) => Prim::Bool(*truth),
        Value::Number(number) => Prim::Number(*number),
        Value::Text(text) => Prim::Text(Units::of_units(Vec::from_slice(alloc, text.units())?)),
        Value::Object(_) => return Ok(None),
    };
    Ok(Some(prim))
}

/// The primitives that the values are, or None where one is an object: what a host is handed.
pub fn to_prims(alloc: Global, values: &[Value]) -> Result<Option<Prims>, AllocError>
    ensures { IfOk result (λ prims. prims ≡ to_prims values.now) }
{
    let mut list = Vec::new(alloc);
    for value in values {
        match to_prim(alloc, value)? {
            Some(prim) => list.push(prim)?,
            None => return Ok(None),
        }
    }
    Ok(Some(Prims::of(list)))
}

/// The value that a primitive is.
pub fn of_prim(alloc: Global, prim: &Prim) -> Result<Value, AllocError>
    ensures { IfOk result (λ value. value ≡ of_prim prim.now) }
{
    match prim {
        Prim::Undefined => Ok(Value::Undefined),
        Prim::Null => Ok(Value::Null),
        Prim::Bool(truth) => Ok(Value::Bool(*truth)),
        Prim::Number(number) => Ok(Value::Number(*number)),
        Prim::Text(units) => Ok(Value::Text(Str::of(alloc, units.units())?)),
    }
}

/// Whether the value is an object.
pub fn is_object(value: &Value) -> bool
    ensures { result ≡ is_object value.now }
{
    matches!(value, Value::Object(_))
}

/// ToPropertyKey of a primitive (7.1.14).
pub fn to_key(alloc: Global, value: &Value) -> Result<Key, AllocError>
    ensures { IfOk result (λ key. key ≡ to_key value.now) }
{
    Ok(Key::Text(to_text(alloc, value)?))
}

fn has_units(units: &[u16]) -> bool
    ensures { result ≡ has_units units.now }
{
    match units {
        [] => false,
        [_, ..] => true,
    }
}

/// ToBoolean (7.1.2).
pub fn truth_of(value: &Value) -> bool
    ensures { result ≡ truth_of value.now }
{
    match value {
        Value::Undefined | Value::Null => false,
        Value::Bool(truth) => *truth,
        Value::Number(number) => *number != 0,
        Value::Text(text) => has_units(text.units()),
        Value::Object(_) => true,
    }
}

/// Whether the value can be called (7.2.3).
pub fn is_callable(heap: &Heap, value: &Value) -> bool
    ensures { result ≡ is_callable heap.now value.now }
{
    match value {
        Value::Object(id) => is_function(heap.class(*id)),
        _ => false,
    }
}

/// What `typeof` gives (12.5.6), in ASCII.
pub fn type_name(heap: &Heap, value: &Value) -> &'static [u8]
    ensures { result.now ≡ type_name heap.now value.now }
{
    match value {
        Value::Undefined => b"undefined",
        Value::Null => b"object",
        Value::Bool(_) => b"boolean",
        Value::Number(_) => b"number",
        Value::Text(_) => b"string",
        Value::Object(id) => {
            if is_function(heap.class(*id)) {
                b"function"
            } else {
                b"object"
            }
        }
    }
}
