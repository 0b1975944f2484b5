//! What values are to hosts, to classes and as names.
use crate::outcome::{Ending, Outcome};
use crate::show::kind_name;
use es_builtins::ErrorKind;
use es_heap::Heap;
use es_operators::{Prototype, of_prim, prototype_for, seen, to_prim, to_prims};
use es_outside::Seen;
use es_realm::names::OBJECT_PROTOTYPE;
use es_realm::{Global as GlobalName, global_of};
use es_value::{Str, Value};
use std::alloc::{AllocError, Global};

/// A value that goes out as a primitive and comes back.
pub fn through_prim(alloc: Global, value: &Value) -> Ending {
    match to_prim(alloc, value)? {
        Some(prim) => Ok(Outcome::Value(of_prim(alloc, &prim)?)),
        None => Ok(Outcome::Stuck),
    }
}

/// How many primitives these values are, if all are.
pub fn of_prims(alloc: Global, values: &[Value]) -> Ending {
    match to_prims(alloc, values)? {
        Some(prims) => Ok(Outcome::Value(Value::Number(prims.list().len() as i64))),
        None => Ok(Outcome::Stuck),
    }
}

/// What is seen of a thrown value: a primitive itself, or a text of what an object is.
pub fn thrown(alloc: Global, heap: &Heap, value: &Value) -> Ending {
    let word = match seen(alloc, heap, value)? {
        Seen::Prim(prim) => return Ok(Outcome::Value(of_prim(alloc, &prim)?)),
        Seen::Object => "Object",
        Seen::Error => kind_name(ErrorKind::Error),
        Seen::TypeError => kind_name(ErrorKind::TypeError),
        Seen::ReferenceError => kind_name(ErrorKind::ReferenceError),
        Seen::RangeError => kind_name(ErrorKind::RangeError),
    };
    let text = Str::of_bytes(alloc, word.as_bytes())?;
    Ok(Outcome::Value(Value::Text(text)))
}

/// The prototype of an object that a function makes whose `prototype` is this value.
pub fn prototype(heap: &Heap, value: &Value) -> Outcome {
    match prototype_for(heap, value, OBJECT_PROTOTYPE) {
        Prototype::Is(id) => Outcome::Value(Value::Object(id)),
        Prototype::Leaves(exit) => Outcome::Leaves(exit),
    }
}

/// What a read of the global name gives.
pub fn global(name: &str) -> Outcome {
    match global_of(name.as_bytes()) {
        GlobalName::Undefined => Outcome::Value(Value::Undefined),
        GlobalName::Object(id) => Outcome::Value(Value::Object(id)),
        GlobalName::LeftOut => Outcome::Leaves(7),
        GlobalName::Unknown => Outcome::Throws(ErrorKind::ReferenceError),
    }
}

/// The kind of error of this name; of any other name it is Error.
pub fn error_kind(name: &str) -> ErrorKind {
    match name {
        "TypeError" => ErrorKind::TypeError,
        "ReferenceError" => ErrorKind::ReferenceError,
        "RangeError" => ErrorKind::RangeError,
        _ => ErrorKind::Error,
    }
}
