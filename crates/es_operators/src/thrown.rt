//! What is seen of a thrown value outside.
ghost use Rattle.std.specs.Prelude.{◌≡◌, IfOk};
ghost use Rattle.es_operators.specs.Seen.{kind_at, seen_object, seen_of};

use es_heap::Heap;
use es_outside::{Prim, Seen, Units};
use es_realm::names::{
    ERROR_PROTOTYPE, RANGE_ERROR_PROTOTYPE, REFERENCE_ERROR_PROTOTYPE, TYPE_ERROR_PROTOTYPE,
};
use es_value::{ObjId, Value};
use std::alloc::{AllocError, Global};

/// The kind of error whose prototype the object is.
fn kind_at(id: ObjId) -> Option<Seen>
    ensures { result ≡ kind_at id }
{
    if id.0 == ERROR_PROTOTYPE.0 {
        Some(Seen::Error)
    } else if id.0 == TYPE_ERROR_PROTOTYPE.0 {
        Some(Seen::TypeError)
    } else if id.0 == REFERENCE_ERROR_PROTOTYPE.0 {
        Some(Seen::ReferenceError)
    } else if id.0 == RANGE_ERROR_PROTOTYPE.0 {
        Some(Seen::RangeError)
    } else {
        None
    }
}

/// The nearest kind of error on the object's chain of prototypes.
fn seen_object(heap: &Heap, id: ObjId) -> Seen
    ensures { result ≡ seen_object heap.now id }
{
    let mut place = heap.proto(id);
    for _ in 0..heap.len() {
        let Some(up) = place else {
            return Seen::Object;
        };
        if let Some(kind) = kind_at(up) {
            return kind;
        }
        place = heap.proto(up);
    }
    Seen::Object
}

/// What is seen of a value: a primitive itself, and of an object the nearest of the kinds of error whose prototype stands on its
/// chain, or only that it is an object.
pub fn seen(alloc: Global, heap: &Heap, value: &Value) -> Result<Seen, AllocError>
    ensures { IfOk result (λ seen. seen ≡ seen_of heap.now value.now) }
{
    match value {
        Value::Undefined => Ok(Seen::Prim(Prim::Undefined)),
        Value::Null => Ok(Seen::Prim(Prim::Null)),
        Value::Bool(truth) => Ok(Seen::Prim(Prim::Bool(*truth))),
        Value::Number(number) => Ok(Seen::Prim(Prim::Number(*number))),
        Value::Text(text) => {
            let units = Vec::from_slice(alloc, text.units())?;
            Ok(Seen::Prim(Prim::Text(Units::of_units(units))))
        }
        Value::Object(id) => Ok(seen_object(heap, *id)),
    }
}
