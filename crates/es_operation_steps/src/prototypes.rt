//! The prototypes of what `new`, generators and classes make (ECMA-262, 6th edition, 9.1.15 and 14.5.14; 5.1 edition, 13.2.2).
ghost use Rattle.std.specs.Prelude.{◌≡◌, IfOk};
ghost use Rattle.es_heap.specs.Heaps.{Heap as HeapValue};
ghost use Rattle.es_operators.specs.Functions.{heritage_of};
ghost use Rattle.es_operations.specs.Functions.{heritage_begun, heritage_given, heritage_prototype, prototype_given, prototype_of};
ghost use Rattle.es_operation_steps.specs.Asks.{Acts};

use crate::turning::{Ask, Asked, reads};
use es_calls::{BuiltinCall, ErrorKind, Place, object_in};
use es_heap::{Class, Heap};
use es_operators::{Constructor, Prototype, heritage_of, prototype_for};
use es_value::Value;
use std::alloc::Global;

fn prototype_given(call: &BuiltinCall, prototype: Prototype) -> Asked
    ensures { (heap : HeapValue) → Acts result call.now heap (prototype_given heap call.now prototype) }
{
    match prototype {
        Prototype::Is(id) => Ok(Ask::gives(Value::Object(id))),
        Prototype::Leaves(exit) => Ok(Ask::leaves(exit)),
    }
}

/// GetPrototypeFromConstructor (9.1.15).
pub(crate) fn prototype_of(call: &mut BuiltinCall, alloc: Global, heap: &Heap) -> Asked
    ensures { Acts result call.new heap.now (prototype_of heap.now call.old call.old.place) }
{
    match call.place {
        Place::Begin => reads(call, alloc, Place::End, b"prototype"),
        _ => {
            let default = object_in(&call.arg(0)?);
            prototype_given(call, prototype_for(heap, &call.input, default))
        }
    }
}

fn heritage_begun(call: &mut BuiltinCall, alloc: Global, constructor: Constructor) -> Asked
    ensures { (heap : HeapValue) → Acts result call.new heap (heritage_begun heap call.old constructor) }
{
    match constructor {
        Constructor::Runs(_) => reads(call, alloc, Place::End, b"prototype"),
        Constructor::Leaves(exit) => Ok(Ask::leaves(exit)),
        _ => Ok(Ask::throws(ErrorKind::TypeError)),
    }
}

/// The `prototype` of the heritage is read, if that is a function of the program.
fn heritage_read(call: &mut BuiltinCall, alloc: Global, heap: &Heap) -> Asked
    ensures { Acts result call.new heap.now (heritage_begun heap.now call.old (heritage_of heap.now call.old.this_value)) }
{
    let constructor = heritage_of(alloc, heap, &call.this_value)?;
    heritage_begun(call, alloc, constructor)
}

fn heritage_given(call: &BuiltinCall, heap: &Heap) -> Asked
    ensures { Acts result call.now heap.now (heritage_given heap.now call.now call.now.input) }
{
    match call.input {
        Value::Null => Ok(Ask::gives(Value::Null)),
        Value::Object(id) => match heap.class(id) {
            Class::Namespace(_) => Ok(Ask::leaves(12)),
            _ => Ok(Ask::gives(Value::Object(id))),
        },
        _ => Ok(Ask::throws(ErrorKind::TypeError)),
    }
}

/// The prototype of the prototype of a class with a heritage (14.5.14, 6).
pub(crate) fn heritage_prototype(call: &mut BuiltinCall, alloc: Global, heap: &Heap) -> Asked
    ensures { Acts result call.new heap.now (heritage_prototype heap.now call.old call.old.place) }
{
    match call.place {
        Place::Begin => heritage_read(call, alloc, heap),
        _ => heritage_given(call, heap),
    }
}
