//! Objects that the steps of a program make: lists, arguments objects and results of iterators.
ghost use Rattle.std.specs.Prelude.{◌≡◌, ◌<◌, ◌^◌, IfOk, OnOk};
ghost use Rattle.es_heap.specs.Heaps.{next_id};
ghost use Rattle.es_calls.specs.Making.{result_heap, added, with_element, with_elements, list_heap, with_iterator, arguments_heap};

use crate::call::index_key;
use crate::properties::add_property;
use es_heap::{Class, Heap, HeapFault, Key, Prop};
use es_realm::Edition;
use es_realm::names::{ARRAY_ITERATOR, ARRAY_PROTOTYPE, OBJECT_PROTOTYPE};
use es_value::{ObjId, Value};
use std::alloc::{AllocError, Global};

/// The result of a step of an iterator (7.4.7).
pub fn iter_result(
    alloc: Global,
    heap: &mut Heap,
    value: Value,
    over: bool,
) -> Result<ObjId, AllocError>
    ensures { IfOk result (λ id. (id ≡ next_id heap.old) × (heap.new ≡ result_heap heap.old value over)) }
{
    let id = heap.make(alloc, Some(OBJECT_PROTOTYPE), Class::Object)?;
    add_property(alloc, heap, id, b"value", value)?;
    add_property(alloc, heap, id, b"done", Value::Bool(over))?;
    Ok(id)
}

/// A plain property, writable and configurable, whose definition nothing refuses.
fn add(alloc: Global, heap: &mut Heap, id: ObjId, key: Key, value: Value) -> Result<(), AllocError>
    ensures { OnOk result (heap.new ≡ added heap.old id key value) }
{
    let property = Prop::Plain {
        value,
        writable: true,
        configurable: true,
    };
    match heap.define_own(alloc, id, key, property) {
        Err(HeapFault::OutOfMemory) => Err(AllocError),
        Ok(()) | Err(_) => Ok(()),
    }
}

#[tactic(auto, unfolding(crate::specs::Making::with_element))]
fn add_element(
    alloc: Global,
    heap: &mut Heap,
    id: ObjId,
    index: usize,
    value: &Value,
) -> Result<(), AllocError>
    requires { index < 2 ^ 63 }
    ensures { OnOk result (heap.new ≡ with_element heap.old id index value.now) }
{
    let key = index_key(alloc, index as i64)?;
    add(alloc, heap, id, key, value.share()?)
}

/// Gives an object these values as its elements.
fn add_elements(
    alloc: Global,
    heap: &mut Heap,
    id: ObjId,
    values: &[Value],
) -> Result<(), AllocError>
    ensures { OnOk result (heap.new ≡ with_elements heap.old id 0 values.now) }
{
    for index in 0..values.len() {
        add_element(alloc, heap, id, index, &values[index])?;
    }
    Ok(())
}

/// A new array of these values (7.3.16).
pub fn make_list(alloc: Global, heap: &mut Heap, values: &[Value]) -> Result<ObjId, AllocError>
    ensures { IfOk result (λ id. (id ≡ next_id heap.old) × (heap.new ≡ list_heap heap.old values.now)) }
{
    let id = heap.make(alloc, Some(ARRAY_PROTOTYPE), Class::Array)?;
    add_elements(alloc, heap, id, values)?;
    Ok(id)
}

#[tactic(auto, unfolding(crate::specs::Making::with_iterator))]
fn add_iterator(
    alloc: Global,
    edition: Edition,
    heap: &mut Heap,
    id: ObjId,
) -> Result<(), AllocError>
    ensures { OnOk result (heap.new ≡ with_iterator edition heap.old id) }
{
    match edition {
        Edition::Sixth => add(
            alloc,
            heap,
            id,
            Key::Iterator,
            Value::Object(ARRAY_ITERATOR),
        ),
        Edition::Fifth => Ok(()),
    }
}

/// A new arguments object of these values (9.4.4.6; 5.1 edition, 10.6).
pub fn make_arguments(
    alloc: Global,
    edition: Edition,
    heap: &mut Heap,
    values: &[Value],
) -> Result<ObjId, AllocError>
    ensures { IfOk result (λ id. (id ≡ next_id heap.old) × (heap.new ≡ arguments_heap edition heap.old values.now)) }
{
    let id = heap.make(alloc, Some(OBJECT_PROTOTYPE), Class::Arguments)?;
    add_elements(alloc, heap, id, values)?;
    let length = Value::Number(values.len() as i64);
    add_property(alloc, heap, id, b"length", length)?;
    add_iterator(alloc, edition, heap, id)?;
    Ok(id)
}
