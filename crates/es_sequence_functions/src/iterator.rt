//! The iterators of arrays and texts (21.1.5, 22.1.5 and 25.1).
ghost use Rattle.std.specs.Prelude.{◌≡◌, ◌≤◌, length, IfOk, OnOk};
ghost use Rattle.es_heap.specs.Heaps.{object_at};
ghost use Rattle.es_sequence_functions.specs.Iterators.{results, array_iterator, array_begin, array_begin_of, array_moved, array_finished, array_position, array_next, string_iterator, is_lead, is_trail, point_of, string_step, string_next_by, string_next};

use crate::string::coerced;
use es_calls::{
    BuiltinCall, ErrorKind, Place, Turned, Want, index_key, iter_result, number_in, object_in,
    plus, text_in,
};
use es_heap::{Class, Heap};
use es_operators::{is_nothing, key_of_word};
use es_realm::names::{ARRAY_ITERATOR_PROTOTYPE, STRING_ITERATOR_PROTOTYPE};
use es_value::{ObjId, Str, Value};
use std::alloc::{AllocError, Global};

/// The call ends with the result of a step of an iterator (7.4.7).
fn results(alloc: Global, heap: &mut Heap, value: Value, over: bool) -> Turned
    ensures { IfOk result (λ want. (want ≡ (results heap.old value over).want) × (heap.new ≡ (results heap.old value over).heap)) }
{
    Ok(Want::Done(Value::Object(iter_result(alloc, heap, value, over)?)))
}

/// Array.prototype's iterator key (22.1.3.29).
pub fn array_iterator(call: &BuiltinCall, alloc: Global, heap: &mut Heap) -> Turned
    ensures { IfOk result (λ want. (want ≡ (array_iterator heap.old call.now).want) × (heap.new ≡ (array_iterator heap.old call.now).heap)) }
{
    if is_nothing(&call.this_value) {
        return Ok(Want::Throws(ErrorKind::TypeError));
    }
    let class = Class::ArrayIterator {
        of: Some(call.this_value.share()?),
        next: 0,
    };
    let id = heap.make(alloc, Some(ARRAY_ITERATOR_PROTOTYPE), class)?;
    Ok(Want::Done(Value::Object(id)))
}

fn array_begin(call: &mut BuiltinCall, alloc: Global, heap: &mut Heap, id: ObjId) -> Turned
    ensures { IfOk result (λ want. (want ≡ (array_begin heap.old call.old (object_at heap.old id).class).want) × (call.new ≡ (array_begin heap.old call.old (object_at heap.old id).class).call) × (heap.new ≡ (array_begin heap.old call.old (object_at heap.old id).class).heap)) }
{
    let (value, next) = match heap.class(id) {
        Class::ArrayIterator { of: None, .. } => {
            return results(alloc, heap, Value::Undefined, true);
        }
        Class::ArrayIterator {
            of: Some(value),
            next,
        } => (value.share()?, *next),
        _ => return Ok(Want::Throws(ErrorKind::TypeError)),
    };
    call.kept = value.share()?;
    call.index = next;
    call.place = Place::Length;
    Ok(Want::Get(value, key_of_word(alloc, b"length")?))
}

fn array_begin_of(call: &mut BuiltinCall, alloc: Global, heap: &mut Heap) -> Turned
    ensures { IfOk result (λ want. (want ≡ (array_begin_of heap.old call.old call.old.this_value).want) × (call.new ≡ (array_begin_of heap.old call.old call.old.this_value).call) × (heap.new ≡ (array_begin_of heap.old call.old call.old.this_value).heap)) }
{
    match call.this_value {
        Value::Object(id) => array_begin(call, alloc, heap, id),
        _ => Ok(Want::Throws(ErrorKind::TypeError)),
    }
}

/// The iterator goes on to the index.
fn array_moved(heap: &mut Heap, id: ObjId, next: i64) -> Result<(), AllocError>
    ensures { OnOk result (heap.new ≡ array_moved heap.old id next (object_at heap.old id).class) }
{
    let of = match heap.class(id) {
        Class::ArrayIterator { of: None, .. } => None,
        Class::ArrayIterator {
            of: Some(value),
            ..
        } => Some(value.share()?),
        _ => return Ok(()),
    };
    heap.set_class(id, Class::ArrayIterator { of, next });
    Ok(())
}

/// The iterator is done.
fn array_finished(heap: &mut Heap, id: ObjId)
    ensures { heap.new ≡ array_finished heap.old id (object_at heap.old id).class }
{
    if let Class::ArrayIterator { next, .. } = heap.class(id) {
        let next = *next;
        heap.set_class(id, Class::ArrayIterator { of: None, next });
    }
}

fn array_position(call: &mut BuiltinCall, alloc: Global, heap: &mut Heap, id: ObjId) -> Turned
    ensures { IfOk result (λ want. (want ≡ (array_position heap.old call.old id).want) × (call.new ≡ (array_position heap.old call.old id).call) × (heap.new ≡ (array_position heap.old call.old id).heap)) }
{
    if call.index >= number_in(&call.input) {
        array_finished(heap, id);
        return results(alloc, heap, Value::Undefined, true);
    }
    array_moved(heap, id, plus(call.index, 1))?;
    call.place = Place::Element;
    Ok(Want::Get(call.kept.share()?, index_key(alloc, call.index)?))
}

/// next of an array iterator (22.1.5.2.1).
pub fn array_next(call: &mut BuiltinCall, alloc: Global, heap: &mut Heap) -> Turned
    ensures { IfOk result (λ want. (want ≡ (array_next heap.old call.old call.old.place).want) × (call.new ≡ (array_next heap.old call.old call.old.place).call) × (heap.new ≡ (array_next heap.old call.old call.old.place).heap)) }
{
    match call.place {
        Place::Begin => array_begin_of(call, alloc, heap),
        Place::Length => {
            call.place = Place::Position;
            Ok(Want::Number(call.input.share()?))
        }
        Place::Position => {
            let id = object_in(&call.this_value);
            array_position(call, alloc, heap, id)
        }
        _ => {
            let value = call.input.share()?;
            results(alloc, heap, value, false)
        }
    }
}

/// String.prototype's iterator key (21.1.3.27).
pub fn string_iterator(call: &mut BuiltinCall, alloc: Global, heap: &mut Heap) -> Turned
    ensures { IfOk result (λ want. (want ≡ (string_iterator heap.old call.old call.old.place).want) × (call.new ≡ (string_iterator heap.old call.old call.old.place).call) × (heap.new ≡ (string_iterator heap.old call.old call.old.place).heap)) }
{
    match call.place {
        Place::Begin => coerced(call),
        _ => {
            let text = Str::of(alloc, text_in(&call.input))?;
            let class = Class::StringIterator {
                of: Some(text),
                next: 0,
            };
            let id = heap.make(alloc, Some(STRING_ITERATOR_PROTOTYPE), class)?;
            Ok(Want::Done(Value::Object(id)))
        }
    }
}

fn is_lead(unit: u16) -> bool
    ensures { result ≡ is_lead unit }
{
    (0xD800 <= unit) & (unit <= 0xDBFF)
}

fn is_trail(unit: u16) -> bool
    ensures { result ≡ is_trail unit }
{
    (0xDC00 <= unit) & (unit <= 0xDFFF)
}

/// The units of the code point that begins a text.
fn point_of(units: &[u16]) -> &[u16]
    ensures point { result.now ≡ point_of units.now }
    ensures within { length result.now ≤ length units.now }
{
    match units {
        [first, second, ..] if is_lead(*first) && is_trail(*second) => &units[..2],
        [_, ..] => &units[..1],
        [] => units,
    }
}

/// A step of a string iterator over this text, from the unit at `next`.
fn string_step(alloc: Global, heap: &mut Heap, id: ObjId, text: Str, next: usize) -> Turned
    ensures { IfOk result (λ want. (want ≡ (string_step heap.old id text next).want) × (heap.new ≡ (string_step heap.old id text next).heap)) }
{
    if next >= text.units().len() {
        heap.set_class(id, Class::StringIterator { of: None, next });
        return results(alloc, heap, Value::Undefined, true);
    }
    let point = point_of(&text.units()[next..]);
    let after = next + point.len();
    let value = Value::Text(Str::of(alloc, point)?);
    heap.set_class(
        id,
        Class::StringIterator {
            of: Some(text),
            next: after,
        },
    );
    results(alloc, heap, value, false)
}

fn string_next_by(alloc: Global, heap: &mut Heap, id: ObjId) -> Turned
    ensures { IfOk result (λ want. (want ≡ (string_next_by heap.old id (object_at heap.old id).class).want) × (heap.new ≡ (string_next_by heap.old id (object_at heap.old id).class).heap)) }
{
    let (text, next) = match heap.class(id) {
        Class::StringIterator { of: None, .. } => {
            return results(alloc, heap, Value::Undefined, true);
        }
        Class::StringIterator {
            of: Some(text),
            next,
        } => (text.share()?, *next),
        _ => return Ok(Want::Throws(ErrorKind::TypeError)),
    };
    string_step(alloc, heap, id, text, next)
}

/// next of a string iterator (21.1.5.2.1).
pub fn string_next(alloc: Global, heap: &mut Heap, receiver: &Value) -> Turned
    ensures { IfOk result (λ want. (want ≡ (string_next heap.old receiver.now).want) × (heap.new ≡ (string_next heap.old receiver.now).heap)) }
{
    match receiver {
        Value::Object(id) => string_next_by(alloc, heap, *id),
        _ => Ok(Want::Throws(ErrorKind::TypeError)),
    }
}
