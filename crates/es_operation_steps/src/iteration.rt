//! Iterators (ECMA-262, 6th edition, 7.4) and a turn of `yield*` (14.4.14). The receiver is the value or the iterator.
ghost use Rattle.std.specs.Prelude.{◌≡◌, IfOk};
ghost use Rattle.es_heap.specs.Heaps.{Heap as HeapValue};
ghost use Rattle.es_heap.specs.declared.key.Key.TheVariants.{Iterator as IteratorKey};
ghost use Rattle.es_calls.specs.declared.call.Place.TheVariants.{Element};
ghost use Rattle.es_calls.specs.declared.call.Want.TheVariants as want;
ghost use Rattle.es_operations.specs.Iteration.{closed, closed_before_throw, closing, delegate_next, delegate_return, delegate_throw, get_iterator, handed, iterator_close, iterator_method, iterator_step, iterator_value, result_kept};
ghost use Rattle.es_operation_steps.specs.declared.turning.Ask.TheVariants.{Wants};
ghost use Rattle.es_operation_steps.specs.Asks.{Acts};

use crate::turning::{Ask, Asked, calls_input, gives_input, gives_object_input, reads};
use es_calls::{BuiltinCall, ErrorKind, Place, Want};
use es_heap::{Heap, Key};
use es_operators::{is_nothing, is_object, key_of_word, truth_of};
use es_value::Value;
use sqlite_items::Items;
use std::alloc::Global;

/// The iterator key of the receiver is read.
fn reads_iterator(call: &mut BuiltinCall, place: Place) -> Asked
    ensures { IfOk result (λ ask. (ask ≡ Wants (want.Get call.old.this_value IteratorKey)) × (call.new ≡ record call.old { place = place })) }
{
    let value = call.this_value.share()?;
    call.place = place;
    Ok(Ask::Wants(Want::Get(value, Key::Iterator)))
}

/// The read of the iterator key.
pub(crate) fn iterator_method(call: &mut BuiltinCall) -> Asked
    ensures { (heap : HeapValue) → Acts result call.new heap (iterator_method heap call.old call.old.place) }
{
    match call.place {
        Place::Begin => reads_iterator(call, Place::End),
        _ => gives_input(call),
    }
}

/// GetIterator (7.4.1).
pub(crate) fn get_iterator(call: &mut BuiltinCall, alloc: Global, heap: &Heap) -> Asked
    ensures { Acts result call.new heap.now (get_iterator heap.now call.old call.old.place) }
{
    match call.place {
        Place::Begin => reads_iterator(call, Place::Element),
        Place::Element => calls_input(call, heap, Place::Called, Items::new(alloc)),
        _ => gives_object_input(call, heap),
    }
}

/// The result of `next` is kept, and its `done` is read.
fn result_kept(call: &mut BuiltinCall, alloc: Global) -> Asked
    ensures { (heap : HeapValue) → Acts result call.new heap (result_kept heap call.old) }
{
    if !is_object(&call.input) {
        return Ok(Ask::throws(ErrorKind::TypeError));
    }
    let result = call.input.share()?;
    let key = key_of_word(alloc, b"done")?;
    call.kept = result.share()?;
    call.place = Place::End;
    Ok(Ask::Wants(Want::Get(result, key)))
}

/// IteratorStep (7.4.5) with IteratorNext (7.4.2) and IteratorComplete (7.4.3): the result object, or false at the end.
pub(crate) fn iterator_step(call: &mut BuiltinCall, alloc: Global, heap: &Heap) -> Asked
    ensures { Acts result call.new heap.now (iterator_step heap.now call.old call.old.place) }
{
    match call.place {
        Place::Begin => reads(call, alloc, Place::Element, b"next"),
        Place::Element => calls_input(call, heap, Place::Called, Items::new(alloc)),
        Place::Called => result_kept(call, alloc),
        _ => {
            if truth_of(&call.input) {
                Ok(Ask::gives(Value::Bool(false)))
            } else {
                Ok(Ask::gives(call.kept.share()?))
            }
        }
    }
}

/// IteratorValue (7.4.4).
pub(crate) fn iterator_value(call: &mut BuiltinCall, alloc: Global) -> Asked
    ensures { (heap : HeapValue) → Acts result call.new heap (iterator_value heap call.old call.old.place) }
{
    match call.place {
        Place::Begin => reads(call, alloc, Place::End, b"value"),
        _ => gives_input(call),
    }
}

/// What the method gave: under a throw it doesn't matter.
fn closed(call: &BuiltinCall, heap: &Heap, thrown: bool) -> Asked
    ensures { Acts result call.now heap.now (closed thrown heap.now call.now) }
{
    if thrown {
        Ok(Ask::gives(Value::Undefined))
    } else {
        gives_object_input(call, heap)
    }
}

fn closing(call: &mut BuiltinCall, alloc: Global, heap: &Heap) -> Asked
    ensures { Acts result call.new heap.now (closing heap.now call.old) }
{
    if is_nothing(&call.input) {
        Ok(Ask::gives(Value::Undefined))
    } else {
        calls_input(call, heap, Place::Called, Items::new(alloc))
    }
}

/// IteratorClose (7.4.6), also under a throw: what the method throws then is dropped by who runs the call.
pub(crate) fn iterator_close(
    call: &mut BuiltinCall,
    alloc: Global,
    heap: &Heap,
    thrown: bool,
) -> Asked
    ensures { Acts result call.new heap.now (iterator_close thrown heap.now call.old call.old.place) }
{
    match call.place {
        Place::Begin => reads(call, alloc, Place::Element, b"return"),
        Place::Element => closing(call, alloc, heap),
        _ => closed(call, heap, thrown),
    }
}

/// The method is called with what the generator was resumed with.
fn handed(call: &mut BuiltinCall, alloc: Global, heap: &Heap) -> Asked
    ensures { Acts result call.new heap.now (handed heap.now call.old) }
{
    let mut args = Items::new(alloc);
    args.push(call.arg(0)?)?;
    calls_input(call, heap, Place::Called, args)
}

/// A turn of `yield*` (14.4.14, 5) behind a normal resumption.
pub(crate) fn delegate_next(call: &mut BuiltinCall, alloc: Global, heap: &Heap) -> Asked
    ensures { Acts result call.new heap.now (delegate_next heap.now call.old call.old.place) }
{
    match call.place {
        Place::Begin => reads(call, alloc, Place::Element, b"next"),
        Place::Element => handed(call, alloc, heap),
        _ => gives_object_input(call, heap),
    }
}

/// An iterator without `throw` is closed under a normal completion, and then it is a TypeError.
fn closed_before_throw(call: &mut BuiltinCall, alloc: Global, heap: &Heap) -> Asked
    ensures { Acts result call.new heap.now (closed_before_throw heap.now call.old) }
{
    if is_nothing(&call.input) {
        Ok(Ask::throws(ErrorKind::TypeError))
    } else {
        calls_input(call, heap, Place::Piece, Items::new(alloc))
    }
}

/// The method `throw` was read.
fn throw_read(call: &mut BuiltinCall, alloc: Global, heap: &Heap) -> Asked
    ensures { Acts result call.new heap.now (delegate_throw heap.now call.old Element) }
{
    if is_nothing(&call.input) {
        reads(call, alloc, Place::Search, b"return")
    } else {
        handed(call, alloc, heap)
    }
}

/// A turn of `yield*` behind a throw.
pub(crate) fn delegate_throw(call: &mut BuiltinCall, alloc: Global, heap: &Heap) -> Asked
    ensures { Acts result call.new heap.now (delegate_throw heap.now call.old call.old.place) }
{
    match call.place {
        Place::Begin => reads(call, alloc, Place::Element, b"throw"),
        Place::Element => throw_read(call, alloc, heap),
        Place::Search => closed_before_throw(call, alloc, heap),
        Place::Piece => Ok(Ask::throws(ErrorKind::TypeError)),
        _ => gives_object_input(call, heap),
    }
}

/// The method `return` was read; an iterator without it gives undefined.
fn return_read(call: &mut BuiltinCall, alloc: Global, heap: &Heap) -> Asked
    ensures { Acts result call.new heap.now (delegate_return heap.now call.old Element) }
{
    if is_nothing(&call.input) {
        Ok(Ask::gives(Value::Undefined))
    } else {
        handed(call, alloc, heap)
    }
}

/// A turn of `yield*` behind a return.
pub(crate) fn delegate_return(call: &mut BuiltinCall, alloc: Global, heap: &Heap) -> Asked
    ensures { Acts result call.new heap.now (delegate_return heap.now call.old call.old.place) }
{
    match call.place {
        Place::Begin => reads(call, alloc, Place::Element, b"return"),
        Place::Element => return_read(call, alloc, heap),
        _ => gives_object_input(call, heap),
    }
}
