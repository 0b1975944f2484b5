//! The functions of Function.prototype (19.2.3).
ghost use Rattle.std.specs.Prelude.{◌≡◌, drop, IfOk};
ghost use Rattle.es_heap.specs.Keys.{length_key};
ghost use Rattle.es_heap.specs.Objects.{own};
ghost use Rattle.es_heap.specs.Heaps.{object_at};
ghost use Rattle.std.specs.Option.{option_copied};
ghost use Rattle.es_sequence_functions.specs.Functions.{is_length, is_list, call_at, apply_begin, apply_turn, apply_at};

use es_calls::{
    BuiltinCall, ErrorKind, Place, Turned, Want, index_key, number_in, plus, share_all,
};
use es_heap::{Class, Heap, Prop};
use es_operators::{is_callable, is_nothing, key_of_word};
use es_value::{ObjId, Value};
use sqlite_items::Items;
use std::alloc::{AllocError, Global};

/// The arguments after the first.
fn other_args(alloc: Global, values: &[Value]) -> Result<Items<Value>, AllocError>
    ensures { IfOk result (λ list. list ≡ drop 1 values.now) }
{
    match values {
        [] => Ok(Items::new(alloc)),
        [_, rest @ ..] => share_all(alloc, rest),
    }
}

/// call (19.2.3.3).
pub fn call_at(call: &mut BuiltinCall, alloc: Global, heap: &Heap) -> Turned
    ensures { IfOk result (λ want. (want ≡ (call_at heap.now call.old call.old.place).want) × (call.new ≡ (call_at heap.now call.old call.old.place).call)) }
{
    match call.place {
        Place::Begin => {
            if !is_callable(heap, &call.this_value) {
                return Ok(Want::Throws(ErrorKind::TypeError));
            }
            call.place = Place::Called;
            Ok(Want::Call(
                call.this_value.share()?,
                call.arg(0)?,
                other_args(alloc, call.args.as_slice())?,
            ))
        }
        _ => Ok(Want::Done(call.input.share()?)),
    }
}

/// Whether it is a `length` that an arguments object may have in these functions.
fn is_length(property: Option<&Prop>) -> bool
    ensures { result ≡ is_length (option_copied property.entry) }
{
    match property {
        Some(
            Prop::Plain {
                value: Value::Number(number),
                ..
            },
        ) => (0 <= *number) & (*number <= 4294967295),
        _ => false,
    }
}

fn is_arguments_list(alloc: Global, heap: &Heap, id: ObjId) -> Result<bool, AllocError>
    ensures { IfOk result (λ answer. answer ≡ is_length (own (object_at heap.now id) length_key)) }
{
    let key = key_of_word(alloc, b"length")?;
    Ok(is_length(heap.get_own(id, &key)))
}

/// Whether it is an array, or an arguments object with such a length.
pub fn is_list(alloc: Global, heap: &Heap, value: &Value) -> Result<bool, AllocError>
    ensures { IfOk result (λ answer. answer ≡ is_list heap.now value.now) }
{
    let Value::Object(id) = value else {
        return Ok(false);
    };
    match heap.class(*id) {
        Class::Array => Ok(true),
        Class::Arguments => is_arguments_list(alloc, heap, *id),
        _ => Ok(false),
    }
}

fn apply_begin(call: &mut BuiltinCall, alloc: Global, heap: &Heap) -> Turned
    ensures { IfOk result (λ want. (want ≡ (apply_begin heap.now call.old).want) × (call.new ≡ (apply_begin heap.now call.old).call)) }
{
    let list = call.arg(1)?;
    let nothing = is_nothing(&list);
    if !nothing && !is_list(alloc, heap, &list)? {
        return Ok(Want::Leaves(11));
    }
    if !is_callable(heap, &call.this_value) {
        return Ok(Want::Throws(ErrorKind::TypeError));
    }
    if nothing {
        call.place = Place::Called;
        Ok(Want::Call(call.this_value.share()?, call.arg(0)?, Items::new(alloc)))
    } else {
        call.place = Place::Length;
        Ok(Want::Get(list, key_of_word(alloc, b"length")?))
    }
}

/// One turn takes one element of the list.
fn apply_turn(call: &mut BuiltinCall, alloc: Global) -> Turned
    ensures { IfOk result (λ want. (want ≡ (apply_turn call.old).want) × (call.new ≡ (apply_turn call.old).call)) }
{
    if call.index < call.length {
        call.place = Place::Element;
        return Ok(Want::Get(call.arg(1)?, index_key(alloc, call.index)?));
    }
    call.place = Place::Called;
    let args = share_all(alloc, call.list.as_slice())?;
    Ok(Want::Call(call.this_value.share()?, call.arg(0)?, args))
}

/// apply (19.2.3.1).
pub fn apply_at(call: &mut BuiltinCall, alloc: Global, heap: &Heap) -> Turned
    ensures { IfOk result (λ want. (want ≡ (apply_at heap.now call.old call.old.place).want) × (call.new ≡ (apply_at heap.now call.old call.old.place).call)) }
{
    match call.place {
        Place::Begin => apply_begin(call, alloc, heap),
        Place::Length => {
            call.length = number_in(&call.input);
            call.place = Place::Turn;
            Ok(Want::Again)
        }
        Place::Turn => apply_turn(call, alloc),
        Place::Element => {
            let element = call.input.share()?;
            call.list.push(element)?;
            call.index = plus(call.index, 1);
            call.place = Place::Turn;
            Ok(Want::Again)
        }
        _ => Ok(Want::Done(call.input.share()?)),
    }
}
