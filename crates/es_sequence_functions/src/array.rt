//! The functions of Array and Array.prototype (22.1).
ghost use Rattle.std.specs.Prelude.{◌≡◌, IfOk, [], ◌∷◌};
ghost use Rattle.es_value.specs.declared.value.Value.TheVariants.{Number as NumberValue};
ghost use Rattle.es_sequence_functions.specs.Arrays.{is_array_value, measured, with_length, start_at, next_turn, if_there, turn_if_there, search_length, search_position, index_of, includes_turn, includes, for_each_length, for_each, separator, join_turn, join_element, join, to_string_element, to_string, after_write, write_measure, push_one, arg_at, pushed_length, push_turn, push, pop_length, after_deletion, pop_element, pop};

use crate::function::is_list;
use es_calls::{
    BuiltinCall, ErrorKind, Place, Turned, Want, class_text, index_key, is_undefined, number_in,
    object_in, plus, position, text_in,
};
use es_heap::{Class, Heap};
use es_operators::{is_callable, is_nothing, key_of_word};
use es_realm::{Edition, Look, Write, delete_key, look_up, write_object};
use es_value::{Str, Value, same};
use sqlite_items::Items;
use std::alloc::{AllocError, Global};

/// Array.isArray (22.1.2.2).
pub fn is_array_value(heap: &Heap, value: &Value) -> bool
    ensures { result ≡ is_array_value heap.now value.now }
{
    match value {
        Value::Object(id) => matches!(heap.class(*id), Class::Array),
        _ => false,
    }
}

/// Reads the receiver's length first.
fn measured(call: &mut BuiltinCall, alloc: Global, heap: &Heap) -> Turned
    ensures { IfOk result (λ want. (want ≡ (measured heap.now call.old).want) × (call.new ≡ (measured heap.now call.old).call)) }
{
    if !is_list(alloc, heap, &call.this_value)? {
        return Ok(Want::Leaves(11));
    }
    call.place = Place::Length;
    Ok(Want::Get(call.this_value.share()?, key_of_word(alloc, b"length")?))
}

fn take_length(call: &mut BuiltinCall)
    ensures { call.new ≡ with_length call.old }
{
    call.length = number_in(&call.input);
}

/// Where a search begins whose position is `from`.
fn start_at(from: i64, length: i64) -> i64
    ensures { result ≡ start_at from length }
{
    if 0 <= from {
        from
    } else {
        let back = plus(from, length);
        if back < 0 { 0 } else { back }
    }
}

fn next_turn(call: &mut BuiltinCall) -> Want
    ensures want { result ≡ (next_turn call.old).want }
    ensures call { call.new ≡ (next_turn call.old).call }
{
    call.index = plus(call.index, 1);
    call.place = Place::Turn;
    Want::Again
}

/// Looks at an element if it is there (7.3.10).
fn if_there(call: &mut BuiltinCall, alloc: Global, found: Look) -> Turned
    ensures { IfOk result (λ want. (want ≡ (if_there call.old found).want) × (call.new ≡ (if_there call.old found).call)) }
{
    match found {
        Look::Found(_) => {
            call.place = Place::Element;
            Ok(Want::Get(call.this_value.share()?, index_key(alloc, call.index)?))
        }
        Look::Missing | Look::Binding => Ok(next_turn(call)),
        Look::Leaves(exit) => Ok(Want::Leaves(exit)),
    }
}

fn turn_if_there(
    call: &mut BuiltinCall,
    alloc: Global,
    edition: Edition,
    heap: &Heap,
    end: Want,
) -> Turned
    ensures { IfOk result (λ want. (want ≡ (turn_if_there edition heap.now call.old end).want) × (call.new ≡ (turn_if_there edition heap.now call.old end).call)) }
{
    if call.index >= call.length {
        return Ok(end);
    }
    let key = index_key(alloc, call.index)?;
    let found = look_up(edition, heap, object_in(&call.this_value), &key);
    if_there(call, alloc, found)
}

/// Nothing is found in what is empty, and else the position is converted.
fn search_length(call: &mut BuiltinCall, nothing: Want) -> Turned
    ensures { IfOk result (λ want. (want ≡ (search_length (with_length call.old) nothing).want) × (call.new ≡ (search_length (with_length call.old) nothing).call)) }
{
    take_length(call);
    if call.length <= 0 {
        return Ok(nothing);
    }
    call.place = Place::Position;
    Ok(Want::Number(position(call.arg(1)?)))
}

fn search_position(call: &mut BuiltinCall) -> Want
    ensures want { result ≡ (search_position call.old).want }
    ensures call { call.new ≡ (search_position call.old).call }
{
    call.index = start_at(number_in(&call.input), call.length);
    call.place = Place::Turn;
    Want::Again
}

/// indexOf (22.1.3.11).
pub fn index_of(call: &mut BuiltinCall, alloc: Global, edition: Edition, heap: &Heap) -> Turned
    ensures { IfOk result (λ want. (want ≡ (index_of edition heap.now call.old call.old.place).want) × (call.new ≡ (index_of edition heap.now call.old call.old.place).call)) }
{
    match call.place {
        Place::Begin => measured(call, alloc, heap),
        Place::Length => search_length(call, Want::Done(Value::Number(-1))),
        Place::Position => Ok(search_position(call)),
        Place::Turn => turn_if_there(call, alloc, edition, heap, Want::Done(Value::Number(-1))),
        _ => {
            let sought = call.arg(0)?;
            if same(&call.input, &sought) {
                Ok(Want::Done(Value::Number(call.index)))
            } else {
                Ok(next_turn(call))
            }
        }
    }
}

/// A turn of includes.
fn includes_turn(call: &mut BuiltinCall, alloc: Global) -> Turned
    ensures { IfOk result (λ want. (want ≡ (includes_turn call.old).want) × (call.new ≡ (includes_turn call.old).call)) }
{
    if call.index >= call.length {
        return Ok(Want::Done(Value::Bool(false)));
    }
    call.place = Place::Element;
    Ok(Want::Get(call.this_value.share()?, index_key(alloc, call.index)?))
}

/// includes (7th edition, 22.1.3.11).
pub fn includes(call: &mut BuiltinCall, alloc: Global, heap: &Heap) -> Turned
    ensures { IfOk result (λ want. (want ≡ (includes heap.now call.old call.old.place).want) × (call.new ≡ (includes heap.now call.old call.old.place).call)) }
{
    match call.place {
        Place::Begin => measured(call, alloc, heap),
        Place::Length => search_length(call, Want::Done(Value::Bool(false))),
        Place::Position => Ok(search_position(call)),
        Place::Turn => includes_turn(call, alloc),
        _ => {
            if same(&call.input, &call.arg(0)?) {
                Ok(Want::Done(Value::Bool(true)))
            } else {
                Ok(next_turn(call))
            }
        }
    }
}

/// What forEach hands to its function: the element, its index and the receiver.
fn visited(call: &BuiltinCall, alloc: Global) -> Result<Items<Value>, AllocError>
    ensures { IfOk result (λ args. args ≡ call.now.input ∷ NumberValue call.now.index ∷ call.now.this_value ∷ []) }
{
    let mut args = Items::new(alloc);
    args.push(call.input.share()?)?;
    args.push(Value::Number(call.index))?;
    args.push(call.this_value.share()?)?;
    Ok(args)
}

/// Whether forEach has a function.
fn for_each_length(call: &mut BuiltinCall, heap: &Heap) -> Turned
    ensures { IfOk result (λ want. (want ≡ (for_each_length heap.now call.old).want) × (call.new ≡ (for_each_length heap.now call.old).call)) }
{
    if !is_callable(heap, &call.arg(0)?) {
        return Ok(Want::Throws(ErrorKind::TypeError));
    }
    take_length(call);
    call.place = Place::Turn;
    Ok(Want::Again)
}

/// forEach (22.1.3.10).
pub fn for_each(call: &mut BuiltinCall, alloc: Global, edition: Edition, heap: &Heap) -> Turned
    ensures { IfOk result (λ want. (want ≡ (for_each edition heap.now call.old call.old.place).want) × (call.new ≡ (for_each edition heap.now call.old call.old.place).call)) }
{
    match call.place {
        Place::Begin => measured(call, alloc, heap),
        Place::Length => for_each_length(call, heap),
        Place::Turn => turn_if_there(call, alloc, edition, heap, Want::Done(Value::Undefined)),
        Place::Element => {
            let args = visited(call, alloc)?;
            call.place = Place::Called;
            Ok(Want::Call(call.arg(0)?, call.arg(1)?, args))
        }
        _ => Ok(next_turn(call)),
    }
}

/// What stands between the elements that are joined.
fn separator(call: &BuiltinCall, alloc: Global) -> Result<Value, AllocError>
    ensures { IfOk result (λ value. value ≡ separator call.now) }
{
    let value = call.arg(0)?;
    if is_undefined(&value) {
        Ok(Value::Text(Str::of_bytes(alloc, b",")?))
    } else {
        Ok(value)
    }
}

/// A turn of join.
fn join_turn(call: &mut BuiltinCall, alloc: Global) -> Turned
    ensures { IfOk result (λ want. (want ≡ (join_turn call.old).want) × (call.new ≡ (join_turn call.old).call)) }
{
    if call.index >= call.length {
        return Ok(Want::Done(Value::Text(Str::of(alloc, call.units.as_slice())?)));
    }
    if 0 < call.index {
        call.units
            .append(Items::from_slice(alloc, text_in(&call.other))?)?;
    }
    call.place = Place::Element;
    Ok(Want::Get(call.this_value.share()?, index_key(alloc, call.index)?))
}

/// join (22.1.3.12).
pub fn join(call: &mut BuiltinCall, alloc: Global, heap: &Heap) -> Turned
    ensures { IfOk result (λ want. (want ≡ (join heap.now call.old call.old.place).want) × (call.new ≡ (join heap.now call.old call.old.place).call)) }
{
    match call.place {
        Place::Begin => measured(call, alloc, heap),
        Place::Length => {
            let text = separator(call, alloc)?;
            take_length(call);
            call.place = Place::Search;
            Ok(Want::Text(text))
        }
        Place::Search => {
            call.other = call.input.share()?;
            call.place = Place::Turn;
            Ok(Want::Again)
        }
        Place::Turn => join_turn(call, alloc),
        Place::Element => join_element(call),
        _ => {
            call.units
                .append(Items::from_slice(alloc, text_in(&call.input))?)?;
            Ok(next_turn(call))
        }
    }
}

/// An element of join: undefined and null add nothing.
fn join_element(call: &mut BuiltinCall) -> Turned
    ensures { IfOk result (λ want. (want ≡ (join_element call.old).want) × (call.new ≡ (join_element call.old).call)) }
{
    if is_nothing(&call.input) {
        return Ok(next_turn(call));
    }
    call.place = Place::Piece;
    Ok(Want::Text(call.input.share()?))
}

/// What toString does with the receiver's `join`.
fn to_string_element(call: &mut BuiltinCall, alloc: Global, heap: &Heap) -> Turned
    ensures { IfOk result (λ want. (want ≡ (to_string_element heap.now call.old).want) × (call.new ≡ (to_string_element heap.now call.old).call)) }
{
    if is_callable(heap, &call.input) {
        call.place = Place::Called;
        return Ok(Want::Call(
            call.input.share()?,
            call.this_value.share()?,
            Items::new(alloc),
        ));
    }
    let text = class_text(heap.class(object_in(&call.this_value)));
    Ok(Want::Done(Value::Text(Str::of_bytes(alloc, text)?)))
}

/// toString (22.1.3.27).
pub fn to_string(call: &mut BuiltinCall, alloc: Global, heap: &Heap) -> Turned
    ensures { IfOk result (λ want. (want ≡ (to_string heap.now call.old call.old.place).want) × (call.new ≡ (to_string heap.now call.old call.old.place).call)) }
{
    match call.place {
        Place::Begin => {
            if !is_list(alloc, heap, &call.this_value)? {
                return Ok(Want::Leaves(11));
            }
            call.place = Place::Element;
            Ok(Want::Get(call.this_value.share()?, key_of_word(alloc, b"join")?))
        }
        Place::Element => to_string_element(call, alloc, heap),
        _ => Ok(Want::Done(call.input.share()?)),
    }
}

/// What follows a write.
fn after_write(
    call: &mut BuiltinCall,
    alloc: Global,
    value: Value,
    place: Place,
    answer: Write,
) -> Turned
    ensures { IfOk result (λ want. (want ≡ (after_write call.old value place answer).want) × (call.new ≡ (after_write call.old value place answer).call)) }
{
    match answer {
        Write::Done => {
            call.place = place;
            Ok(Want::Again)
        }
        Write::Setter(setter) => {
            let mut args = Items::new(alloc);
            args.push(value)?;
            call.place = place;
            Ok(Want::Call(Value::Object(setter), call.this_value.share()?, args))
        }
        Write::Refused | Write::Convert | Write::Binding => {
            Ok(Want::Throws(ErrorKind::TypeError))
        }
        Write::OutOfRange => Ok(Want::Throws(ErrorKind::RangeError)),
        Write::Leaves(exit) => Ok(Want::Leaves(exit)),
    }
}

/// A write of the receiver's length, after which the call is at its end.
#[tactic(auto, unfolding(crate::specs::Arrays::write_measure))]
fn write_measure(
    call: &mut BuiltinCall,
    alloc: Global,
    edition: Edition,
    heap: &mut Heap,
    length: i64,
) -> Turned
    ensures { IfOk result (λ want. (want ≡ (write_measure edition heap.old call.old length).want) × (call.new ≡ (write_measure edition heap.old call.old length).call) × (heap.new ≡ (write_measure edition heap.old call.old length).heap)) }
{
    let key = key_of_word(alloc, b"length")?;
    let id = object_in(&call.this_value);
    let answer = write_object(alloc, edition, heap, id, key, Value::Number(length))?;
    after_write(call, alloc, Value::Number(length), Place::End, answer)
}

/// The argument that is pushed in this turn.
#[tactic(auto, unfolding(crate::specs::Arrays::push_one))]
fn push_one(
    call: &mut BuiltinCall,
    alloc: Global,
    edition: Edition,
    heap: &mut Heap,
    value: Value,
) -> Turned
    ensures { IfOk result (λ want. (want ≡ (push_one edition heap.old call.old value).want) × (call.new ≡ (push_one edition heap.old call.old value).call) × (heap.new ≡ (push_one edition heap.old call.old value).heap)) }
{
    let key = index_key(alloc, plus(call.length, call.index))?;
    let id = object_in(&call.this_value);
    let pushed = value.share()?;
    let answer = write_object(alloc, edition, heap, id, key, value)?;
    after_write(call, alloc, pushed, Place::Called, answer)
}

fn arg_at(values: &[Value], index: i64) -> Result<Value, AllocError>
    ensures { IfOk result (λ value. value ≡ arg_at values.now index) }
{
    if index < 0 {
        return Ok(Value::Undefined);
    }
    match values.get(index as usize) {
        None => Ok(Value::Undefined),
        Some(value) => value.share(),
    }
}

fn pushed_length(call: &BuiltinCall) -> i64
    ensures { result ≡ pushed_length call.now }
{
    plus(call.length, call.args.as_slice().len() as i64)
}

fn push_turn(call: &mut BuiltinCall, alloc: Global, edition: Edition, heap: &mut Heap) -> Turned
    ensures { IfOk result (λ want. (want ≡ (push_turn edition heap.old call.old).want) × (call.new ≡ (push_turn edition heap.old call.old).call) × (heap.new ≡ (push_turn edition heap.old call.old).heap)) }
{
    let count = call.args.as_slice().len() as i64;
    if call.index < count {
        let value = arg_at(call.args.as_slice(), call.index)?;
        push_one(call, alloc, edition, heap, value)
    } else {
        let length = pushed_length(call);
        write_measure(call, alloc, edition, heap, length)
    }
}

/// push (22.1.3.17).
pub fn push(call: &mut BuiltinCall, alloc: Global, edition: Edition, heap: &mut Heap) -> Turned
    ensures { IfOk result (λ want. (want ≡ (push edition heap.old call.old call.old.place).want) × (call.new ≡ (push edition heap.old call.old call.old.place).call) × (heap.new ≡ (push edition heap.old call.old call.old.place).heap)) }
{
    match call.place {
        Place::Begin => measured(call, alloc, heap),
        Place::Length => {
            take_length(call);
            call.place = Place::Turn;
            Ok(Want::Again)
        }
        Place::Turn => push_turn(call, alloc, edition, heap),
        Place::Called => Ok(next_turn(call)),
        _ => Ok(Want::Done(Value::Number(pushed_length(call)))),
    }
}

/// The last element, which is read first.
fn pop_length(call: &mut BuiltinCall, alloc: Global) -> Turned
    ensures { IfOk result (λ want. (want ≡ (pop_length (with_length call.old)).want) × (call.new ≡ (pop_length (with_length call.old)).call)) }
{
    take_length(call);
    if call.length <= 0 {
        call.place = Place::Turn;
        return Ok(Want::Again);
    }
    call.index = plus(call.length, -1);
    call.place = Place::Element;
    Ok(Want::Get(call.this_value.share()?, index_key(alloc, call.index)?))
}

/// What follows the deletion of the last element.
fn after_deletion(call: &mut BuiltinCall, answer: Write) -> Turned
    ensures { IfOk result (λ want. (want ≡ (after_deletion call.old answer).want) × (call.new ≡ (after_deletion call.old answer).call)) }
{
    match answer {
        Write::Done => {
            call.kept = call.input.share()?;
            call.place = Place::Turn;
            Ok(Want::Again)
        }
        Write::Leaves(exit) => Ok(Want::Leaves(exit)),
        Write::Setter(_) | Write::Refused | Write::OutOfRange | Write::Convert | Write::Binding =>
            Ok(Want::Throws(ErrorKind::TypeError)),
    }
}

fn pop_element(call: &mut BuiltinCall, alloc: Global, edition: Edition, heap: &mut Heap) -> Turned
    ensures { IfOk result (λ want. (want ≡ (pop_element edition heap.old call.old).want) × (call.new ≡ (pop_element edition heap.old call.old).call) × (heap.new ≡ (pop_element edition heap.old call.old).heap)) }
{
    let key = index_key(alloc, call.index)?;
    let answer = delete_key(edition, heap, object_in(&call.this_value), &key);
    after_deletion(call, answer)
}

/// pop (22.1.3.16).
pub fn pop(call: &mut BuiltinCall, alloc: Global, edition: Edition, heap: &mut Heap) -> Turned
    ensures { IfOk result (λ want. (want ≡ (pop edition heap.old call.old call.old.place).want) × (call.new ≡ (pop edition heap.old call.old call.old.place).call) × (heap.new ≡ (pop edition heap.old call.old call.old.place).heap)) }
{
    match call.place {
        Place::Begin => measured(call, alloc, heap),
        Place::Length => pop_length(call, alloc),
        Place::Element => pop_element(call, alloc, edition, heap),
        Place::Turn => {
            let length = call.index;
            write_measure(call, alloc, edition, heap, length)
        }
        _ => Ok(Want::Done(call.kept.share()?)),
    }
}
