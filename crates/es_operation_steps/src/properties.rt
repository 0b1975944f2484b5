//! Reading, writing, deleting and testing of properties, and their keys (ECMA-262, 6th edition, 6.2.3, 7.1.14, 7.3, 12.5.4 and 12.9.3;
//! 5.1 edition, 8.7 and 9.10).
ghost use Rattle.std.specs.Prelude.{◌≡◌, IfOk};
ghost use Rattle.es_heap.specs.Heaps.{Heap as HeapValue};
ghost use Rattle.es_value.specs.Convert.{number_of};
ghost use Rattle.es_realm.specs.declared.edition.Edition.TheVariants.{Sixth};
ghost use Rattle.es_calls.specs.Calls.{arg};
ghost use Rattle.es_calls.specs.declared.call.Place.TheVariants.{Begin, Receiver};
ghost use Rattle.es_operations.specs.Properties.{after_deletion, after_put, delete, found_in, get, get_above, has_property, length_once, length_twice, put, put_begun, super_get, to_key, unless_there, written};
ghost use Rattle.es_operation_steps.specs.Asks.{Acts};

use crate::turning::{Ask, Asked, gives_input, operand_key};
use es_calls::{BuiltinCall, ErrorKind, Place, Want, number_in, object_in};
use es_heap::{Heap, Key};
use es_operators::{Hint, is_nothing, is_object};
use es_realm::{
    Edition, Look, Write, delete_value, look_up, read_object, read_value, write_length,
    write_object, write_primitive,
};
use es_value::{ObjId, Value, to_number, to_text};
use sqlite_items::Items;
use std::alloc::{AllocError, Global};

/// GetValue of a property (6.2.3.1).
pub(crate) fn get(call: &mut BuiltinCall, alloc: Global, edition: Edition, heap: &Heap) -> Asked
    ensures { Acts result call.new heap.now (get edition heap.now call.old call.old.place) }
{
    match call.place {
        Place::Begin => {
            let key = operand_key(alloc, &call.arg(0)?)?;
            let base = call.this_value.share()?;
            let read = read_value(alloc, edition, heap, &base, &key)?;
            call.place = Place::End;
            Ok(Ask::Found(base, key, read))
        }
        _ => gives_input(call),
    }
}

/// What an object has for the key, for the receiver of the call.
fn get_above(
    call: &mut BuiltinCall,
    edition: Edition,
    heap: &Heap,
    key: Key,
    above: Option<ObjId>,
) -> Asked
    ensures { Acts result call.new heap.now (get_above edition heap.now call.old key above) }
{
    let Some(up) = above else {
        return Ok(Ask::throws(ErrorKind::TypeError));
    };
    let read = read_object(edition, heap, up, &key)?;
    let receiver = call.this_value.share()?;
    call.place = Place::End;
    Ok(Ask::Found(receiver, key, read))
}

/// GetValue of a property of `super` (6.2.3.1, 12.3.5.3 and 9.1.8).
pub(crate) fn super_get(
    call: &mut BuiltinCall,
    alloc: Global,
    edition: Edition,
    heap: &Heap,
) -> Asked
    ensures { Acts result call.new heap.now (super_get edition heap.now call.old call.old.place) }
{
    match call.place {
        Place::Begin => {
            let home = object_in(&call.arg(0)?);
            let key = operand_key(alloc, &call.arg(1)?)?;
            get_above(call, edition, heap, key, heap.proto(home))
        }
        _ => gives_input(call),
    }
}

/// The write of the second operand.
#[tactic(auto, unfolding(es_operations::specs::Properties::written))]
fn written(
    call: &BuiltinCall,
    alloc: Global,
    edition: Edition,
    heap: &mut Heap,
    key: Key,
) -> Result<Write, AllocError>
    ensures { IfOk result (λ answer. (answer ≡ (written edition heap.old call.now.this_value key (arg call.now 1)).answer) × (heap.new ≡ (written edition heap.old call.now.this_value key (arg call.now 1)).after)) }
{
    match call.this_value {
        Value::Object(id) => write_object(alloc, edition, heap, id, key, call.arg(1)?),
        _ => write_primitive(alloc, edition, heap, &call.this_value, &key),
    }
}

/// What a write answered; the length of an array is converted twice (9.4.2.4, 3 to 5).
fn after_put(call: &mut BuiltinCall, alloc: Global, answer: Write) -> Asked
    ensures { (heap : HeapValue) → Acts result call.new heap (after_put heap call.old (arg call.old 1) answer) }
{
    match answer {
        Write::Done => Ok(Ask::gives(Value::Undefined)),
        Write::Setter(setter) => {
            let mut args = Items::new(alloc);
            args.push(call.arg(1)?)?;
            let receiver = call.this_value.share()?;
            call.place = Place::End;
            Ok(Ask::Wants(Want::Call(Value::Object(setter), receiver, args)))
        }
        Write::Convert => {
            let value = call.arg(1)?;
            call.place = Place::Receiver;
            Ok(Ask::Primitive(value, Hint::Number))
        }
        Write::OutOfRange => Ok(Ask::throws(ErrorKind::RangeError)),
        Write::Leaves(exit) => Ok(Ask::leaves(exit)),
        Write::Refused | Write::Binding => Ok(Ask::throws(ErrorKind::TypeError)),
    }
}

fn put_begun(call: &mut BuiltinCall, alloc: Global, edition: Edition, heap: &mut Heap) -> Asked
    ensures { Acts result call.new heap.new (put_begun edition heap.old call.old) }
{
    let key = operand_key(alloc, &call.arg(0)?)?;
    let answer = written(call, alloc, edition, heap, key)?;
    after_put(call, alloc, answer)
}

/// The first conversion of a length was made.
fn length_once(call: &mut BuiltinCall) -> Asked
    ensures { (heap : HeapValue) → Acts result call.new heap (length_once heap call.old (number_of call.old.input)) }
{
    match to_number(&call.input) {
        Ok(number) => {
            let value = call.arg(1)?;
            call.kept = Value::Number(number);
            call.place = Place::Length;
            Ok(Ask::Primitive(value, Hint::Number))
        }
        Err(exit) => Ok(Ask::leaves(exit.number())),
    }
}

/// So was the second.
fn length_twice(call: &mut BuiltinCall, alloc: Global, heap: &mut Heap) -> Asked
    ensures { Acts result call.new heap.new (length_twice heap.old call.old (number_of call.old.input)) }
{
    match to_number(&call.input) {
        Ok(number) => {
            let id = object_in(&call.this_value);
            let answer = write_length(heap, id, number_in(&call.kept), number);
            after_put(call, alloc, answer)
        }
        Err(exit) => Ok(Ask::leaves(exit.number())),
    }
}

/// PutValue of a property (6.2.3.2) in strict code.
pub(crate) fn put(call: &mut BuiltinCall, alloc: Global, edition: Edition, heap: &mut Heap) -> Asked
    ensures { Acts result call.new heap.new (put edition heap.old call.old call.old.place) }
{
    match call.place {
        Place::Begin => put_begun(call, alloc, edition, heap),
        Place::Receiver => length_once(call),
        Place::Length => length_twice(call, alloc, heap),
        _ => Ok(Ask::gives(Value::Undefined)),
    }
}

/// What a deletion answered. Of a namespace object it is asked whether it has the name.
fn after_deletion(call: &mut BuiltinCall, alloc: Global, answer: Write) -> Asked
    ensures { (heap : HeapValue) → Acts result call.new heap (after_deletion heap call.old answer) }
{
    match answer {
        Write::Done => Ok(Ask::gives(Value::Bool(true))),
        Write::Binding => {
            let key = operand_key(alloc, &call.arg(0)?)?;
            let base = call.this_value.share()?;
            call.place = Place::End;
            Ok(Ask::Wants(Want::Get(base, key)))
        }
        Write::Leaves(exit) => Ok(Ask::leaves(exit)),
        _ => Ok(Ask::throws(ErrorKind::TypeError)),
    }
}

/// Whether a namespace object has the name was handed in.
fn unless_there(call: &BuiltinCall) -> Asked
    ensures { (heap : HeapValue) → Acts result call.now heap (unless_there heap call.now call.now.input) }
{
    match call.input {
        Value::Bool(false) => Ok(Ask::gives(Value::Bool(true))),
        _ => Ok(Ask::throws(ErrorKind::TypeError)),
    }
}

fn delete_begun(call: &mut BuiltinCall, alloc: Global, edition: Edition, heap: &mut Heap) -> Asked
    ensures { Acts result call.new heap.new (delete edition heap.old call.old Begin) }
{
    let operand = call.arg(0)?;
    let key = operand_key(alloc, &operand)?;
    let answer = delete_value(alloc, edition, heap, &call.this_value, &key)?;
    after_deletion(call, alloc, answer)
}

/// `delete` (12.5.4.2) in strict code.
pub(crate) fn delete(
    call: &mut BuiltinCall,
    alloc: Global,
    edition: Edition,
    heap: &mut Heap,
) -> Asked
    ensures { Acts result call.new heap.new (delete edition heap.old call.old call.old.place) }
{
    match call.place {
        Place::Begin => delete_begun(call, alloc, edition, heap),
        _ => unless_there(call),
    }
}

/// Where the key was found in the right side of `in`.
fn found_in(call: &mut BuiltinCall, key: Key, found: Look) -> Asked
    ensures { (heap : HeapValue) → Acts result call.new heap (found_in heap call.old key found) }
{
    match found {
        Look::Found(_) => Ok(Ask::gives(Value::Bool(true))),
        Look::Missing => Ok(Ask::gives(Value::Bool(false))),
        Look::Binding => {
            let object = call.arg(0)?;
            call.place = Place::End;
            Ok(Ask::Wants(Want::Get(object, key)))
        }
        Look::Leaves(exit) => Ok(Ask::leaves(exit)),
    }
}

/// The left side of `in` was converted.
fn looks_up(call: &mut BuiltinCall, alloc: Global, edition: Edition, heap: &Heap) -> Asked
    ensures { Acts result call.new heap.now (has_property edition heap.now call.old Receiver) }
{
    let text = to_text(alloc, &call.input)?;
    let object = call.arg(0)?;
    let key = Key::Text(text);
    let found = look_up(edition, heap, object_in(&object), &key);
    found_in(call, key, found)
}

/// `in` (12.9.3).
pub(crate) fn has_property(
    call: &mut BuiltinCall,
    alloc: Global,
    edition: Edition,
    heap: &Heap,
) -> Asked
    ensures { Acts result call.new heap.now (has_property edition heap.now call.old call.old.place) }
{
    match call.place {
        Place::Begin => {
            if !is_object(&call.arg(0)?) {
                return Ok(Ask::throws(ErrorKind::TypeError));
            }
            let left = call.this_value.share()?;
            call.place = Place::Receiver;
            Ok(Ask::Primitive(left, Hint::Text))
        }
        Place::Receiver => looks_up(call, alloc, edition, heap),
        _ => gives_input(call),
    }
}

/// The key of a reference (12.3.2.1): the check of the base, and then ToPropertyKey of the operand. The editions don't differ in it.
pub(crate) fn to_key(call: &mut BuiltinCall, alloc: Global) -> Asked
    ensures { (heap : HeapValue) → Acts result call.new heap (to_key Sixth heap call.old call.old.place) }
{
    match call.place {
        Place::Begin => {
            if is_nothing(&call.this_value) {
                return Ok(Ask::throws(ErrorKind::TypeError));
            }
            let operand = call.arg(0)?;
            call.place = Place::End;
            Ok(Ask::Primitive(operand, Hint::Text))
        }
        _ => Ok(Ask::gives(Value::Text(to_text(alloc, &call.input)?))),
    }
}
