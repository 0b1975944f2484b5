//! Error and its kinds (19.5).
ghost use Rattle.std.specs.Prelude.{◌≡◌, IfOk, OnOk};
ghost use Rattle.es_value.specs.declared.value.Value.TheVariants.{Text as TextValue};
ghost use Rattle.es_calls.specs.declared.call.Place.TheVariants.{Receiver as AtReceiver, Element as AtElement};
ghost use Rattle.es_object_functions.specs.Errors.{error_begin, error_message, error_of, described, wants_message, error_text};
ghost use Rattle.es_calls.specs.Properties.{with_property};

use es_calls::{
    BuiltinCall, ErrorKind, Place, Turned, Want, add_property, is_undefined, object_in, text_in,
};
use es_heap::{Class, Heap, HeapFault, Prop};
use es_operators::{is_object, key_of_word};
use es_value::{ObjId, Str, Value};
use std::alloc::{AllocError, Global};

fn error_begin(call: &mut BuiltinCall, alloc: Global, heap: &mut Heap) -> Turned
    ensures { IfOk result (λ want. (want ≡ (error_begin heap.old call.old).want) × (call.new ≡ (error_begin heap.old call.old).call) × (heap.new ≡ (error_begin heap.old call.old).heap)) }
{
    let message = call.arg(0)?;
    let proto = ObjId(usize::from(call.builtin) + 3);
    let id = heap.make(alloc, Some(proto), Class::Error)?;
    call.kept = Value::Object(id);
    call.place = Place::Receiver;
    if is_undefined(&message) {
        Ok(Want::Done(Value::Object(id)))
    } else {
        Ok(Want::Text(message))
    }
}

fn error_message(call: &BuiltinCall, alloc: Global, heap: &mut Heap) -> Turned
    ensures { IfOk result (λ want. (want ≡ (error_message heap.old call.now).want) × (heap.new ≡ (error_message heap.old call.now).heap)) }
{
    let message = call.input.share()?;
    add_property(alloc, heap, object_in(&call.kept), b"message", message)?;
    Ok(Want::Done(call.kept.share()?))
}

/// A call of an error constructor, by `new` too (19.5.1.1 and 19.5.6.1.1).
pub fn error_of(call: &mut BuiltinCall, alloc: Global, heap: &mut Heap) -> Turned
    ensures { IfOk result (λ want. (want ≡ (error_of heap.old call.old call.old.place).want) × (call.new ≡ (error_of heap.old call.old call.old.place).call) × (heap.new ≡ (error_of heap.old call.old call.old.place).heap)) }
{
    match call.place {
        Place::Begin => error_begin(call, alloc, heap),
        _ => error_message(call, alloc, heap),
    }
}

/// The text of an error's name and message.
fn described(alloc: Global, name: &[u16], message: &[u16]) -> Result<Value, AllocError>
    ensures { IfOk result (λ value. value ≡ TextValue (described name.now message.now)) }
{
    if name.is_empty() {
        return Ok(Value::Text(Str::of(alloc, message)?));
    }
    if message.is_empty() {
        return Ok(Value::Text(Str::of(alloc, name)?));
    }
    let mut units = Vec::from_slice(alloc, name)?;
    units.push(58)?;
    units.push(32)?;
    units.extend_from_slice(message)?;
    Ok(Value::Text(Str::of_vec(alloc, units)?))
}

fn wants_message(call: &mut BuiltinCall, alloc: Global) -> Turned
    ensures { IfOk result (λ want. (want ≡ (wants_message call.old).want) × (call.new ≡ (wants_message call.old).call)) }
{
    call.place = Place::Element;
    Ok(Want::Get(call.this_value.share()?, key_of_word(alloc, b"message")?))
}

/// What Error.prototype.toString does with the name.
fn name_read(call: &mut BuiltinCall, alloc: Global) -> Turned
    ensures { IfOk result (λ want. (want ≡ (error_text call.old AtReceiver).want) × (call.new ≡ (error_text call.old AtReceiver).call)) }
{
    if is_undefined(&call.input) {
        call.other = Value::Text(Str::of_bytes(alloc, b"Error")?);
        return wants_message(call, alloc);
    }
    call.place = Place::Search;
    Ok(Want::Text(call.input.share()?))
}

/// What Error.prototype.toString does with the message.
fn message_read(call: &mut BuiltinCall, alloc: Global) -> Turned
    ensures { IfOk result (λ want. (want ≡ (error_text call.old AtElement).want) × (call.new ≡ (error_text call.old AtElement).call)) }
{
    if is_undefined(&call.input) {
        return Ok(Want::Done(described(alloc, text_in(&call.other), &[])?));
    }
    call.place = Place::Piece;
    Ok(Want::Text(call.input.share()?))
}

/// Error.prototype.toString (19.5.3.4).
pub fn error_text(call: &mut BuiltinCall, alloc: Global) -> Turned
    ensures { IfOk result (λ want. (want ≡ (error_text call.old call.old.place).want) × (call.new ≡ (error_text call.old call.old.place).call)) }
{
    match call.place {
        Place::Begin => {
            if !is_object(&call.this_value) {
                return Ok(Want::Throws(ErrorKind::TypeError));
            }
            call.place = Place::Receiver;
            Ok(Want::Get(call.this_value.share()?, key_of_word(alloc, b"name")?))
        }
        Place::Receiver => name_read(call, alloc),
        Place::Search => {
            call.other = call.input.share()?;
            wants_message(call, alloc)
        }
        Place::Element => message_read(call, alloc),
        _ => Ok(Want::Done(described(alloc, text_in(&call.other), text_in(&call.input))?)),
    }
}
