//! Reading, writing and deleting of properties, up to the function that is to be called, the namespace that is to be read, or
//! the exit at which the run leaves.
ghost use Rattle.std.specs.Prelude.{◌≡◌, IfOk, OnErr, true};
ghost use Rattle.std.specs.Option.{option_copied};
ghost use Rattle.es_heap.specs.Heaps.{object_at};
ghost use Rattle.es_heap.specs.Objects.{own, writable_in};
ghost use Rattle.es_heap.specs.Classes.{is_array};
ghost use Rattle.es_realm.specs.Access.{read_property, read_looked, read_object, unit_at, own_of_text, read_value, Written, write_answer, put_own, put_length, put_value, write_library, write_at, write_object, converted_length, write_length, write_above, write_primitive_looked, write_primitive, is_fixed, definition_exit, define_key, is_inherited_static, deletion_exit, delete_property, delete_in_namespace, delete_key, delete_own_of, unless_reserved, delete_value};
ghost use Rattle.es_realm.specs.Look.{look_up};

use crate::edition::Edition;
use crate::left_out::{is_builtin, is_left_out};
use crate::look::{
    Look, is_closure, is_function, is_hidden, is_named, is_namespace, is_reserved_key, look_up,
};
use crate::names::{BOOLEAN_PROTOTYPE, NUMBER_PROTOTYPE, STRING_PROTOTYPE};
use es_access::{PutAnswer, define, put};
use es_heap::{Class, Heap, HeapFault, Key, Prop, array_index};
use es_value::{ObjId, Str, Value, to_number, to_uint32};
use std::alloc::{AllocError, Global};

/// What a read gives.
#[derive(Debug, Drop)]
pub enum Read {
    Have(Value),
    /// This function is to be called with the receiver.
    Getter(ObjId),
    /// This namespace object reads a binding of its module.
    Binding(ObjId),
    /// The value is undefined or null: a TypeError.
    NoObject,
    /// The run leaves the profile at the exit of this number.
    Leaves(u8),
}

/// What a write, a definition or a deletion answers.
#[derive(Clone, Copy, Debug, PartialEq, Eq)]
pub enum Write {
    Done,
    /// This function is to be called with the receiver and the value.
    Setter(ObjId),
    /// The standard's operation answers false.
    Refused,
    /// The value is no length for an array: a RangeError.
    OutOfRange,
    /// The value, an object, becomes an array's length: it is to be converted to a number twice, and then `write_length` goes on.
    Convert,
    /// The object is a namespace object, whose names are bindings of its module: the answer of a deletion alone, which is refused
    /// where the module exports the name, and done where it doesn't (9.4.6.10).
    Binding,
    /// The run leaves the profile at the exit of this number.
    Leaves(u8),
}

/// What a read finds in a property.
fn read_property(property: Option<&Prop>) -> Result<Read, AllocError>
    ensures { IfOk result (λ read. read ≡ read_property (option_copied property.entry)) }
{
    match property {
        None | Some(Prop::Accessor { get: None, .. }) => Ok(Read::Have(Value::Undefined)),
        Some(Prop::Plain { value, .. }) => Ok(Read::Have(value.share()?)),
        Some(
            Prop::Accessor {
                get: Some(getter),
                ..
            },
        ) => Ok(Read::Getter(*getter)),
    }
}

/// [[Get]] of an object (9.1.8).
pub fn read_object(edition: Edition, heap: &Heap, id: ObjId, key: &Key) -> Result<Read, AllocError>
    ensures { IfOk result (λ read. read ≡ read_object edition heap.now id key.now) }
{
    match look_up(edition, heap, id, key) {
        Look::Found(holder) => read_property(heap.get_own(holder, key)),
        Look::Missing => Ok(Read::Have(Value::Undefined)),
        Look::Binding => Ok(Read::Binding(id)),
        Look::Leaves(exit) => Ok(Read::Leaves(exit)),
    }
}

/// A unit of a text, as a text.
fn unit_at(alloc: Global, units: &[u16], index: Option<u32>) -> Result<Option<Value>, AllocError>
    ensures { IfOk result (λ value. value ≡ unit_at units.now index) }
{
    let Some(index) = index else {
        return Ok(None);
    };
    match units.get(index as usize) {
        None => Ok(None),
        Some(unit) => Ok(Some(Value::Text(Str::of(alloc, &[*unit])?))),
    }
}

/// A text's own property: its length or a unit (9.4.3.4).
pub fn own_of_text(alloc: Global, units: &[u16], key: &Key) -> Result<Option<Value>, AllocError>
    ensures { IfOk result (λ value. value ≡ own_of_text units.now key.now) }
{
    if is_named(key, b"length") {
        Ok(Some(Value::Number(units.len() as i64)))
    } else {
        unit_at(alloc, units, array_index(key))
    }
}

/// A read of a property of a value (6.2.3.1).
pub fn read_value(
    alloc: Global,
    edition: Edition,
    heap: &Heap,
    value: &Value,
    key: &Key,
) -> Result<Read, AllocError>
    ensures { IfOk result (λ read. read ≡ read_value edition heap.now value.now key.now) }
{
    match value {
        Value::Undefined | Value::Null => Ok(Read::NoObject),
        Value::Bool(_) => read_object(edition, heap, BOOLEAN_PROTOTYPE, key),
        Value::Number(_) => read_object(edition, heap, NUMBER_PROTOTYPE, key),
        Value::Text(text) => match own_of_text(alloc, text.units(), key)? {
            Some(own) => Ok(Read::Have(own)),
            None => read_object(edition, heap, STRING_PROTOTYPE, key),
        },
        Value::Object(id) => read_object(edition, heap, *id, key),
    }
}

fn write_answer(answer: PutAnswer) -> Write
    ensures { result ≡ write_answer answer }
{
    match answer {
        PutAnswer::Done => Write::Done,
        PutAnswer::Setter(setter) => Write::Setter(setter),
        PutAnswer::Refused => Write::Refused,
        PutAnswer::OutOfRange => Write::OutOfRange,
    }
}

fn put_own(
    alloc: Global,
    heap: &mut Heap,
    id: ObjId,
    key: Key,
    value: Value,
) -> Result<Write, AllocError>
    ensures { IfOk result (λ answer. (answer ≡ (put_own heap.old id key value).answer) × (heap.new ≡ (put_own heap.old id key value).after)) }
{
    Ok(write_answer(put(alloc, heap, id, key, value, Some(id))?))
}

fn put_length(
    alloc: Global,
    heap: &mut Heap,
    id: ObjId,
    key: Key,
    value: Value,
) -> Result<Write, AllocError>
    ensures { IfOk result (λ answer. (answer ≡ (put_length heap.old id key value).answer) × (heap.new ≡ (put_length heap.old id key value).after)) }
{
    if let Value::Object(_) = value {
        return Ok(Write::Convert);
    }
    match to_number(&value) {
        Ok(number) => put_own(alloc, heap, id, key, Value::Number(number)),
        Err(exit) => Ok(Write::Leaves(exit.number())),
    }
}

fn is_writable(property: Option<&Prop>) -> bool
    ensures { result ≡ writable_in (option_copied property.entry) }
{
    matches!(property, Some(Prop::Plain { writable: true, .. }))
}

fn is_array(class: &Class) -> bool
    ensures { result ≡ is_array class.now }
{
    matches!(class, Class::Array)
}

fn put_value(
    alloc: Global,
    heap: &mut Heap,
    id: ObjId,
    key: Key,
    value: Value,
) -> Result<Write, AllocError>
    ensures { IfOk result (λ answer. (answer ≡ (put_value heap.old id key value).answer) × (heap.new ≡ (put_value heap.old id key value).after)) }
{
    if !is_array(heap.class(id)) || !is_named(&key, b"length") {
        return put_own(alloc, heap, id, key, value);
    }
    if is_writable(heap.get_own(id, &key)) {
        put_length(alloc, heap, id, key, value)
    } else {
        Ok(Write::Refused)
    }
}

/// A write to an object of the library, of this property.
fn write_library(property: Option<&Prop>) -> Write
    ensures { result ≡ write_library (option_copied property.entry) }
{
    match property {
        None | Some(Prop::Plain { writable: true, .. }) => Write::Leaves(7),
        Some(
            Prop::Accessor {
                set: Some(setter),
                ..
            },
        ) => Write::Setter(*setter),
        Some(Prop::Plain { .. } | Prop::Accessor { .. }) => Write::Refused,
    }
}

/// [[Set]] of an object that is the receiver too (9.1.9).
pub fn write_object(
    alloc: Global,
    edition: Edition,
    heap: &mut Heap,
    id: ObjId,
    key: Key,
    value: Value,
) -> Result<Write, AllocError>
    ensures { IfOk result (λ answer. (answer ≡ (write_object edition heap.old id key value).answer) × (heap.new ≡ (write_object edition heap.old id key value).after)) }
{
    match look_up(edition, heap, id, &key) {
        Look::Found(holder) if is_builtin(edition, id) => Ok(write_library(heap.get_own(
            holder, &key,
        ))),
        Look::Missing if is_builtin(edition, id) => Ok(Write::Leaves(7)),
        Look::Found(_) | Look::Missing => put_value(alloc, heap, id, key, value),
        Look::Binding => Ok(Write::Refused),
        Look::Leaves(exit) => Ok(Write::Leaves(exit)),
    }
}

/// The length that the two conversions of an object give: the second number, if it is ToUint32 of the first. Else it is a
/// RangeError (9.4.2.4, 3 to 7).
pub fn converted_length(first: i64, second: i64) -> Option<i64>
    ensures { result ≡ converted_length first second }
{
    if i64::from(to_uint32(first)) == second {
        Some(second)
    } else {
        None
    }
}

/// Goes on with a write to an array's length, once its value was converted to a number twice (9.4.2.4). An object that is no array
/// refuses it.
pub fn write_length(heap: &mut Heap, id: ObjId, first: i64, second: i64) -> Write
    ensures answer { result ≡ (write_length heap.old id first second).answer }
    ensures heap { heap.new ≡ (write_length heap.old id first second).after }
{
    let Some(length) = converted_length(first, second) else {
        return Write::OutOfRange;
    };
    match heap.set_length(id, length) {
        Ok(()) => Write::Done,
        Err(HeapFault::BadLength) => Write::OutOfRange,
        Err(
            HeapFault::NotWritable
            | HeapFault::NotConfigurable
            | HeapFault::NotExtensible
            | HeapFault::OutOfMemory,
        ) => Write::Refused,
    }
}

/// A write above a primitive receiver, of this property.
fn write_above(property: Option<&Prop>) -> Write
    ensures { result ≡ write_above (option_copied property.entry) }
{
    match property {
        Some(
            Prop::Accessor {
                set: Some(setter),
                ..
            },
        ) => Write::Setter(*setter),
        None | Some(Prop::Plain { .. } | Prop::Accessor { .. }) => Write::Refused,
    }
}

fn write_from(edition: Edition, heap: &Heap, id: ObjId, key: &Key) -> Write
    ensures { result ≡ write_primitive_looked heap.now key.now (look_up edition heap.now id key.now) }
{
    match look_up(edition, heap, id, key) {
        Look::Found(holder) => write_above(heap.get_own(holder, key)),
        Look::Missing | Look::Binding => Write::Refused,
        Look::Leaves(exit) => Write::Leaves(exit),
    }
}

/// [[Set]] with a primitive as the receiver.
pub fn write_primitive(
    alloc: Global,
    edition: Edition,
    heap: &Heap,
    value: &Value,
    key: &Key,
) -> Result<Write, AllocError>
    ensures { IfOk result (λ answer. answer ≡ write_primitive edition heap.now value.now key.now) }
{
    match value {
        Value::Undefined | Value::Null | Value::Object(_) => Ok(Write::Refused),
        Value::Bool(_) => Ok(write_from(edition, heap, BOOLEAN_PROTOTYPE, key)),
        Value::Number(_) => Ok(write_from(edition, heap, NUMBER_PROTOTYPE, key)),
        Value::Text(text) => match own_of_text(alloc, text.units(), key)? {
            Some(_) => Ok(Write::Refused),
            None => Ok(write_from(edition, heap, STRING_PROTOTYPE, key)),
        },
    }
}

/// Whether a definition or deletion of the key leaves at X4.
fn is_fixed(edition: Edition, heap: &Heap, id: ObjId, key: &Key) -> bool
    ensures { result ≡ is_fixed edition heap.now id key.now }
{
    is_hidden(edition, heap, id, key)
        || match edition {
            Edition::Sixth => is_function(heap.class(id)) && is_named(key, b"length"),
            Edition::Fifth => false,
        }
}

/// The exit at which a definition on an object leaves.
pub fn definition_exit(edition: Edition, heap: &Heap, id: ObjId, key: &Key) -> Option<u8>
    ensures { result ≡ definition_exit edition heap.now id key.now }
{
    if is_reserved_key(edition, key) {
        Some(3)
    } else if is_fixed(edition, heap, id, key) {
        Some(4)
    } else if is_left_out(edition, id, key) {
        Some(7)
    } else {
        None
    }
}

/// [[DefineOwnProperty]] where the descriptor has every field, as literals and classes use it (9.1.6).
pub fn define_key(
    alloc: Global,
    edition: Edition,
    heap: &mut Heap,
    id: ObjId,
    key: Key,
    property: Prop,
) -> Result<Write, AllocError>
    ensures { IfOk result (λ answer. (answer ≡ (define_key edition heap.old id key property).answer) × (heap.new ≡ (define_key edition heap.old id key property).after)) }
{
    if let Some(exit) = definition_exit(edition, heap, id, &key) {
        return Ok(Write::Leaves(exit));
    }
    if is_builtin(edition, id) {
        return Ok(Write::Leaves(7));
    }
    if is_namespace(heap.class(id)) {
        return Ok(Write::Refused);
    }
    Ok(write_answer(define(alloc, heap, id, key, property)?))
}

fn is_inherited_static(heap: &Heap, id: ObjId, key: &Key) -> bool
    ensures { result ≡ is_inherited_static heap.now id key.now }
{
    is_closure(heap.class(id)) && (heap.is_recorded(id, key) || heap.is_recorded_below(id, key))
}

/// The exit at which a deletion on an object leaves that is no namespace object, for a key that isn't reserved.
fn deletion_exit(edition: Edition, heap: &Heap, id: ObjId, key: &Key) -> Option<u8>
    ensures { result ≡ deletion_exit edition heap.now id key.now }
{
    if is_fixed(edition, heap, id, key) {
        Some(4)
    } else if is_inherited_static(heap, id, key) {
        Some(6)
    } else if is_left_out(edition, id, key) {
        Some(7)
    } else {
        None
    }
}

fn delete_in_namespace(key: &Key) -> Write
    ensures { result ≡ delete_in_namespace key.now }
{
    match key {
        Key::Iterator => Write::Leaves(12),
        Key::Text(_) => Write::Binding,
    }
}

/// [[Delete]] (9.1.10).
pub fn delete_key(edition: Edition, heap: &mut Heap, id: ObjId, key: &Key) -> Write
    ensures answer { result ≡ (delete_key edition heap.old id key.now).answer }
    ensures heap { heap.new ≡ (delete_key edition heap.old id key.now).after }
{
    if is_reserved_key(edition, key) {
        return Write::Leaves(3);
    }
    if is_namespace(heap.class(id)) {
        return delete_in_namespace(key);
    }
    match deletion_exit(edition, heap, id, key) {
        Some(exit) => Write::Leaves(exit),
        None => delete_property(edition, heap, id, key),
    }
}

fn delete_property(edition: Edition, heap: &mut Heap, id: ObjId, key: &Key) -> Write
    ensures answer { result ≡ (delete_property edition heap.old id key.now (own (object_at heap.old id) key.now)).answer }
    ensures heap { heap.new ≡ (delete_property edition heap.old id key.now (own (object_at heap.old id) key.now)).after }
{
    match heap.get_own(id, key) {
        None => return Write::Done,
        Some(property) if !property.is_configurable() => return Write::Refused,
        Some(_) => {}
    }
    if is_builtin(edition, id) {
        return Write::Leaves(7);
    }
    match heap.delete_own(id, key) {
        Ok(_) => Write::Done,
        Err(_) => Write::Refused,
    }
}

fn delete_own_of(own: &Option<Value>) -> Write
    ensures { result ≡ delete_own_of own.now }
{
    match own {
        None => Write::Done,
        Some(_) => Write::Refused,
    }
}

fn unless_reserved(edition: Edition, key: &Key, answer: Write) -> Write
    ensures { result ≡ unless_reserved edition key.now answer }
{
    if is_reserved_key(edition, key) {
        Write::Leaves(3)
    } else {
        answer
    }
}

/// `delete` of a property of a value (12.5.4.2): a refusal is a TypeError.
pub fn delete_value(
    alloc: Global,
    edition: Edition,
    heap: &mut Heap,
    value: &Value,
    key: &Key,
) -> Result<Write, AllocError>
    ensures { IfOk result (λ answer. (answer ≡ (delete_value edition heap.old value.now key.now).answer) × (heap.new ≡ (delete_value edition heap.old value.now key.now).after)) }
{
    match value {
        Value::Undefined | Value::Null => Ok(Write::Refused),
        Value::Bool(_) | Value::Number(_) => Ok(unless_reserved(edition, key, Write::Done)),
        Value::Text(text) => {
            let own = own_of_text(alloc, text.units(), key)?;
            Ok(unless_reserved(edition, key, delete_own_of(&own)))
        }
        Value::Object(id) => Ok(delete_key(edition, heap, *id, key)),
    }
}
