//! The functions of Object that the realm of the 5.1 edition has besides (5.1 edition, 15.2.3.2 to 15.2.3.10).
ghost use Rattle.std.specs.Prelude.{◌≡◌, ◌<◌, IfOk};
ghost use Rattle.es_value.specs.declared.value.Value.TheVariants.{Object as ObjectValue};
ghost use Rattle.es_heap.specs.Objects.{own};
ghost use Rattle.es_heap.specs.Heaps.{object_at, next_id};
ghost use Rattle.es_heap.specs.Classes.{is_array};
ghost use Rattle.es_calls.specs.declared.call.Want.TheVariants.{Done as WantDone};
ghost use Rattle.es_object_functions.specs.Fifth.{object_or_null, get_prototype_of, prevent_extensions, function_or_undefined, three_properties, descriptor, described_own, wants_key, get_descriptor, field_name, with_field, field_if_there, field_read, field_at, fields_of, has_accessor_field, has_plain_field, truth_or, value_or, function_in, function_or, old_value, old_writable, old_get, old_set, old_configurable, is_accessor, completed, is_open_function, adds_includes, define_allowed, define_fields, kept_key, sets_length, given_value, define_end, define_turn, define_length, define_receiver, define_property};

use es_calls::{
    BuiltinCall, ErrorKind, Place, Turned, Want, add_property, is_undefined, number_in, object_in,
    plus, text_in,
};
use es_heap::{Class, Heap, HeapFault, Key, Prop};
use es_operators::{is_callable, is_object, key_of_word, truth_of};
use es_realm::names::{ARRAY_PROTOTYPE, OBJECT_PROTOTYPE};
use es_realm::{
    Edition, Look, converted_length, definition_exit, is_builtin, is_named, look_own, look_up,
};
use es_value::{ObjId, Str, Value};
use std::alloc::{AllocError, Global};

fn object_or_null(object: Option<ObjId>) -> Value
    ensures { result ≡ object_or_null object }
{
    match object {
        None => Value::Null,
        Some(id) => Value::Object(id),
    }
}

/// getPrototypeOf (15.2.3.2).
pub fn get_prototype_of(heap: &Heap, value: &Value) -> Want
    ensures { result ≡ get_prototype_of heap.now value.now }
{
    match value {
        Value::Object(id) => Want::Done(object_or_null(heap.proto(*id))),
        _ => Want::Throws(ErrorKind::TypeError),
    }
}

/// preventExtensions (15.2.3.10).
pub fn prevent_extensions(heap: &mut Heap, value: &Value) -> Want
    ensures want { result ≡ (prevent_extensions heap.old value.now).want }
    ensures heap { heap.new ≡ (prevent_extensions heap.old value.now).heap }
{
    let Value::Object(id) = value else {
        return Want::Throws(ErrorKind::TypeError);
    };
    if is_builtin(Edition::Fifth, *id) {
        return Want::Leaves(7);
    }
    heap.prevent_extensions(*id);
    Want::Done(Value::Object(*id))
}

fn function_or_undefined(function: Option<ObjId>) -> Value
    ensures { result ≡ function_or_undefined function }
{
    match function {
        None => Value::Undefined,
        Some(id) => Value::Object(id),
    }
}

/// A descriptor with two properties and whether it is configurable (8.10.4).
fn three_properties(
    alloc: Global,
    heap: &mut Heap,
    name: &[u8],
    value: Value,
    second_name: &[u8],
    second_value: Value,
    configurable: bool,
) -> Turned
    ensures { IfOk result (λ want. (want ≡ WantDone (ObjectValue (next_id heap.old))) × (heap.new ≡ three_properties heap.old name.now value second_name.now second_value configurable)) }
{
    let id = heap.make(alloc, Some(OBJECT_PROTOTYPE), Class::Object)?;
    add_property(alloc, heap, id, name, value)?;
    add_property(alloc, heap, id, second_name, second_value)?;
    add_property(alloc, heap, id, b"configurable", Value::Bool(configurable))?;
    Ok(Want::Done(Value::Object(id)))
}

/// What a descriptor of a property tells, read before the heap changes.
fn copy_of(property: &Prop) -> Result<Prop, AllocError>
    ensures { IfOk result (λ copy. copy ≡ property.now) }
{
    match property {
        Prop::Plain {
            value,
            writable,
            configurable,
        } => Ok(Prop::Plain {
            value: value.share()?,
            writable: *writable,
            configurable: *configurable,
        }),
        Prop::Accessor {
            get,
            set,
            configurable,
        } => Ok(Prop::Accessor {
            get: *get,
            set: *set,
            configurable: *configurable,
        }),
    }
}

fn own_copy(heap: &Heap, id: ObjId, key: &Key) -> Result<Option<Prop>, AllocError>
    ensures { IfOk result (λ copy. copy ≡ own (object_at heap.now id) key.now) }
{
    match heap.get_own(id, key) {
        None => Ok(None),
        Some(property) => Ok(Some(copy_of(property)?)),
    }
}

/// FromPropertyDescriptor (8.10.4).
fn descriptor(alloc: Global, heap: &mut Heap, property: Option<Prop>) -> Turned
    ensures { IfOk result (λ want. (want ≡ (descriptor heap.old property).want) × (heap.new ≡ (descriptor heap.old property).heap)) }
{
    match property {
        None => Ok(Want::Done(Value::Undefined)),
        Some(
            Prop::Plain {
                value,
                writable,
                configurable,
            },
        ) => three_properties(
            alloc,
            heap,
            b"value",
            value,
            b"writable",
            Value::Bool(writable),
            configurable,
        ),
        Some(
            Prop::Accessor {
                get,
                set,
                configurable,
            },
        ) => three_properties(
            alloc,
            heap,
            b"get",
            function_or_undefined(get),
            b"set",
            function_or_undefined(set),
            configurable,
        ),
    }
}

fn described_own(alloc: Global, heap: &mut Heap, key: &Key, found: Look) -> Turned
    ensures { IfOk result (λ want. (want ≡ (described_own heap.old key.now found).want) × (heap.new ≡ (described_own heap.old key.now found).heap)) }
{
    match found {
        Look::Found(id) => {
            let property = own_copy(heap, id, key)?;
            descriptor(alloc, heap, property)
        }
        Look::Missing | Look::Binding => Ok(Want::Done(Value::Undefined)),
        Look::Leaves(exit) => Ok(Want::Leaves(exit)),
    }
}

/// Wants the text of a key, if the first argument is an object.
fn wants_key(call: &mut BuiltinCall, place: Place) -> Turned
    ensures { IfOk result (λ want. (want ≡ (wants_key call.old place).want) × (call.new ≡ (wants_key call.old place).call)) }
{
    if !is_object(&call.arg(0)?) {
        return Ok(Want::Throws(ErrorKind::TypeError));
    }
    call.place = place;
    Ok(Want::Text(call.arg(1)?))
}

/// getOwnPropertyDescriptor (15.2.3.3).
pub fn get_descriptor(call: &mut BuiltinCall, alloc: Global, heap: &mut Heap) -> Turned
    ensures { IfOk result (λ want. (want ≡ (get_descriptor heap.old call.old call.old.place).want) × (call.new ≡ (get_descriptor heap.old call.old call.old.place).call) × (heap.new ≡ (get_descriptor heap.old call.old call.old.place).heap)) }
{
    match call.place {
        Place::Begin => wants_key(call, Place::Position),
        _ => {
            let key = Key::Text(Str::of(alloc, text_in(&call.input))?);
            let id = object_in(&call.arg(0)?);
            let found = look_own(Edition::Fifth, heap, id, &key);
            described_own(alloc, heap, &key, found)
        }
    }
}

/// The name of a descriptor's field, in the order in which they are read (8.10.5).
fn field_name(index: i64) -> &'static [u8]
    ensures { result.now ≡ field_name index }
{
    if index == 0 {
        b"enumerable"
    } else if index == 1 {
        b"configurable"
    } else if index == 2 {
        b"value"
    } else if index == 3 {
        b"writable"
    } else if index == 4 {
        b"get"
    } else {
        b"set"
    }
}

fn with_field(call: &mut BuiltinCall, there: bool, value: Value) -> Turned
    ensures { IfOk result (λ want. (want ≡ (with_field call.old there value).want) × (call.new ≡ (with_field call.old there value).call)) }
{
    call.list.push(Value::Bool(there))?;
    call.list.push(value)?;
    call.index = plus(call.index, 1);
    call.place = Place::Turn;
    Ok(Want::Again)
}

fn field_if_there(call: &mut BuiltinCall, alloc: Global, found: Look) -> Turned
    ensures { IfOk result (λ want. (want ≡ (field_if_there call.old found).want) × (call.new ≡ (field_if_there call.old found).call)) }
{
    match found {
        Look::Found(_) => {
            call.place = Place::Element;
            Ok(Want::Get(call.arg(2)?, key_of_word(alloc, field_name(call.index))?))
        }
        Look::Missing | Look::Binding => with_field(call, false, Value::Undefined),
        Look::Leaves(exit) => Ok(Want::Leaves(exit)),
    }
}

/// A getter or setter is a function or undefined.
fn field_read(call: &mut BuiltinCall, heap: &Heap) -> Turned
    ensures { IfOk result (λ want. (want ≡ (field_read heap.now call.old).want) × (call.new ≡ (field_read heap.now call.old).call)) }
{
    if 4 <= call.index && !is_undefined(&call.input) && !is_callable(heap, &call.input) {
        return Ok(Want::Throws(ErrorKind::TypeError));
    }
    let value = call.input.share()?;
    with_field(call, true, value)
}

/// The fields of a descriptor that were there.
#[derive(Debug, Drop)]
pub(crate) struct Fields {
    configurable: Option<Value>,
    value: Option<Value>,
    writable: Option<Value>,
    get: Option<Value>,
    set: Option<Value>,
}

fn field_at(list: &[Value], place: usize) -> Result<Option<Value>, AllocError>
    requires { place < 6 }
    ensures { IfOk result (λ field. field ≡ field_at list.now place) }
{
    match list.get(2 * place) {
        Some(Value::Bool(true)) => match list.get(2 * place + 1) {
            None => Ok(None),
            Some(value) => Ok(Some(value.share()?)),
        },
        _ => Ok(None),
    }
}

fn fields_of(list: &[Value]) -> Result<Fields, AllocError>
    ensures { IfOk result (λ fields. fields ≡ fields_of list.now) }
{
    Ok(Fields {
        configurable: field_at(list, 1)?,
        value: field_at(list, 2)?,
        writable: field_at(list, 3)?,
        get: field_at(list, 4)?,
        set: field_at(list, 5)?,
    })
}

fn has_accessor_field(fields: &Fields) -> bool
    ensures { result ≡ has_accessor_field fields.now }
{
    fields.get.is_some() || fields.set.is_some()
}

fn has_plain_field(fields: &Fields) -> bool
    ensures { result ≡ has_plain_field fields.now }
{
    fields.value.is_some() || fields.writable.is_some()
}

fn truth_or(field: &Option<Value>, old: bool) -> bool
    ensures { result ≡ truth_or field.now old }
{
    match field {
        None => old,
        Some(value) => truth_of(value),
    }
}

fn value_or(field: Option<Value>, old: Value) -> Value
    ensures { result ≡ value_or field old }
{
    match field {
        None => old,
        Some(value) => value,
    }
}

fn function_in(value: &Value) -> Option<ObjId>
    ensures { result ≡ function_in value.now }
{
    match value {
        Value::Object(id) => Some(*id),
        _ => None,
    }
}

fn function_or(field: &Option<Value>, old: Option<ObjId>) -> Option<ObjId>
    ensures { result ≡ function_or field.now old }
{
    match field {
        None => old,
        Some(value) => function_in(value),
    }
}

fn old_configurable(old: &Option<Prop>) -> bool
    ensures { result ≡ old_configurable old.now }
{
    match old {
        None => false,
        Some(Prop::Plain { configurable, .. } | Prop::Accessor { configurable, .. }) =>
            *configurable,
    }
}

fn old_writable(old: &Option<Prop>) -> bool
    ensures { result ≡ old_writable old.now }
{
    match old {
        Some(Prop::Plain { writable, .. }) => *writable,
        _ => false,
    }
}

fn old_value(old: Option<Prop>) -> Value
    ensures { result ≡ old_value old }
{
    match old {
        Some(Prop::Plain { value, .. }) => value,
        _ => Value::Undefined,
    }
}

fn old_get(old: &Option<Prop>) -> Option<ObjId>
    ensures { result ≡ old_get old.now }
{
    match old {
        Some(Prop::Accessor { get, .. }) => *get,
        _ => None,
    }
}

fn old_set(old: &Option<Prop>) -> Option<ObjId>
    ensures { result ≡ old_set old.now }
{
    match old {
        Some(Prop::Accessor { set, .. }) => *set,
        _ => None,
    }
}

fn is_accessor(old: &Option<Prop>) -> bool
    ensures { result ≡ is_accessor old.now }
{
    matches!(old, Some(Prop::Accessor { .. }))
}

/// A descriptor with every field (8.12.9).
fn completed(old: Option<Prop>, fields: Fields) -> Prop
    ensures { result ≡ completed old fields }
{
    let configurable = truth_or(&fields.configurable, old_configurable(&old));
    if has_accessor_field(&fields) || (is_accessor(&old) && !has_plain_field(&fields)) {
        return Prop::Accessor {
            get: function_or(&fields.get, old_get(&old)),
            set: function_or(&fields.set, old_set(&old)),
            configurable,
        };
    }
    let writable = truth_or(&fields.writable, old_writable(&old));
    Prop::Plain {
        value: value_or(fields.value, old_value(old)),
        writable,
        configurable,
    }
}

/// Whether it is a writable and configurable function.
fn is_open_function(heap: &Heap, property: &Prop) -> bool
    ensures { result ≡ is_open_function heap.now property.now }
{
    match property {
        Prop::Plain {
            value,
            writable,
            configurable,
        } => *writable && *configurable && is_callable(heap, value),
        Prop::Accessor { .. } => false,
    }
}

/// Whether it gives Array.prototype the function `includes`, which it lacks.
fn adds_includes(heap: &Heap, id: ObjId, key: &Key, property: &Prop) -> bool
    ensures { result ≡ adds_includes heap.now id key.now property.now }
{
    id.0 == ARRAY_PROTOTYPE.0
        && is_named(key, b"includes")
        && heap.get_own(id, key).is_none()
        && is_open_function(heap, property)
}

fn define_allowed(alloc: Global, heap: &mut Heap, id: ObjId, key: Key, property: Prop) -> Turned
    ensures { IfOk result (λ want. (want ≡ (define_allowed heap.old id key property).want) × (heap.new ≡ (define_allowed heap.old id key property).heap)) }
{
    match heap.define_own(alloc, id, key, property) {
        Ok(()) => Ok(Want::Done(Value::Object(id))),
        Err(HeapFault::BadLength) => Ok(Want::Throws(ErrorKind::RangeError)),
        Err(HeapFault::OutOfMemory) => Err(AllocError),
        Err(HeapFault::NotWritable | HeapFault::NotConfigurable | HeapFault::NotExtensible) => Ok(
            Want::Throws(ErrorKind::TypeError),
        ),
    }
}

fn define_fields(alloc: Global, heap: &mut Heap, id: ObjId, key: Key, fields: Fields) -> Turned
    ensures { IfOk result (λ want. (want ≡ (define_fields heap.old id key fields).want) × (heap.new ≡ (define_fields heap.old id key fields).heap)) }
{
    if let Some(exit) = definition_exit(Edition::Fifth, heap, id, &key) {
        return Ok(Want::Leaves(exit));
    }
    let property = completed(own_copy(heap, id, &key)?, fields);
    if is_builtin(Edition::Fifth, id) && !adds_includes(heap, id, &key, &property) {
        return Ok(Want::Leaves(7));
    }
    define_allowed(alloc, heap, id, key, property)
}

fn kept_key(call: &BuiltinCall, alloc: Global) -> Result<Key, AllocError>
    ensures { IfOk result (λ key. key ≡ kept_key call.now) }
{
    Ok(Key::Text(Str::of(alloc, text_in(&call.kept))?))
}

fn is_array(class: &Class) -> bool
    ensures { result ≡ is_array class.now }
{
    matches!(class, Class::Array)
}

/// Whether a value is defined for an array's length (15.4.5.1).
fn sets_length(call: &BuiltinCall, alloc: Global, heap: &Heap) -> Result<bool, AllocError>
    ensures { IfOk result (λ answer. answer ≡ sets_length heap.now call.now) }
{
    let id = object_in(&call.arg(0)?);
    let key = kept_key(call, alloc)?;
    let fields = fields_of(call.list.as_slice())?;
    Ok(is_array(heap.class(id)) && is_named(&key, b"length") && fields.value.is_some())
}

fn given_value(call: &BuiltinCall) -> Result<Value, AllocError>
    ensures { IfOk result (λ value. value ≡ given_value call.now) }
{
    let fields = fields_of(call.list.as_slice())?;
    Ok(value_or(fields.value, Value::Undefined))
}

fn define_end(call: &mut BuiltinCall, alloc: Global, heap: &mut Heap) -> Turned
    ensures { IfOk result (λ want. (want ≡ (define_end heap.old call.old).want) × (call.new ≡ (define_end heap.old call.old).call) × (heap.new ≡ (define_end heap.old call.old).heap)) }
{
    let fields = fields_of(call.list.as_slice())?;
    if has_accessor_field(&fields) && has_plain_field(&fields) {
        return Ok(Want::Throws(ErrorKind::TypeError));
    }
    if sets_length(call, alloc, heap)? {
        call.place = Place::Search;
        return Ok(Want::Number(given_value(call)?));
    }
    let id = object_in(&call.arg(0)?);
    let key = kept_key(call, alloc)?;
    define_fields(alloc, heap, id, key, fields)
}

fn define_turn(call: &mut BuiltinCall, alloc: Global, heap: &mut Heap) -> Turned
    ensures { IfOk result (λ want. (want ≡ (define_turn heap.old call.old).want) × (call.new ≡ (define_turn heap.old call.old).call) × (heap.new ≡ (define_turn heap.old call.old).heap)) }
{
    if call.index >= 6 {
        return define_end(call, alloc, heap);
    }
    let key = key_of_word(alloc, field_name(call.index))?;
    let id = object_in(&call.arg(2)?);
    let found = look_up(Edition::Fifth, heap, id, &key);
    field_if_there(call, alloc, found)
}

/// Goes on once the value for an array's length was converted twice.
fn define_length(call: &BuiltinCall, alloc: Global, heap: &mut Heap) -> Turned
    ensures { IfOk result (λ want. (want ≡ (define_length heap.old call.now).want) × (heap.new ≡ (define_length heap.old call.now).heap)) }
{
    let Some(length) = converted_length(call.length, number_in(&call.input)) else {
        return Ok(Want::Throws(ErrorKind::RangeError));
    };
    let mut fields = fields_of(call.list.as_slice())?;
    fields.value = Some(Value::Number(length));
    let id = object_in(&call.arg(0)?);
    let key = kept_key(call, alloc)?;
    define_fields(alloc, heap, id, key, fields)
}

fn define_receiver(call: &mut BuiltinCall) -> Turned
    ensures { IfOk result (λ want. (want ≡ (define_receiver call.old).want) × (call.new ≡ (define_receiver call.old).call)) }
{
    if !is_object(&call.arg(2)?) {
        return Ok(Want::Throws(ErrorKind::TypeError));
    }
    call.kept = call.input.share()?;
    call.place = Place::Turn;
    Ok(Want::Again)
}

/// defineProperty (15.2.3.6).
pub fn define_property(call: &mut BuiltinCall, alloc: Global, heap: &mut Heap) -> Turned
    ensures { IfOk result (λ want. (want ≡ (define_property heap.old call.old call.old.place).want) × (call.new ≡ (define_property heap.old call.old call.old.place).call) × (heap.new ≡ (define_property heap.old call.old call.old.place).heap)) }
{
    match call.place {
        Place::Begin => wants_key(call, Place::Receiver),
        Place::Receiver => define_receiver(call),
        Place::Turn => define_turn(call, alloc, heap),
        Place::Element => field_read(call, heap),
        Place::Search => {
            let value = given_value(call)?;
            call.length = number_in(&call.input);
            call.place = Place::Piece;
            Ok(Want::Number(value))
        }
        _ => define_length(call, alloc, heap),
    }
}
