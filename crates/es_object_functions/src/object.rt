//! The functions of Object and Object.prototype (19.1), and those of Number.prototype and Boolean.prototype (20.1.3 and 19.3.3).
ghost use Rattle.std.specs.Prelude.{◌≡◌, IfOk};
ghost use Rattle.es_value.specs.declared.value.Value.TheVariants.{Text as TextValue};
ghost use Rattle.es_calls.specs.declared.call.Want.TheVariants.{Done as WantDone};
ghost use Rattle.es_heap.specs.Heaps.{object_at};
ghost use Rattle.es_heap.specs.declared.key.Key.TheVariants.{Text as TextKey};
ghost use Rattle.es_realm.specs.Look.{is_namespace};
ghost use Rattle.es_calls.specs.Calls.{text_in};
ghost use Rattle.es_object_functions.specs.Objects.{value_of, is_or_below, is_tagged, object_text, to_string, own_found, has_own_key, has_own_property, create_from, create, is_decimal, decimal_text, prototype_text, number_text, truth_text};
ghost use Rattle.es_calls.specs.Properties.{class_text};

use es_access::is_above;
use es_calls::{BuiltinCall, ErrorKind, Place, Turned, Want, class_text, is_undefined, text_in};
use es_heap::{Class, Heap, Key};
use es_realm::names::{
    ARRAY_ITERATOR_PROTOTYPE, BOOLEAN_PROTOTYPE, GENERATOR_FUNCTION_PROTOTYPE, GENERATOR_PROTOTYPE,
    NUMBER_PROTOTYPE, STRING_ITERATOR_PROTOTYPE,
};
use es_realm::{Edition, Look, is_reserved_key, look_own, own_of_text};
use es_value::{ObjId, Str, Value, to_text};
use std::alloc::{AllocError, Global};

/// Object.prototype.valueOf (19.1.3.7).
pub fn value_of(receiver: &Value) -> Want
    ensures { result ≡ value_of receiver.now }
{
    match receiver {
        Value::Undefined | Value::Null => Want::Throws(ErrorKind::TypeError),
        Value::Object(id) => Want::Done(Value::Object(*id)),
        Value::Bool(_) | Value::Number(_) | Value::Text(_) => Want::Leaves(9),
    }
}

fn is_or_below(heap: &Heap, id: ObjId, up: ObjId) -> bool
    ensures { result ≡ is_or_below heap.now id up }
{
    id.0 == up.0 || is_above(heap, id, up)
}

fn is_namespace_object(heap: &Heap, id: ObjId) -> bool
    ensures { result ≡ is_namespace (object_at heap.now id).class }
{
    matches!(heap.class(id), Class::Namespace(_))
}

/// Whether the object's tag is another in the 6th edition than a class of the 5.1 edition.
fn is_tagged(heap: &Heap, id: ObjId) -> bool
    ensures { result ≡ is_tagged heap.now id }
{
    is_namespace_object(heap, id)
        || is_or_below(heap, id, GENERATOR_FUNCTION_PROTOTYPE)
        || is_or_below(heap, id, GENERATOR_PROTOTYPE)
        || is_or_below(heap, id, ARRAY_ITERATOR_PROTOTYPE)
        || is_or_below(heap, id, STRING_ITERATOR_PROTOTYPE)
        || id.0 == 3
        || ((6 <= id.0) & (id.0 <= 9))
}

/// The call ends with the text of these ASCII characters.
fn done_text(alloc: Global, word: &[u8]) -> Turned
    ensures { IfOk result (λ want. want ≡ WantDone (TextValue word.now)) }
{
    Ok(Want::Done(Value::Text(Str::of_bytes(alloc, word)?)))
}

fn object_text(alloc: Global, edition: Edition, heap: &Heap, id: ObjId) -> Turned
    ensures { IfOk result (λ want. want ≡ object_text edition heap.now id) }
{
    match edition {
        Edition::Sixth if is_tagged(heap, id) => Ok(Want::Leaves(9)),
        Edition::Sixth | Edition::Fifth => done_text(alloc, class_text(heap.class(id))),
    }
}

/// Object.prototype.toString (19.1.3.6).
pub fn to_string(alloc: Global, edition: Edition, heap: &Heap, receiver: &Value) -> Turned
    ensures { IfOk result (λ want. want ≡ to_string edition heap.now receiver.now) }
{
    match receiver {
        Value::Undefined => done_text(alloc, b"[object Undefined]"),
        Value::Null => done_text(alloc, b"[object Null]"),
        Value::Bool(_) => done_text(alloc, b"[object Boolean]"),
        Value::Number(_) => done_text(alloc, b"[object Number]"),
        Value::Text(_) => done_text(alloc, b"[object String]"),
        Value::Object(id) => object_text(alloc, edition, heap, *id),
    }
}

fn own_found(heap: &Heap, id: ObjId, key: &Key, found: Look) -> Want
    ensures { result ≡ own_found heap.now id key.now found }
{
    match found {
        Look::Found(_) => Want::Done(Value::Bool(true)),
        Look::Missing if heap.is_recorded(id, key) => Want::Leaves(6),
        Look::Missing => Want::Done(Value::Bool(false)),
        Look::Binding => Want::Leaves(12),
        Look::Leaves(exit) => Want::Leaves(exit),
    }
}

/// Whether a value itself has a key.
fn has_own_key(alloc: Global, edition: Edition, heap: &Heap, receiver: &Value, key: &Key) -> Turned
    ensures { IfOk result (λ want. want ≡ has_own_key edition heap.now receiver.now key.now) }
{
    match receiver {
        Value::Undefined | Value::Null => Ok(Want::Throws(ErrorKind::TypeError)),
        Value::Object(id) => Ok(own_found(heap, *id, key, look_own(edition, heap, *id, key))),
        Value::Text(_) | Value::Bool(_) | Value::Number(_) if is_reserved_key(edition, key) => Ok(
            Want::Leaves(3),
        ),
        Value::Text(text) => {
            let own = own_of_text(alloc, text.units(), key)?;
            Ok(Want::Done(Value::Bool(own.is_some())))
        }
        Value::Bool(_) | Value::Number(_) => Ok(Want::Done(Value::Bool(false))),
    }
}

/// The key of what was converted to a text.
fn input_key(call: &BuiltinCall, alloc: Global) -> Result<Key, AllocError>
    ensures { IfOk result (λ key. key ≡ TextKey (text_in call.now.input)) }
{
    Ok(Key::Text(Str::of(alloc, text_in(&call.input))?))
}

/// hasOwnProperty (19.1.3.2).
pub fn has_own_property(
    call: &mut BuiltinCall,
    alloc: Global,
    edition: Edition,
    heap: &Heap,
) -> Turned
    ensures { IfOk result (λ want. (want ≡ (has_own_property edition heap.now call.old call.old.place).want) × (call.new ≡ (has_own_property edition heap.now call.old call.old.place).call)) }
{
    match call.place {
        Place::Begin => {
            call.place = Place::Position;
            Ok(Want::Text(call.arg(0)?))
        }
        _ => {
            let key = input_key(call, alloc)?;
            has_own_key(alloc, edition, heap, &call.this_value, &key)
        }
    }
}

fn create_from(alloc: Global, heap: &mut Heap, proto: &Value) -> Turned
    ensures { IfOk result (λ want. (want ≡ (create_from heap.old proto.now).want) × (heap.new ≡ (create_from heap.old proto.now).heap)) }
{
    let proto = match proto {
        Value::Null => None,
        Value::Object(id) if is_namespace_object(heap, *id) => return Ok(Want::Leaves(12)),
        Value::Object(id) => Some(*id),
        _ => return Ok(Want::Throws(ErrorKind::TypeError)),
    };
    Ok(Want::Done(Value::Object(heap.make(alloc, proto, Class::Object)?)))
}

/// Object.create (19.1.2.2).
pub fn create(call: &BuiltinCall, alloc: Global, heap: &mut Heap) -> Turned
    ensures { IfOk result (λ want. (want ≡ (create heap.old call.now).want) × (heap.new ≡ (create heap.old call.now).heap)) }
{
    if !is_undefined(&call.arg(1)?) {
        return Ok(Want::Leaves(7));
    }
    create_from(alloc, heap, &call.arg(0)?)
}

fn is_decimal(radix: &Value) -> bool
    ensures { result ≡ is_decimal radix.now }
{
    match radix {
        Value::Undefined => true,
        Value::Number(number) => *number == 10,
        _ => false,
    }
}

fn decimal_text(radix: &Value, text: Str) -> Want
    ensures { result ≡ decimal_text radix.now text }
{
    if is_decimal(radix) {
        Want::Done(Value::Text(text))
    } else {
        Want::Leaves(7)
    }
}

fn prototype_text(alloc: Global, edition: Edition, radix: &Value, word: &[u8]) -> Turned
    ensures { IfOk result (λ want. want ≡ prototype_text edition radix.now word.now) }
{
    match edition {
        Edition::Fifth => Ok(decimal_text(radix, Str::of_bytes(alloc, word)?)),
        Edition::Sixth => Ok(Want::Throws(ErrorKind::TypeError)),
    }
}

/// Number.prototype.toString (20.1.3.6).
pub fn number_text(alloc: Global, edition: Edition, receiver: &Value, radix: &Value) -> Turned
    ensures { IfOk result (λ want. want ≡ number_text edition receiver.now radix.now) }
{
    match receiver {
        Value::Number(_) => Ok(decimal_text(radix, to_text(alloc, receiver)?)),
        Value::Object(id) if id.0 == NUMBER_PROTOTYPE.0 => {
            prototype_text(alloc, edition, radix, b"0")
        }
        _ => Ok(Want::Throws(ErrorKind::TypeError)),
    }
}

/// Boolean.prototype.toString (19.3.3.2).
pub fn truth_text(alloc: Global, edition: Edition, receiver: &Value, radix: &Value) -> Turned
    ensures { IfOk result (λ want. want ≡ truth_text edition receiver.now radix.now) }
{
    match receiver {
        Value::Bool(_) => Ok(decimal_text(radix, to_text(alloc, receiver)?)),
        Value::Object(id) if id.0 == BOOLEAN_PROTOTYPE.0 => {
            prototype_text(alloc, edition, radix, b"false")
        }
        _ => Ok(Want::Throws(ErrorKind::TypeError)),
    }
}
