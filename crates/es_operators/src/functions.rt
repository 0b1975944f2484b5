//! Which functions can be constructed and inherited from, and the walk of `instanceof`.
ghost use Rattle.std.specs.Prelude.{◌≡◌, IfOk};
ghost use Rattle.es_realm.specs.Look.{is_method};
ghost use Rattle.es_operators.specs.Functions.{is_generator_function, is_no_constructor, constructor_of, prototype_for, heritage_of, not_callable, instance_of, is_error_kind, is_parent_step, met, met_at, instance_walk};

use crate::conversion::key_of_word;
use crate::primitives::{is_callable, is_object};
use es_access::is_above;
use es_heap::{Class, Heap};
use es_realm::names::{ERROR, FUNCTION_PROTOTYPE, GENERATOR_FUNCTION_PROTOTYPE};
use es_realm::{Edition, is_closure};
use es_value::{ObjId, Value};
use std::alloc::{AllocError, Global};

/// What `new` does with a value, or a class with its heritage.
#[derive(Clone, Copy, Debug, PartialEq, Eq)]
pub enum Constructor {
    /// It is this function of the program.
    Runs(ObjId),
    /// It is the error constructor of this number, whose call makes the object.
    MakesError(u16),
    /// A TypeError.
    Fails,
    /// The run leaves the profile at the exit of this number.
    Leaves(u8),
}

/// What the prototype of a new object is.
#[derive(Clone, Copy, Debug, PartialEq, Eq)]
pub enum Prototype {
    Is(ObjId),
    /// The run leaves the profile at the exit of this number.
    Leaves(u8),
}

/// What a step of `instanceof` gives.
#[derive(Clone, Copy, Debug, PartialEq, Eq)]
pub enum Instance {
    Is(bool),
    /// The `prototype` of this function is to be read; `instance_walk` goes on with an object, and another value is a TypeError.
    ReadPrototype(ObjId),
    /// A TypeError.
    Fails,
    /// The run leaves the profile at the exit of this number.
    Leaves(u8),
}

/// Whether it is an arrow, a method or an accessor: a function of the program without an own `prototype`.
fn is_method(alloc: Global, heap: &Heap, id: ObjId) -> Result<bool, AllocError>
    ensures { IfOk result (λ answer. answer ≡ is_method heap.now id) }
{
    let key = key_of_word(alloc, b"prototype")?;
    Ok(is_closure(heap.class(id)) && heap.get_own(id, &key).is_none())
}

fn is_generator_function(heap: &Heap, id: ObjId) -> bool
    ensures { result ≡ is_generator_function heap.now id }
{
    match heap.proto(id) {
        None => false,
        Some(up) => up.0 == GENERATOR_FUNCTION_PROTOTYPE.0,
    }
}

fn is_no_constructor(
    alloc: Global,
    edition: Edition,
    heap: &Heap,
    id: ObjId,
) -> Result<bool, AllocError>
    ensures { IfOk result (λ answer. answer ≡ is_no_constructor edition heap.now id) }
{
    match edition {
        Edition::Sixth => Ok(is_method(alloc, heap, id)? || is_generator_function(heap, id)),
        Edition::Fifth => Ok(false),
    }
}

/// What `new` does with the value (12.3.3).
pub fn constructor_of(
    alloc: Global,
    edition: Edition,
    heap: &Heap,
    value: &Value,
) -> Result<Constructor, AllocError>
    ensures { IfOk result (λ answer. answer ≡ constructor_of edition heap.now value.now) }
{
    let Value::Object(id) = value else {
        return Ok(Constructor::Fails);
    };
    match heap.class(*id) {
        Class::Function(_) => {
            if is_no_constructor(alloc, edition, heap, *id)? {
                Ok(Constructor::Leaves(5))
            } else {
                Ok(Constructor::Runs(*id))
            }
        }
        Class::Builtin(number) => {
            if (3 <= *number) & (*number <= 6) {
                Ok(Constructor::MakesError(*number))
            } else {
                Ok(Constructor::Leaves(5))
            }
        }
        _ => Ok(Constructor::Fails),
    }
}

/// The prototype of what a function makes, by `new` or as a generator, whose property `prototype` has this value (9.1.15).
pub fn prototype_for(heap: &Heap, value: &Value, default: ObjId) -> Prototype
    ensures { result ≡ prototype_for heap.now value.now default }
{
    match value {
        Value::Object(id) => match heap.class(*id) {
            Class::Namespace(_) => Prototype::Leaves(12),
            _ => Prototype::Is(*id),
        },
        _ => Prototype::Is(default),
    }
}

/// What a class does with its heritage (14.5.14).
pub fn heritage_of(alloc: Global, heap: &Heap, value: &Value) -> Result<Constructor, AllocError>
    ensures { IfOk result (λ answer. answer ≡ heritage_of heap.now value.now) }
{
    let id = match value {
        Value::Null => return Ok(Constructor::Leaves(10)),
        Value::Object(id) => *id,
        _ => return Ok(Constructor::Fails),
    };
    match heap.class(id) {
        Class::Function(_) => {
            if is_no_constructor(alloc, Edition::Sixth, heap, id)? {
                Ok(Constructor::Leaves(10))
            } else {
                Ok(Constructor::Runs(id))
            }
        }
        Class::Builtin(_) => Ok(Constructor::Leaves(10)),
        _ => Ok(Constructor::Fails),
    }
}

fn not_callable(edition: Edition, heap: &Heap, id: ObjId) -> Instance
    ensures { result ≡ not_callable edition heap.now id }
{
    match edition {
        Edition::Sixth if is_above(heap, id, FUNCTION_PROTOTYPE) => Instance::Leaves(9),
        Edition::Sixth | Edition::Fifth => Instance::Fails,
    }
}

/// `instanceof`, up to the read of the right side's `prototype` (12.9.4).
pub fn instance_of(edition: Edition, heap: &Heap, left: &Value, right: &Value) -> Instance
    ensures { result ≡ instance_of edition heap.now left.now right.now }
{
    let Value::Object(id) = right else {
        return Instance::Fails;
    };
    if !is_callable(heap, right) {
        not_callable(edition, heap, *id)
    } else if is_object(left) {
        Instance::ReadPrototype(*id)
    } else {
        Instance::Is(false)
    }
}

fn is_error_kind(id: ObjId) -> bool
    ensures { result ≡ is_error_kind id }
{
    (14 <= id.0) & (id.0 <= 16)
}

fn is_parent_step(heap: &Heap, id: ObjId, up: ObjId) -> bool
    ensures { result ≡ is_parent_step heap.now id up }
{
    is_closure(heap.class(id)) && is_closure(heap.class(up))
}

/// Whether the target is on the object's chain of prototypes (7.3.19).
pub fn instance_walk(heap: &Heap, id: ObjId, target: ObjId) -> Instance
    ensures { result ≡ instance_walk heap.now id target }
{
    let mut place = id;
    let mut past = false;
    for _ in 0..heap.len() {
        let Some(up) = heap.proto(place) else {
            return Instance::Is(false);
        };
        past = past | is_parent_step(heap, place, up);
        if let Some(found) = met_at(place, up, target, past) {
            return found;
        }
        place = up;
    }
    Instance::Is(false)
}

/// What a step of the walk ends with.
fn met_at(place: ObjId, up: ObjId, target: ObjId, past: bool) -> Option<Instance>
    ensures { result ≡ met_at place up target past }
{
    if is_error_kind(place) && up.0 == ERROR.0 {
        Some(Instance::Leaves(9))
    } else if up.0 == target.0 {
        Some(met(past))
    } else {
        None
    }
}

fn met(past: bool) -> Instance
    ensures { result ≡ met past }
{
    if past {
        Instance::Leaves(6)
    } else {
        Instance::Is(true)
    }
}
