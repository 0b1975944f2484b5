//! How a property is looked for, up to a step at which the run leaves the profile.
ghost use Rattle.std.specs.Prelude.{◌≡◌};
ghost use Rattle.es_realm.specs.Look.{is_named, begins_marked, is_reserved_key, is_closure, is_function, is_arguments, is_namespace, lacks, is_later_function, is_hidden_function_name, is_hidden_arguments_name, is_hidden_prototype, is_hidden, exit_at, passes_unrecorded, found_at, visit_object, walk, look_in_namespace, look_up, look_own};

use crate::edition::Edition;
use crate::left_out::{is_left_out, is_word};
use es_heap::{Class, Heap, Key};
use es_value::ObjId;

/// Where a key is found.
#[derive(Clone, Copy, Debug, PartialEq, Eq)]
pub enum Look {
    /// This object has it.
    Found(ObjId),
    Missing,
    /// The object is a namespace object, whose names are bindings of its module.
    Binding,
    /// The run leaves the profile at the exit of this number.
    Leaves(u8),
}

/// What a look at one object of a chain gives.
#[derive(Clone, Copy)]
enum Visit {
    Stops(Look),
    Above(ObjId),
}

/// Whether the key is the text of this ASCII word.
pub fn is_named(key: &Key, word: &[u8]) -> bool
    ensures { result ≡ is_named key.now word.now }
{
    match key {
        Key::Text(text) => is_word(text.units(), word),
        Key::Iterator => false,
    }
}

fn begins_marked(units: &[u16]) -> bool
    ensures { result ≡ begins_marked units.now }
{
    match units {
        [first, second, ..] => (*first == 64) & (*second == 64),
        _ => false,
    }
}

/// Whether no operation may use the key (exit X3).
pub fn is_reserved_key(edition: Edition, key: &Key) -> bool
    ensures { result ≡ is_reserved_key edition key.now }
{
    match key {
        Key::Iterator => false,
        Key::Text(text) => {
            let marked = match edition {
                Edition::Sixth => begins_marked(text.units()),
                Edition::Fifth => false,
            };
            is_word(text.units(), b"__proto__") | marked
        }
    }
}

/// Whether it is a function of the program.
pub fn is_closure(class: &Class) -> bool
    ensures { result ≡ is_closure class.now }
{
    matches!(class, Class::Function(_))
}

/// Whether it can be called.
pub fn is_function(class: &Class) -> bool
    ensures { result ≡ is_function class.now }
{
    matches!(
        class,
        Class::Function(_) | Class::Builtin(_) | Class::Host(_)
    )
}

pub(crate) fn is_arguments(class: &Class) -> bool
    ensures { result ≡ is_arguments class.now }
{
    matches!(class, Class::Arguments)
}

pub(crate) fn is_namespace(class: &Class) -> bool
    ensures { result ≡ is_namespace class.now }
{
    matches!(class, Class::Namespace(_))
}

fn is_hidden_function_name(key: &Key) -> bool
    ensures { result ≡ is_hidden_function_name key.now }
{
    is_named(key, b"name") || is_named(key, b"caller") || is_named(key, b"arguments")
}

fn is_hidden_arguments_name(key: &Key) -> bool
    ensures { result ≡ is_hidden_arguments_name key.now }
{
    is_named(key, b"callee") || is_named(key, b"caller")
}

/// Whether it is a function of the program without this own property.
fn lacks(heap: &Heap, id: ObjId, key: &Key) -> bool
    ensures { result ≡ lacks heap.now id key.now }
{
    is_closure(heap.class(id)) && heap.get_own(id, key).is_none()
}

/// Whether it is a function of the library that the realm of the 5.1 edition lacks, which counts as a method.
fn is_later_function(id: ObjId) -> bool
    ensures { result ≡ is_later_function id }
{
    (43 <= id.0) & (id.0 < 52)
}

fn is_hidden_prototype(edition: Edition, heap: &Heap, id: ObjId, key: &Key) -> bool
    ensures { result ≡ is_hidden_prototype edition heap.now id key.now }
{
    match edition {
        Edition::Sixth => {
            is_named(key, b"prototype") && (lacks(heap, id, key) || is_later_function(id))
        }
        Edition::Fifth => false,
    }
}

/// Whether the editions have the property otherwise (exit X4).
pub(crate) fn is_hidden(edition: Edition, heap: &Heap, id: ObjId, key: &Key) -> bool
    ensures { result ≡ is_hidden edition heap.now id key.now }
{
    (is_function(heap.class(id)) && is_hidden_function_name(key))
        || (is_arguments(heap.class(id)) && is_hidden_arguments_name(key))
        || is_hidden_prototype(edition, heap, id, key)
}

/// The exit at which a look at this object for this key leaves.
pub(crate) fn exit_at(edition: Edition, heap: &Heap, id: ObjId, key: &Key) -> Option<u8>
    ensures { result ≡ exit_at edition heap.now id key.now }
{
    if is_hidden(edition, heap, id, key) {
        Some(4)
    } else if is_left_out(edition, id, key) {
        Some(7)
    } else {
        None
    }
}

/// Whether a step up goes from a class to its parent, and the key isn't recorded for it.
fn passes_unrecorded(heap: &Heap, id: ObjId, up: ObjId, key: &Key) -> bool
    ensures { result ≡ passes_unrecorded heap.now id up key.now }
{
    is_closure(heap.class(id)) && is_closure(heap.class(up)) && !heap.is_recorded(id, key)
}

fn found_at(heap: &Heap, id: ObjId, past: bool) -> Look
    ensures { result ≡ found_at heap.now id past }
{
    if past && is_closure(heap.class(id)) {
        Look::Leaves(6)
    } else {
        Look::Found(id)
    }
}

/// A look at one object of the chain; `past` says that a step for which the key isn't recorded was taken.
fn visit_object(edition: Edition, heap: &Heap, id: ObjId, key: &Key, past: bool) -> Visit
    ensures { result ≡ visit_object edition heap.now id key.now past }
{
    if let Some(exit) = exit_at(edition, heap, id, key) {
        return Visit::Stops(Look::Leaves(exit));
    }
    if heap.get_own(id, key).is_some() {
        return Visit::Stops(found_at(heap, id, past));
    }
    match heap.proto(id) {
        None => Visit::Stops(Look::Missing),
        Some(up) => Visit::Above(up),
    }
}

/// The walk up the chain of prototypes.
fn walk(edition: Edition, heap: &Heap, id: ObjId, key: &Key) -> Look
    ensures { result ≡ walk edition heap.now id key.now }
{
    let mut place = id;
    let mut past = false;
    for _ in 0..heap.len() {
        match visit_object(edition, heap, place, key, past) {
            Visit::Stops(found) => return found,
            Visit::Above(up) => {
                past = past | passes_unrecorded(heap, place, up, key);
                place = up;
            }
        }
    }
    Look::Missing
}

fn look_in_namespace(key: &Key) -> Look
    ensures { result ≡ look_in_namespace key.now }
{
    match key {
        Key::Iterator => Look::Leaves(12),
        Key::Text(_) => Look::Binding,
    }
}

/// Where an object has a key, itself or on its chain (9.1.8).
pub fn look_up(edition: Edition, heap: &Heap, id: ObjId, key: &Key) -> Look
    ensures { result ≡ look_up edition heap.now id key.now }
{
    if is_reserved_key(edition, key) {
        Look::Leaves(3)
    } else if is_namespace(heap.class(id)) {
        look_in_namespace(key)
    } else {
        walk(edition, heap, id, key)
    }
}

/// Whether the object itself has a key (9.1.5).
pub fn look_own(edition: Edition, heap: &Heap, id: ObjId, key: &Key) -> Look
    ensures { result ≡ look_own edition heap.now id key.now }
{
    if is_reserved_key(edition, key) {
        return Look::Leaves(3);
    }
    if is_namespace(heap.class(id)) {
        return look_in_namespace(key);
    }
    if let Some(exit) = exit_at(edition, heap, id, key) {
        return Look::Leaves(exit);
    }
    if heap.get_own(id, key).is_some() {
        Look::Found(id)
    } else {
        Look::Missing
    }
}
