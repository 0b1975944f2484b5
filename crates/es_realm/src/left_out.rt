//! Names that the editions have on the objects of the library, and that are known and left out here.
ghost use Rattle.std.specs.Prelude.{◌≡◌, nat_eq};
ghost use Rattle.std.specs.List.{list_any};
ghost use Rattle.std.specs.Cmp.Lexicographic.{pointwise};
ghost use Rattle.es_realm.specs.LeftOut.{object_names, object_names6, array_names, string_names, object_prototype_names, function_prototype_names, array_prototype_names, string_prototype_names, number_prototype_names, boolean_prototype_names, is_among, holder_of, own_holder_of, is_builtin, is_prototype_name, is_object_name, is_function_name, is_name_of, is_left_out};

use crate::edition::Edition;
use es_heap::Key;
use es_value::ObjId;

const OBJECT_NAMES: [&str; 12] = [
    "assign",
    "defineProperties",
    "freeze",
    "getOwnPropertyNames",
    "getOwnPropertySymbols",
    "is",
    "isExtensible",
    "isFrozen",
    "isSealed",
    "keys",
    "seal",
    "setPrototypeOf",
];

const OBJECT_NAMES6: [&str; 4] = [
    "defineProperty",
    "getOwnPropertyDescriptor",
    "getPrototypeOf",
    "preventExtensions",
];

const ARRAY_NAMES: [&str; 2] = ["from", "of"];

const STRING_NAMES: [&str; 3] = ["fromCharCode", "fromCodePoint", "raw"];

const OBJECT_PROTOTYPE_NAMES: [&str; 3] = [
    "isPrototypeOf",
    "propertyIsEnumerable",
    "toLocaleString",
];

const FUNCTION_PROTOTYPE_NAMES: [&str; 2] = ["bind", "length"];

const ARRAY_PROTOTYPE_NAMES: [&str; 23] = [
    "length",
    "concat",
    "reverse",
    "shift",
    "slice",
    "sort",
    "splice",
    "unshift",
    "lastIndexOf",
    "every",
    "some",
    "map",
    "filter",
    "reduce",
    "reduceRight",
    "toLocaleString",
    "copyWithin",
    "entries",
    "fill",
    "find",
    "findIndex",
    "keys",
    "values",
];

const STRING_PROTOTYPE_NAMES: [&str; 22] = [
    "length",
    "concat",
    "lastIndexOf",
    "localeCompare",
    "match",
    "replace",
    "search",
    "slice",
    "split",
    "toLowerCase",
    "toUpperCase",
    "toLocaleLowerCase",
    "toLocaleUpperCase",
    "trim",
    "valueOf",
    "substr",
    "codePointAt",
    "endsWith",
    "includes",
    "normalize",
    "repeat",
    "startsWith",
];

const NUMBER_PROTOTYPE_NAMES: [&str; 5] = [
    "toExponential",
    "toFixed",
    "toLocaleString",
    "toPrecision",
    "valueOf",
];

const BOOLEAN_PROTOTYPE_NAMES: [&str; 1] = ["valueOf"];

/// What an object is to the library: a prototype of it, a function of it, or an object of the program.
#[derive(Clone, Copy, Debug, PartialEq, Eq)]
pub(crate) enum Holder {
    Program,
    Prototype,
    Function,
}

/// Whether the units are those of the ASCII word.
pub(crate) fn is_word(units: &[u16], word: &[u8]) -> bool
    ensures { result ≡ pointwise nat_eq units.now word.now }
{
    match (units.split_first(), word.split_first()) {
        (None, None) => true,
        (Some((unit, units)), Some((byte, bytes))) => {
            if *unit == u16::from(*byte) {
                is_word(units, bytes)
            } else {
                false
            }
        }
        _ => false,
    }
}

fn is_among(words: &[&str], units: &[u16]) -> bool
    ensures { result ≡ list_any (λ word. pointwise nat_eq units.now word.now) words.now }
{
    words.iter().any(|word| is_word(units, word.as_bytes()))
}

#[tactic(auto, unfolding(crate::specs::LeftOut::object_names))]
fn is_object_name(units: &[u16]) -> bool
    ensures { result ≡ is_among object_names units.now }
{
    let words = OBJECT_NAMES;
    is_among(&words, units)
}

#[tactic(auto, unfolding(crate::specs::LeftOut::object_names6))]
fn is_object_name6(units: &[u16]) -> bool
    ensures { result ≡ is_among object_names6 units.now }
{
    let words = OBJECT_NAMES6;
    is_among(&words, units)
}

#[tactic(auto, unfolding(crate::specs::LeftOut::array_names))]
fn is_array_name(units: &[u16]) -> bool
    ensures { result ≡ is_among array_names units.now }
{
    let words = ARRAY_NAMES;
    is_among(&words, units)
}

#[tactic(auto, unfolding(crate::specs::LeftOut::string_names))]
fn is_string_name(units: &[u16]) -> bool
    ensures { result ≡ is_among string_names units.now }
{
    let words = STRING_NAMES;
    is_among(&words, units)
}

#[tactic(auto, unfolding(crate::specs::LeftOut::object_prototype_names))]
fn is_object_prototype_name(units: &[u16]) -> bool
    ensures { result ≡ is_among object_prototype_names units.now }
{
    let words = OBJECT_PROTOTYPE_NAMES;
    is_among(&words, units)
}

#[tactic(auto, unfolding(crate::specs::LeftOut::function_prototype_names))]
fn is_function_prototype_name(units: &[u16]) -> bool
    ensures { result ≡ is_among function_prototype_names units.now }
{
    let words = FUNCTION_PROTOTYPE_NAMES;
    is_among(&words, units)
}

#[tactic(auto, unfolding(crate::specs::LeftOut::array_prototype_names))]
fn is_array_prototype_name(units: &[u16]) -> bool
    ensures { result ≡ is_among array_prototype_names units.now }
{
    let words = ARRAY_PROTOTYPE_NAMES;
    is_among(&words, units)
}

#[tactic(auto, unfolding(crate::specs::LeftOut::string_prototype_names))]
fn is_string_prototype_name(units: &[u16]) -> bool
    ensures { result ≡ is_among string_prototype_names units.now }
{
    let words = STRING_PROTOTYPE_NAMES;
    is_among(&words, units)
}

#[tactic(auto, unfolding(crate::specs::LeftOut::number_prototype_names))]
fn is_number_prototype_name(units: &[u16]) -> bool
    ensures { result ≡ is_among number_prototype_names units.now }
{
    let words = NUMBER_PROTOTYPE_NAMES;
    is_among(&words, units)
}

#[tactic(auto, unfolding(crate::specs::LeftOut::boolean_prototype_names))]
fn is_boolean_prototype_name(units: &[u16]) -> bool
    ensures { result ≡ is_among boolean_prototype_names units.now }
{
    let words = BOOLEAN_PROTOTYPE_NAMES;
    is_among(&words, units)
}

pub(crate) fn holder_of(edition: Edition, id: ObjId) -> Holder
    ensures { result ≡ holder_of edition id }
{
    if id.0 < 10 {
        return Holder::Prototype;
    }
    if id.0 < 39 {
        return Holder::Function;
    }
    own_holder_of(edition, id.0)
}

fn own_holder_of(edition: Edition, place: usize) -> Holder
    ensures { result ≡ own_holder_of edition place }
{
    match edition {
        Edition::Sixth if place < 43 => Holder::Prototype,
        Edition::Sixth if place < 52 => Holder::Function,
        Edition::Fifth if place < 43 => Holder::Function,
        Edition::Sixth | Edition::Fifth => Holder::Program,
    }
}

/// Whether the object is one of the library.
pub fn is_builtin(edition: Edition, id: ObjId) -> bool
    ensures { result ≡ is_builtin edition id }
{
    match holder_of(edition, id) {
        Holder::Program => false,
        Holder::Prototype | Holder::Function => true,
    }
}

fn is_prototype_name(id: ObjId, units: &[u16]) -> bool
    ensures { result ≡ is_prototype_name id units.now }
{
    if id.0 == 0 {
        is_object_prototype_name(units)
    } else if id.0 == 1 {
        is_function_prototype_name(units)
    } else if id.0 == 2 {
        is_array_prototype_name(units)
    } else if id.0 == 3 {
        is_string_prototype_name(units)
    } else if id.0 == 4 {
        is_number_prototype_name(units)
    } else if id.0 == 5 {
        is_boolean_prototype_name(units)
    } else {
        false
    }
}

fn is_name_of_object(edition: Edition, units: &[u16]) -> bool
    ensures { result ≡ is_object_name edition units.now }
{
    match edition {
        Edition::Sixth => is_object_name(units) || is_object_name6(units),
        Edition::Fifth => is_object_name(units),
    }
}

fn is_function_name(edition: Edition, id: ObjId, units: &[u16]) -> bool
    ensures { result ≡ is_function_name edition id units.now }
{
    if id.0 == 10 {
        is_name_of_object(edition, units)
    } else if id.0 == 11 {
        is_array_name(units)
    } else if id.0 == 12 {
        is_string_name(units)
    } else {
        false
    }
}

fn is_name_of(holder: Holder, edition: Edition, id: ObjId, units: &[u16]) -> bool
    ensures { result ≡ is_name_of holder edition id units.now }
{
    match holder {
        Holder::Program => false,
        Holder::Prototype => is_word(units, b"constructor") || is_prototype_name(id, units),
        Holder::Function => is_word(units, b"length") || is_function_name(edition, id, units),
    }
}

/// Whether the object has, in the edition, a property of this key that is left out here.
pub fn is_left_out(edition: Edition, id: ObjId, key: &Key) -> bool
    ensures { result ≡ is_left_out edition id key.now }
{
    match key {
        Key::Iterator => false,
        Key::Text(text) => is_name_of(holder_of(edition, id), edition, id, text.units()),
    }
}
