//! The global names.
ghost use Rattle.std.specs.Prelude.{◌≡◌};
ghost use Rattle.std.specs.List.{list_any};
ghost use Rattle.std.specs.Str.{bytes_eq};
ghost use Rattle.es_outside.specs.HostNames.{is_among, known_globals};
ghost use Rattle.es_realm.specs.Globals.{global_of};

use crate::names::{ARRAY, ERROR, OBJECT, RANGE_ERROR, REFERENCE_ERROR, STRING, TYPE_ERROR};
use es_value::ObjId;

/// What a name is in the global scope of both realms (6th edition, 18).
#[derive(Clone, Copy, Debug, PartialEq, Eq)]
pub enum Global {
    /// `undefined`.
    Undefined,
    /// This function of the library.
    Object(ObjId),
    /// The 5.1 edition has the name, and it is left out here: a read of it leaves at X7.
    LeftOut,
    /// No global of the editions.
    Unknown,
}

/// The global names of the 5.1 edition (15.1 and B.2) that are known and left out.
const LEFT_OUT: [&str; 23] = [
    "NaN",
    "Infinity",
    "eval",
    "parseInt",
    "parseFloat",
    "isNaN",
    "isFinite",
    "decodeURI",
    "decodeURIComponent",
    "encodeURI",
    "encodeURIComponent",
    "escape",
    "unescape",
    "Function",
    "Boolean",
    "Number",
    "Date",
    "RegExp",
    "EvalError",
    "SyntaxError",
    "URIError",
    "Math",
    "JSON",
];

fn is_word(word: &str, name: &[u8]) -> bool
    ensures { result ≡ bytes_eq word.now name.now }
{
    word.as_bytes() == name
}

#[tactic(auto, unfolding(es_outside::specs::HostNames::known_globals))]
fn is_known_global(name: &[u8]) -> bool
    ensures { result ≡ is_among known_globals name.now }
{
    let words = LEFT_OUT;
    is_among(&words, name)
}

fn is_among(words: &[&str], name: &[u8]) -> bool
    ensures { result ≡ list_any (λ word. bytes_eq word.now name.now) words.now }
{
    words.iter().any(|word| is_word(*word, name))
}

/// What the name, in UTF-8, is in the global scope of both realms.
pub fn global_of(name: &[u8]) -> Global
    ensures { result ≡ global_of name.now }
{
    if is_word("undefined", name) {
        Global::Undefined
    } else if is_word("Object", name) {
        Global::Object(OBJECT)
    } else if is_word("Array", name) {
        Global::Object(ARRAY)
    } else if is_word("String", name) {
        Global::Object(STRING)
    } else if is_word("Error", name) {
        Global::Object(ERROR)
    } else if is_word("TypeError", name) {
        Global::Object(TYPE_ERROR)
    } else if is_word("ReferenceError", name) {
        Global::Object(REFERENCE_ERROR)
    } else if is_word("RangeError", name) {
        Global::Object(RANGE_ERROR)
    } else if is_known_global(name) {
        Global::LeftOut
    } else {
        Global::Unknown
    }
}
