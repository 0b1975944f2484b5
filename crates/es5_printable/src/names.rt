//! Names, literals and property names (ECMA-262, 5.1 edition, 7.6, 7.8, 11.1.5).

ghost use Rattle.std.specs.Prelude.{◌≡◌, nat_lt};
ghost use Rattle.std.specs.List.{list_all};
ghost use Rattle.std.specs.Char.{is_ascii_lowercase};
ghost use Rattle.es5_ast.specs.Grammar.{is_identifier};
ghost use Rattle.es5_ast.specs.Lexical.{is_identifier_name, is_identifier_part, is_identifier_start, is_one_of, reserved_words};
ghost use Rattle.es5_printable.specs.Printable.{are_units, is_integer, is_key, is_literal, is_name, is_strict_text, label_fits, names_fit};

use es5_ast::{Identifier5, Key5, Literal5};
use es5_cursor::is_one_of;
use shared_text::{Name, Units};

/// The greatest whole number up to which each one is a number of its own.
const MOST: u64 = 9_007_199_254_740_991;

fn is_start(byte: u8) -> bool
    ensures { result ≡ is_identifier_start byte }
{
    byte.is_ascii_alphabetic() || byte == b'_' || byte == b'$'
}

fn is_part(byte: u8) -> bool
    ensures { result ≡ is_identifier_part byte }
{
    is_start(byte) || byte.is_ascii_digit()
}

fn are_parts(bytes: &[u8]) -> bool
    ensures { result ≡ list_all is_identifier_part bytes.now }
{
    for byte in bytes {
        if !is_part(*byte) {
            return false;
        }
    }
    true
}

pub(crate) fn is_identifier_name(name: &Name) -> bool
    ensures { result ≡ is_identifier_name name.now }
{
    match name.bytes() {
        [] => false,
        [first, rest @ ..] => is_start(*first) && are_parts(rest),
    }
}

/// Whether all are small letters, as those of each reserved word are: most names are told from these by that.
fn are_small(bytes: &[u8]) -> bool
    ensures { result ≡ list_all is_ascii_lowercase bytes.now }
{
    bytes.iter().all(|byte| byte.is_ascii_lowercase())
}

fn is_reserved(name: &[u8]) -> bool
    ensures { result ≡ is_one_of name.now reserved_words }
{
    are_small(name) && is_one_of(name, &RESERVED_WORDS)
}

/// An identifier: a name that is no reserved word (7.6).
pub(crate) fn is_name(name: &Name) -> bool
    ensures { result ≡ is_name name.now }
{
    is_identifier_name(name) && !is_reserved(name.bytes())
}

pub(crate) fn names_fit(names: &[Identifier5]) -> bool
    ensures { result ≡ names_fit names.now }
{
    for name in names {
        if !is_name(&name.name) {
            return false;
        }
    }
    true
}

pub(crate) fn label_fits(label: &Option<Identifier5>) -> bool
    ensures { result ≡ label_fits label.now }
{
    match label {
        Some(name) => is_name(&name.name),
        None => true,
    }
}

fn is_integer(value: u64) -> bool
    ensures { result ≡ is_integer value }
{
    value <= MOST
}

/// Every text has units of 16 bits.
fn are_units(text: &Units) -> bool
    ensures { result ≡ are_units text.now }
{
    for unit in text.units() {
        if !is_unit(*unit) {
            return false;
        }
    }
    true
}

fn is_unit(unit: u16) -> bool
    ensures { result ≡ nat_lt unit 65536 }
{
    u32::from(unit) < 65_536
}

pub(crate) fn is_literal(literal: &Literal5) -> bool
    ensures { result ≡ is_literal literal.now }
{
    match literal {
        Literal5::Null | Literal5::Truth(_) => true,
        Literal5::Integer(value) => is_integer(*value),
        Literal5::Text(text) => are_units(text),
    }
}

pub(crate) fn is_key(key: &Key5) -> bool
    ensures { result ≡ is_key key.now }
{
    match key {
        Key5::WordKey(name) => is_identifier_name(name),
        Key5::TextKey(text) => are_units(text),
        Key5::IntegerKey(value) => is_integer(*value),
    }
}

/// The literal of the directive of strict code (14.1).
pub(crate) fn is_strict_text(literal: &Literal5) -> bool
    ensures { result ≡ is_strict_text literal.now }
{
    match literal {
        Literal5::Text(text) => text.units() == USE_STRICT.as_slice(),
        _ => false,
    }
}

/// The units of `use strict`.
const USE_STRICT: [u16; 10] = [0x75, 0x73, 0x65, 0x20, 0x73, 0x74, 0x72, 0x69, 0x63, 0x74];

/// ReservedWord (7.6.1), with the future reserved words of strict code
const RESERVED_WORDS: [&[u8]; 45] = [
    b"break",
    b"case",
    b"catch",
    b"class",
    b"const",
    b"continue",
    b"debugger",
    b"default",
    b"delete",
    b"do",
    b"else",
    b"enum",
    b"export",
    b"extends",
    b"false",
    b"finally",
    b"for",
    b"function",
    b"if",
    b"implements",
    b"import",
    b"in",
    b"instanceof",
    b"interface",
    b"let",
    b"new",
    b"null",
    b"package",
    b"private",
    b"protected",
    b"public",
    b"return",
    b"static",
    b"super",
    b"switch",
    b"this",
    b"throw",
    b"true",
    b"try",
    b"typeof",
    b"var",
    b"void",
    b"while",
    b"with",
    b"yield",
];
