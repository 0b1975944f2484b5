//! The names that a class asks for (14.5.1).

ghost use Rattle.std.specs.Prelude.{◌≡◌, codes};
ghost use Rattle.es6_static_semantics.specs.Early.{is_named, key_found};

use es6_ast::Key;

/// The units of `constructor`.
const CONSTRUCTOR: [u16; 11] = [
    b'c' as u16,
    b'o' as u16,
    b'n' as u16,
    b's' as u16,
    b't' as u16,
    b'r' as u16,
    b'u' as u16,
    b'c' as u16,
    b't' as u16,
    b'o' as u16,
    b'r' as u16,
];

/// The units of `prototype`.
const PROTOTYPE: [u16; 9] = [
    b'p' as u16,
    b'r' as u16,
    b'o' as u16,
    b't' as u16,
    b'o' as u16,
    b't' as u16,
    b'y' as u16,
    b'p' as u16,
    b'e' as u16,
];

/// Whether a property name is `constructor`, as a word or a text.
pub fn is_constructor_key(key: &Key) -> bool
    ensures { result ≡ is_named (codes "constructor") (key_found key.now) }
{
    match key {
        Key::WordKey { name, .. } => name.bytes() == b"constructor".as_slice(),
        Key::TextKey { units, .. } => units.units() == CONSTRUCTOR.as_slice(),
        Key::IntegerKey { .. } | Key::ComputedKey { .. } => false,
    }
}

/// Whether a property name is `prototype`, as a word or a text.
pub fn is_prototype_key(key: &Key) -> bool
    ensures { result ≡ is_named (codes "prototype") (key_found key.now) }
{
    match key {
        Key::WordKey { name, .. } => name.bytes() == b"prototype".as_slice(),
        Key::TextKey { units, .. } => units.units() == PROTOTYPE.as_slice(),
        Key::IntegerKey { .. } | Key::ComputedKey { .. } => false,
    }
}

/// Where a property name begins.
pub fn key_begin(key: &Key) -> u32
    ensures { result ≡ (key_found key.now).at }
{
    match key {
        Key::WordKey { span, .. }
        | Key::TextKey { span, .. }
        | Key::IntegerKey { span, .. }
        | Key::ComputedKey { span, .. } => span.begin,
    }
}
