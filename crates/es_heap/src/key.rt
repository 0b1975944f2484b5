//! Property keys.
ghost use Rattle.std.specs.Prelude.{◌≡◌, IfOk};

use es_value::Str;
use std::alloc::AllocError;
use std::hash::{Hash, Hasher};

/// A property key: a text, or the symbol `Symbol.iterator` (ECMA-262, 6th edition, 6.1.7).
#[derive(Debug, Drop)]
pub enum Key {
    Text(Str),
    Iterator,
}

/// The units of `length`.
const LENGTH: [u16; 6] = [108, 101, 110, 103, 116, 104];

impl Key {
    ghost use Rattle.es_heap.specs.Keys.{same_key, length_key};

    /// Whether it is the key `length`.
    pub fn is_length(&self) -> bool
        ensures { result ≡ same_key self.now length_key }
    {
        match self {
            Key::Text(text) => text.units() == &LENGTH[..],
            Key::Iterator => false,
        }
    }

    /// An equal key, which shares the text.
    pub fn share(&self) -> Result<Key, AllocError>
        ensures { IfOk result (λ key. key ≡ self.now) }
    {
        match self {
            Key::Text(text) => Ok(Key::Text(text.share()?)),
            Key::Iterator => Ok(Key::Iterator),
        }
    }
}

impl PartialEq for Key {
    ghost use Rattle.es_heap.specs.Keys.{same_key, same_key-laws};

    ghost eq = { same_key };

    ghost laws = { same_key-laws };

    fn eq(&self, other: &Key) -> bool {
        match (self, other) {
            (Key::Text(a), Key::Text(b)) => a == b,
            (Key::Iterator, Key::Iterator) => true,
            _ => false,
        }
    }
}

impl Eq for Key {
    ghost use Rattle.es_heap.specs.Keys.{same_key-equivalence};

    ghost laws = { same_key-equivalence };
}

impl Hash for Key {
    ghost use Rattle.es_heap.specs.Keys.{key_input, key_input-respects};

    ghost hash_input = { key_input };

    ghost respects_eq = { key_input-respects };

    fn hash<H: Hasher>(&self, state: &mut H) {
        match self {
            Key::Text(text) => text.hash(state),
            Key::Iterator => state.write_u8(1),
        }
    }
}
