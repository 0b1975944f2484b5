//! The property `length` of an array.
ghost use Rattle.std.specs.Prelude.{◌≡◌, IsTrue, true};
ghost use Rattle.es_heap.specs.Objects.{length_property};

use crate::prop::Prop;
use es_value::Value;
use std::marker::Model;

/// The property `length` of an array: its number, and whether it is writable. It is never configurable.
#[derive(Debug, Drop)]
pub(crate) struct Length {
    property: Prop,
    length: u32,
    writable: bool,
}

impl Model for Length {
    ghost use Rattle.std.specs.Prelude.{◌≡◌, ℕ, Bool};
    ghost use Rattle.es_heap.specs.Objects.{length_property};

    ghost Value = { ℕ × Bool };

    ghost view = { λ l. (l.length, l.writable) };

    ghost invariant = { λ l. l.property ≡ length_property l.length l.writable };
}

impl Length {
    pub(crate) fn new(length: u32, writable: bool) -> Length
        ensures { result ≡ (length, writable) }
    {
        let property = Prop::Plain {
            value: Value::Number(i64::from(length)),
            writable,
            configurable: false,
        };
        Length {
            property,
            length,
            writable,
        }
    }

    pub(crate) fn property(&self) -> &Prop
        ensures { result.now ≡ length_property self.now.0 self.now.1 }
    {
        &self.property
    }

    pub(crate) fn get(&self) -> u32
        ensures { result ≡ self.now.0 }
    {
        self.length
    }

    pub(crate) fn is_writable(&self) -> bool
        ensures { result ≡ self.now.1 }
    {
        self.writable
    }
}
