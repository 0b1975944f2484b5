//! Names as they stand in a tree.

ghost use Rattle.std.specs.Prelude.{◌≡◌};

use std::marker::Model;

/// A name's bytes, borrowed, which contracts see as a list.
#[derive(Drop)]
pub struct Spelling<'a> {
    bytes: &'a [u8],
}

impl<'a> Model for Spelling<'a> {
    ghost use Rattle.std.specs.Prelude.{ℕ, List};

    ghost Value = { List ℕ };

    ghost view = { λ s. s.bytes.now };
}

impl<'a> Spelling<'a> {
    pub fn of(bytes: &'a [u8]) -> Spelling<'a>
        ensures { result ≡ bytes.now }
    {
        Spelling { bytes }
    }

    pub fn bytes(&self) -> &'a [u8]
        ensures { result.now ≡ self.now }
    {
        self.bytes
    }
}
