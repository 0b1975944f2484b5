//! Names and texts of the program, which are borrowed, and which contracts see as the lists that they are.

ghost use Rattle.std.specs.Prelude.{◌≡◌};
ghost use Rattle.std.specs.Str.{bytes_eq};

use std::marker::Model;

/// A name, by its bytes in UTF-8: one of the program, or one that is written here.
#[derive(Drop)]
pub struct BorrowedName<'a> {
    bytes: &'a [u8],
}

impl<'a> Model for BorrowedName<'a> {
    ghost use Rattle.std.specs.Prelude.{ℕ, List};

    ghost Value = { List ℕ };

    ghost view = { λ name. name.bytes.now };
}

impl<'a> BorrowedName<'a> {
    /// The name of these bytes.
    pub fn of(bytes: &'a [u8]) -> BorrowedName<'a>
        ensures { result ≡ bytes.now }
    {
        BorrowedName { bytes }
    }

    /// The bytes of the name.
    pub fn bytes(&self) -> &'a [u8]
        ensures { result.now ≡ self.now }
    {
        self.bytes
    }

    /// The same name.
    pub fn share(&self) -> BorrowedName<'a>
        ensures { result ≡ self.now }
    {
        BorrowedName { bytes: self.bytes }
    }

    /// Whether these are the bytes of the name.
    pub fn is(&self, bytes: &[u8]) -> bool
        ensures { result ≡ bytes_eq self.now bytes.now }
    {
        self.bytes == bytes
    }
}

/// A text of the program, as its 16-bit units.
#[derive(Drop)]
pub struct BorrowedText<'a> {
    units: &'a [u16],
}

impl<'a> Model for BorrowedText<'a> {
    ghost use Rattle.std.specs.Prelude.{ℕ, List};

    ghost Value = { List ℕ };

    ghost view = { λ text. text.units.now };
}

impl<'a> BorrowedText<'a> {
    /// The text of these units.
    pub fn of(units: &'a [u16]) -> BorrowedText<'a>
        ensures { result ≡ units.now }
    {
        BorrowedText { units }
    }

    /// The units of the text.
    pub fn units(&self) -> &'a [u16]
        ensures { result.now ≡ self.now }
    {
        self.units
    }

    /// The same text.
    pub fn share(&self) -> BorrowedText<'a>
        ensures { result ≡ self.now }
    {
        BorrowedText { units: self.units }
    }
}
