//! Tables: what was made, by its number.

ghost use Rattle.std.specs.Prelude.{◌≡◌, ◌<◌, ◌∷◌, ◌++◌, [], IfSome, OnOk, Some, length, slice_get, slice_set};
ghost use Rattle.std.specs.Option.{option_copied};

use std::alloc::{AllocError, Global};
use std::marker::Model;

/// A table, which contracts see as the list of its entries.
#[derive(Drop)]
pub struct Table<T> {
    entries: Vec<T>,
}

impl<T> Model for Table<T> {
    ghost use Rattle.std.specs.Prelude.{List};

    ghost Value = { List T };

    ghost view = { λ t. t.entries.items };
}

impl<T> Table<T> {
    pub fn new(alloc: Global) -> Table<T>
        ensures { result ≡ [] }
    {
        Table {
            entries: Vec::new(alloc),
        }
    }

    pub fn as_slice(&self) -> &[T]
        ensures { result.now ≡ self.now }
    {
        self.entries.as_slice()
    }

    /// How many entries there are, which is the number of the next one.
    pub fn len(&self) -> usize
        ensures { result ≡ length self.now }
    {
        self.entries.len()
    }

    pub fn get(&self, number: usize) -> Option<&T>
        ensures { option_copied result ≡ slice_get self.now number }
    {
        self.entries.get(number)
    }
}

impl<T: Drop> Table<T> {
    /// One more entry.
    pub fn push(&mut self, entry: T) -> Result<(), AllocError>
        ensures { OnOk result (self.new ≡ self.old ++ entry ∷ []) }
    {
        self.entries.push(entry)?;
        Ok(())
    }

    /// Another entry with this number, if there is one.
    pub fn set(&mut self, number: usize, entry: T)
        ensures { self.new ≡ slice_set self.old number entry }
    {
        if number < self.entries.len() {
            self.entries[number] = entry;
        }
    }

    /// The entry with this number, if there is one, for which another is put there.
    pub fn replace(&mut self, number: usize, entry: T) -> Option<T>
        ensures taken { result ≡ slice_get self.old number }
        ensures put { self.new ≡ slice_set self.old number entry }
    {
        if number < self.entries.len() {
            let slot = &mut self.entries[number];
            Some(std::mem::replace(slot, entry))
        } else {
            None
        }
    }
}
