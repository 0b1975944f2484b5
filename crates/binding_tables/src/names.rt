//! Names that are numbered.

ghost use Rattle.std.specs.Prelude.{◌≡◌, [], OnOk};
ghost use Rattle.binding_tables.specs.Names.{number_of_name, with_name};

use indexmap::IndexSet;
use std::alloc::{AllocError, Global};
use std::marker::Model;

/// Names in the order in which they come first, borrowed, of which contracts see the list.
#[derive(Drop)]
pub struct NumberedNames<'a> {
    names: IndexSet<&'a [u8]>,
}

impl<'a> Model for NumberedNames<'a> {
    ghost use Rattle.std.specs.Prelude.{ℕ, List, map};

    ghost Value = { List (List ℕ) };

    ghost view = { λ n. map (λ k. k.now) n.names.keys };
}

impl<'a> NumberedNames<'a> {
    pub fn new(alloc: Global) -> NumberedNames<'a>
        ensures { result ≡ [] }
    {
        NumberedNames {
            names: IndexSet::new(alloc),
        }
    }

    /// Adds a name unless it is there.
    pub fn add(&mut self, name: &'a [u8]) -> Result<(), AllocError>
        ensures { OnOk result (self.new ≡ with_name self.old name.now) }
    {
        self.names.insert(name)?;
        Ok(())
    }

    /// The number of a name, or how many there are.
    pub fn number(&self, name: &'a [u8]) -> usize
        ensures { result ≡ number_of_name self.now name.now }
    {
        let count = self.names.len();
        self.names.get_index_of(&name).unwrap_or(count)
    }
}
