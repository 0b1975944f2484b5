//! Where names first stand, looked up by hash.

ghost use Rattle.std.specs.Prelude.{◌≡◌, List, ◌++◌, ◌∷◌, [], IfOk, OnOk};
ghost use Rattle.es6_ast.specs.declared.tree.Identifier.{Identifier};
ghost use Rattle.es6_static_semantics.specs.Findings.{first_place, is_name_of};
ghost use Rattle.early_names.specs.Indexes.{Indexes};

use crate::names::PlacedName;
use std::alloc::{AllocError, Global};
use std::collections::HashMap;

/// Where each name of a list first stands: its offset in bytes from 0.
#[derive(Drop)]
pub struct Places<'a> {
    places: HashMap<&'a [u8], u32>,
}

impl<'a> Places<'a> {
    /// Of no names.
    pub fn new(alloc: Global) -> Places<'a>
        ensures { Indexes result [] }
    {
        Places {
            places: HashMap::new(alloc),
        }
    }

    /// Of a list of names.
    pub fn of(alloc: Global, names: &[PlacedName<'a>]) -> Result<Places<'a>, AllocError>
        ensures { IfOk result (λ places. Indexes places names.now) }
    {
        let mut places = Places::new(alloc);
        for name in names {
            places.add(name)?;
        }
        Ok(places)
    }

    /// The place where a name of the list first stands.
    pub fn first(&self, name: &[u8]) -> Option<u32>
        ensures { (names : List Identifier) → Indexes self.now names → result ≡ first_place name.now names }
    {
        self.places.get(name).copied()
    }

    /// Whether the name is one of the list.
    pub fn contains(&self, name: &[u8]) -> bool
        ensures { (names : List Identifier) → Indexes self.now names → result ≡ is_name_of name.now names }
    {
        self.places.contains_key(name)
    }

    /// Adds a name at the end of the list.
    pub fn add(&mut self, name: &PlacedName<'a>) -> Result<(), AllocError>
        ensures { OnOk result ((names : List Identifier) → Indexes self.old names → Indexes self.new (names ++ name.now ∷ [])) }
    {
        if !self.contains(name.bytes()) {
            self.places.insert(name.bytes(), name.begin())?;
        }
        Ok(())
    }
}
