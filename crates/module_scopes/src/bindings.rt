//! Lists of names that are declared together.

ghost use Rattle.std.specs.Prelude.{◌≡◌, [], ◌∷◌, ◌++◌, map, false, OnOk, MatchOption};
ghost use Rattle.es6_static_semantics.specs.Outside.{knows, some_name};
ghost use Rattle.module_scopes.specs.Scopes.{known_of};

use es6_ast::Identifier;
use std::alloc::{AllocError, Global};
use std::marker::Model;

/// A name that is declared, and whether it is imported from the host.
#[derive(Drop)]
pub(crate) struct Binding {
    pub(crate) name: Vec<u8>,
    pub(crate) is_host: bool,
}

/// Names that one construct declares, in text order, of which contracts see the list.
#[derive(Drop)]
pub struct Bindings {
    alloc: Global,
    list: Vec<Binding>,
}

impl Model for Bindings {
    ghost use Rattle.std.specs.Prelude.{List, map};
    ghost use Rattle.es6_static_semantics.specs.Outside.{Known};
    ghost use Rattle.module_scopes.specs.Scopes.{known_of};

    ghost Value = { List Known };

    ghost view = { λ b. map known_of b.list.items };
}

impl Bindings {
    pub fn new(alloc: Global) -> Bindings
        ensures { result ≡ [] }
    {
        Bindings {
            alloc,
            list: Vec::new(alloc),
        }
    }

    /// Adds a name of the module, or one that is imported from the host.
    pub fn push(&mut self, name: &[u8], is_host: bool) -> Result<(), AllocError>
        ensures { OnOk result (self.new ≡ self.old ++ (record { name = name.now; is_host = is_host }) ∷ []) }
    {
        let name = Vec::from_slice(self.alloc, name)?;
        self.list.push(Binding { name, is_host })?;
        Ok(())
    }

    /// Adds a name of the module.
    pub fn identifier(&mut self, identifier: &Identifier) -> Result<(), AllocError>
        ensures { OnOk result (self.new ≡ self.old ++ knows false identifier.now ∷ []) }
    {
        self.push(identifier.name.bytes(), false)
    }

    /// Adds a name of the module, if there is one.
    pub fn optional(&mut self, identifier: &Option<Identifier>) -> Result<(), AllocError>
        ensures { OnOk result (self.new ≡ self.old ++ map (knows false) (some_name identifier.now)) }
    {
        match identifier {
            None => Ok(()),
            Some(identifier) => self.identifier(identifier),
        }
    }

    /// Takes the last name away.
    pub(crate) fn pop(&mut self) -> Option<Binding>
        ensures { MatchOption result ((self.old ≡ []) × (self.new ≡ [])) (λ last. self.old ≡ self.new ++ known_of last ∷ []) }
    {
        self.list.pop()
    }
}
