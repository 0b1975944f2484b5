//! The names that are declared round a place, which are looked up by hash.

ghost use Rattle.std.specs.Prelude.{◌≡◌, ℕ, List, [], ◌∷◌, ◌++◌, ◌-◌, Bool, false, None, Some, if◌then◌else◌, length, drop, OnOk, OnErr, IfOk};
ghost use Rattle.std.specs.Str.{bytes_eq};
ghost use Rattle.es6_static_semantics.specs.Outside.{declared_as, is_free, is_host_import};
ghost use Rattle.module_scopes.specs.Scopes.{known_of};
ghost use Rattle.module_scopes.specs.Lookup.{innermost_of};

use crate::bindings::{Binding, Bindings};
use std::alloc::{AllocError, Global};
use std::collections::HashMap;
use std::marker::Model;
use std::mem;

/// A name that is declared, and what the name is round the scope that declares it.
#[derive(Drop)]
pub(crate) struct Declared {
    name: Vec<u8>,
    is_host: bool,
    outer: Option<bool>,
}

/// The names that are declared round a place, the innermost first, and whether the place is in a method of an object literal.
/// A name is found without a search.
#[derive(Drop)]
pub struct Environment {
    alloc: Global,
    stack: Vec<Declared>,
    /// whether the innermost declaration of a name is an import from the host
    innermost: HashMap<Vec<u8>, Option<bool>>,
    in_object: bool,
}

impl Model for Environment {
    ghost use Rattle.std.specs.Prelude.{map, reverse};
    ghost use Rattle.es6_static_semantics.specs.Outside.{Scope};
    ghost use Rattle.module_scopes.specs.Lookup.{AgreeWith, declaration, innermost_of};

    ghost Value = { Scope };

    ghost view = { λ s. record { known = map declaration (reverse s.stack.items); in_object = s.in_object } };

    ghost invariant = { λ s. AgreeWith (innermost_of s.innermost) (reverse s.stack.items) };
}

impl Environment {
    /// Where nothing is declared.
    pub fn new(alloc: Global) -> Environment
        ensures { result ≡ record { known = []; in_object = false } }
    {
        Environment {
            alloc,
            stack: Vec::new(alloc),
            innermost: HashMap::new(alloc),
            in_object: false,
        }
    }

    pub fn alloc(&self) -> Global {
        self.alloc
    }

    /// Whether the innermost declaration of the name, if there is one, is an import from the host.
    pub fn declared_as(&self, name: &[u8]) -> Option<bool>
        ensures { result ≡ declared_as name.now self.now.known }
    {
        innermost_of(&self.innermost, name)
    }

    /// Whether no declaration has the name.
    pub fn is_free(&self, name: &[u8]) -> bool
        ensures { result ≡ is_free name.now self.now }
    {
        self.declared_as(name).is_none()
    }

    /// Whether the name is imported from the host.
    pub fn is_host_import(&self, name: &[u8]) -> bool
        ensures { result ≡ is_host_import name.now self.now }
    {
        self.declared_as(name).unwrap_or(false)
    }

    /// Whether the place is in a method of an object literal, or in arrows in it.
    pub fn is_in_object(&self) -> bool
        ensures { result ≡ self.now.in_object }
    {
        self.in_object
    }

    /// Enters a function, or leaves it again: whether it is a method of an object literal. The answer says so of where it stands.
    pub fn replace_in_object(&mut self, in_object: bool) -> bool
        ensures outer { result ≡ self.old.in_object }
        ensures inner { self.new ≡ record self.old { in_object = in_object } }
    {
        mem::replace(&mut self.in_object, in_object)
    }

    /// Enters a scope that declares these names. The answer is what `leave` takes.
    pub fn enter(&mut self, mut bindings: Bindings) -> Result<usize, AllocError>
        ensures scope { OnOk result (self.new ≡ record self.old { known = bindings ++ self.old.known }) }
        ensures mark { IfOk result (λ mark. mark ≡ length self.old.known) }
    {
        let mark = self.stack.len();
        while let Some(binding) = bindings.pop() {
            self.push(binding)?;
        }
        Ok(mark)
    }

    /// Leaves scopes until so many names are declared.
    pub fn leave(&mut self, mark: usize)
        ensures { self.new ≡ record self.old { known = drop (length self.old.known - mark) self.old.known } }
    {
        while self.len() > mark {
            self.pop();
        }
    }

    fn len(&self) -> usize
        ensures { result ≡ length self.now.known }
    {
        self.stack.len()
    }

    fn push(&mut self, binding: Binding) -> Result<(), AllocError>
        ensures { OnOk result (self.new ≡ record self.old { known = known_of binding ∷ self.old.known }) }
    {
        let Binding { name, is_host } = binding;
        let key = name.clone()?;
        let outer = innermost_of(&self.innermost, key.as_slice());
        self.stack.push(Declared {
            name,
            is_host,
            outer,
        })?;
        if let Err(failed) = set_innermost(&mut self.innermost, key, Some(is_host)) {
            let _ = self.stack.pop();
            return Err(failed);
        }
        Ok(())
    }

    /// Takes the innermost name away, if there is one.
    fn pop(&mut self)
        ensures { self.new ≡ record self.old { known = drop 1 self.old.known } }
    {
        let Some(declared) = self.stack.pop() else {
            return;
        };
        // the name is in the map, so that this takes no memory
        let _ = set_innermost(&mut self.innermost, declared.name, declared.outer);
    }
}

fn innermost_of(innermost: &HashMap<Vec<u8>, Option<bool>>, name: &[u8]) -> Option<bool>
    ensures { result ≡ innermost_of innermost.now name.now }
{
    innermost.get(name).copied().unwrap_or(None)
}

fn set_innermost(
    innermost: &mut HashMap<Vec<u8>, Option<bool>>,
    name: Vec<u8>,
    is_host: Option<bool>,
) -> Result<(), AllocError>
    ensures ok { OnOk result ((other : List ℕ) → innermost_of innermost.new other ≡ (if bytes_eq name.items other then is_host else innermost_of innermost.old other)) }
    ensures err { OnErr result ((other : List ℕ) → innermost_of innermost.new other ≡ innermost_of innermost.old other) }
    ensures absent { OnErr result (innermost_of innermost.old name.items ≡ None) }
{
    innermost.insert(name, is_host)?;
    Ok(())
}
