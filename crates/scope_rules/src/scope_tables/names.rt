//! The bindings of a module, which are found by scope and name.

ghost use Rattle.std.specs.Prelude.{◌≡◌, ℕ, List, [], ◌∷◌, ◌++◌, ◌&&◌, nat_eq, None, Some, if◌then◌else◌, reverse, OnErr, OnOk};
ghost use Rattle.std.specs.Str.{bytes_eq};
ghost use Rattle.scope_rules.specs.scope_tables.Numbered.{number_in};
ghost use Rattle.scope_rules.specs.scope_tables.Scoping.{binding_at, bound, found, number_of, with_binding};

use crate::scope_tables::binding::{Binding, binding_at};
use crate::scope_tables::place::Place;
use crate::scope_tables::reference::Found;
use crate::{Kind, Mark};
use std::alloc::{AllocError, Global};
use std::collections::HashMap;
use std::marker::Model;

/// The bindings in the order in which they are declared first, of which contracts see the list, and their numbers by scope and name.
#[derive(Drop)]
pub struct Names<'a> {
    alloc: Global,
    bindings: Vec<Binding>,
    numbers: HashMap<(usize, &'a [u8]), usize>,
}

impl<'a> Model for Names<'a> {
    ghost use Rattle.std.specs.Prelude.{List};
    ghost use Rattle.scope_rules.specs.declared.scope_tables.binding.Binding.{Binding};
    ghost use Rattle.scope_rules.specs.scope_tables.Numbered.{Numbered, number_in};

    ghost Value = { List Binding };

    ghost view = { λ n. n.bindings.items };

    ghost invariant = { λ n. Numbered (number_in n.numbers) n.bindings.items };
}

impl<'a> Names<'a> {
    pub(crate) fn new(alloc: Global) -> Names<'a>
        ensures { result ≡ [] }
    {
        Names {
            alloc,
            bindings: Vec::new(alloc),
            numbers: HashMap::new(alloc),
        }
    }

    /// The bindings by their numbers.
    pub fn bindings(&self) -> &[Binding]
        ensures { result.now ≡ self.now }
    {
        self.bindings.as_slice()
    }

    /// The number of the binding that a scope has for a name.
    pub fn number_of(&self, scope: usize, name: &'a [u8]) -> Option<usize>
        ensures { result ≡ number_of scope name.now self.now }
    {
        number_in(&self.numbers, scope, name)
    }

    /// What a mark declares, at a place.
    pub(crate) fn meet(&mut self, place: Place, mark: &Mark<'a>) -> Result<(), AllocError>
        ensures { OnOk result (self.new ≡ bound mark.now place self.old) }
    {
        match mark {
            Mark::Declares {
                kind,
                name,
                at,
                end,
            } => self.declare(place, *kind, name.bytes(), *at, *end),
            _ => Ok(()),
        }
    }

    fn declare(
        &mut self,
        place: Place,
        kind: Kind,
        name: &'a [u8],
        at: u32,
        end: u32,
    ) -> Result<(), AllocError>
        ensures { OnOk result (self.new ≡ with_binding (binding_at kind name.now at end place) self.old) }
    {
        let binding = binding_at(self.alloc, kind, name, at, end, place)?;
        match self.number_of(binding.scope, name) {
            Some(_) => Ok(()),
            None => self.add(name, binding),
        }
    }

    /// A binding of the name that isn't there yet.
    fn add(&mut self, name: &'a [u8], binding: Binding) -> Result<(), AllocError>
        requires name { name.now ≡ binding.name }
        requires absent { number_of binding.scope binding.name self.now ≡ None }
        ensures { OnOk result (self.new ≡ self.old ++ binding ∷ []) }
    {
        let number = self.bindings.len();
        let scope = binding.scope;
        self.bindings.push(binding)?;
        if let Err(failed) = put(&mut self.numbers, scope, name, number) {
            let _ = self.bindings.pop();
            return Err(failed);
        }
        Ok(())
    }

    /// What a name finds from places, of which the last is the innermost (8.1.2.1).
    #[tactic(auto, using(crate::proofs::scope_tables::Finding::finding))]
    pub(crate) fn find(&self, name: &'a [u8], places: &[Place]) -> Option<Found>
        ensures { result ≡ found name.now self.now (reverse places.now) }
    {
        let (place, outer) = places.split_last()?;
        match self.number_of(place.scope, name) {
            None => self.find(name, outer),
            Some(number) => Some(Found {
                number,
                place: *place,
            }),
        }
    }
}

fn number_in<'a>(
    numbers: &HashMap<(usize, &'a [u8]), usize>,
    scope: usize,
    name: &'a [u8],
) -> Option<usize>
    ensures { result ≡ number_in numbers.now scope name.now }
{
    numbers.get(&(scope, name)).copied()
}

fn put<'a>(
    numbers: &mut HashMap<(usize, &'a [u8]), usize>,
    scope: usize,
    name: &'a [u8],
    number: usize,
) -> Result<(), AllocError>
    ensures ok { OnOk result ((s : ℕ) (n : List ℕ) → number_in numbers.new s n ≡ (if nat_eq scope s && bytes_eq name.now n then Some number else number_in numbers.old s n)) }
    ensures err { OnErr result ((s : ℕ) (n : List ℕ) → number_in numbers.new s n ≡ number_in numbers.old s n) }
{
    numbers.insert((scope, name), number)?;
    Ok(())
}
