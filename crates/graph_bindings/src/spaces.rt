//! The namespaces that modules import (ECMA-262, 6th edition, 15.2.2.3).

ghost use Rattle.std.specs.Prelude.{◌≡◌, ℕ, ◌++◌, map, IfOk, OnOk};
ghost use Rattle.graph_bindings.specs.Spaces.{placed, spaces_under};
ghost use Rattle.module_lowering.specs.Modules.{imported_spaces, item_spaces, module_in, space_at};
ghost use Rattle.es6_static_semantics.specs.Endings.{requested};

use crate::requests::Requests;
use es6_ast::{ImportedNames, Item, LoadedModule};
use sqlite_items::Items;
use std::alloc::{AllocError, Global};
use std::collections::HashMap;
use std::marker::Model;

/// An imported namespace: where its name begins, an offset in bytes, and the number of its module.
#[derive(Drop)]
pub(crate) struct Space {
    pub(crate) at: u32,
    pub(crate) home: Option<u32>,
}

impl Model for Space {
    ghost use Rattle.module_lowering.specs.Modules.{ImportedSpace};

    ghost Value = { ImportedSpace };

    ghost view = { λ s. record { at = s.at; home = s.home } };
}

impl Space {
    fn at(&self) -> u32
        ensures { result ≡ self.now.at }
    {
        self.at
    }

    /// The number of its module.
    pub(crate) fn home(&self) -> Option<u32>
        ensures { result ≡ self.now.home }
    {
        self.home
    }
}

/// The namespaces that a module imports, looked up by hash. Of those at one place the first counts.
#[derive(Drop)]
pub(crate) struct Spaces {
    list: Items<Space>,
    index: HashMap<u32, Option<u32>>,
}

impl Model for Spaces {
    ghost use Rattle.std.specs.Prelude.{◌≡◌, ℕ, List};
    ghost use Rattle.graph_bindings.specs.Spaces.{placed};
    ghost use Rattle.module_lowering.specs.Modules.{ImportedSpace, space_at};

    ghost Value = { List ImportedSpace };

    ghost view = { λ s. s.list };

    ghost invariant = { λ s. (at : ℕ) → placed s.index at ≡ space_at at s.list };
}

/// The modules of namespaces by the places of their names.
fn index_of(alloc: Global, spaces: &[Space]) -> Result<HashMap<u32, Option<u32>>, AllocError>
    ensures { IfOk result (λ index. (at : ℕ) → placed index at ≡ space_at at spaces.now) }
{
    let mut index = HashMap::new(alloc);
    let mut left = spaces.len();
    while left > 0 {
        left -= 1;
        let space = &spaces[left];
        index.insert(space.at(), space.home())?;
    }
    Ok(index)
}

impl Spaces {
    fn of(alloc: Global, list: Items<Space>) -> Result<Spaces, AllocError>
        ensures { IfOk result (λ s. s ≡ list) }
    {
        let index = index_of(alloc, list.as_slice())?;
        Ok(Spaces { list, index })
    }

    pub(crate) fn as_slice(&self) -> &[Space]
        ensures { result.now ≡ self.now }
    {
        self.list.as_slice()
    }

    /// The module of the namespace whose name begins at a place.
    pub(crate) fn at(&self, place: u32) -> Option<u32>
        ensures { result ≡ space_at place self.now }
    {
        match self.index.get(&place) {
            None => None,
            Some(home) => *home,
        }
    }
}

/// The namespace that an import from a module names.
fn push_space(
    names: &ImportedNames,
    home: Option<u32>,
    out: &mut Items<Space>,
) -> Result<(), AllocError>
    ensures { OnOk result (out.new ≡ out.old ++ spaces_under home names.now) }
{
    match names {
        ImportedNames::NoNames | ImportedNames::Listed(_) => Ok(()),
        ImportedNames::Namespace(name) => {
            let at = name.span.begin;
            out.push(Space { at, home })
        }
    }
}

fn push_spaces(requests: &Requests, item: &Item, out: &mut Items<Space>) -> Result<(), AllocError>
    ensures { OnOk result (out.new ≡ out.old ++ item_spaces requests.now item.now) }
{
    match item {
        Item::Import { names, from, .. } => {
            push_space(names, requests.module_of(from.text.units()), out)
        }
        _ => Ok(()),
    }
}

fn list_of(alloc: Global, loaded: &LoadedModule) -> Result<Items<Space>, AllocError>
    ensures { IfOk result (λ spaces. spaces ≡ imported_spaces loaded.now) }
{
    let requests = Requests::of(alloc, loaded.requests.as_slice())?;
    let mut spaces = Items::new(alloc);
    for item in loaded.tree.items.as_slice() {
        push_spaces(&requests, item, &mut spaces)?;
    }
    Ok(spaces)
}

/// The namespaces that a module imports.
fn spaces_of(alloc: Global, loaded: &LoadedModule) -> Result<Spaces, AllocError>
    ensures { IfOk result (λ spaces. spaces ≡ imported_spaces loaded.now) }
{
    let list = list_of(alloc, loaded)?;
    Spaces::of(alloc, list)
}

/// The same of each module of a graph.
pub(crate) fn all_spaces(
    alloc: Global,
    modules: &[LoadedModule],
) -> Result<Items<Spaces>, AllocError>
    ensures { IfOk result (λ spaces. spaces ≡ map imported_spaces modules.now) }
{
    let mut spaces = Items::new(alloc);
    for loaded in modules {
        spaces.push(spaces_of(alloc, loaded)?)?;
    }
    Ok(spaces)
}
