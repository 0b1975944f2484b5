//! The var names of a function or a module that a walk has passed.

ghost use Rattle.std.specs.Prelude.{◌≡◌, [], ◌∷◌, ◌++◌, Some, drop, if◌then◌else◌, length, List, ℕ, OnErr, OnOk};
ghost use Rattle.std.specs.List.{list_any};
ghost use Rattle.std.specs.Str.{bytes_eq};
ghost use Rattle.es6_static_semantics.specs.Findings.{is_name_of};
ghost use Rattle.early_scopes.specs.Since.{is_since, last_of};

use early_names::PlacedName;
use std::alloc::{AllocError, Global};
use std::collections::HashMap;
use std::marker::Model;

/// Var names in text order, of which contracts see the list. Whether a name is one of those from a place in the list on is
/// found without a search, so that each scope in a function asks for the names that stand in it, which are the last ones so far.
#[derive(Drop)]
pub(crate) struct VarNames<'a> {
    alloc: Global,
    names: Vec<PlacedName<'a>>,
    /// the index at which a name last stands
    last: HashMap<&'a [u8], usize>,
}

impl<'a> Model for VarNames<'a> {
    ghost use Rattle.std.specs.Prelude.{List};
    ghost use Rattle.es6_ast.specs.declared.tree.Identifier.{Identifier};
    ghost use Rattle.early_scopes.specs.Since.{AgreeWith, last_of};

    ghost Value = { List Identifier };

    ghost view = { λ v. v.names.items };

    ghost invariant = { λ v. AgreeWith (last_of v.last) v.names.items };
}

impl<'a> VarNames<'a> {
    /// No names.
    pub(crate) fn new(alloc: Global) -> VarNames<'a>
        ensures { result ≡ [] }
    {
        VarNames {
            alloc,
            names: Vec::new(alloc),
            last: HashMap::new(alloc),
        }
    }

    /// What the names are kept in.
    pub(crate) fn alloc(&self) -> Global {
        self.alloc
    }

    /// How many there are.
    pub(crate) fn len(&self) -> usize
        ensures { result ≡ length self.now }
    {
        self.names.len()
    }

    /// Adds a name at the end.
    pub(crate) fn push(&mut self, name: PlacedName<'a>) -> Result<(), AllocError>
        ensures { OnOk result (self.new ≡ self.old ++ name.entry ∷ []) }
    {
        let bytes = name.bytes();
        let index = self.names.len();
        self.names.push(name)?;
        if let Err(failed) = set_last(&mut self.last, bytes, index) {
            let _ = self.names.pop();
            return Err(failed);
        }
        Ok(())
    }

    /// Adds names at the end.
    pub(crate) fn extend(&mut self, names: &[PlacedName<'a>]) -> Result<(), AllocError>
        ensures { OnOk result (self.new ≡ self.old ++ names.now) }
    {
        for name in names {
            self.push(name.copy())?;
        }
        Ok(())
    }

    /// The names from an index on.
    pub(crate) fn since(&self, mark: usize) -> &[PlacedName<'a>]
        ensures { result.now ≡ drop mark self.now }
    {
        let mark = mark.min(self.names.len());
        self.names.as_slice().split_at(mark).1
    }

    /// Whether a name is one of those from an index on.
    pub(crate) fn contains(&self, mark: usize, name: &[u8]) -> bool
        ensures { result ≡ is_name_of name.now (drop mark self.now) }
    {
        is_since(mark, self.last.get(name).copied())
    }

    /// Whether one of these names is one of those from an index on.
    pub(crate) fn contain_any(&self, mark: usize, names: &[PlacedName]) -> bool
        ensures { result ≡ list_any (λ x. is_name_of x.name (drop mark self.now)) names.now }
    {
        for name in names {
            if self.contains(mark, name.bytes()) {
                return true;
            }
        }
        false
    }
}

fn is_since(mark: usize, last: Option<usize>) -> bool
    ensures { result ≡ is_since mark last }
{
    match last {
        None => false,
        Some(last) => mark <= last,
    }
}

fn set_last<'a>(
    last: &mut HashMap<&'a [u8], usize>,
    name: &'a [u8],
    index: usize,
) -> Result<(), AllocError>
    ensures ok { OnOk result ((other : List ℕ) → last_of last.new other ≡ (if bytes_eq name.now other then Some index else last_of last.old other)) }
    ensures err { OnErr result ((other : List ℕ) → last_of last.new other ≡ last_of last.old other) }
{
    last.insert(name, index)?;
    Ok(())
}
