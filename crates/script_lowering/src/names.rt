//! Names that are numbered as they are met.

ghost use Rattle.std.specs.Prelude.{◌≡◌, [], map, Some, IfOk, OnOk};
ghost use Rattle.script_lowering.specs.Reading.{place_in, with_name};

use crate::functions::number;
use core_ast::Var;
use indexmap::IndexSet;
use shared_text::Name;
use sqlite_items::Items;
use std::alloc::{AllocError, Global};
use std::marker::Model;

/// The names of a script in the order in which they come first, borrowed, of which contracts see the list.
#[derive(Drop)]
pub struct ScriptNames<'a> {
    names: IndexSet<&'a [u8]>,
}

impl<'a> Model for ScriptNames<'a> {
    ghost use Rattle.std.specs.Prelude.{ℕ, List, map};

    ghost Value = { List (List ℕ) };

    ghost view = { λ n. map (λ k. k.now) n.names.keys };
}

impl<'a> ScriptNames<'a> {
    pub fn new(alloc: Global) -> ScriptNames<'a>
        ensures { result ≡ [] }
    {
        ScriptNames {
            names: IndexSet::new(alloc),
        }
    }

    /// The variable of a name: its place among the names, to which it is added unless it is there.
    pub fn named(&mut self, name: &'a [u8]) -> Result<Var, AllocError>
        ensures var { IfOk result (λ x. x ≡ record { 0 = place_in self.old name.now }) }
        ensures names { OnOk result (self.new ≡ with_name name.now self.old) }
    {
        let added = self.names.insert_full(name)?;
        let place = number(added.0)?;
        Ok(Var(place))
    }

    /// The names as the hints of a core's variables.
    pub fn hints(&self, alloc: Global) -> Result<Items<Option<Name>>, AllocError>
        ensures { IfOk result (λ hints. hints ≡ map (λ n. Some n) self.now) }
    {
        hints_of(alloc, self.names.as_slice())
    }
}

fn hints_of(alloc: Global, names: &[&[u8]]) -> Result<Items<Option<Name>>, AllocError>
    ensures { IfOk result (λ hints. hints ≡ map (λ n. Some n) (map (λ k. k.now) names.now)) }
{
    let mut hints = Items::new(alloc);
    for name in names {
        hints.push(Some(Name::of_bytes(alloc, *name)?))?;
    }
    Ok(hints)
}
