//! The modules that the names of one come from: itself, and those of `export *`, of theirs, and so on (15.2.1.16.2).

ghost use Rattle.std.specs.Prelude.{◌≡◌, ◌∷◌, [], IfOk, OnOk};
ghost use Rattle.graph_namespaces.specs.Asked.{Asks, KeepsKeys, Visits, asked_names};

use indexmap::IndexSet;
use module_endings::{Export, Home, Place, Summary};
use sqlite_items::Items;
use std::alloc::{AllocError, Global};

/// The names that the module with this number may export, as places of that module: those that it exports itself, and those of the
/// modules that are reached from it by stars.
pub(crate) fn names_for(
    alloc: Global,
    known: &[Summary],
    index: u32,
) -> Result<Items<Place>, AllocError>
    ensures { IfOk result (λ names. Asks known.now index names) }
{
    let mut reached = IndexSet::new(alloc);
    let mut names = Items::new(alloc);
    reached.insert(index)?;
    let mut at = 0;
    while at < reached.len() {
        let Some(number) = reached.get_index(at).copied() else {
            return Err(AllocError);
        };
        visit(alloc, known, number, index, &mut reached, &mut names)?;
        at += 1;
    }
    Ok(names)
}

/// Adds the names and the stars of one module.
fn visit(
    alloc: Global,
    known: &[Summary],
    number: u32,
    index: u32,
    reached: &mut IndexSet<u32>,
    names: &mut Items<Place>,
) -> Result<(), AllocError>
    ensures { OnOk result (Visits known.now number index reached.old.keys names.old reached.new.keys names.new) }
{
    match known.get(number as usize) {
        None => Ok(()),
        Some(summary) => {
            add_names(alloc, index, summary.exports.as_slice(), names)?;
            add_stars(summary.stars.as_slice(), reached)?;
            Ok(())
        }
    }
}

/// Adds the names of these exports, each asked of one module.
fn add_names(
    alloc: Global,
    index: u32,
    exports: &[Export],
    names: &mut Items<Place>,
) -> Result<(), AllocError>
    ensures { OnOk result (names.new ≡ asked_names index names.old exports.now) }
{
    for export in exports {
        let place = Place {
            home: Home::Module(index),
            name: export.name.copy(alloc)?,
        };
        names.push(place)?;
    }
    Ok(())
}

/// Adds the modules of these stars.
fn add_stars(stars: &[Home], reached: &mut IndexSet<u32>) -> Result<(), AllocError>
    ensures { OnOk result (KeepsKeys stars.now reached.old.keys reached.new.keys) }
{
    for home in stars {
        add_star(home, reached)?;
    }
    Ok(())
}

fn add_star(home: &Home, reached: &mut IndexSet<u32>) -> Result<(), AllocError>
    ensures { OnOk result (KeepsKeys (home.now ∷ []) reached.old.keys reached.new.keys) }
{
    match home {
        Home::Module(number) => {
            reached.insert(*number)?;
            Ok(())
        }
        Home::Nowhere | Home::OfHosts | Home::Binding(_) => Ok(()),
    }
}
