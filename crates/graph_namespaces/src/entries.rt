//! The entries of one namespace object.

ghost use Rattle.std.specs.Prelude.{◌≡◌, length, IfOk, OnOk};
ghost use Rattle.std.specs.BTreeMap.{values};
ghost use Rattle.graph_namespaces.specs.Entries.{Adds, AddsOutcome, IsPicked};

use es6_ast::EndOf;
use lower_walk::lower_names::units_of;
use module_endings::{Outcome, Place};
use module_lowering::Entry;
use sqlite_items::Items;
use std::alloc::{AllocError, Global};
use std::collections::BTreeMap;

/// The entries of the names that end at a binding of a module, in the order of their code units (9.4.6.12), no two alike.
pub(crate) fn entries_of(
    alloc: Global,
    names: &[Place],
    outcomes: &[Outcome],
) -> Result<Items<Entry>, AllocError>
    requires { length names.now ≡ length outcomes.now }
    ensures { IfOk result (λ entries. IsPicked names.now outcomes.now entries) }
{
    let mut book = BTreeMap::new(alloc);
    for (at, outcome) in outcomes.iter().enumerate() {
        add_outcome(alloc, &names[at], outcome, &mut book)?;
    }
    // That the keys ascend is known of every map.
    let _count = book.len();
    let entries = in_order(alloc, book)?;
    Ok(entries)
}

/// Adds the entry of a name, if it ends at a binding of a module.
fn add_outcome(
    alloc: Global,
    place: &Place,
    outcome: &Outcome,
    book: &mut BTreeMap<Vec<u16>, Entry>,
) -> Result<(), AllocError>
    ensures { OnOk result (AddsOutcome place.now outcome.now book.old.entries book.new.entries) }
{
    match outcome {
        Outcome::Ends(EndOf::Local { module, name }) => {
            let entry = Entry {
                name: place.name.copy(alloc)?,
                home: *module,
                local: name.copy(alloc)?,
            };
            add(alloc, entry, book)
        }
        Outcome::Ends(EndOf::Host { .. }) | Outcome::Unresolved | Outcome::Ambiguous => Ok(()),
    }
}

/// Adds an entry, unless one of its name is there.
fn add(alloc: Global, entry: Entry, book: &mut BTreeMap<Vec<u16>, Entry>) -> Result<(), AllocError>
    ensures { OnOk result (Adds entry book.old.entries book.new.entries) }
{
    let units = units_of(alloc, entry.name.bytes())?;
    if let Some(known) = book.get(units.units()) {
        // Names of a module are well-formed, so that those of the same units are the same.
        if known.name.is(entry.name.bytes()) {
            return Ok(());
        }
        return Err(AllocError);
    }
    let mut key = Vec::new(alloc);
    key.extend_from_slice(units.units())?;
    book.insert(key, entry)?;
    Ok(())
}

/// The entries of a book, from the first to the last.
fn in_order(alloc: Global, mut book: BTreeMap<Vec<u16>, Entry>) -> Result<Items<Entry>, AllocError>
    ensures { IfOk result (λ entries. entries ≡ values book) }
{
    let mut entries = Items::new(alloc);
    while let Some((_units, entry)) = book.pop_first() {
        entries.push(entry)?;
    }
    Ok(entries)
}
