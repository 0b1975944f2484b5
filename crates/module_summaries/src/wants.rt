//! The names that a module wants of others: each imported name, and each name of an `export { .. } from`.

ghost use Rattle.std.specs.Prelude.{◌≡◌, ◌∷◌, ◌++◌, [], map, OnOk};
ghost use Rattle.es6_static_semantics.specs.Findings.{joined};
ghost use Rattle.es6_static_semantics.specs.Endings.{wanted_default, wanted_exports, wanted_listed};
ghost use Rattle.module_summaries.specs.Homes.{home_in};
ghost use Rattle.module_summaries.specs.Parts.{listed_want, passed_want, want_at, want_offsets, wants_at};

use crate::homes::Homes;
use es6_ast::{ExportName, Identifier, ImportName, ImportedNames, Item, Specifier};
use module_endings::Place;
use sqlite_items::Items;
use std::alloc::{AllocError, Global};

/// What a module wants, in text order: where each name is looked up, and at which offset it stands.
#[derive(Drop)]
pub(crate) struct Wants {
    pub(crate) places: Items<Place>,
    pub(crate) offsets: Items<u32>,
}

impl Wants {
    pub(crate) fn new(alloc: Global) -> Wants
        ensures places { result.places ≡ [] }
        ensures offsets { result.offsets ≡ [] }
    {
        Wants {
            places: Items::new(alloc),
            offsets: Items::new(alloc),
        }
    }

    fn want(&mut self, place: Place, offset: u32) -> Result<(), AllocError>
        ensures places { OnOk result (self.new.places ≡ self.old.places ++ place ∷ []) }
        ensures offsets { OnOk result (self.new.offsets ≡ self.old.offsets ++ offset ∷ []) }
    {
        self.places.push(place)?;
        self.offsets.push(offset)
    }
}

/// Adds what the items want.
pub(crate) fn add_wants(
    all: &mut Wants,
    alloc: Global,
    homes: &Homes,
    items: &[Item],
) -> Result<(), AllocError>
    ensures places { OnOk result (all.new.places ≡ all.old.places ++ joined (wants_at (home_in homes.now)) items.now) }
    ensures offsets { OnOk result (all.new.offsets ≡ all.old.offsets ++ joined want_offsets items.now) }
{
    for item in items {
        add_item(all, alloc, homes, item)?;
    }
    Ok(())
}

fn add_item(all: &mut Wants, alloc: Global, homes: &Homes, item: &Item) -> Result<(), AllocError>
    ensures places { OnOk result (all.new.places ≡ all.old.places ++ wants_at (home_in homes.now) item.now) }
    ensures offsets { OnOk result (all.new.offsets ≡ all.old.offsets ++ want_offsets item.now) }
{
    match item {
        Item::Import {
            default,
            names,
            from,
            ..
        } => {
            add_default(all, alloc, homes, from, default)?;
            add_more(all, alloc, homes, from, names)
        }
        Item::ExportNames { names, from, .. } => add_passed(all, alloc, homes, from, names),
        Item::ExportAll { .. }
        | Item::ExportDeclaration { .. }
        | Item::ExportDefault { .. }
        | Item::Statement(_) => Ok(()),
    }
}

fn add_default(
    all: &mut Wants,
    alloc: Global,
    homes: &Homes,
    from: &Specifier,
    name: &Option<Identifier>,
) -> Result<(), AllocError>
    ensures places { OnOk result (all.new.places ≡ all.old.places ++ map (want_at (home_in homes.now)) (wanted_default from.now name.now)) }
    ensures offsets { OnOk result (all.new.offsets ≡ all.old.offsets ++ map (λ w. w.at) (wanted_default from.now name.now)) }
{
    if let Some(name) = name {
        all.want(homes.place(alloc, from, b"default")?, name.span.begin)?;
    }
    Ok(())
}

#[tactic(auto, using(crate::proofs::Maps::map_twice))]
fn add_more(
    all: &mut Wants,
    alloc: Global,
    homes: &Homes,
    from: &Specifier,
    names: &ImportedNames,
) -> Result<(), AllocError>
    ensures places { OnOk result (all.new.places ≡ all.old.places ++ map (want_at (home_in homes.now)) (wanted_listed from.now names.now)) }
    ensures offsets { OnOk result (all.new.offsets ≡ all.old.offsets ++ map (λ w. w.at) (wanted_listed from.now names.now)) }
{
    match names {
        ImportedNames::NoNames | ImportedNames::Namespace(_) => Ok(()),
        ImportedNames::Listed(listed) => add_listed(all, alloc, homes, from, listed.as_slice()),
    }
}

fn add_listed(
    all: &mut Wants,
    alloc: Global,
    homes: &Homes,
    from: &Specifier,
    listed: &[ImportName],
) -> Result<(), AllocError>
    ensures places { OnOk result (all.new.places ≡ all.old.places ++ map (listed_want (home_in homes.now) from.now) listed.now) }
    ensures offsets { OnOk result (all.new.offsets ≡ all.old.offsets ++ map (λ n. n.imported.span.begin) listed.now) }
{
    for name in listed {
        let place = homes.place(alloc, from, name.imported.name.bytes())?;
        all.want(place, name.imported.span.begin)?;
    }
    Ok(())
}

/// Adds the names of an `export { .. } from`.
#[tactic(auto, using(crate::proofs::Maps::map_twice))]
fn add_passed(
    all: &mut Wants,
    alloc: Global,
    homes: &Homes,
    from: &Option<Specifier>,
    names: &Items<ExportName>,
) -> Result<(), AllocError>
    ensures places { OnOk result (all.new.places ≡ all.old.places ++ map (want_at (home_in homes.now)) (wanted_exports from.now names.now)) }
    ensures offsets { OnOk result (all.new.offsets ≡ all.old.offsets ++ map (λ w. w.at) (wanted_exports from.now names.now)) }
{
    match from {
        None => Ok(()),
        Some(from) => add_passed_from(all, alloc, homes, from, names.as_slice()),
    }
}

fn add_passed_from(
    all: &mut Wants,
    alloc: Global,
    homes: &Homes,
    from: &Specifier,
    names: &[ExportName],
) -> Result<(), AllocError>
    ensures places { OnOk result (all.new.places ≡ all.old.places ++ map (passed_want (home_in homes.now) from.now) names.now) }
    ensures offsets { OnOk result (all.new.offsets ≡ all.old.offsets ++ map (λ n. n.local.span.begin) names.now) }
{
    for name in names {
        let place = homes.place(alloc, from, name.local.name.bytes())?;
        all.want(place, name.local.span.begin)?;
    }
    Ok(())
}
