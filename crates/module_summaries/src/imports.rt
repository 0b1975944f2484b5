//! The names that a module's imports bind, and where each is looked up (15.2.2.3).

ghost use Rattle.std.specs.Prelude.{◌≡◌, ◌++◌, map, IfOk, OnOk};
ghost use Rattle.es6_static_semantics.specs.Findings.{joined};
ghost use Rattle.es6_static_semantics.specs.Endings.{default_entry, import_entry, listed_entries};
ghost use Rattle.module_summaries.specs.Homes.{home_in};
ghost use Rattle.module_summaries.specs.Parts.{import_at, imports_at, listed_import};

use crate::homes::Homes;
use es6_ast::{Identifier, ImportName, ImportedNames, Item, Specifier};
use module_endings::Export;
use sqlite_items::Items;
use std::alloc::{AllocError, Global};

/// Adds what the items import.
pub(crate) fn add_imports(
    all: &mut Items<Export>,
    alloc: Global,
    homes: &Homes,
    items: &[Item],
) -> Result<(), AllocError>
    ensures { OnOk result (all.new ≡ all.old ++ joined (imports_at (home_in homes.now)) items.now) }
{
    for item in items {
        add_item(all, alloc, homes, item)?;
    }
    Ok(())
}

fn add_item(
    all: &mut Items<Export>,
    alloc: Global,
    homes: &Homes,
    item: &Item,
) -> Result<(), AllocError>
    ensures { OnOk result (all.new ≡ all.old ++ imports_at (home_in homes.now) item.now) }
{
    match item {
        Item::Import {
            default,
            names,
            from,
            ..
        } => {
            add_default(all, alloc, homes, from, default)?;
            add_more(all, alloc, homes, from, names)
        }
        Item::ExportNames { .. }
        | Item::ExportAll { .. }
        | Item::ExportDeclaration { .. }
        | Item::ExportDefault { .. }
        | Item::Statement(_) => Ok(()),
    }
}

fn add_default(
    all: &mut Items<Export>,
    alloc: Global,
    homes: &Homes,
    from: &Specifier,
    name: &Option<Identifier>,
) -> Result<(), AllocError>
    ensures { OnOk result (all.new ≡ all.old ++ map (import_at (home_in homes.now)) (default_entry from.now name.now)) }
{
    if let Some(name) = name {
        all.push(import(alloc, homes, from, b"default", name)?)?;
    }
    Ok(())
}

#[tactic(auto, using(crate::proofs::Maps::map_twice))]
fn add_more(
    all: &mut Items<Export>,
    alloc: Global,
    homes: &Homes,
    from: &Specifier,
    names: &ImportedNames,
) -> Result<(), AllocError>
    ensures { OnOk result (all.new ≡ all.old ++ map (import_at (home_in homes.now)) (listed_entries from.now names.now)) }
{
    match names {
        ImportedNames::NoNames | ImportedNames::Namespace(_) => Ok(()),
        ImportedNames::Listed(listed) => add_listed(all, alloc, homes, from, listed.as_slice()),
    }
}

fn add_listed(
    all: &mut Items<Export>,
    alloc: Global,
    homes: &Homes,
    from: &Specifier,
    listed: &[ImportName],
) -> Result<(), AllocError>
    ensures { OnOk result (all.new ≡ all.old ++ map (listed_import (home_in homes.now) from.now) listed.now) }
{
    for name in listed {
        let imported = name.imported.name.bytes();
        all.push(import(alloc, homes, from, imported, &name.local)?)?;
    }
    Ok(())
}

/// A name that is imported, and the one that it binds.
fn import(
    alloc: Global,
    homes: &Homes,
    from: &Specifier,
    imported: &[u8],
    local: &Identifier,
) -> Result<Export, AllocError>
    ensures { IfOk result (λ made. made ≡ import_at (home_in homes.now) (import_entry from.now imported.now local.now)) }
{
    Ok(Export {
        name: local.name.copy(alloc)?,
        source: homes.place(alloc, from, imported)?,
    })
}
