//! Where imports end.

ghost use Rattle.std.specs.Prelude.{◌≡◌, ℕ, ◌++◌, map, None, Some, slice_get, IfOk, OnOk};
ghost use Rattle.es6_static_semantics.specs.Findings.{joined};
ghost use Rattle.binding_tables.specs.Rows.{rows_of};
ghost use Rattle.scope_analysis.specs.Ends.{AreAllEnds, default_place, end_id, end_row, end_rows, exported_places, item_places, listed_places, named_in, own_id, want_places};

use crate::tables::ModuleScopes;
use binding_tables::{BindingId, Row, Table};
use es6_ast::{
    EndOf, ExportName, Identifier, ImportName, ImportedNames, Item, LoadedModule, Specifier,
};
use std::alloc::{AllocError, Global};

/// For each module a table of where its imports end, by the places of the names that they bind.
pub(crate) fn all_ends<'a>(
    alloc: Global,
    modules: &[ModuleScopes<'a>],
    loaded: &'a [LoadedModule],
) -> Result<Vec<Table>, AllocError>
    ensures { IfOk result (λ ends. AreAllEnds modules.now loaded.now ends.items) }
{
    let mut ends = Vec::new(alloc);
    for module in loaded {
        let table = ends_of(alloc, modules, module)?;
        ends.push(table)?;
    }
    Ok(ends)
}

fn ends_of<'a>(
    alloc: Global,
    modules: &[ModuleScopes<'a>],
    loaded: &'a LoadedModule,
) -> Result<Table, AllocError>
    ensures { IfOk result (λ t. (at : ℕ) → rows_of at t ≡ rows_of at (end_rows modules.now (want_places loaded.now.tree) loaded.now.endings)) }
{
    let places = places_of(alloc, loaded.tree.items.as_slice())?;
    let rows = rows_of(alloc, modules, places.as_slice(), loaded.endings.as_slice())?;
    Table::of(alloc, rows)
}

/// The places with the endings of the names that are wanted.
fn rows_of<'a>(
    alloc: Global,
    modules: &[ModuleScopes<'a>],
    places: &[Option<u32>],
    endings: &'a [EndOf],
) -> Result<Vec<Row>, AllocError>
    ensures { IfOk result (λ rows. rows.items ≡ end_rows modules.now places.now endings.now) }
{
    let mut rows = Vec::new(alloc);
    let mut rest = endings;
    for place in places {
        let Some((ending, more)) = rest.split_first() else {
            return Ok(rows);
        };
        push_end(&mut rows, *place, end_id(modules, ending))?;
        rest = more;
    }
    Ok(rows)
}

fn push_end(
    rows: &mut Vec<Row>,
    place: Option<u32>,
    end: Option<BindingId>,
) -> Result<(), AllocError>
    ensures { OnOk result (rows.new.items ≡ rows.old.items ++ end_row place end) }
{
    let (Some(at), Some(binding)) = (place, end) else {
        return Ok(());
    };
    let key = at as usize;
    rows.push(Row { key, binding })?;
    Ok(())
}

/// The binding where a name ends.
fn end_id<'a>(modules: &[ModuleScopes<'a>], ending: &'a EndOf) -> Option<BindingId>
    ensures { result ≡ end_id modules.now ending.now }
{
    match ending {
        EndOf::Local { module, name } => {
            let home = *module as usize;
            own_id(home, number_of(modules, home, name.bytes()))
        }
        EndOf::Host { index } => Some(BindingId::Host { number: *index }),
    }
}

fn own_id(home: usize, number: Option<usize>) -> Option<BindingId>
    ensures { result ≡ own_id home number }
{
    match number {
        None => None,
        Some(number) => Some(BindingId::Own { home, number }),
    }
}

/// The number of the binding that a module's own scope has for a name.
pub(crate) fn number_of<'a>(
    modules: &[ModuleScopes<'a>],
    home: usize,
    name: &'a [u8],
) -> Option<usize>
    ensures { result ≡ named_in name.now (slice_get modules.now home) }
{
    match modules.get(home) {
        None => None,
        Some(module) => module.names.number_of(0, name),
    }
}

/// For each name that a module wants of others, in text order, where the name begins that it binds, if it binds one.
fn places_of(alloc: Global, items: &[Item]) -> Result<Vec<Option<u32>>, AllocError>
    ensures { IfOk result (λ places. places.items ≡ joined item_places items.now) }
{
    let mut places = Vec::new(alloc);
    for item in items {
        add_item(&mut places, item)?;
    }
    Ok(places)
}

fn add_item(places: &mut Vec<Option<u32>>, item: &Item) -> Result<(), AllocError>
    ensures { OnOk result (places.new.items ≡ places.old.items ++ item_places item.now) }
{
    match item {
        Item::Import { default, names, .. } => {
            add_default(places, default)?;
            add_listed(places, names)
        }
        Item::ExportNames { names, from, .. } => add_exported(places, from, names.as_slice()),
        _ => Ok(()),
    }
}

fn add_default(
    places: &mut Vec<Option<u32>>,
    default: &Option<Identifier>,
) -> Result<(), AllocError>
    ensures { OnOk result (places.new.items ≡ places.old.items ++ default_place default.now) }
{
    match default {
        None => Ok(()),
        Some(name) => {
            places.push(Some(name.span.begin))?;
            Ok(())
        }
    }
}

fn add_listed(places: &mut Vec<Option<u32>>, names: &ImportedNames) -> Result<(), AllocError>
    ensures { OnOk result (places.new.items ≡ places.old.items ++ listed_places names.now) }
{
    match names {
        ImportedNames::NoNames | ImportedNames::Namespace(_) => Ok(()),
        ImportedNames::Listed(names) => add_names(places, names.as_slice()),
    }
}

fn add_names(places: &mut Vec<Option<u32>>, names: &[ImportName]) -> Result<(), AllocError>
    ensures { OnOk result (places.new.items ≡ places.old.items ++ map (λ n. Some n.local.span.begin) names.now) }
{
    for name in names {
        places.push(Some(name.local.span.begin))?;
    }
    Ok(())
}

fn add_exported(
    places: &mut Vec<Option<u32>>,
    from: &Option<Specifier>,
    names: &[ExportName],
) -> Result<(), AllocError>
    ensures { OnOk result (places.new.items ≡ places.old.items ++ exported_places from.now names.now) }
{
    match from {
        None => Ok(()),
        Some(_) => add_unbound(places, names),
    }
}

fn add_unbound(places: &mut Vec<Option<u32>>, names: &[ExportName]) -> Result<(), AllocError>
    ensures { OnOk result (places.new.items ≡ places.old.items ++ map (λ n. None) names.now) }
{
    for _name in names {
        places.push(None)?;
    }
    Ok(())
}
