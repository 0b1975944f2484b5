//! Which definitions a script has.

ghost use Rattle.std.specs.Prelude.{◌≡◌, ◌++◌, IfOk, OnOk, map};
ghost use Rattle.es_outside.specs.HostNames.{is_among};
ghost use Rattle.helpers.specs.Table.{classes, generators, iterators, lists, row_names, table_rows, templates, values};
ghost use Rattle.helpers.specs.Wanted.{is_wanted, wanted, with_row, with_rows};

use crate::asked::is_asked;
use crate::table::{CLASSES, GENERATORS, ITERATORS, LISTS, Row, TEMPLATES, VALUES};
use core_primitives::UsedPrimitives;
use shared_text::Name;
use sqlite_items::Items;
use std::alloc::{AllocError, Global};

/// Whether the name is one of these.
pub fn is_among(names: &[Name], name: &[u8]) -> bool
    ensures { result ≡ is_among names.now name.now }
{
    names.iter().any(|one| one.bytes() == name)
}

/// Whether the script or a definition behind it uses the one of the row.
fn is_wanted(used: &UsedPrimitives, row: &[&[u8]], names: &[Name]) -> bool
    ensures { result ≡ is_wanted used.now (row_names row.now) names.now }
{
    match row.first() {
        Some(name) => is_asked(used, name) | is_among(names, name),
        None => false,
    }
}

fn push_all(alloc: Global, row: &[&[u8]], names: &mut Items<Name>) -> Result<(), AllocError>
    ensures { OnOk result (names.new ≡ names.old ++ row_names row.now) }
{
    for name in row {
        names.push(Name::of_bytes(alloc, name)?)?;
    }
    Ok(())
}

fn add_row(
    alloc: Global,
    used: &UsedPrimitives,
    row: &[&[u8]],
    names: &mut Items<Name>,
) -> Result<(), AllocError>
    ensures { OnOk result (names.new ≡ with_row used.now names.old (row_names row.now)) }
{
    if is_wanted(used, row, names.as_slice()) {
        return push_all(alloc, row, names);
    }
    Ok(())
}

fn add_rows(
    alloc: Global,
    used: &UsedPrimitives,
    rows: &[Row],
    names: &mut Items<Name>,
) -> Result<(), AllocError>
    ensures { OnOk result (names.new ≡ with_rows used.now names.old (table_rows rows.now)) }
{
    for row in rows {
        add_row(alloc, used, row, names)?;
    }
    Ok(())
}

#[tactic(auto, unfolding(crate::specs::Table::templates))]
fn add_templates(
    alloc: Global,
    used: &UsedPrimitives,
    names: &mut Items<Name>,
) -> Result<(), AllocError>
    ensures { OnOk result (names.new ≡ with_rows used.now names.old templates) }
{
    add_rows(alloc, used, &TEMPLATES, names)
}

#[tactic(auto, unfolding(crate::specs::Table::generators))]
fn add_generators(
    alloc: Global,
    used: &UsedPrimitives,
    names: &mut Items<Name>,
) -> Result<(), AllocError>
    ensures { OnOk result (names.new ≡ with_rows used.now names.old generators) }
{
    add_rows(alloc, used, &GENERATORS, names)
}

#[tactic(auto, unfolding(crate::specs::Table::classes))]
fn add_classes(
    alloc: Global,
    used: &UsedPrimitives,
    names: &mut Items<Name>,
) -> Result<(), AllocError>
    ensures { OnOk result (names.new ≡ with_rows used.now names.old classes) }
{
    add_rows(alloc, used, &CLASSES, names)
}

#[tactic(auto, unfolding(crate::specs::Table::lists))]
fn add_lists(
    alloc: Global,
    used: &UsedPrimitives,
    names: &mut Items<Name>,
) -> Result<(), AllocError>
    ensures { OnOk result (names.new ≡ with_rows used.now names.old lists) }
{
    add_rows(alloc, used, &LISTS, names)
}

#[tactic(auto, unfolding(crate::specs::Table::iterators))]
fn add_iterators(
    alloc: Global,
    used: &UsedPrimitives,
    names: &mut Items<Name>,
) -> Result<(), AllocError>
    ensures { OnOk result (names.new ≡ with_rows used.now names.old iterators) }
{
    add_rows(alloc, used, &ITERATORS, names)
}

#[tactic(auto, unfolding(crate::specs::Table::values))]
fn add_values(
    alloc: Global,
    used: &UsedPrimitives,
    names: &mut Items<Name>,
) -> Result<(), AllocError>
    ensures { OnOk result (names.new ≡ with_rows used.now names.old values) }
{
    add_rows(alloc, used, &VALUES, names)
}

/// The names of what the script uses, and of what that uses.
pub fn wanted(alloc: Global, used: &UsedPrimitives) -> Result<Items<Name>, AllocError>
    ensures { IfOk result (λ names. names ≡ wanted used.now) }
{
    let mut names = Items::new(alloc);
    add_templates(alloc, used, &mut names)?;
    add_generators(alloc, used, &mut names)?;
    add_classes(alloc, used, &mut names)?;
    add_lists(alloc, used, &mut names)?;
    add_iterators(alloc, used, &mut names)?;
    add_values(alloc, used, &mut names)?;
    Ok(names)
}
