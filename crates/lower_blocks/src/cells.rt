//! Which cells a closure keeps.

ghost use Rattle.std.specs.Prelude.{◌≡◌, ◌+◌, ◌++◌, [], map, replicate, set, get_or, IfOk, OnOk};
ghost use Rattle.core_ast.specs.Mentions.{function_mentions, part_mentions};
ghost use Rattle.pass_rules.specs.Cells.{all_free, all_noted, cells, cells_at, free, holders, is_among, is_foreign, noted, owners, with_holder, with_owners};

use crate::build::owner;
use core_ast::{CoreFunction, CorePart, FunctionId, Mentions, ScopedName, Var};
use sqlite_items::Items;
use std::alloc::{AllocError, Global};

/// What stands in each function, and behind these in each part.
pub(crate) fn found(
    alloc: Global,
    functions: &[CoreFunction],
    parts: &[CorePart],
) -> Result<Items<Mentions>, AllocError>
    ensures { IfOk result (λ ms. ms ≡ map function_mentions functions.now ++ map part_mentions parts.now) }
{
    let mut all = Items::new(alloc);
    for function in functions {
        all.push(Mentions::of_function(alloc, function)?)?;
    }
    for part in parts {
        all.push(Mentions::of_part(alloc, part)?)?;
    }
    Ok(all)
}

fn zeros(alloc: Global, count: usize) -> Result<Items<usize>, AllocError>
    ensures { IfOk result (λ table. table ≡ replicate count 0) }
{
    let mut table = Vec::new(alloc);
    table.resize(count, 0)?;
    Ok(Items::from_vec(table))
}

/// Puts the number at this place, if the table has it.
fn put(table: &mut Items<usize>, place: u32, number: usize)
    ensures { table.new ≡ set table.old place number }
{
    let place = place as usize;
    if place < table.len() {
        table.set(place, number);
    }
}

fn put_owners(table: &mut Items<usize>, number: usize, names: &[ScopedName])
    ensures { table.new ≡ with_owners number names.now table.old }
{
    for name in names {
        if name.shared {
            put(table, name.var.0, number);
        }
    }
}

fn put_holders(table: &mut Items<usize>, number: usize, functions: &[FunctionId])
    ensures { table.new ≡ with_holder number functions.now table.old }
{
    for function in functions {
        put(table, function.0, number);
    }
}

pub(crate) fn next(number: usize) -> Result<usize, AllocError>
    ensures { IfOk result (λ n. n ≡ number + 1) }
{
    match number.checked_add(1) {
        Some(next) => Ok(next),
        None => Err(AllocError),
    }
}

/// Of each shared name the number of what declares it.
pub(crate) fn owners(
    alloc: Global,
    names: usize,
    found: &[Mentions],
) -> Result<Items<usize>, AllocError>
    ensures { IfOk result (λ table. table ≡ owners names found.now) }
{
    let mut table = zeros(alloc, names)?;
    let mut number = 0;
    for mentions in found {
        number = next(number)?;
        put_owners(&mut table, number, mentions.scoped.as_slice());
    }
    Ok(table)
}

/// Of each function the number of what holds it.
pub(crate) fn holders(
    alloc: Global,
    functions: usize,
    found: &[Mentions],
) -> Result<Items<usize>, AllocError>
    ensures { IfOk result (λ table. table ≡ holders functions found.now) }
{
    let mut table = zeros(alloc, functions)?;
    let mut number = 0;
    for mentions in found {
        number = next(number)?;
        put_holders(&mut table, number, mentions.functions.as_slice());
    }
    Ok(table)
}

fn is_among(var: Var, names: &[Var]) -> bool
    ensures { result ≡ is_among var names.now }
{
    for name in names {
        if name.0 == var.0 {
            return true;
        }
    }
    false
}

/// Whether the name is a shared one of another than the one with this number.
fn is_foreign(owners: &[usize], number: usize, var: Var) -> bool
    ensures { result ≡ is_foreign owners.now number var }
{
    let owner = owner(owners, var);
    (owner != 0) & (owner != number)
}

fn note(owners: &[usize], number: usize, var: Var, names: &mut Items<Var>) -> Result<(), AllocError>
    ensures { OnOk result (names.new ≡ noted owners.now number var names.old) }
{
    if is_foreign(owners, number, var) {
        if !is_among(var, names.as_slice()) {
            return names.push(var);
        }
    }
    Ok(())
}

fn note_all(
    owners: &[usize],
    number: usize,
    vars: &[Var],
    names: &mut Items<Var>,
) -> Result<(), AllocError>
    ensures { OnOk result (names.new ≡ all_noted owners.now number vars.now names.old) }
{
    for var in vars {
        note(owners, number, *var, names)?;
    }
    Ok(())
}

/// The names that are free in the function at this place.
fn note_held(
    owners: &[usize],
    number: usize,
    before: &[Items<Var>],
    function: FunctionId,
    names: &mut Items<Var>,
) -> Result<(), AllocError>
    ensures { OnOk result (names.new ≡ all_noted owners.now number (get_or before.now function.0 []) names.old) }
{
    match before.get(function.0 as usize) {
        Some(inner) => note_all(owners, number, inner.as_slice(), names),
        None => Ok(()),
    }
}

fn free(
    alloc: Global,
    owners: &[usize],
    before: &[Items<Var>],
    mentions: &Mentions,
) -> Result<Items<Var>, AllocError>
    ensures { IfOk result (λ xs. xs ≡ free owners.now before.now mentions.now) }
{
    let number = next(before.len())?;
    let mut names = Items::new(alloc);
    note_all(owners, number, mentions.uses.as_slice(), &mut names)?;
    for function in mentions.functions.as_slice() {
        note_held(owners, number, before, *function, &mut names)?;
    }
    Ok(names)
}

/// The shared names that are free in each.
pub(crate) fn all_free(
    alloc: Global,
    owners: &[usize],
    found: &[Mentions],
) -> Result<Items<Items<Var>>, AllocError>
    ensures { IfOk result (λ all. all ≡ all_free owners.now [] found.now) }
{
    let mut before = Items::new(alloc);
    for mentions in found {
        let names = free(alloc, owners, before.as_slice(), mentions)?;
        before.push(names)?;
    }
    Ok(before)
}

/// Those of the free names that the holder declares.
fn cells(
    alloc: Global,
    owners: &[usize],
    holder: usize,
    names: &[Var],
) -> Result<Items<Var>, AllocError>
    ensures { IfOk result (λ xs. xs ≡ cells owners.now holder names.now) }
{
    let mut kept = Items::new(alloc);
    for name in names {
        if owner(owners, *name) == holder {
            kept.push(*name)?;
        }
    }
    Ok(kept)
}

fn holder_at(holders: &[usize], place: usize) -> usize
    ensures { result ≡ get_or holders.now place 0 }
{
    match holders.get(place) {
        Some(holder) => *holder,
        None => 0,
    }
}

/// The cells of the function at this place.
pub(crate) fn cells_at(
    alloc: Global,
    owners: &[usize],
    holders: &[usize],
    all: &[Items<Var>],
    place: usize,
) -> Result<Items<Var>, AllocError>
    ensures { IfOk result (λ xs. xs ≡ cells_at owners.now holders.now all.now place) }
{
    let holder = holder_at(holders, place);
    match all.get(place) {
        Some(names) => cells(alloc, owners, holder, names.as_slice()),
        None => Ok(Items::new(alloc)),
    }
}
