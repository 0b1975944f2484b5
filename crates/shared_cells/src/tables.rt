//! Tables with a number for each name.

ghost use Rattle.std.specs.Prelude.{◌≡◌, ◌+◌, replicate, set, IfOk};
ghost use Rattle.pass_rules.specs.Cells.{is_shared, owner};
ghost use Rattle.shared_cells.specs.Cells.{all_marks, homes, marks, with_home, with_marks};

use core_ast::{CorePart, ScopedName, Var};
use sqlite_items::Items;
use std::alloc::{AllocError, Global};

fn zeros(alloc: Global, count: usize) -> Result<Items<usize>, AllocError>
    ensures { IfOk result (λ table. table ≡ replicate count 0) }
{
    let mut table = Vec::new(alloc);
    table.resize(count, 0)?;
    Ok(Items::from_vec(table))
}

/// Puts the number at the place of a name, if the table has it.
fn put(table: &mut Items<usize>, var: Var, number: usize)
    ensures { table.new ≡ set table.old var.0 number }
{
    let place = var.0 as usize;
    if place < table.len() {
        table.set(place, number);
    }
}

pub(crate) fn next(number: usize) -> Result<usize, AllocError>
    ensures { IfOk result (λ n. n ≡ number + 1) }
{
    match number.checked_add(1) {
        Some(next) => Ok(next),
        None => Err(AllocError),
    }
}

fn put_home(table: &mut Items<usize>, number: usize, names: &[ScopedName])
    ensures { table.new ≡ with_home number names.now table.old }
{
    for name in names {
        put(table, name.var, number);
    }
}

/// Of each name the number of the part that declares it, from 1.
pub(crate) fn homes(
    alloc: Global,
    names: usize,
    parts: &[CorePart],
) -> Result<Items<usize>, AllocError>
    ensures { IfOk result (λ table. table ≡ homes names parts.now) }
{
    let mut table = zeros(alloc, names)?;
    let mut number = 0;
    for part in parts {
        number = next(number)?;
        put_home(&mut table, number, part.names.as_slice());
    }
    Ok(table)
}

fn mark(table: &mut Items<usize>, vars: &[Var])
    ensures { table.new ≡ with_marks vars.now table.old }
{
    for var in vars {
        put(table, *var, 1);
    }
}

/// A mark for each name that stands in one of these lists.
pub(crate) fn marks(
    alloc: Global,
    names: usize,
    lists: &[Items<Var>],
) -> Result<Items<usize>, AllocError>
    ensures { IfOk result (λ table. table ≡ marks names lists.now) }
{
    let mut table = zeros(alloc, names)?;
    for list in lists {
        mark(&mut table, list.as_slice());
    }
    Ok(table)
}

/// The number of a name.
pub(crate) fn number_of(table: &[usize], var: Var) -> usize
    ensures { result ≡ owner table.now var }
{
    match table.get(var.0 as usize) {
        Some(number) => *number,
        None => 0,
    }
}

/// Whether the name has a number.
pub(crate) fn is_numbered(table: &[usize], var: Var) -> bool
    ensures { result ≡ is_shared table.now var }
{
    number_of(table, var) != 0
}
