//! Parts with the names that hold cells.

ghost use Rattle.std.specs.Prelude.{◌≡◌, ◌++◌, ◌∷◌, [], get_or, map, true, false, IfOk, OnOk};
ghost use Rattle.shared_cells.specs.Cells.{all_cells, all_with_cells, cell, cells_of, holder, own_name, parts_shared, with_cells};

use crate::tables::{is_numbered, next};
use core_ast::{CorePart, CoreStat, ScopedName, Var};
use sqlite_items::Items;
use std::alloc::{AllocError, Global};
use std::collections::VecDeque;

/// A name that holds a cell. The part that declares it may write it.
fn cell(own: bool, var: Var) -> ScopedName
    ensures { result ≡ cell own var }
{
    ScopedName {
        var,
        shared: true,
        mutable: own,
    }
}

fn own_name(marks: &[usize], name: ScopedName) -> ScopedName
    ensures { result ≡ own_name marks.now name }
{
    if is_numbered(marks, name.var) {
        return cell(true, name.var);
    }
    ScopedName {
        var: name.var,
        shared: false,
        mutable: name.mutable,
    }
}

fn own_names(
    alloc: Global,
    marks: &[usize],
    names: &[ScopedName],
) -> Result<Items<ScopedName>, AllocError>
    ensures { IfOk result (λ ns. ns ≡ map (own_name marks.now) names.now) }
{
    let mut made = Items::new(alloc);
    for name in names {
        made.push(own_name(marks, *name))?;
    }
    Ok(made)
}

fn push_foreign(vars: &[Var], out: &mut Items<ScopedName>) -> Result<(), AllocError>
    ensures { OnOk result (out.new ≡ out.old ++ map (cell false) vars.now) }
{
    for var in vars {
        out.push(cell(false, *var))?;
    }
    Ok(())
}

/// The part with the cells that it has: those of its own names, and these.
fn with_cells(
    alloc: Global,
    marks: &[usize],
    foreign: &[Var],
    part: CorePart,
) -> Result<CorePart, AllocError>
    ensures { IfOk result (λ p. p ≡ with_cells marks.now foreign.now part) }
{
    let mut names = own_names(alloc, marks, part.names.as_slice())?;
    push_foreign(foreign, &mut names)?;
    Ok(CorePart {
        names,
        instantiate: part.instantiate,
        body: part.body,
    })
}

/// The parts, the first of which leaves first.
fn in_turn(alloc: Global, parts: Items<CorePart>) -> Result<VecDeque<CorePart>, AllocError>
    ensures { IfOk result (λ left. left.items ≡ parts) }
{
    let mut back = parts;
    let mut left = VecDeque::new(alloc);
    while let Some(part) = back.pop() {
        left.push_front(part)?;
    }
    Ok(left)
}

fn list_at(lists: &[Items<Var>], number: usize) -> &[Var]
    ensures { result.now ≡ get_or lists.now number [] }
{
    match lists.get(number) {
        Some(list) => list.as_slice(),
        None => &[],
    }
}

fn all_with_cells(
    alloc: Global,
    marks: &[usize],
    foreign: &[Items<Var>],
    parts: Items<CorePart>,
) -> Result<Items<CorePart>, AllocError>
    ensures { IfOk result (λ ps. ps ≡ all_with_cells marks.now foreign.now 0 parts []) }
{
    let mut left = in_turn(alloc, parts)?;
    let mut made = Items::new(alloc);
    let mut number = 0;
    while let Some(part) = left.pop_front() {
        made.push(with_cells(alloc, marks, list_at(foreign, number), part)?)?;
        number = next(number)?;
    }
    Ok(made)
}

fn push_cells(
    marks: &[usize],
    names: &[ScopedName],
    out: &mut Items<ScopedName>,
) -> Result<(), AllocError>
    ensures { OnOk result (out.new ≡ out.old ++ cells_of marks.now names.now) }
{
    for name in names {
        if is_numbered(marks, name.var) {
            out.push(cell(true, name.var))?;
        }
    }
    Ok(())
}

/// The cells of all parts.
fn all_cells(
    alloc: Global,
    marks: &[usize],
    parts: &[CorePart],
) -> Result<Items<ScopedName>, AllocError>
    ensures { IfOk result (λ ns. ns ≡ all_cells marks.now parts.now) }
{
    let mut names = Items::new(alloc);
    for part in parts {
        push_cells(marks, part.names.as_slice(), &mut names)?;
    }
    Ok(names)
}

/// A part whose one scope has these names.
fn holder(alloc: Global, names: Items<ScopedName>) -> Result<CorePart, AllocError>
    ensures { IfOk result (λ p. p ≡ holder names) }
{
    let mut body = Items::new(alloc);
    let inner = Items::new(alloc);
    body.push(CoreStat::Scoped { names, body: inner })?;
    Ok(CorePart {
        names: Items::new(alloc),
        instantiate: Items::new(alloc),
        body,
    })
}

/// The parts with their cells, and behind them the scope of all cells.
pub(crate) fn parts_shared(
    alloc: Global,
    marks: &[usize],
    foreign: &[Items<Var>],
    parts: Items<CorePart>,
) -> Result<Items<CorePart>, AllocError>
    ensures { IfOk result (λ ps. ps ≡ parts_shared marks.now foreign.now parts) }
{
    let cells = all_cells(alloc, marks, parts.as_slice())?;
    let mut made = all_with_cells(alloc, marks, foreign, parts)?;
    made.push(holder(alloc, cells)?)?;
    Ok(made)
}
