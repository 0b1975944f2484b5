//! What each part mentions of the names of others.

ghost use Rattle.std.specs.Prelude.{◌≡◌, ◌++◌, ◌∷◌, [], get_or, IfOk, OnOk};
ghost use Rattle.std.specs.List.{filter};
ghost use Rattle.pass_rules.specs.Cells.{all_noted, is_among, is_foreign, is_shared, noted};
ghost use Rattle.shared_cells.specs.Cells.{all_foreign, all_inside, foreign, foreign_by, held, inside};

use crate::tables::{is_numbered, next, number_of};
use core_ast::{CoreFunction, CorePart, FunctionId, Mentions, Var};
use sqlite_items::Items;
use std::alloc::{AllocError, Global};

/// Those that a part declares.
fn of_parts(alloc: Global, homes: &[usize], vars: &[Var]) -> Result<Items<Var>, AllocError>
    ensures { IfOk result (λ xs. xs ≡ filter (is_shared homes.now) vars.now) }
{
    let mut kept = Items::new(alloc);
    for var in vars {
        if is_numbered(homes, *var) {
            kept.push(*var)?;
        }
    }
    Ok(kept)
}

fn push_all(vars: &[Var], out: &mut Items<Var>) -> Result<(), AllocError>
    ensures { OnOk result (out.new ≡ out.old ++ vars.now) }
{
    for var in vars {
        out.push(*var)?;
    }
    Ok(())
}

/// The names of parts that stand in the function with this number.
fn push_held(
    before: &[Items<Var>],
    function: FunctionId,
    out: &mut Items<Var>,
) -> Result<(), AllocError>
    ensures { OnOk result (out.new ≡ out.old ++ get_or before.now function.0 []) }
{
    match before.get(function.0 as usize) {
        Some(inner) => push_all(inner.as_slice(), out),
        None => Ok(()),
    }
}

/// The names of parts that stand in a function or part, and in the functions that it holds, which stand before it.
fn inside(
    alloc: Global,
    homes: &[usize],
    before: &[Items<Var>],
    mentions: &Mentions,
) -> Result<Items<Var>, AllocError>
    ensures { IfOk result (λ xs. xs ≡ inside homes.now before.now mentions.now) }
{
    let mut names = of_parts(alloc, homes, mentions.uses.as_slice())?;
    for function in mentions.functions.as_slice() {
        push_held(before, *function, &mut names)?;
    }
    Ok(names)
}

fn all_inside(
    alloc: Global,
    homes: &[usize],
    functions: &[CoreFunction],
) -> Result<Items<Items<Var>>, AllocError>
    ensures { IfOk result (λ all. all ≡ all_inside homes.now [] functions.now) }
{
    let mut before = Items::new(alloc);
    for function in functions {
        let mentions = Mentions::of_function(alloc, function)?;
        let names = inside(alloc, homes, before.as_slice(), &mentions)?;
        before.push(names)?;
    }
    Ok(before)
}

fn is_among(var: Var, names: &[Var]) -> bool
    ensures { result ≡ is_among var names.now }
{
    for name in names {
        if name.0 == var.0 {
            return true;
        }
    }
    false
}

/// Whether another part declares the name than the one with this number.
fn is_foreign(homes: &[usize], number: usize, var: Var) -> bool
    ensures { result ≡ is_foreign homes.now number var }
{
    let home = number_of(homes, var);
    (home != 0) & (home != number)
}

fn note(homes: &[usize], number: usize, var: Var, names: &mut Items<Var>) -> Result<(), AllocError>
    ensures { OnOk result (names.new ≡ noted homes.now number var names.old) }
{
    if is_foreign(homes, number, var) {
        if !is_among(var, names.as_slice()) {
            return names.push(var);
        }
    }
    Ok(())
}

fn note_all(
    homes: &[usize],
    number: usize,
    vars: &[Var],
    names: &mut Items<Var>,
) -> Result<(), AllocError>
    ensures { OnOk result (names.new ≡ all_noted homes.now number vars.now names.old) }
{
    for var in vars {
        note(homes, number, *var, names)?;
    }
    Ok(())
}

/// The names that the part with this number mentions, and another declares, each once.
fn foreign(
    alloc: Global,
    homes: &[usize],
    before: &[Items<Var>],
    number: usize,
    part: &CorePart,
) -> Result<Items<Var>, AllocError>
    ensures { IfOk result (λ xs. xs ≡ foreign homes.now before.now number part.now) }
{
    let mentions = Mentions::of_part(alloc, part)?;
    let all = inside(alloc, homes, before, &mentions)?;
    let mut names = Items::new(alloc);
    note_all(homes, number, all.as_slice(), &mut names)?;
    Ok(names)
}

fn all_foreign(
    alloc: Global,
    homes: &[usize],
    before: &[Items<Var>],
    parts: &[CorePart],
) -> Result<Items<Items<Var>>, AllocError>
    ensures { IfOk result (λ all. all ≡ all_foreign homes.now before.now 0 parts.now) }
{
    let mut all = Items::new(alloc);
    let mut number = 0;
    for part in parts {
        number = next(number)?;
        all.push(foreign(alloc, homes, before, number, part)?)?;
    }
    Ok(all)
}

/// Of each part the names that it mentions, and another declares.
pub(crate) fn foreign_by(
    alloc: Global,
    homes: &[usize],
    functions: &[CoreFunction],
    parts: &[CorePart],
) -> Result<Items<Items<Var>>, AllocError>
    ensures { IfOk result (λ all. all ≡ foreign_by homes.now functions.now parts.now) }
{
    let before = all_inside(alloc, homes, functions)?;
    all_foreign(alloc, homes, before.as_slice(), parts)
}
