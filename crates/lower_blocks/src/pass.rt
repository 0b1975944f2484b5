//! The pass: functions, parts and the core.

ghost use Rattle.std.specs.Prelude.{◌≡◌, ◌++◌, map, IfOk, OnOk};
ghost use Rattle.core_ast.specs.Mentions.{function_mentions, part_mentions};
ghost use Rattle.pass_rules.specs.Scopes.{function_flat, functions_flat, local, part_flat, vars, without_scopes};

use crate::cells::{all_free, cells_at, found, holders, next, owners};
use crate::walk::block;
use core_ast::{Core, CoreFunction, CorePart, Mentions, ScopedName, Var};
use sqlite_items::Items;
use std::alloc::{AllocError, Global};

/// The core without block scopes: their names are locals, and those that are marked as shared hold cells.
pub fn flatten_scopes(alloc: Global, core: Core) -> Result<Core, AllocError>
    ensures { IfOk result (λ after. after ≡ without_scopes core) }
{
    let Core {
        functions,
        parts,
        order,
        fresh,
    } = core;
    let found = found(alloc, functions.as_slice(), parts.as_slice())?;
    let owners = owners(alloc, fresh.hints.len(), found.as_slice())?;
    let holders = holders(alloc, functions.len(), found.as_slice())?;
    let all = all_free(alloc, owners.as_slice(), found.as_slice())?;
    let parts = flat_parts(alloc, owners.as_slice(), parts.as_slice())?;
    let functions = flat_functions(
        alloc,
        owners.as_slice(),
        holders.as_slice(),
        all.as_slice(),
        functions.as_slice(),
    )?;
    Ok(Core {
        functions,
        parts,
        order,
        fresh,
    })
}

fn flat_functions(
    alloc: Global,
    owners: &[usize],
    holders: &[usize],
    all: &[Items<Var>],
    functions: &[CoreFunction],
) -> Result<Items<CoreFunction>, AllocError>
    ensures { IfOk result (λ fs. fs ≡ functions_flat owners.now holders.now all.now 0 functions.now) }
{
    let mut made = Items::new(alloc);
    let mut place = 0;
    for function in functions {
        let kept = cells_at(alloc, owners, holders, all, place)?;
        made.push(flat_function(alloc, owners, kept, function)?)?;
        place = next(place)?;
    }
    Ok(made)
}

fn flat_function(
    alloc: Global,
    owners: &[usize],
    kept: Items<Var>,
    function: &CoreFunction,
) -> Result<CoreFunction, AllocError>
    ensures { IfOk result (λ f. f ≡ function_flat owners.now kept function.now) }
{
    let parameters = Items::from_slice(alloc, function.parameters.as_slice())?;
    let declared = Items::from_slice(alloc, function.declared.as_slice())?;
    let locals = locals(alloc, function)?;
    let setup = block(alloc, owners, function.setup.as_slice())?;
    let body = block(alloc, owners, function.body.as_slice())?;
    let step = block(alloc, owners, function.step.as_slice())?;
    Ok(CoreFunction {
        kind: function.kind,
        own: function.own,
        parameters,
        length: function.length,
        arguments: function.arguments,
        cells: kept,
        locals,
        declared,
        setup,
        body,
        resumption: function.resumption,
        step,
    })
}

/// The locals of a function, and behind them the names of its scopes.
fn locals(alloc: Global, function: &CoreFunction) -> Result<Items<Var>, AllocError>
    ensures { IfOk result (λ xs. xs ≡ function.now.locals ++ vars (function_mentions function.now).scoped) }
{
    let mentions = Mentions::of_function(alloc, function)?;
    let mut locals = Items::from_slice(alloc, function.locals.as_slice())?;
    add_vars(mentions.scoped.as_slice(), &mut locals)?;
    Ok(locals)
}

fn add_vars(scoped: &[ScopedName], locals: &mut Items<Var>) -> Result<(), AllocError>
    ensures { OnOk result (locals.new ≡ locals.old ++ vars scoped.now) }
{
    for name in scoped {
        locals.push(name.var)?;
    }
    Ok(())
}

fn flat_parts(
    alloc: Global,
    owners: &[usize],
    parts: &[CorePart],
) -> Result<Items<CorePart>, AllocError>
    ensures { IfOk result (λ ps. ps ≡ map (part_flat owners.now) parts.now) }
{
    let mut made = Items::new(alloc);
    for part in parts {
        made.push(flat_part(alloc, owners, part)?)?;
    }
    Ok(made)
}

fn flat_part(alloc: Global, owners: &[usize], part: &CorePart) -> Result<CorePart, AllocError>
    ensures { IfOk result (λ p. p ≡ part_flat owners.now part.now) }
{
    let names = names(alloc, part)?;
    let instantiate = block(alloc, owners, part.instantiate.as_slice())?;
    let body = block(alloc, owners, part.body.as_slice())?;
    Ok(CorePart {
        names,
        instantiate,
        body,
    })
}

/// The names of a part, and behind them those of its scopes.
fn names(alloc: Global, part: &CorePart) -> Result<Items<ScopedName>, AllocError>
    ensures { IfOk result (λ xs. xs ≡ part.now.names ++ map local (part_mentions part.now).scoped) }
{
    let mentions = Mentions::of_part(alloc, part)?;
    let mut names = Items::from_slice(alloc, part.names.as_slice())?;
    add_locals(mentions.scoped.as_slice(), &mut names)?;
    Ok(names)
}

fn add_locals(scoped: &[ScopedName], names: &mut Items<ScopedName>) -> Result<(), AllocError>
    ensures { OnOk result (names.new ≡ names.old ++ map local scoped.now) }
{
    for name in scoped {
        names.push(ScopedName {
            var: name.var,
            shared: false,
            mutable: true,
        })?;
    }
    Ok(())
}
