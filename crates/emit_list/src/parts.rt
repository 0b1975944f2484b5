//! The script of a part: a function that begins the part and gives another, which does the rest.

ghost use Rattle.std.specs.Prelude.{◌≡◌, ◌++◌, ◌∷◌, [], map, IfOk, OnOk, None};
ghost use Rattle.emission_rules.specs.Functions.{handed, module_emitted};
ghost use Rattle.emission_rules.specs.Nodes.{called, function};
ghost use Rattle.emit_expressions.specs.Giving.{Gives};
ghost use Rattle.emit_list.specs.Scripts.{of_table, part_body, part_names, part_script, returned, scoped_name, scoped_value, slot, taken_names};

use crate::loader::strict;
use core_ast::{CorePart, CoreStat, ScopedName};
use emission_rules::Scene;
use emit_expressions::{called, function, index, integer, member, name, name_of, stored};
use emit5::{behind, expression, handed, module, push_declared, returned};
use es5_ast::{Declared5, Expr5, Identifier5, Script, Stat5};
use shared_text::Name;
use sqlite_items::{Boxed, Items};
use std::alloc::{AllocError, Global};

/// What the table has under this name.
fn of_table(alloc: Global, table: &[u8], text: &[u8]) -> Result<Boxed<Expr5>, AllocError>
    ensures { IfOk result (λ x. x ≡ of_table table.now text.now) }
{
    let table = name(alloc, table)?;
    member(alloc, table, text)
}

/// Names with what the table has under them.
fn push_taken(
    alloc: Global,
    table: &[u8],
    names: &[Name],
    out: &mut Items<Declared5>,
) -> Result<(), AllocError>
    ensures { OnOk result (out.new ≡ out.old ++ taken_names table.now names.now) }
{
    for name in names {
        let value = of_table(alloc, table, name.bytes())?;
        push_declared(alloc, name.bytes(), Some(value), out)?;
    }
    Ok(())
}

/// A cell is the table's.
fn scoped_value(
    alloc: Global,
    table: &[u8],
    text: &[u8],
    shared: bool,
) -> Result<Option<Boxed<Expr5>>, AllocError>
    ensures { IfOk result (λ x. x ≡ scoped_value table.now text.now shared) }
{
    if shared {
        return Ok(Some(of_table(alloc, table, text)?));
    }
    Ok(None)
}

fn push_scoped(
    alloc: Global,
    table: &[u8],
    scene: &Scene,
    name: ScopedName,
    out: &mut Items<Declared5>,
) -> Result<(), AllocError>
    ensures { OnOk result (out.new ≡ out.old ++ scoped_name table.now scene.now name ∷ []) }
{
    let text = name_of(scene, name.var);
    let value = scoped_value(alloc, table, text, name.shared)?;
    push_declared(alloc, text, value, out)
}

fn push_all_scoped(
    alloc: Global,
    table: &[u8],
    scene: &Scene,
    names: &[ScopedName],
    out: &mut Items<Declared5>,
) -> Result<(), AllocError>
    ensures { OnOk result (out.new ≡ out.old ++ map (scoped_name table.now scene.now) names.now) }
{
    for name in names {
        push_scoped(alloc, table, scene, *name, out)?;
    }
    Ok(())
}

/// What the script of a part declares: what it may call, the cells that it mentions, and its other names.
pub(crate) fn part_names(
    alloc: Global,
    table: &[u8],
    names: &[Name],
    scene: &Scene,
    part: &CorePart,
) -> Result<Items<Declared5>, AllocError>
    ensures { IfOk result (λ ds. ds ≡ part_names table.now names.now scene.now part.now) }
{
    let mut declared = Items::new(alloc);
    push_taken(alloc, table, names, &mut declared)?;
    push_all_scoped(alloc, table, scene, part.names.as_slice(), &mut declared)?;
    Ok(declared)
}

/// What a part begins with, or its body.
fn stage(alloc: Global, source: &[CoreStat], scene: &mut Scene) -> Result<Items<Stat5>, AllocError>
    ensures { Gives result scene.new (module_emitted source.now [] scene.old) }
{
    let mut made = Items::new(alloc);
    module(alloc, source, scene, &mut made)?;
    Ok(made)
}

/// A statement that gives a function of these.
fn giving(alloc: Global, body: Items<Stat5>) -> Result<Stat5, AllocError>
    ensures { IfOk result (λ s. s ≡ returned (function None [] body)) }
{
    Ok(returned(function(alloc, None, Items::new(alloc), body)?))
}

/// The part begins at once, and a function does the rest.
pub(crate) fn part_body(
    alloc: Global,
    declared: Items<Declared5>,
    part: &CorePart,
    scene: &mut Scene,
) -> Result<Items<Stat5>, AllocError>
    ensures { Gives result scene.new (part_body declared part.now scene.old) }
{
    let begun = stage(alloc, part.instantiate.as_slice(), scene)?;
    let mut body = behind(alloc, declared, begun)?;
    let rest = stage(alloc, part.body.as_slice(), scene)?;
    body.push(giving(alloc, rest)?)?;
    Ok(body)
}

/// Where the table has what is left to do of the part with this number.
pub(crate) fn slot(alloc: Global, table: &[u8], number: u64) -> Result<Boxed<Expr5>, AllocError>
    ensures { IfOk result (λ x. x ≡ slot table.now number) }
{
    let table = name(alloc, table)?;
    index(alloc, table, integer(alloc, number)?)
}

/// A function with these parameters, which is called at once with the hosts.
fn called_with(
    alloc: Global,
    hosts: &[Name],
    parameters: Items<Identifier5>,
    body: Items<Stat5>,
) -> Result<Boxed<Expr5>, AllocError>
    ensures { IfOk result
        (λ x. x ≡ called (function None parameters body) (handed hosts.now) None) }
{
    let made = function(alloc, None, parameters, body)?;
    let operands = handed(alloc, hosts)?;
    called(alloc, made, operands, None)
}

/// The script of the part with this number.
pub(crate) fn part_script(
    alloc: Global,
    hosts: &[Name],
    table: &[u8],
    number: u64,
    parameters: Items<Identifier5>,
    body: Items<Stat5>,
) -> Result<Script, AllocError>
    ensures { IfOk result
        (λ script. script ≡ part_script hosts.now table.now number parameters body) }
{
    let value = called_with(alloc, hosts, parameters, body)?;
    let target = slot(alloc, table, number)?;
    let mut statements = Items::new(alloc);
    statements.push(expression(stored(alloc, target, value)?))?;
    strict(alloc, statements)
}
