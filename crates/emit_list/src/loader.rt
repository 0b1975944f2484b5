//! The loader: the helpers stand in a function that gives the table.

ghost use Rattle.std.specs.Prelude.{◌≡◌, ◌++◌, ◌∷◌, [], IfOk, OnOk};
ghost use Rattle.emission_rules.specs.Functions.{property};
ghost use Rattle.emit_list.specs.Scripts.{cell_property, cells, cells_made, declaring, loader, loading, new_cell, properties, shown, strict};

use core_ast::{CorePart, ScopedName};
use emission_rules::Scene;
use emit_expressions::{
    called, function, name, name_of, nothing, nowhere, object, plain, push_variables, word_text,
};
use emit5::{behind, expression, own_declarations, push_declared, returned};
use es5_ast::{Expr5, Key5, Property5, Script, Stat5};
use shared_text::Name;
use sqlite_items::{Boxed, Items};
use std::alloc::{AllocError, Global};

fn property(alloc: Global, key: &[u8], value: Boxed<Expr5>) -> Result<Boxed<Property5>, AllocError>
    ensures { IfOk result (λ p. p ≡ property key.now value) }
{
    let key = Key5::WordKey(Name::of_bytes(alloc, key)?);
    plain(alloc, key, value)
}

/// A cell whose content is undefined.
fn new_cell(alloc: Global) -> Result<Boxed<Expr5>, AllocError>
    ensures { IfOk result (λ x. x ≡ new_cell) }
{
    let mut properties = Items::new(alloc);
    let content = property(alloc, b"v", nothing(alloc)?)?;
    properties.push(content.into_inner())?;
    object(alloc, properties)
}

fn push_cell(
    alloc: Global,
    scene: &Scene,
    name: ScopedName,
    out: &mut Items<Property5>,
) -> Result<(), AllocError>
    ensures { OnOk result (out.new ≡ out.old ++ cell_property scene.now name ∷ []) }
{
    let cell = new_cell(alloc)?;
    out.push(property(alloc, name_of(scene, name.var), cell)?.into_inner())
}

/// The cells that are made for a part.
fn push_part_cells(
    alloc: Global,
    scene: &Scene,
    names: &[ScopedName],
    out: &mut Items<Property5>,
) -> Result<(), AllocError>
    ensures { OnOk result (out.new ≡ out.old ++ cells_made scene.now names.now) }
{
    for name in names {
        if name.shared & name.mutable {
            push_cell(alloc, scene, *name, out)?;
        }
    }
    Ok(())
}

fn push_cells(
    alloc: Global,
    scene: &Scene,
    parts: &[CorePart],
    out: &mut Items<Property5>,
) -> Result<(), AllocError>
    ensures { OnOk result (out.new ≡ out.old ++ cells scene.now parts.now) }
{
    for part in parts {
        push_part_cells(alloc, scene, part.names.as_slice(), out)?;
    }
    Ok(())
}

/// A property with the value of the name that it has.
fn push_shown(alloc: Global, text: &[u8], out: &mut Items<Property5>) -> Result<(), AllocError>
    ensures { OnOk result (out.new ≡ out.old ++ shown (text.now ∷ [])) }
{
    let value = name(alloc, text)?;
    out.push(property(alloc, text, value)?.into_inner())
}

fn shown(alloc: Global, names: &[Name]) -> Result<Items<Property5>, AllocError>
    ensures { IfOk result (λ ps. ps ≡ shown names.now) }
{
    let mut made = Items::new(alloc);
    for name in names {
        push_shown(alloc, name.bytes(), &mut made)?;
    }
    Ok(made)
}

/// The properties that the table has at first.
fn properties(
    alloc: Global,
    names: &[Name],
    scene: &Scene,
    parts: &[CorePart],
) -> Result<Items<Property5>, AllocError>
    ensures { IfOk result (λ ps. ps ≡ properties names.now scene.now parts.now) }
{
    let mut all = shown(alloc, names)?;
    push_cells(alloc, scene, parts, &mut all)?;
    Ok(all)
}

/// The helpers in a function, which gives an object with these properties.
fn loading(
    alloc: Global,
    helpers: Items<Stat5>,
    properties: Items<Property5>,
) -> Result<Boxed<Expr5>, AllocError>
    ensures { IfOk result (λ x. x ≡ loading helpers properties) }
{
    let table = object(alloc, properties)?;
    let mut body = behind(alloc, own_declarations(alloc)?, helpers)?;
    body.push(returned(table))?;
    let made = function(alloc, None, Items::new(alloc), body)?;
    called(alloc, made, Items::new(alloc), None)
}

/// A script in strict code (ECMA-262, 5.1 edition, 14.1).
pub(crate) fn strict(alloc: Global, body: Items<Stat5>) -> Result<Script, AllocError>
    ensures { IfOk result (λ script. script ≡ strict body) }
{
    let mut statements = Items::new(alloc);
    statements.push(expression(word_text(alloc, b"use strict")?))?;
    statements.append(body)?;
    Ok(Script {
        span: nowhere(),
        statements,
    })
}

fn declaring(alloc: Global, table: &[u8], value: Boxed<Expr5>) -> Result<Script, AllocError>
    ensures { IfOk result (λ script. script ≡ declaring table.now value) }
{
    let mut declared = Items::new(alloc);
    push_declared(alloc, table, Some(value), &mut declared)?;
    let mut body = Items::new(alloc);
    push_variables(alloc, declared, &mut body)?;
    strict(alloc, body)
}

/// The script that makes the table.
pub(crate) fn loader(
    alloc: Global,
    table: &[u8],
    names: &[Name],
    scene: &Scene,
    parts: &[CorePart],
    helpers: Items<Stat5>,
) -> Result<Script, AllocError>
    ensures { IfOk result
        (λ script. script ≡ loader table.now names.now scene.now parts.now helpers) }
{
    let properties = properties(alloc, names, scene, parts)?;
    let value = loading(alloc, helpers, properties)?;
    declaring(alloc, table, value)
}
