//! The script: one function in strict code, which is handed the hosts.

ghost use Rattle.std.specs.Prelude.{◌≡◌, ◌++◌, ◌∷◌, [], map, IfOk, OnOk, None, Some};
ghost use Rattle.std.specs.List.{flat_map};
ghost use Rattle.emission_rules.specs.Functions.{bodies, emitted, function_method, instantiations, module_names, own_declarations, functions_emitted, handed, handed_host, is_missing, scene_by, scoped_names};
ghost use Rattle.emission_rules.specs.Nodes.{called, declared, expression, function, identifier, variables};
ghost use Rattle.emission_rules.specs.Scenes.{no_uses};
ghost use Rattle.emit5.specs.Scripts.{modules_run, script_body, script_by};
ghost use Rattle.emit_expressions.specs.Giving.{Gives};

use crate::declarations::push_declared;
use crate::functions::{all_functions, behind};
use crate::modules::{bodies, instantiations};
use crate::statements::expression;
use binding_tables::NumberedNames;
use core_ast::{Core, CorePart, ScopedName};
use emission_rules::{Scene, Slots};
use emit_expressions::{
    called, conditional, function, identifier, member, name, name_of, no_uses, nothing, nowhere,
    object, operated, unary, word_text,
};
use emit_names::{helped_names, host_list, hosts_of, names_of, sign, take_names};
use es_outside::HostNames;
use es5_ast::{BinaryOperator5, Declared5, Expr5, Identifier5, Script, Stat5, UnaryOperator5};
use shared_text::Name;
use sqlite_items::{Boxed, Items};
use std::alloc::{AllocError, Global};

/// The scene in which no function stands yet. With the names of helpers and hosts no name of the core is called.
fn scene_by(
    alloc: Global,
    hints: &[Option<Name>],
    hosts: &[Name],
    helpers: &[Stat5],
) -> Result<Scene, AllocError>
    ensures { IfOk result (λ s. s ≡ scene_by hints.now hosts.now helpers.now) }
{
    let helped = helped_names(alloc, helpers)?;
    let between = sign(alloc, helped.as_slice(), hosts)?;
    let mut taken = NumberedNames::new(alloc);
    take_names(helped.as_slice(), &mut taken)?;
    let host_names = hosts_of(alloc, between.as_slice(), hints.len(), hosts, &taken)?;
    take_names(hosts, &mut taken)?;
    let names = names_of(alloc, between.as_slice(), hints, &mut taken)?;
    Ok(Scene {
        names,
        hosts: host_names,
        functions: Slots::new(alloc),
        step: None,
        uses: no_uses(),
        framed: false,
        keeps: false,
    })
}

/// A method of functions (15.3.4.3, 15.3.4.4), read where no module can have changed it.
fn function_method(alloc: Global, text: &[u8]) -> Result<Boxed<Expr5>, AllocError>
    ensures { IfOk result (λ x. x ≡ function_method text.now) }
{
    let object = name(alloc, b"Object")?;
    let create = member(alloc, object, b"create")?;
    member(alloc, create, text)
}

/// A method of functions under its name.
fn push_method(alloc: Global, text: &[u8], out: &mut Items<Declared5>) -> Result<(), AllocError>
    ensures { OnOk result (out.new ≡ out.old ++ declared text.now (Some (function_method text.now)) ∷ []) }
{
    let method = function_method(alloc, text)?;
    push_declared(alloc, text, Some(method), out)
}

/// The names of the script's own.
pub fn own_declarations(alloc: Global) -> Result<Items<Declared5>, AllocError>
    ensures { IfOk result (λ ds. ds ≡ own_declarations) }
{
    let mut out = Items::new(alloc);
    let mark = object(alloc, Items::new(alloc))?;
    push_declared(alloc, b"empty", Some(mark), &mut out)?;
    push_method(alloc, b"call", &mut out)?;
    push_method(alloc, b"apply", &mut out)?;
    Ok(out)
}

fn push_scoped(
    alloc: Global,
    scene: &Scene,
    names: &[ScopedName],
    out: &mut Items<Declared5>,
) -> Result<(), AllocError>
    ensures { OnOk result (out.new ≡ out.old ++ scoped_names scene.now names.now) }
{
    for name in names {
        push_declared(alloc, name_of(scene, name.var), None, out)?;
    }
    Ok(())
}

/// The names of all modules.
fn push_module_names(
    alloc: Global,
    scene: &Scene,
    parts: &[CorePart],
    out: &mut Items<Declared5>,
) -> Result<(), AllocError>
    ensures { OnOk result (out.new ≡ out.old ++ module_names scene.now parts.now) }
{
    for part in parts {
        push_scoped(alloc, scene, part.names.as_slice(), out)?;
    }
    Ok(())
}

/// The names of the script's own, those of all modules, and the helpers.
fn beginning(
    alloc: Global,
    scene: &Scene,
    parts: &[CorePart],
    helpers: Items<Stat5>,
) -> Result<Items<Stat5>, AllocError>
    ensures { IfOk result (λ ss. ss ≡ variables (own_declarations ++ module_names scene.now parts.now) ++ helpers) }
{
    let mut declared = own_declarations(alloc)?;
    push_module_names(alloc, scene, parts, &mut declared)?;
    behind(alloc, declared, helpers)
}

/// All modules begin, and then their bodies are called.
fn modules_run(alloc: Global, core: &Core, scene: &mut Scene) -> Result<Items<Stat5>, AllocError>
    ensures { Gives result scene.new (modules_run core.now scene.old) }
{
    let mut out = Items::new(alloc);
    let parts = core.parts.as_slice();
    instantiations(alloc, parts, scene, &mut out)?;
    bodies(alloc, parts, core.order.as_slice(), scene, &mut out)?;
    Ok(out)
}

/// What stands in the script's function, in the scene behind the functions of the table.
fn script_body(
    alloc: Global,
    core: &Core,
    helpers: Items<Stat5>,
    scene: &mut Scene,
) -> Result<Items<Stat5>, AllocError>
    ensures { IfOk result (λ ss. ss ≡ script_body core.now helpers scene.old) }
{
    let mut body = beginning(alloc, scene, core.parts.as_slice(), helpers)?;
    body.append(modules_run(alloc, core, scene)?)?;
    Ok(body)
}

/// These names as parameters.
pub fn parameters(alloc: Global, names: &[Name]) -> Result<Items<Identifier5>, AllocError>
    ensures { IfOk result (λ xs. xs ≡ map (λ n. identifier n) names.now) }
{
    let mut made = Items::new(alloc);
    for name in names {
        made.push(identifier(alloc, name.bytes())?)?;
    }
    Ok(made)
}

/// Whether there is no host of this name, which `typeof` reads all the same (5.1 edition, 11.4.3).
fn is_missing(alloc: Global, host: &[u8]) -> Result<Boxed<Expr5>, AllocError>
    ensures { IfOk result (λ x. x ≡ is_missing host.now) }
{
    let kind = unary(alloc, UnaryOperator5::Typeof, name(alloc, host)?)?;
    let word = word_text(alloc, b"undefined")?;
    operated(alloc, kind, BinaryOperator5::Same, word)
}

/// A host, or nothing where an engine lacks it, as it may one that no module imports.
fn handed_host(alloc: Global, host: &[u8]) -> Result<Boxed<Expr5>, AllocError>
    ensures { IfOk result (λ x. x ≡ handed_host host.now) }
{
    let test = is_missing(alloc, host)?;
    let none = nothing(alloc)?;
    conditional(alloc, test, none, name(alloc, host)?)
}

/// What the script's function is handed.
pub fn handed(alloc: Global, hosts: &[Name]) -> Result<Items<Expr5>, AllocError>
    ensures { IfOk result (λ xs. xs ≡ handed hosts.now) }
{
    let mut made = Items::new(alloc);
    for host in hosts {
        made.push(handed_host(alloc, host.bytes())?.into_inner())?;
    }
    Ok(made)
}

/// A function of these statements, which is called at once with the hosts.
fn called_with(
    alloc: Global,
    parameters: Items<Identifier5>,
    hosts: &[Name],
    body: Items<Stat5>,
) -> Result<Stat5, AllocError>
    ensures { IfOk result (λ s. s ≡ expression (called (function None parameters body) (handed hosts.now) None)) }
{
    let made = function(alloc, None, parameters, body)?;
    let operands = handed(alloc, hosts)?;
    Ok(expression(called(alloc, made, operands, None)?))
}

fn script(
    alloc: Global,
    parameters: Items<Identifier5>,
    hosts: &[Name],
    body: Items<Stat5>,
) -> Result<Script, AllocError>
    ensures { IfOk result (λ x. x ≡ script_by parameters hosts.now body) }
{
    let mut statements = Items::new(alloc);
    statements.push(expression(word_text(alloc, b"use strict")?))?;
    statements.push(called_with(alloc, parameters, hosts, body)?)?;
    Ok(Script {
        span: nowhere(),
        statements,
    })
}

/// The scene behind the functions of the table.
pub fn scene_behind(
    alloc: Global,
    core: &Core,
    hosts: &[Name],
    helpers: &[Stat5],
) -> Result<Scene, AllocError>
    ensures { IfOk result (λ s. s ≡ functions_emitted core.now.functions (scene_by core.now.fresh.hints hosts.now helpers.now)) }
{
    let mut scene = scene_by(alloc, core.fresh.hints.as_slice(), hosts, helpers)?;
    all_functions(alloc, core.functions.as_slice(), &mut scene)?;
    Ok(scene)
}

/// The script of a core, with the statements of its helpers: one function in strict code, which is handed the hosts.
pub fn emit(
    alloc: Global,
    core: &Core,
    helpers: Items<Stat5>,
    hosts: &HostNames,
) -> Result<Script, AllocError>
    ensures { IfOk result (λ script. script ≡ emitted core.now hosts.now helpers) }
{
    let hosts = host_list(alloc, hosts)?;
    let mut scene = scene_behind(alloc, core, hosts.as_slice(), helpers.as_slice())?;
    let parameters = parameters(alloc, scene.hosts.as_slice())?;
    let body = script_body(alloc, core, helpers, &mut scene)?;
    script(alloc, parameters, hosts.as_slice(), body)
}
