//! Functions (ECMA-262, 5.1 edition, 13).

ghost use Rattle.std.specs.Prelude.{◌≡◌, ◌++◌, ◌∷◌, [], IfOk, OnOk, None, Some};
ghost use Rattle.emission_rules.specs.Functions.{as_generator, closure, declarations, entered, function_emitted, function_value, functions_emitted, generator_name, keeping, own_identifier, resumed, stepped};
ghost use Rattle.emit5.specs.Scripts.{function_body};
ghost use Rattle.emit_expressions.specs.Giving.{Gives};
ghost use Rattle.emission_rules.specs.Nodes.{applied, function, nowhere, variables};
ghost use Rattle.es5_ast.specs.declared.tree.Stat5.TheVariants as stat;

use crate::declarations::{declarations, identifiers, names, one, parameters};
use crate::kinds::{asked, is_framed, is_generator, keeps_apart, wants_own};
use crate::statements::returned;
use crate::walk::{block, stats};
use core_ast::{CoreFunction, CoreKind, CoreStat, Resumption, Var};
use emission_rules::{Closure, Scene};
use emit_expressions::{applied, called, function, identifier, name_of, no_uses, push_variables};
use es5_ast::{Declared5, Expr5, Identifier5, Stat5};
use sqlite_items::{Boxed, Items};
use std::alloc::{AllocError, Global};

/// The part of a scene that a function begins with.
pub(crate) fn enter(framed: bool, keeps: bool, scene: &mut Scene)
    ensures { scene.new ≡ entered framed keeps scene.old }
{
    scene.step = None;
    scene.uses = no_uses();
    scene.framed = framed;
    scene.keeps = keeps;
}

/// The names of what a step is resumed with.
fn resumed(
    alloc: Global,
    scene: &Scene,
    resumption: Resumption,
) -> Result<Items<Identifier5>, AllocError>
    ensures { IfOk result (λ xs. xs ≡ resumed scene.now resumption) }
{
    let mut parameters = Items::new(alloc);
    parameters.push(identifier(alloc, name_of(scene, resumption.kind))?)?;
    parameters.push(identifier(alloc, name_of(scene, resumption.value))?)?;
    Ok(parameters)
}

/// The step is a function in the generator's.
fn begin_step(
    alloc: Global,
    resumption: Resumption,
    step: &[CoreStat],
    scene: &mut Scene,
) -> Result<(), AllocError>
    ensures { OnOk result (scene.new ≡ stepped (Some resumption) step.now scene.old) }
{
    let framed = scene.framed;
    scene.framed = true;
    let body = block(alloc, step, scene)?;
    let parameters = resumed(alloc, scene, resumption)?;
    let made = function(alloc, None, parameters, body)?;
    scene.step = Some(made.into_inner());
    scene.framed = framed;
    Ok(())
}

fn stepped(
    alloc: Global,
    resumption: Option<Resumption>,
    step: &[CoreStat],
    scene: &mut Scene,
) -> Result<(), AllocError>
    ensures { OnOk result (scene.new ≡ stepped resumption step.now scene.old) }
{
    match resumption {
        Some(resumption) => begin_step(alloc, resumption, step, scene),
        None => Ok(()),
    }
}

fn own_identifier(
    alloc: Global,
    scene: &Scene,
    own: Option<Var>,
    wanted: bool,
) -> Result<Option<Identifier5>, AllocError>
    ensures { IfOk result (λ x. x ≡ own_identifier scene.now own wanted) }
{
    match own {
        Some(own) => Ok(Some(identifier(alloc, name_of(scene, own))?)),
        None => {
            if wanted {
                return Ok(Some(identifier(alloc, b"callee")?));
            }
            Ok(None)
        }
    }
}

/// The statements, behind the variables that are declared.
pub fn behind(
    alloc: Global,
    declared: Items<Declared5>,
    statements: Items<Stat5>,
) -> Result<Items<Stat5>, AllocError>
    ensures { IfOk result (λ ss. ss ≡ variables declared ++ statements) }
{
    let mut all = Items::new(alloc);
    push_variables(alloc, declared, &mut all)?;
    all.append(statements)?;
    Ok(all)
}

fn function_value(
    alloc: Global,
    source: &CoreFunction,
    body: Items<Stat5>,
    scene: &Scene,
) -> Result<Boxed<Expr5>, AllocError>
    ensures { IfOk result (λ x. x ≡ function_value source.now body scene.now) }
{
    let declared = declarations(alloc, scene, source)?;
    let body = behind(alloc, declared, body)?;
    let (counted, _) = parameters(source);
    let parameters = identifiers(alloc, scene, counted)?;
    let wanted = wants_own(source.kind, scene.uses);
    let own = own_identifier(alloc, scene, source.own, wanted)?;
    function(alloc, own, parameters, body)
}

/// A function with these parameters, which gives the value.
fn returning(
    alloc: Global,
    parameters: Items<Identifier5>,
    value: Boxed<Expr5>,
) -> Result<Boxed<Expr5>, AllocError>
    ensures { IfOk result (λ x. x ≡ function None parameters (stat.Return nowhere (Some value) ∷ [])) }
{
    let mut body = Items::new(alloc);
    body.push(returned(value))?;
    function(alloc, None, parameters, body)
}

/// The closure keeps the cells that are there when it is made.
fn keeping(
    alloc: Global,
    scene: &Scene,
    cells: &[Var],
    value: Boxed<Expr5>,
) -> Result<Boxed<Expr5>, AllocError>
    ensures { IfOk result (λ x. x ≡ keeping scene.now cells.now value) }
{
    if cells.is_empty() {
        return Ok(value);
    }
    let parameters = identifiers(alloc, scene, cells)?;
    let made = returning(alloc, parameters, value)?;
    let operands = names(alloc, scene, cells)?;
    called(alloc, made, operands, None)
}

/// What a helper makes of the function of a generator.
fn generator(alloc: Global, operands: Items<Expr5>) -> Result<Boxed<Expr5>, AllocError>
    ensures { IfOk result (λ x. x ≡ applied generator_name operands) }
{
    applied(alloc, b"generator_function", operands)
}

fn as_generator(
    alloc: Global,
    kind: CoreKind,
    value: Boxed<Expr5>,
) -> Result<Boxed<Expr5>, AllocError>
    ensures { IfOk result (λ x. x ≡ as_generator kind value) }
{
    if is_generator(kind) {
        let operands = one(alloc, value)?;
        return generator(alloc, operands);
    }
    Ok(value)
}

fn closure(
    alloc: Global,
    source: &CoreFunction,
    body: Items<Stat5>,
    scene: &Scene,
) -> Result<Closure, AllocError>
    ensures { IfOk result (λ c. c ≡ closure source.now body scene.now) }
{
    let value = function_value(alloc, source, body, scene)?;
    let value = as_generator(alloc, source.kind, value)?;
    let value = keeping(alloc, scene, source.cells.as_slice(), value)?;
    Ok(Closure {
        value: value.into_inner(),
        uses: asked(source.kind, scene.uses),
    })
}

/// What a function begins with, and its body.
fn body(alloc: Global, source: &CoreFunction, scene: &mut Scene) -> Result<Items<Stat5>, AllocError>
    ensures { Gives result scene.new (function_body source.now scene.old) }
{
    enter(is_framed(source.kind), keeps_apart(source), scene);
    stepped(alloc, source.resumption, source.step.as_slice(), scene)?;
    let mut body = block(alloc, source.setup.as_slice(), scene)?;
    stats(alloc, source.body.as_slice(), scene, &mut body)?;
    Ok(body)
}

fn one_function(alloc: Global, source: &CoreFunction, scene: &mut Scene) -> Result<(), AllocError>
    ensures { OnOk result (scene.new ≡ function_emitted source.now scene.old) }
{
    let body = body(alloc, source, scene)?;
    let closure = closure(alloc, source, body, scene)?;
    scene.functions.push(closure)
}

/// The closures of the table's functions, the inner ones first.
pub(crate) fn all_functions(
    alloc: Global,
    source: &[CoreFunction],
    scene: &mut Scene,
) -> Result<(), AllocError>
    ensures { OnOk result (scene.new ≡ functions_emitted source.now scene.old) }
{
    for function in source {
        one_function(alloc, function, scene)?;
    }
    Ok(())
}
