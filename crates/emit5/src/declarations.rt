//! What a function declares (ECMA-262, 5.1 edition, 12.2): itself, its frame, the arguments that it was passed, its arguments
//! object, parameters that its `length` doesn't count, and its locals.

ghost use Rattle.std.specs.Prelude.{◌≡◌, ◌+◌, ◌++◌, ◌∷◌, [], drop, take, true, map, Some, IfOk, OnOk};
ghost use Rattle.emission_rules.specs.Functions.{arguments_declared, declarations, frame_declared, frame_properties, frame_value, identifiers, expressions, late_parameters, names_only, own_declared, passed_declared, property, wants_own};
ghost use Rattle.core_ast.specs.declared.parts.Primitive.TheVariants.{ArgumentsPut, NewTarget, RestList};
ghost use Rattle.emission_rules.specs.Nodes.{applied, declared, index, integer, name};
ghost use Rattle.emission_rules.specs.Primitives.{arguments_name, callee_name, helper_name, target_key};

use crate::kinds::{is_arrow, is_class, wants_own};
use core_ast::{CoreFunction, CoreKind, Primitive, Var};
use emission_rules::{Scene, Uses};
use emit_expressions::{
    applied, declared, helper_name, identifier, index, integer, name, name_of, object, plain, this,
};
use es5_ast::{Declared5, Expr5, Identifier5, Key5, Property5};
use shared_text::Name;
use sqlite_items::{Boxed, Items};
use std::alloc::{AllocError, Global};

/// The names of these variables, as parameters.
pub(crate) fn identifiers(
    alloc: Global,
    scene: &Scene,
    vars: &[Var],
) -> Result<Items<Identifier5>, AllocError>
    ensures { IfOk result (λ xs. xs ≡ identifiers scene.now vars.now) }
{
    let mut made = Items::new(alloc);
    for var in vars {
        made.push(identifier(alloc, name_of(scene, *var))?)?;
    }
    Ok(made)
}

/// The names of these variables, as expressions.
pub(crate) fn names(alloc: Global, scene: &Scene, vars: &[Var]) -> Result<Items<Expr5>, AllocError>
    ensures { IfOk result (λ xs. xs ≡ expressions scene.now vars.now) }
{
    let mut made = Items::new(alloc);
    for var in vars {
        made.push(name(alloc, name_of(scene, *var))?.into_inner())?;
    }
    Ok(made)
}

/// A name that is declared, with its value.
pub fn push_declared(
    alloc: Global,
    text: &[u8],
    value: Option<Boxed<Expr5>>,
    out: &mut Items<Declared5>,
) -> Result<(), AllocError>
    ensures { OnOk result (out.new ≡ out.old ++ declared text.now value ∷ []) }
{
    let declared = declared(alloc, text, value)?;
    out.push(declared.into_inner())
}

/// A list of one.
pub(crate) fn one(alloc: Global, value: Boxed<Expr5>) -> Result<Items<Expr5>, AllocError>
    ensures { IfOk result (λ xs. xs ≡ value ∷ []) }
{
    let mut list = Items::new(alloc);
    list.push(value.into_inner())?;
    Ok(list)
}

/// A call of the primitive's helper.
fn helped(
    alloc: Global,
    primitive: Primitive,
    operands: Items<Expr5>,
) -> Result<Boxed<Expr5>, AllocError>
    ensures { IfOk result (λ x. x ≡ applied (helper_name primitive) operands) }
{
    applied(alloc, helper_name(primitive), operands)
}

fn push_callee(
    alloc: Global,
    scene: &Scene,
    own: Var,
    out: &mut Items<Declared5>,
) -> Result<(), AllocError>
    ensures { OnOk result (out.new ≡ out.old ++ own_declared scene.now (Some own) true) }
{
    let value = name(alloc, name_of(scene, own))?;
    push_declared(alloc, b"callee", Some(value), out)
}

/// A function that has a name, and is asked for itself.
fn push_own(
    alloc: Global,
    scene: &Scene,
    own: Option<Var>,
    wanted: bool,
    out: &mut Items<Declared5>,
) -> Result<(), AllocError>
    ensures { OnOk result (out.new ≡ out.old ++ own_declared scene.now own wanted) }
{
    match own {
        Some(own) => {
            if wanted {
                return push_callee(alloc, scene, own, out);
            }
            Ok(())
        }
        None => Ok(()),
    }
}

fn property(alloc: Global, key: &[u8], value: Boxed<Expr5>) -> Result<Boxed<Property5>, AllocError>
    ensures { IfOk result (λ p. p ≡ property key.now value) }
{
    let key = Key5::WordKey(Name::of_bytes(alloc, key)?);
    plain(alloc, key, value)
}

fn target(alloc: Global) -> Result<Boxed<Property5>, AllocError>
    ensures { IfOk result (λ p. p ≡ property target_key (applied (helper_name NewTarget) (name callee_name ∷ []))) }
{
    let callee = one(alloc, name(alloc, b"callee")?)?;
    let value = helped(alloc, Primitive::NewTarget, callee)?;
    property(alloc, b"target", value)
}

/// `new.target` is asked for first, while the construction is under way.
fn frame_properties(alloc: Global, has_target: bool) -> Result<Items<Property5>, AllocError>
    ensures { IfOk result (λ ps. ps ≡ frame_properties has_target) }
{
    let mut properties = Items::new(alloc);
    properties.push(property(alloc, b"self", this(alloc)?)?.into_inner())?;
    if has_target {
        properties.push(target(alloc)?.into_inner())?;
    }
    Ok(properties)
}

fn frame_value(
    alloc: Global,
    kind: CoreKind,
    uses: Uses,
) -> Result<Option<Boxed<Expr5>>, AllocError>
    ensures { IfOk result (λ x. x ≡ frame_value kind uses) }
{
    if is_class(kind) {
        return Ok(None);
    }
    let properties = frame_properties(alloc, uses.target)?;
    Ok(Some(object(alloc, properties)?))
}

/// The frame of a function that is asked for it.
pub(crate) fn push_frame(
    alloc: Global,
    kind: CoreKind,
    uses: Uses,
    out: &mut Items<Declared5>,
) -> Result<(), AllocError>
    ensures { OnOk result (out.new ≡ out.old ++ frame_declared kind uses) }
{
    if uses.frame & !is_arrow(kind) {
        let value = frame_value(alloc, kind, uses)?;
        return push_declared(alloc, b"frame", value, out);
    }
    Ok(())
}

/// The arguments of the call (10.6).
fn arguments(alloc: Global) -> Result<Boxed<Expr5>, AllocError>
    ensures { IfOk result (λ x. x ≡ name arguments_name) }
{
    name(alloc, b"arguments")
}

fn passed_value(alloc: Global) -> Result<Boxed<Expr5>, AllocError>
    ensures { IfOk result (λ x. x ≡ applied (helper_name RestList) (name arguments_name ∷ integer 0 ∷ [])) }
{
    let mut operands = one(alloc, arguments(alloc)?)?;
    operands.push(integer(alloc, 0)?.into_inner())?;
    helped(alloc, Primitive::RestList, operands)
}

/// The arguments that a function keeps apart.
fn push_passed(alloc: Global, scene: &Scene, out: &mut Items<Declared5>) -> Result<(), AllocError>
    ensures { OnOk result (out.new ≡ out.old ++ passed_declared scene.now) }
{
    if scene.keeps & scene.uses.passed {
        let value = passed_value(alloc)?;
        return push_declared(alloc, b"passed", Some(value), out);
    }
    Ok(())
}

fn arguments_value(alloc: Global) -> Result<Boxed<Expr5>, AllocError>
    ensures { IfOk result (λ x. x ≡ applied (helper_name ArgumentsPut) (name arguments_name ∷ [])) }
{
    let operands = one(alloc, arguments(alloc)?)?;
    helped(alloc, Primitive::ArgumentsPut, operands)
}

fn push_arguments(
    alloc: Global,
    scene: &Scene,
    arguments: Option<Var>,
    out: &mut Items<Declared5>,
) -> Result<(), AllocError>
    ensures { OnOk result (out.new ≡ out.old ++ arguments_declared scene.now arguments) }
{
    match arguments {
        Some(var) => {
            let value = arguments_value(alloc)?;
            push_declared(alloc, name_of(scene, var), Some(value), out)
        }
        None => Ok(()),
    }
}

/// The argument with this number, from 0.
fn argument(alloc: Global, at: u64) -> Result<Boxed<Expr5>, AllocError>
    ensures { IfOk result (λ x. x ≡ index (name arguments_name) (integer at)) }
{
    let value = arguments(alloc)?;
    index(alloc, value, integer(alloc, at)?)
}

fn next(at: u64) -> Result<u64, AllocError>
    ensures { IfOk result (λ n. n ≡ at + 1) }
{
    match at.checked_add(1) {
        Some(next) => Ok(next),
        None => Err(AllocError),
    }
}

/// The parameters from this place on, which take their arguments.
fn push_late(
    alloc: Global,
    scene: &Scene,
    first: u64,
    vars: &[Var],
    out: &mut Items<Declared5>,
) -> Result<(), AllocError>
    ensures { OnOk result (out.new ≡ out.old ++ late_parameters scene.now first vars.now) }
{
    let mut at = first;
    for var in vars {
        let value = argument(alloc, at)?;
        push_declared(alloc, name_of(scene, *var), Some(value), out)?;
        at = next(at)?;
    }
    Ok(())
}

/// Names that are undefined at the start.
fn push_names(
    alloc: Global,
    scene: &Scene,
    vars: &[Var],
    out: &mut Items<Declared5>,
) -> Result<(), AllocError>
    ensures { OnOk result (out.new ≡ out.old ++ names_only scene.now vars.now) }
{
    for var in vars {
        push_declared(alloc, name_of(scene, *var), None, out)?;
    }
    Ok(())
}

/// The parameters that `length` counts, and the others.
pub(crate) fn parameters(function: &CoreFunction) -> (&[Var], &[Var])
    ensures counted { result.0.now ≡ take function.now.length function.now.parameters }
    ensures late { result.1.now ≡ drop function.now.length function.now.parameters }
{
    let all = function.parameters.as_slice();
    let count = (function.length as usize).min(all.len());
    all.split_at(count)
}

fn push_given(
    alloc: Global,
    scene: &Scene,
    function: &CoreFunction,
    out: &mut Items<Declared5>,
) -> Result<(), AllocError>
    ensures { OnOk result (out.new ≡ out.old ++ own_declared scene.now function.now.own (wants_own function.now.kind scene.now.uses) ++ frame_declared function.now.kind scene.now.uses ++ passed_declared scene.now ++ arguments_declared scene.now function.now.arguments) }
{
    let wanted = wants_own(function.kind, scene.uses);
    push_own(alloc, scene, function.own, wanted, out)?;
    push_frame(alloc, function.kind, scene.uses, out)?;
    push_passed(alloc, scene, out)?;
    push_arguments(alloc, scene, function.arguments, out)
}

pub(crate) fn declarations(
    alloc: Global,
    scene: &Scene,
    function: &CoreFunction,
) -> Result<Items<Declared5>, AllocError>
    ensures { IfOk result (λ ds. ds ≡ declarations scene.now function.now) }
{
    let mut out = Items::new(alloc);
    push_given(alloc, scene, function, &mut out)?;
    let (_, late) = parameters(function);
    push_late(alloc, scene, u64::from(function.length), late, &mut out)?;
    push_names(alloc, scene, function.locals.as_slice(), &mut out)?;
    Ok(out)
}
