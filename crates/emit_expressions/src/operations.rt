//! What a link does to the current value.

ghost use Rattle.std.specs.Prelude.{◌≡◌, ◌∷◌, [], IfOk};
ghost use Rattle.emission_rules.specs.Expressions.{alone, alone_emitted, call_emitted, callee, calls, content, first, lazy_emitted, named, op_emitted, part_emitted, update_operator, with_part};
ghost use Rattle.emission_rules.specs.Nodes.{applied, called, called_by, nothing, nowhere, stored};
ghost use Rattle.emission_rules.specs.Primitives.{apply_name, concealed, helper_name, primitive_emitted};
ghost use Rattle.emit_expressions.specs.Giving.{Gives};
ghost use Rattle.es5_ast.specs.declared.tree.Expr5.TheVariants as expr;

use crate::chains::{applied, called, called_by, chained, index, member};
use crate::current::{CurrentValue, callee};
use crate::heads::named;
use crate::helpers::helper_name;
use crate::keys::keyed;
use crate::leaves::{nothing, nowhere};
use crate::literals::{with_element, with_getter, with_hole, with_property, with_setter};
use crate::operands::{assigned, conditional, operated, stored, then, unary, update};
use crate::operators::{assign_operator, binary_operator, unary_operator, update_operator};
use crate::primitives::{in_front, or_nothing, primitive_emitted};
use core_ast::{CoreOp, Primitive, Update, Var, When};
use emission_rules::Scene;
use es_outside::Site;
use es5_ast::{BinaryOperator5, Expr5, UnaryOperator5};
use es5_nodes::expressions;
use sqlite_items::{Boxed, Items};
use std::alloc::{AllocError, Global};

/// The one part of an operation that has one.
fn first(alloc: Global, parts: Items<Expr5>) -> Result<Boxed<Expr5>, AllocError>
    ensures { IfOk result (λ x. x ≡ first parts) }
{
    let mut parts = parts;
    if parts.is_empty() {
        return nothing(alloc);
    }
    Boxed::new(alloc, parts.remove(0))
}

/// The content of a cell.
fn content(alloc: Global, cell: Boxed<Expr5>) -> Result<Boxed<Expr5>, AllocError>
    ensures { IfOk result (λ x. x ≡ content cell) }
{
    member(alloc, cell, b"v")
}

// ---- calls (ECMA-262, 5.1 edition, 11.2)

fn called_with(
    alloc: Global,
    text: &[u8],
    current: CurrentValue,
    parts: Items<Expr5>,
    site: Option<Site>,
) -> Result<Boxed<Expr5>, AllocError>
    ensures { IfOk result (λ x. x ≡ called_by text.now (current.value ∷ parts) site) }
{
    let arguments = in_front(alloc, current.into_value(), parts)?;
    called_by(alloc, text, arguments, site)
}

fn called_with_list(
    alloc: Global,
    current: CurrentValue,
    parts: Items<Expr5>,
    site: Option<Site>,
) -> Result<Boxed<Expr5>, AllocError>
    ensures { IfOk result (λ x. x ≡ called_by apply_name (current.value ∷ nothing ∷ parts) site) }
{
    let arguments = in_front(alloc, nothing(alloc)?, parts)?;
    called_with(alloc, b"apply", current, arguments, site)
}

fn called_plainly(
    alloc: Global,
    current: CurrentValue,
    parts: Items<Expr5>,
    site: Option<Site>,
) -> Result<Boxed<Expr5>, AllocError>
    ensures { IfOk result (λ x. x ≡ called (callee current) parts site) }
{
    let callee = callee(alloc, current)?;
    called(alloc, callee, parts, site)
}

fn constructed(
    alloc: Global,
    callee: Boxed<Expr5>,
    arguments: Items<Expr5>,
) -> Result<Boxed<Expr5>, AllocError>
    ensures { IfOk result (λ x. x ≡ expr.New nowhere callee arguments) }
{
    Ok(expressions::new(alloc, nowhere(), callee, arguments)?.into_value())
}

fn constructed_with_list(
    alloc: Global,
    current: CurrentValue,
    parts: Items<Expr5>,
) -> Result<Boxed<Expr5>, AllocError>
    ensures { IfOk result (λ x. x ≡ applied (helper_name Primitive.Construct) (current.value ∷ parts)) }
{
    let operands = in_front(alloc, current.into_value(), parts)?;
    applied(alloc, helper_name(Primitive::Construct), operands)
}

#[tactic(auto, unfolding(emission_rules::specs::Expressions::call_emitted))]
fn call_emitted(
    alloc: Global,
    op: &CoreOp,
    parts: Items<Expr5>,
    site: Option<Site>,
    current: CurrentValue,
) -> Result<Boxed<Expr5>, AllocError>
    ensures { IfOk result (λ x. x ≡ call_emitted op.now parts site current) }
{
    match op {
        CoreOp::Call => called_plainly(alloc, current, parts, site),
        CoreOp::CallList => called_with_list(alloc, current, parts, site),
        CoreOp::CallWith => called_with(alloc, b"call", current, parts, site),
        CoreOp::CallListWith => called_with(alloc, b"apply", current, parts, site),
        CoreOp::New => constructed(alloc, current.into_value(), parts),
        CoreOp::NewList => constructed_with_list(alloc, current, parts),
        _ => Ok(current.into_value()),
    }
}

// ---- what has no part

fn stored_by(
    alloc: Global,
    scene: &Scene,
    var: Var,
    value: Boxed<Expr5>,
) -> Result<Boxed<Expr5>, AllocError>
    ensures { IfOk result (λ x. x ≡ stored (named scene.now var) value) }
{
    let target = named(alloc, scene, var)?;
    stored(alloc, target, value)
}

fn stepped(alloc: Global, scene: &Scene, step: Update, var: Var) -> Result<Boxed<Expr5>, AllocError>
    ensures { IfOk result (λ x. x ≡ expr.Update nowhere (update_operator step) (named scene.now var)) }
{
    let target = named(alloc, scene, var)?;
    update(alloc, update_operator(step), target)
}

#[tactic(auto, unfolding(emission_rules::specs::Expressions::alone_emitted))]
fn alone_emitted(
    alloc: Global,
    op: &CoreOp,
    value: Boxed<Expr5>,
    scene: &Scene,
) -> Result<Boxed<Expr5>, AllocError>
    ensures { IfOk result (λ x. x ≡ alone_emitted op.now value scene.now) }
{
    match op {
        CoreOp::Member(key) => chained(alloc, value, keyed(alloc, key)?),
        CoreOp::Delete => unary(alloc, UnaryOperator5::Delete, value),
        CoreOp::Step(step) => update(alloc, update_operator(*step), value),
        CoreOp::Unary(operator) => unary(alloc, unary_operator(*operator), value),
        CoreOp::Set(var) | CoreOp::Init(var) => stored_by(alloc, scene, *var, value),
        CoreOp::StepVariable(step, var) => stepped(alloc, scene, *step, *var),
        CoreOp::Hole => with_hole(alloc, value),
        _ => Ok(value),
    }
}

// ---- what has one part

fn content_stored(
    alloc: Global,
    cell: Boxed<Expr5>,
    value: Boxed<Expr5>,
) -> Result<Boxed<Expr5>, AllocError>
    ensures { IfOk result (λ x. x ≡ stored (content cell) value) }
{
    let target = content(alloc, cell)?;
    stored(alloc, target, value)
}

#[tactic(auto, unfolding(emission_rules::specs::Expressions::part_emitted))]
fn part_emitted(
    alloc: Global,
    op: &CoreOp,
    value: Boxed<Expr5>,
    part: Boxed<Expr5>,
) -> Result<Boxed<Expr5>, AllocError>
    ensures { IfOk result (λ x. x ≡ part_emitted op.now value part) }
{
    match op {
        CoreOp::Index => index(alloc, value, part),
        CoreOp::Put => stored(alloc, value, part),
        CoreOp::Update(operator) => assigned(alloc, assign_operator(*operator), value, part),
        CoreOp::Operator(operator) => operated(alloc, value, binary_operator(*operator), part),
        CoreOp::Then => then(alloc, value, part),
        CoreOp::Element => with_element(alloc, value, part),
        CoreOp::Define(key) => with_property(alloc, value, key, part),
        CoreOp::Getter(key) => with_getter(alloc, value, key, part),
        CoreOp::Setter(key) => with_setter(alloc, value, key, part),
        CoreOp::SetContent => content_stored(alloc, value, part),
        _ => Ok(value),
    }
}

// ---- all of them

fn calls(
    alloc: Global,
    op: &CoreOp,
    parts: Items<Expr5>,
    site: Option<Site>,
    current: CurrentValue,
    scene: &Scene,
) -> Result<CurrentValue, AllocError>
    ensures { Gives result scene.now (calls op.now parts site current scene.now) }
{
    Ok(CurrentValue::shown(call_emitted(alloc, op, parts, site, current)?))
}

fn with_part(
    alloc: Global,
    op: &CoreOp,
    parts: Items<Expr5>,
    current: CurrentValue,
    scene: &Scene,
) -> Result<CurrentValue, AllocError>
    ensures { Gives result scene.now (with_part op.now parts current scene.now) }
{
    let part = first(alloc, parts)?;
    Ok(CurrentValue::shown(part_emitted(alloc, op, current.into_value(), part)?))
}

fn alone(
    alloc: Global,
    op: &CoreOp,
    current: CurrentValue,
    scene: &Scene,
) -> Result<CurrentValue, AllocError>
    ensures { Gives result scene.now (alone op.now current scene.now) }
{
    Ok(CurrentValue::shown(alone_emitted(alloc, op, current.into_value(), scene)?))
}

fn content_of(alloc: Global, current: CurrentValue) -> Result<CurrentValue, AllocError>
    ensures { IfOk result (λ c. c ≡ concealed (content current.value)) }
{
    Ok(CurrentValue::concealed(content(alloc, current.into_value())?))
}

fn primitive_on(
    alloc: Global,
    primitive: Primitive,
    parts: Items<Expr5>,
    current: CurrentValue,
    scene: &mut Scene,
) -> Result<CurrentValue, AllocError>
    ensures { Gives result scene.new (primitive_emitted primitive (current.value ∷ parts) scene.old) }
{
    let operands = in_front(alloc, current.into_value(), parts)?;
    primitive_emitted(alloc, primitive, operands, scene)
}

/// What the operation does to the current value, with its parts.
#[tactic(auto, unfolding(emission_rules::specs::Expressions::op_emitted))]
pub fn op_emitted(
    alloc: Global,
    op: &CoreOp,
    parts: Items<Expr5>,
    site: Option<Site>,
    current: CurrentValue,
    scene: &mut Scene,
) -> Result<CurrentValue, AllocError>
    ensures { Gives result scene.new (op_emitted op.now parts site current scene.old) }
{
    match op {
        CoreOp::Call
        | CoreOp::CallList
        | CoreOp::CallWith
        | CoreOp::CallListWith
        | CoreOp::New
        | CoreOp::NewList => calls(alloc, op, parts, site, current, scene),
        CoreOp::Index
        | CoreOp::Put
        | CoreOp::Update(_)
        | CoreOp::Operator(_)
        | CoreOp::Then
        | CoreOp::Element
        | CoreOp::Define(_)
        | CoreOp::Getter(_)
        | CoreOp::Setter(_)
        | CoreOp::SetContent => with_part(alloc, op, parts, current, scene),
        CoreOp::Content => content_of(alloc, current),
        CoreOp::Primitive(primitive) => primitive_on(alloc, *primitive, parts, current, scene),
        CoreOp::Yield | CoreOp::Delegate => Ok(current),
        _ => alone(alloc, op, current, scene),
    }
}

/// `&&`, `||`, and `? :`, by when the branch is taken (11.11, 11.12).
#[tactic(auto, unfolding(emission_rules::specs::Expressions::lazy_emitted))]
pub fn lazy_emitted(
    alloc: Global,
    when: When,
    branch: Boxed<Expr5>,
    other: Option<Boxed<Expr5>>,
    current: CurrentValue,
) -> Result<CurrentValue, AllocError>
    ensures { IfOk result (λ c. c ≡ lazy_emitted when branch other current) }
{
    let value = current.into_value();
    Ok(CurrentValue::shown(match when {
        When::Truthy => operated(alloc, value, BinaryOperator5::And, branch)?,
        When::Falsy => operated(alloc, value, BinaryOperator5::Or, branch)?,
        When::Choice => conditional(alloc, value, branch, or_nothing(alloc, other)?)?,
    }))
}
