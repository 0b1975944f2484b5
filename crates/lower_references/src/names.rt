//! Names (ECMA-262, 6th edition, 12.1, 12.4, 12.5 and 12.14).

ghost use Rattle.std.specs.Prelude.{◌≡◌, IfOk};
ghost use Rattle.lowering_rules.specs.Making.{then};
ghost use Rattle.lowering_rules.specs.reference_rules.Drawing.{Makes};
ghost use Rattle.lowering_rules.specs.reference_rules.References.{checked_written, found, name_assigned, name_operated, name_updated, name_updated_after, name_updated_before, old_value, plain_target, ready, refused, type_of, variable_read, written, written_ready};

use crate::operators::{as_number, gives_old, one_further, operated};
use core_ast::{
    CoreExpr, CoreHead, CoreOp, Primitive, Unary, Update, Var, act, expression, linked, undefined,
    variable,
};
use lower_parts::{primitive, stored, then, through};
use lowering_rules::reference_rules::{Compound, NamedValue, Reached};
use lowering_rules::{Names, VariableTarget};
use std::alloc::{AllocError, Global};

/// What the name stands for.
#[tactic(auto, unfolding(lowering_rules::specs::reference_rules::References::found))]
pub fn lower_found(alloc: Global, name: NamedValue) -> Reached
    ensures { result ≡ found name }
{
    match name {
        NamedValue::UndefinedName => Reached::Value(undefined(alloc)),
        NamedValue::GlobalName(global) => {
            Reached::Value(expression(alloc, CoreHead::Global(global)))
        }
        NamedValue::HostName(host) => Reached::Value(expression(alloc, CoreHead::Host(host))),
        NamedValue::VariableName { target, imported } => Reached::Variable { target, imported },
    }
}

/// `typeof`.
pub fn type_of(alloc: Global, value: CoreExpr) -> Result<CoreExpr, AllocError>
    ensures { IfOk result (λ x. x ≡ type_of value) }
{
    linked(value, act(alloc, CoreOp::Unary(Unary::Typeof)))
}

/// The target of an assignment that doesn't read it: of an import nothing is checked.
pub fn plain_target(target: VariableTarget, imported: bool) -> VariableTarget
    ensures { result ≡ plain_target target imported }
{
    VariableTarget {
        var: target.var,
        checked: target.checked & !imported,
        constant: target.constant,
    }
}

fn variable_read(alloc: Global, var: Var, checked: bool) -> Result<CoreExpr, AllocError>
    ensures { IfOk result (λ x. x ≡ variable_read var checked) }
{
    let read = variable(alloc, var);
    if !checked {
        return Ok(read);
    }
    through(alloc, read, Primitive::CheckReady)
}

/// The value of the name.
pub(crate) fn old_value(alloc: Global, target: VariableTarget) -> Result<CoreExpr, AllocError>
    ensures { IfOk result (λ x. x ≡ old_value target) }
{
    variable_read(alloc, target.var, target.checked)
}

fn refused(alloc: Global, value: CoreExpr) -> Result<CoreExpr, AllocError>
    ensures { IfOk result (λ x. x ≡ refused value) }
{
    then(alloc, value, primitive(alloc, Primitive::RefuseConst))
}

fn written(alloc: Global, target: VariableTarget, value: CoreExpr) -> Result<CoreExpr, AllocError>
    ensures { IfOk result (λ x. x ≡ written target value) }
{
    if target.constant {
        return refused(alloc, value);
    }
    stored(alloc, target.var, value)
}

fn written_ready(
    alloc: Global,
    target: VariableTarget,
    kept: Var,
    value: CoreExpr,
) -> Result<CoreExpr, AllocError>
    ensures { IfOk result (λ x. x ≡ written_ready target kept value) }
{
    let value = stored(alloc, kept, value)?;
    let checked = then(alloc, value, variable_read(alloc, target.var, true)?)?;
    let write = stored(alloc, target.var, variable(alloc, kept))?;
    then(alloc, checked, write)
}

fn refused_ready(
    alloc: Global,
    target: VariableTarget,
    value: CoreExpr,
) -> Result<CoreExpr, AllocError>
    ensures { IfOk result (λ x. x ≡ refused (then value (ready target.var))) }
{
    let checked = then(alloc, value, variable_read(alloc, target.var, true)?)?;
    refused(alloc, checked)
}

fn checked_written(
    alloc: Global,
    target: VariableTarget,
    value: CoreExpr,
    names: &mut Names,
) -> Result<CoreExpr, AllocError>
    ensures { Makes result names.new (checked_written target value names.old) }
{
    if target.constant {
        return refused_ready(alloc, target, value);
    }
    let kept = names.temporary()?;
    written_ready(alloc, target, kept, value)
}

/// `x = e`
pub(crate) fn name_assigned(
    alloc: Global,
    target: VariableTarget,
    value: CoreExpr,
    names: &mut Names,
) -> Result<CoreExpr, AllocError>
    ensures { Makes result names.new (name_assigned target value names.old) }
{
    if target.checked {
        return checked_written(alloc, target, value, names);
    }
    written(alloc, target, value)
}

/// `x += e` and the like.
pub(crate) fn name_operated(
    alloc: Global,
    target: VariableTarget,
    by: Compound,
    value: CoreExpr,
) -> Result<CoreExpr, AllocError>
    ensures { IfOk result (λ x. x ≡ name_operated target by value) }
{
    let old = old_value(alloc, target)?;
    let new = operated(alloc, old, by, value)?;
    written(alloc, target, new)
}

fn name_updated_before(
    alloc: Global,
    target: VariableTarget,
    update: Update,
) -> Result<CoreExpr, AllocError>
    ensures { IfOk result (λ x. x ≡ name_updated_before target update) }
{
    let old = as_number(alloc, old_value(alloc, target)?)?;
    let new = one_further(alloc, update, old)?;
    written(alloc, target, new)
}

fn name_updated_after(
    alloc: Global,
    target: VariableTarget,
    update: Update,
    kept: Var,
) -> Result<CoreExpr, AllocError>
    ensures { IfOk result (λ x. x ≡ name_updated_after target update kept) }
{
    let old = as_number(alloc, old_value(alloc, target)?)?;
    let old = stored(alloc, kept, old)?;
    let new = one_further(alloc, update, variable(alloc, kept))?;
    let written = then(alloc, old, written(alloc, target, new)?)?;
    then(alloc, written, variable(alloc, kept))
}

/// `x++` and the like.
pub(crate) fn name_updated(
    alloc: Global,
    target: VariableTarget,
    update: Update,
    names: &mut Names,
) -> Result<CoreExpr, AllocError>
    ensures { Makes result names.new (name_updated target update names.old) }
{
    if !gives_old(update) {
        return name_updated_before(alloc, target, update);
    }
    let kept = names.temporary()?;
    name_updated_after(alloc, target, update, kept)
}
