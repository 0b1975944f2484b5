//! What expressions come to before their value is taken (ECMA-262, 6th edition, 6.2.3).

ghost use Rattle.std.specs.Prelude.{◌≡◌, IfOk};
ghost use Rattle.lowering_rules.specs.reference_rules.Drawing.{Makes};
ghost use Rattle.lowering_rules.specs.reference_rules.References.{assigned, deleted, operated_at, updated, value_deleted, value_of};

use crate::members::{member_deleted, member_read};
use crate::names::{name_assigned, name_operated, name_updated, old_value, plain_target};
use crate::operators::{as_number, operated};
use crate::writes::{member_assigned, member_operated, member_updated};
use core_ast::{CoreExpr, Update};
use lower_parts::{flag, then};
use lowering_rules::Names;
use lowering_rules::reference_rules::{Compound, Reached};
use std::alloc::{AllocError, Global};

/// The value.
#[tactic(auto, unfolding(lowering_rules::specs::reference_rules::References::value_of))]
pub fn value_of(alloc: Global, reached: Reached) -> Result<CoreExpr, AllocError>
    ensures { IfOk result (λ x. x ≡ value_of reached) }
{
    match reached {
        Reached::Value(value) => Ok(value),
        Reached::Variable { target, .. } => old_value(alloc, target),
        Reached::Property { object, name } => member_read(alloc, object, name),
        Reached::Inherited { value, .. } => Ok(value),
    }
}

/// `=`
#[tactic(auto, unfolding(lowering_rules::specs::reference_rules::References::assigned))]
pub fn lower_assigned(
    alloc: Global,
    reached: Reached,
    value: CoreExpr,
    names: &mut Names,
) -> Result<CoreExpr, AllocError>
    ensures { Makes result names.new (assigned reached value names.old) }
{
    match reached {
        Reached::Value(left) => then(alloc, left, value),
        Reached::Variable { target, imported } => {
            name_assigned(alloc, plain_target(target, imported), value, names)
        }
        Reached::Property { object, name } => member_assigned(alloc, object, name, value, names),
        Reached::Inherited { value: left, .. } => then(alloc, left, value),
    }
}

/// `+=` and the like.
#[tactic(auto, unfolding(lowering_rules::specs::reference_rules::References::operated_at))]
pub fn lower_operated(
    alloc: Global,
    reached: Reached,
    by: Compound,
    value: CoreExpr,
    names: &mut Names,
) -> Result<CoreExpr, AllocError>
    ensures { Makes result names.new (operated_at reached by value names.old) }
{
    match reached {
        Reached::Value(left) => operated(alloc, left, by, value),
        Reached::Variable { target, .. } => name_operated(alloc, target, by, value),
        Reached::Property { object, name } => {
            member_operated(alloc, object, name, by, value, names)
        }
        Reached::Inherited { value: left, .. } => operated(alloc, left, by, value),
    }
}

/// `++` and `--`.
#[tactic(auto, unfolding(lowering_rules::specs::reference_rules::References::updated))]
pub fn lower_updated(
    alloc: Global,
    reached: Reached,
    update: Update,
    names: &mut Names,
) -> Result<CoreExpr, AllocError>
    ensures { Makes result names.new (updated reached update names.old) }
{
    match reached {
        Reached::Value(value) => as_number(alloc, value),
        Reached::Variable { target, .. } => name_updated(alloc, target, update, names),
        Reached::Property { object, name } => member_updated(alloc, object, name, update, names),
        Reached::Inherited { value, .. } => as_number(alloc, value),
    }
}

fn value_deleted(alloc: Global, value: CoreExpr) -> Result<CoreExpr, AllocError>
    ensures { IfOk result (λ x. x ≡ value_deleted value) }
{
    then(alloc, value, flag(alloc, true))
}

/// `delete`
#[tactic(auto, unfolding(lowering_rules::specs::reference_rules::References::deleted))]
pub fn lower_deleted(alloc: Global, reached: Reached) -> Result<CoreExpr, AllocError>
    ensures { IfOk result (λ x. x ≡ deleted reached) }
{
    match reached {
        Reached::Value(value) => value_deleted(alloc, value),
        Reached::Variable { target, .. } => value_deleted(alloc, old_value(alloc, target)?),
        Reached::Property { object, name } => member_deleted(alloc, object, name),
        Reached::Inherited { value, .. } => value_deleted(alloc, value),
    }
}
