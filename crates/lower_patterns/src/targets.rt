//! What the parts of patterns go to.

ghost use Rattle.std.specs.Prelude.{◌≡◌, [], ◌∷◌, ◌++◌, IfOk, OnOk};
ghost use Rattle.core_ast.specs.Made.{variable};
ghost use Rattle.core_ast.specs.declared.parts.CoreOp.TheVariants as op;
ghost use Rattle.core_ast.specs.declared.tree.CoreStat.TheVariants as stat;
ghost use Rattle.lowering_rules.specs.Making.{two};
ghost use Rattle.lowering_rules.specs.Patterns.{assigned, assigned_target, declared_target, member_target, name_checked, name_put};

use crate::properties::{Found, place};
use core_ast::{CoreExpr, CoreOp, CoreStat, Primitive, Var, variable};
use lower_parts::{alone, initialize, primitive, set, through, two};
use lowering_rules::{MemberTarget, Target, VariableTarget};
use sqlite_items::Items;
use std::alloc::{AllocError, Global};

/// A name that is declared takes the value of the variable.
pub fn declared_target(
    alloc: Global,
    var: Var,
    default: Option<CoreExpr>,
    value: Var,
) -> Result<Target, AllocError>
    ensures { IfOk result (λ t. t ≡ declared_target var default value) }
{
    let put = initialize(alloc, var, variable(alloc, value))?;
    Ok(Target {
        before: Items::new(alloc),
        default,
        after: alone(alloc, put)?,
    })
}

fn push_check(
    alloc: Global,
    target: VariableTarget,
    out: &mut Items<CoreStat>,
) -> Result<(), AllocError>
    ensures { OnOk result (out.new ≡ out.old ++ name_checked target) }
{
    if !target.checked {
        return Ok(());
    }
    let check = through(alloc, variable(alloc, target.var), Primitive::CheckReady)?;
    out.push(CoreStat::Do(check))
}

fn name_put(alloc: Global, target: VariableTarget, value: Var) -> Result<CoreStat, AllocError>
    ensures { IfOk result (λ s. s ≡ name_put target value) }
{
    if target.constant {
        return Ok(CoreStat::Do(primitive(alloc, Primitive::RefuseConst)));
    }
    set(alloc, target.var, variable(alloc, value))
}

fn assigned(
    alloc: Global,
    target: VariableTarget,
    value: Var,
) -> Result<Items<CoreStat>, AllocError>
    ensures { IfOk result (λ ss. ss ≡ assigned target value) }
{
    let mut out = Items::new(alloc);
    push_check(alloc, target, &mut out)?;
    out.push(name_put(alloc, target, value)?)?;
    Ok(out)
}

/// A name that is assigned takes the value of the variable.
pub fn assigned_target(
    alloc: Global,
    target: VariableTarget,
    default: Option<CoreExpr>,
    value: Var,
) -> Result<Target, AllocError>
    ensures { IfOk result (λ t. t ≡ assigned_target target default value) }
{
    let after = assigned(alloc, target, value)?;
    Ok(Target {
        before: Items::new(alloc),
        default,
        after,
    })
}

fn put(alloc: Global, at: CoreExpr, value: Var) -> Result<Items<CoreStat>, AllocError>
    ensures { IfOk result (λ ss. ss ≡ stat.Do (two at op.Put (variable value)) ∷ []) }
{
    let write = two(alloc, at, CoreOp::Put, variable(alloc, value))?;
    alone(alloc, CoreStat::Do(write))
}

/// A property takes the value of the variable. Its object and its name are found before the value is taken.
pub fn member_target(
    alloc: Global,
    target: MemberTarget,
    default: Option<CoreExpr>,
    value: Var,
) -> Result<Target, AllocError>
    ensures { IfOk result (λ t. t ≡ member_target target default value) }
{
    let Found { before: found, at } = place(alloc, target.base, target.name)?;
    let mut before = alone(alloc, set(alloc, target.base, target.object)?)?;
    before.append(found)?;
    let after = put(alloc, at, value)?;
    Ok(Target {
        before,
        default,
        after,
    })
}
