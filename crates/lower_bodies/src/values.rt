//! Values that statements make (ECMA-262, 6th edition, 14.1.20).

ghost use Rattle.std.specs.Prelude.{◌≡◌, IfOk};
ghost use Rattle.lowering_rules.specs.statement_rules.Bodies.{after_running, named_function, own_body, own_scope};

use core_ast::{
    CoreExpr, CoreHead, CoreLink, CoreOp, CoreStat, FunctionId, ScopedName, Var, acting,
    expression, linked, undefined, variable,
};
use lower_parts::{alone, initialize, set};
use sqlite_items::Items;
use std::alloc::{AllocError, Global};

/// The value, behind these statements.
pub fn after_running(
    alloc: Global,
    statements: Items<CoreStat>,
    value: CoreExpr,
) -> Result<CoreExpr, AllocError>
    ensures { IfOk result (λ x. x ≡ after_running statements value) }
{
    let body = statements;
    let ran = linked(undefined(alloc), CoreLink::Run { body })?;
    linked(ran, acting(alloc, CoreOp::Then, value)?)
}

/// The name is initialized with the function, which is kept.
fn own_body(
    alloc: Global,
    kept: Var,
    name: Var,
    function: FunctionId,
) -> Result<Items<CoreStat>, AllocError>
    ensures { IfOk result (λ ss. ss ≡ own_body kept name function) }
{
    let closure = expression(alloc, CoreHead::Function(function));
    let mut body = alone(alloc, initialize(alloc, name, closure)?)?;
    body.push(set(alloc, kept, variable(alloc, name))?)?;
    Ok(body)
}

fn own_scope(
    alloc: Global,
    kept: Var,
    name: ScopedName,
    function: FunctionId,
) -> Result<CoreStat, AllocError>
    ensures { IfOk result (λ s. s ≡ own_scope kept name function) }
{
    let body = own_body(alloc, kept, name.var, function)?;
    let names = Items::from_slice(alloc, &[name])?;
    Ok(CoreStat::Scoped { names, body })
}

/// A function expression with a name of its own, which stands in a scope of its own.
pub fn lower_named_function(
    alloc: Global,
    kept: Var,
    name: ScopedName,
    function: FunctionId,
) -> Result<CoreExpr, AllocError>
    ensures { IfOk result (λ x. x ≡ named_function kept name function) }
{
    let scope = alone(alloc, own_scope(alloc, kept, name, function)?)?;
    after_running(alloc, scope, variable(alloc, kept))
}
