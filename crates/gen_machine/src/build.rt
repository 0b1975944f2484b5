//! Small expressions and statements.

ghost use Rattle.std.specs.Prelude.{◌≡◌, [], ◌∷◌, IfOk};
ghost use Rattle.pass_rules.specs.yield_rules.Yields.{is_same, number, two, when};
ghost use Rattle.pass_rules.specs.state_rules.States.{given, holds_number, is_there, moved, set, set_number};

use core_ast::{
    Binary, Constant, CoreCase, CoreExpr, CoreHead, CoreOp, CoreStat, Var, act, acting, constant,
    linked, variable,
};
use pass_rules::state_rules::Completion;
use sqlite_items::Items;
use std::alloc::{AllocError, Global};

pub(crate) fn two(
    alloc: Global,
    x: CoreExpr,
    op: CoreOp,
    y: CoreExpr,
) -> Result<CoreExpr, AllocError>
    ensures { IfOk result (λ z. z ≡ two x op y) }
{
    let link = acting(alloc, op, y)?;
    linked(x, link)
}

pub(crate) fn is_same(alloc: Global, x: CoreExpr, y: CoreExpr) -> Result<CoreExpr, AllocError>
    ensures { IfOk result (λ z. z ≡ is_same x y) }
{
    two(alloc, x, CoreOp::Operator(Binary::Same), y)
}

pub(crate) fn number(alloc: Global, value: u64) -> CoreExpr
    ensures { result ≡ number value }
{
    constant(alloc, Constant::Integer(value))
}

/// One statement.
pub(crate) fn alone(alloc: Global, stat: CoreStat) -> Result<Items<CoreStat>, AllocError>
    ensures { IfOk result (λ ss. ss ≡ stat ∷ []) }
{
    let mut body = Items::new(alloc);
    body.push(stat)?;
    Ok(body)
}

/// An `if` without an else.
pub(crate) fn when(
    alloc: Global,
    test: CoreExpr,
    body: Items<CoreStat>,
) -> Result<CoreStat, AllocError>
    ensures { IfOk result (λ s. s ≡ when test body) }
{
    let mut cases = Items::new(alloc);
    let test = Some(test);
    cases.push(CoreCase { test, body })?;
    Ok(CoreStat::If { cases })
}

/// The variable takes the value.
pub(crate) fn set(alloc: Global, var: Var, value: CoreExpr) -> Result<CoreStat, AllocError>
    ensures { IfOk result (λ s. s ≡ set var value) }
{
    let value = linked(value, act(alloc, CoreOp::Set(var)))?;
    Ok(CoreStat::Do(value))
}

pub(crate) fn set_number(alloc: Global, var: Var, value: u64) -> Result<CoreStat, AllocError>
    ensures { IfOk result (λ s. s ≡ set_number var value) }
{
    set(alloc, var, number(alloc, value))
}

/// The variable takes the value of the other.
pub(crate) fn moved(alloc: Global, var: Var, other: Var) -> Result<CoreStat, AllocError>
    ensures { IfOk result (λ s. s ≡ moved var other) }
{
    set(alloc, var, variable(alloc, other))
}

pub(crate) fn holds_number(alloc: Global, var: Var, value: u64) -> Result<CoreExpr, AllocError>
    ensures { IfOk result (λ x. x ≡ holds_number var value) }
{
    is_same(alloc, variable(alloc, var), number(alloc, value))
}

/// Whether there is a completion.
pub(crate) fn is_there(alloc: Global, completion: Completion) -> Result<CoreExpr, AllocError>
    ensures { IfOk result (λ x. x ≡ is_there completion) }
{
    let kind = variable(alloc, completion.kind);
    two(
        alloc,
        kind,
        CoreOp::Operator(Binary::NotSame),
        number(alloc, 0),
    )
}

/// What a step gives: how it ends, and the value.
pub(crate) fn given(alloc: Global, how: u64, value: CoreExpr) -> Result<CoreStat, AllocError>
    ensures { IfOk result (λ s. s ≡ given how value) }
{
    let mut links = Items::new(alloc);
    links.push(acting(alloc, CoreOp::Element, number(alloc, how))?)?;
    links.push(acting(alloc, CoreOp::Element, value)?)?;
    Ok(CoreStat::Return(CoreExpr {
        site: None,
        head: CoreHead::ArgumentList,
        links,
    }))
}
