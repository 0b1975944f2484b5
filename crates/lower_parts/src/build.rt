//! Small expressions and statements.

ghost use Rattle.std.specs.Prelude.{◌≡◌, [], ◌∷◌, ◌++◌, IfOk, OnOk};
ghost use Rattle.core_ast.specs.Made.{undefined, variable};
ghost use Rattle.lowering_rules.specs.Making.{defaulted, differs, flag, initialize, is_same, number, primitive, scoped, set, stored, text, then, through, through_with, to_text, two, uninitialized, when};

use core_ast::{
    Binary, Constant, CoreCase, CoreExpr, CoreHead, CoreOp, CoreStat, Primitive, ScopedName, Var,
    act, acting, constant, expression, linked, undefined, variable,
};
use shared_text::Units;
use sqlite_items::Items;
use std::alloc::{AllocError, Global};

/// A text.
pub fn text(alloc: Global, units: Units) -> CoreExpr
    ensures { result ≡ text units }
{
    constant(alloc, Constant::Text(units))
}

/// A number.
pub fn number(alloc: Global, value: u64) -> CoreExpr
    ensures { result ≡ number value }
{
    constant(alloc, Constant::Integer(value))
}

/// A truth value.
pub fn flag(alloc: Global, value: bool) -> CoreExpr
    ensures { result ≡ flag value }
{
    constant(alloc, Constant::Truth(value))
}

/// A primitive that has no operands.
pub fn primitive(alloc: Global, which: Primitive) -> CoreExpr
    ensures { result ≡ primitive which }
{
    expression(alloc, CoreHead::Primitive(which))
}

/// An operation on a value and another.
pub fn two(alloc: Global, x: CoreExpr, op: CoreOp, y: CoreExpr) -> Result<CoreExpr, AllocError>
    ensures { IfOk result (λ z. z ≡ two x op y) }
{
    let link = acting(alloc, op, y)?;
    linked(x, link)
}

/// A value after another.
pub fn then(alloc: Global, x: CoreExpr, y: CoreExpr) -> Result<CoreExpr, AllocError>
    ensures { IfOk result (λ z. z ≡ then x y) }
{
    two(alloc, x, CoreOp::Then, y)
}

/// Whether two values are the same.
pub fn is_same(alloc: Global, x: CoreExpr, y: CoreExpr) -> Result<CoreExpr, AllocError>
    ensures { IfOk result (λ z. z ≡ is_same x y) }
{
    two(alloc, x, CoreOp::Operator(Binary::Same), y)
}

/// Whether they aren't.
pub fn differs(alloc: Global, x: CoreExpr, y: CoreExpr) -> Result<CoreExpr, AllocError>
    ensures { IfOk result (λ z. z ≡ differs x y) }
{
    two(alloc, x, CoreOp::Operator(Binary::NotSame), y)
}

/// What a primitive makes of a value.
pub fn through(alloc: Global, x: CoreExpr, which: Primitive) -> Result<CoreExpr, AllocError>
    ensures { IfOk result (λ z. z ≡ through x which) }
{
    linked(x, act(alloc, CoreOp::Primitive(which)))
}

/// What a primitive makes of two values.
pub fn through_with(
    alloc: Global,
    x: CoreExpr,
    which: Primitive,
    y: CoreExpr,
) -> Result<CoreExpr, AllocError>
    ensures { IfOk result (λ z. z ≡ through_with x which y) }
{
    two(alloc, x, CoreOp::Primitive(which), y)
}

/// The value as a text, or as the key of a property.
pub fn to_text(alloc: Global, x: CoreExpr) -> Result<CoreExpr, AllocError>
    ensures { IfOk result (λ z. z ≡ to_text x) }
{
    through(alloc, x, Primitive::ToText)
}

/// The value, which the variable takes.
pub fn stored(alloc: Global, var: Var, value: CoreExpr) -> Result<CoreExpr, AllocError>
    ensures { IfOk result (λ z. z ≡ stored var value) }
{
    linked(value, act(alloc, CoreOp::Set(var)))
}

/// The variable takes the value.
pub fn set(alloc: Global, var: Var, value: CoreExpr) -> Result<CoreStat, AllocError>
    ensures { IfOk result (λ s. s ≡ set var value) }
{
    let value = stored(alloc, var, value)?;
    Ok(CoreStat::Do(value))
}

/// The variable begins with the value.
pub fn initialize(alloc: Global, var: Var, value: CoreExpr) -> Result<CoreStat, AllocError>
    ensures { IfOk result (λ s. s ≡ initialize var value) }
{
    let value = linked(value, act(alloc, CoreOp::Init(var)))?;
    Ok(CoreStat::Do(value))
}

/// The variable isn't initialized.
pub fn uninitialized(alloc: Global, var: Var) -> Result<CoreStat, AllocError>
    ensures { IfOk result (λ s. s ≡ uninitialized var) }
{
    let mark = expression(alloc, CoreHead::Empty);
    initialize(alloc, var, mark)
}

/// One statement.
pub fn alone(alloc: Global, stat: CoreStat) -> Result<Items<CoreStat>, AllocError>
    ensures { IfOk result (λ ss. ss ≡ stat ∷ []) }
{
    let mut body = Items::new(alloc);
    body.push(stat)?;
    Ok(body)
}

/// An `if` without an else.
pub fn when(alloc: Global, test: CoreExpr, body: Items<CoreStat>) -> Result<CoreStat, AllocError>
    ensures { IfOk result (λ s. s ≡ when test body) }
{
    let mut cases = Items::new(alloc);
    let test = Some(test);
    cases.push(CoreCase { test, body })?;
    Ok(CoreStat::If { cases })
}

/// Whether the variable is undefined.
fn is_missing(alloc: Global, var: Var) -> Result<CoreExpr, AllocError>
    ensures { IfOk result (λ x. x ≡ is_same (variable var) undefined) }
{
    is_same(alloc, variable(alloc, var), undefined(alloc))
}

/// The default takes the place of undefined.
#[tactic(auto, unfolding(lowering_rules::specs::Making::defaulted))]
pub fn push_default(
    alloc: Global,
    var: Var,
    default: Option<CoreExpr>,
    out: &mut Items<CoreStat>,
) -> Result<(), AllocError>
    ensures { OnOk result (out.new ≡ out.old ++ defaulted var default) }
{
    match default {
        Some(value) => {
            let test = is_missing(alloc, var)?;
            let body = alone(alloc, set(alloc, var, value)?)?;
            out.push(when(alloc, test, body)?)
        }
        None => Ok(()),
    }
}

/// The statements in a scope of their names, if there are some.
pub fn push_scoped(
    names: Items<ScopedName>,
    body: Items<CoreStat>,
    out: &mut Items<CoreStat>,
) -> Result<(), AllocError>
    ensures { OnOk result (out.new ≡ out.old ++ scoped names body) }
{
    if names.len() == 0 {
        return out.append(body);
    }
    out.push(CoreStat::Scoped { names, body })
}
