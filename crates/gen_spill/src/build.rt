//! Small expressions and statements.

ghost use Rattle.std.specs.Prelude.{◌≡◌, [], ◌∷◌, ◌++◌, IfOk, OnOk};
ghost use Rattle.pass_rules.specs.yield_rules.Yields.{flag, going_on, in_slot, is_bare_constant, is_bare_host, is_constant, is_host, is_same, kept, leave, number, property, two, when, with_effects};

use crate::places::{label, slot};
use core_ast::{
    Binary, Constant, CoreCase, CoreExpr, CoreHead, CoreOp, CoreStat, Key, act, acting, constant,
    linked, variable,
};
use pass_rules::yield_rules::{Chain, Place};
use shared_text::Name;
use sqlite_items::Items;
use std::alloc::{AllocError, Global};

/// The value of the slot.
pub(crate) fn in_slot(alloc: Global, place: Place) -> CoreExpr
    ensures { result ≡ in_slot place }
{
    variable(alloc, slot(place))
}

/// The value goes into the slot.
pub(crate) fn kept(alloc: Global, place: Place, value: CoreExpr) -> Result<CoreStat, AllocError>
    ensures { IfOk result (λ s. s ≡ kept place value) }
{
    let value = linked(value, act(alloc, CoreOp::Set(slot(place))))?;
    Ok(CoreStat::Do(value))
}

/// The same behind other statements.
pub(crate) fn keep(
    alloc: Global,
    place: Place,
    value: CoreExpr,
    out: &mut Items<CoreStat>,
) -> Result<(), AllocError>
    ensures { OnOk result (out.new ≡ out.old ++ kept place value ∷ []) }
{
    let one = kept(alloc, place, value)?;
    out.push(one)
}

/// An expression so far without a reference.
pub fn going_on(before: Items<CoreStat>, base: CoreExpr) -> Chain
    ensures { result ≡ going_on before base }
{
    let reference = None;
    Chain {
        before,
        base,
        reference,
    }
}

#[tactic(auto, unfolding(pass_rules::specs::yield_rules::Yields::is_constant))]
fn is_constant(head: &CoreHead) -> bool
    ensures { result ≡ is_constant head.now }
{
    match head {
        CoreHead::Constant(_) => true,
        _ => false,
    }
}

#[tactic(auto, unfolding(pass_rules::specs::yield_rules::Yields::is_host))]
fn is_host(head: &CoreHead) -> bool
    ensures { result ≡ is_host head.now }
{
    match head {
        CoreHead::Host(_) => true,
        _ => false,
    }
}

fn is_bare_constant(x: &CoreExpr) -> bool
    ensures { result ≡ is_bare_constant x.now }
{
    is_constant(&x.head) & (x.links.len() == 0)
}

/// Whether it is a host alone.
pub(crate) fn is_bare_host(x: &CoreExpr) -> bool
    ensures { result ≡ is_bare_host x.now }
{
    is_host(&x.head) & (x.links.len() == 0)
}

/// What is evaluated for its effect.
pub fn push_effects(x: CoreExpr, out: &mut Items<CoreStat>) -> Result<(), AllocError>
    ensures { OnOk result (out.new ≡ with_effects x out.old) }
{
    if is_bare_constant(&x) {
        return Ok(());
    }
    out.push(CoreStat::Do(x))
}

pub(crate) fn two(
    alloc: Global,
    x: CoreExpr,
    op: CoreOp,
    y: CoreExpr,
) -> Result<CoreExpr, AllocError>
    ensures { IfOk result (λ z. z ≡ two x op y) }
{
    let link = acting(alloc, op, y)?;
    linked(x, link)
}

pub(crate) fn is_same(alloc: Global, x: CoreExpr, y: CoreExpr) -> Result<CoreExpr, AllocError>
    ensures { IfOk result (λ z. z ≡ is_same x y) }
{
    two(alloc, x, CoreOp::Operator(Binary::Same), y)
}

pub(crate) fn number(alloc: Global, value: u64) -> CoreExpr
    ensures { result ≡ number value }
{
    constant(alloc, Constant::Integer(value))
}

pub(crate) fn flag(alloc: Global, value: bool) -> CoreExpr
    ensures { result ≡ flag value }
{
    constant(alloc, Constant::Truth(value))
}

/// A property of what stands in the slot.
pub(crate) fn property(alloc: Global, place: Place, name: &[u8]) -> Result<CoreExpr, AllocError>
    ensures { IfOk result (λ x. x ≡ property place name.now) }
{
    let key = Key::WordKey(Name::of_bytes(alloc, name)?);
    linked(in_slot(alloc, place), act(alloc, CoreOp::Member(key)))
}

/// A break of the place's label.
pub(crate) fn leave(place: Place) -> CoreStat
    ensures { result ≡ leave place }
{
    CoreStat::Jump {
        goes_on: false,
        label: Some(label(place)),
    }
}

/// An `if` without an else.
pub(crate) fn when(
    alloc: Global,
    test: CoreExpr,
    body: Items<CoreStat>,
) -> Result<CoreStat, AllocError>
    ensures { IfOk result (λ s. s ≡ when test body) }
{
    let mut cases = Items::new(alloc);
    let test = Some(test);
    cases.push(CoreCase { test, body })?;
    Ok(CoreStat::If { cases })
}

/// One statement.
pub(crate) fn alone(alloc: Global, stat: CoreStat) -> Result<Items<CoreStat>, AllocError>
    ensures { IfOk result (λ ss. ss ≡ stat ∷ []) }
{
    let mut body = Items::new(alloc);
    body.push(stat)?;
    Ok(body)
}
