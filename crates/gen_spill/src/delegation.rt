//! `yield` and `yield*` (ECMA-262, 6th edition, 14.4.14).

ghost use Rattle.std.specs.Prelude.{◌≡◌, IfOk, OnOk};
ghost use Rattle.pass_rules.specs.yield_rules.Yields.{deeper, delegate_begin, delegate_body, delegate_loop, delegate_step, delegated, delegating, is_done, no_return, property, returned, value_name, yielded};

use crate::build::{
    alone, going_on, in_slot, is_same, keep, kept, leave, number, property, two, when,
};
use crate::chains::finished;
use crate::places::{deeper, label, slot};
use core_ast::{CoreExpr, CoreLink, CoreOp, CoreStat, Primitive, linked, undefined};
use pass_rules::yield_rules::{Chain, Place, Spilled};
use sqlite_items::Items;
use std::alloc::{AllocError, Global};

/// The statement hands the value out, and leaves what comes back in the slot.
pub(crate) fn yielded(alloc: Global, place: Place, chain: Chain) -> Result<Chain, AllocError>
    ensures { IfOk result (λ c. c ≡ yielded place chain) }
{
    let Spilled { mut before, rest } = finished(alloc, chain)?;
    before.push(CoreStat::Yield {
        value: rest,
        kind: None,
        result: slot(place),
    })?;
    Ok(going_on(before, in_slot(alloc, place)))
}

/// The value of the result object.
fn result_value(alloc: Global, place: Place) -> Result<CoreExpr, AllocError>
    ensures { IfOk result (λ x. x ≡ property (deeper 3 place) value_name) }
{
    property(alloc, deeper(place, 3)?, b"value")
}

fn delegate_step(alloc: Global, place: Place) -> Result<CoreExpr, AllocError>
    ensures { IfOk result (λ x. x ≡ delegate_step place) }
{
    let mut parts = Items::new(alloc);
    parts.push(in_slot(alloc, deeper(place, 1)?))?;
    parts.push(in_slot(alloc, deeper(place, 2)?))?;
    let op = CoreOp::Primitive(Primitive::DelegateStep);
    let site = None;
    linked(in_slot(alloc, place), CoreLink::Strict { op, parts, site })
}

fn no_return(alloc: Global, place: Place) -> Result<CoreStat, AllocError>
    ensures { IfOk result (λ s. s ≡ no_return place) }
{
    let object = in_slot(alloc, deeper(place, 3)?);
    let test = is_same(alloc, object, undefined(alloc))?;
    let value = in_slot(alloc, deeper(place, 2)?);
    when(alloc, test, alone(alloc, CoreStat::Return(value))?)
}

/// A return that is done is the generator's.
fn returns(alloc: Global, place: Place) -> Result<CoreStat, AllocError>
    ensures { IfOk result (λ s. s ≡ returned place) }
{
    let kind = in_slot(alloc, deeper(place, 1)?);
    let test = is_same(alloc, kind, number(alloc, 2))?;
    let value = result_value(alloc, place)?;
    when(alloc, test, alone(alloc, CoreStat::Return(value))?)
}

fn is_done(alloc: Global, place: Place) -> Result<CoreStat, AllocError>
    ensures { IfOk result (λ s. s ≡ is_done place) }
{
    let test = property(alloc, deeper(place, 3)?, b"done")?;
    let mut body = alone(alloc, returns(alloc, place)?)?;
    body.push(leave(place))?;
    when(alloc, test, body)
}

fn delegating(alloc: Global, place: Place) -> Result<CoreStat, AllocError>
    ensures { IfOk result (λ s. s ≡ delegating place) }
{
    let value = in_slot(alloc, deeper(place, 3)?);
    let kind = Some(slot(deeper(place, 1)?));
    let result = slot(deeper(place, 2)?);
    Ok(CoreStat::Yield {
        value,
        kind,
        result,
    })
}

fn loop_body(alloc: Global, place: Place) -> Result<Items<CoreStat>, AllocError>
    ensures { IfOk result (λ ss. ss ≡ delegate_body place) }
{
    let step = delegate_step(alloc, place)?;
    let mut body = alone(alloc, kept(alloc, deeper(place, 3)?, step)?)?;
    body.push(no_return(alloc, place)?)?;
    body.push(is_done(alloc, place)?)?;
    body.push(delegating(alloc, place)?)?;
    Ok(body)
}

fn delegate_loop(alloc: Global, place: Place) -> Result<CoreStat, AllocError>
    ensures { IfOk result (λ s. s ≡ delegate_loop place) }
{
    let mut labels = Items::new(alloc);
    labels.push(label(place))?;
    let body = loop_body(alloc, place)?;
    Ok(CoreStat::Loop {
        labels,
        test: None,
        update: None,
        body,
    })
}

/// The iterator, the first kind and the first value.
fn begin(
    alloc: Global,
    place: Place,
    value: CoreExpr,
    out: &mut Items<CoreStat>,
) -> Result<(), AllocError>
    ensures { OnOk result (out.new ≡ delegate_begin place value out.old) }
{
    let start = CoreOp::Primitive(Primitive::IterStart);
    let iterator = two(alloc, value, start, number(alloc, 0))?;
    keep(alloc, place, iterator, out)?;
    keep(alloc, deeper(place, 1)?, number(alloc, 0), out)?;
    keep(alloc, deeper(place, 2)?, undefined(alloc), out)
}

/// `yield*` is a loop with a delegating yield.
pub(crate) fn delegated(alloc: Global, place: Place, chain: Chain) -> Result<Chain, AllocError>
    ensures { IfOk result (λ c. c ≡ delegated place chain) }
{
    let Spilled { mut before, rest } = finished(alloc, chain)?;
    begin(alloc, place, rest, &mut before)?;
    before.push(delegate_loop(alloc, place)?)?;
    Ok(going_on(before, result_value(alloc, place)?))
}
