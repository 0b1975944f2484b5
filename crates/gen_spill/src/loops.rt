//! Loops, whose test or update may have statements.

ghost use Rattle.std.specs.Prelude.{◌≡◌, [], ◌∷◌, ◌++◌, IfOk, OnOk};
ghost use Rattle.pass_rules.specs.yield_rules.Yields.{exit, has_maybe, headed, label, loop_place, looped, rest_maybe, turn, turned};

use crate::build::{alone, flag, in_slot, keep, leave, when};
use crate::parts::has;
use crate::places::{deeper, label, under};
use core_ast::{CoreExpr, CoreOp, CoreStat, Label, Unary, act, linked};
use pass_rules::yield_rules::{Place, Spilled};
use sqlite_items::Items;
use std::alloc::{AllocError, Global};

fn has_maybe(part: &Option<Spilled>) -> bool
    ensures { result ≡ has_maybe part.now }
{
    match part {
        Some(part) => has(part),
        None => false,
    }
}

fn rest_maybe(part: Option<Spilled>) -> Option<CoreExpr>
    ensures { result ≡ rest_maybe part }
{
    match part {
        Some(Spilled { rest, .. }) => Some(rest),
        None => None,
    }
}

/// Where a loop's test and body are turned.
pub fn loop_place(place: Place, update: &Option<Spilled>) -> Result<Place, AllocError>
    ensures { IfOk result (λ p. p ≡ loop_place place update.now) }
{
    let inner = under(place)?;
    if has_maybe(update) {
        return deeper(inner, 1);
    }
    Ok(inner)
}

/// The test, at the head of the body.
fn exit(
    alloc: Global,
    place: Place,
    test: Option<Spilled>,
    out: &mut Items<CoreStat>,
) -> Result<(), AllocError>
    ensures { OnOk result (out.new ≡ out.old ++ exit place test) }
{
    match test {
        Some(Spilled { before, rest }) => {
            out.append(before)?;
            let over = linked(rest, act(alloc, CoreOp::Unary(Unary::Not)))?;
            out.push(when(alloc, over, alone(alloc, leave(place))?)?)
        }
        None => Ok(()),
    }
}

/// The update, at the head of each turn but the first.
fn turn(alloc: Global, place: Place, update: Option<Spilled>) -> Result<Items<CoreStat>, AllocError>
    ensures { IfOk result (λ ss. ss ≡ turn place update) }
{
    match update {
        Some(Spilled { mut before, rest }) => {
            before.push(CoreStat::Do(rest))?;
            let mut out = alone(alloc, when(alloc, in_slot(alloc, place), before)?)?;
            keep(alloc, place, flag(alloc, true), &mut out)?;
            Ok(out)
        }
        None => Ok(Items::new(alloc)),
    }
}

fn labels_with(alloc: Global, place: Place, labels: &[Label]) -> Result<Items<Label>, AllocError>
    ensures { IfOk result (λ ls. ls ≡ labels.now ++ label place ∷ []) }
{
    let mut all = Items::from_slice(alloc, labels)?;
    all.push(label(place))?;
    Ok(all)
}

fn headed(
    alloc: Global,
    place: Place,
    labels: &[Label],
    test: Option<Spilled>,
    update: Option<CoreExpr>,
    rest: Items<CoreStat>,
) -> Result<CoreStat, AllocError>
    ensures { IfOk result (λ s. s ≡ headed place labels.now test update rest) }
{
    let labels = labels_with(alloc, place, labels)?;
    let mut body = Items::new(alloc);
    exit(alloc, place, test, &mut body)?;
    body.append(rest)?;
    Ok(CoreStat::Loop {
        labels,
        test: None,
        update,
        body,
    })
}

fn turned(
    alloc: Global,
    place: Place,
    labels: &[Label],
    test: Option<Spilled>,
    update: Option<Spilled>,
    rest: Items<CoreStat>,
) -> Result<CoreStat, AllocError>
    ensures { IfOk result (λ s. s ≡ turned place labels.now test update rest) }
{
    let labels = labels_with(alloc, place, labels)?;
    let mut body = turn(alloc, place, update)?;
    exit(alloc, place, test, &mut body)?;
    body.append(rest)?;
    Ok(CoreStat::Loop {
        labels,
        test: None,
        update: None,
        body,
    })
}

/// A loop, whose parts are done.
pub fn push_loop(
    alloc: Global,
    place: Place,
    labels: &[Label],
    test: Option<Spilled>,
    update: Option<Spilled>,
    body: Items<CoreStat>,
    out: &mut Items<CoreStat>,
) -> Result<(), AllocError>
    ensures { OnOk result (out.new ≡ looped place labels.now test update body out.old) }
{
    if has_maybe(&update) {
        keep(alloc, place, flag(alloc, false), out)?;
        return out.push(turned(alloc, place, labels, test, update, body)?);
    }
    let update = rest_maybe(update);
    if has_maybe(&test) {
        return out.push(headed(alloc, place, labels, test, update, body)?);
    }
    let labels = Items::from_slice(alloc, labels)?;
    let test = rest_maybe(test);
    out.push(CoreStat::Loop {
        labels,
        test,
        update,
        body,
    })
}
