//! Loops and labelled statements: a state for the test and the body, one for the update, and one behind.

ghost use Rattle.std.specs.Prelude.{◌≡◌, ◌+◌, [], ◌∷◌, IfOk, OnOk};
ghost use Rattle.core_ast.specs.Made.{act, linked};
ghost use Rattle.core_ast.specs.declared.parts.CoreOp.TheVariants as op;
ghost use Rattle.core_ast.specs.declared.parts.Unary.TheVariants.{Not};
ghost use Rattle.pass_rules.specs.yield_rules.Yields.{when};
ghost use Rattle.pass_rules.specs.state_rules.States.{draws, goes, headed, tested, turned, under, updated};

use crate::build::when;
use crate::going::goes;
use crate::growing::{draws, goes_then, says};
use crate::jumps::under;
use crate::numbers::sum;
use core_ast::{CoreExpr, CoreOp, CoreStat, Label, Unary, act, linked};
use pass_rules::state_rules::{Machine, Place};
use sqlite_items::Items;
use std::alloc::{AllocError, Global};

/// The place of the body of a loop whose first state is this one.
pub fn loop_place(
    alloc: Global,
    place: &Place,
    head: u32,
    labels: &[Label],
) -> Result<Place, AllocError>
    ensures { IfOk result (λ p. p ≡ under place.now (head + 2) (head + 1) labels.now) }
{
    let after = sum(head, 2)?;
    let update = sum(head, 1)?;
    under(alloc, place, after, update, labels)
}

fn leave(alloc: Global, place: &Place, after: u32, test: CoreExpr) -> Result<CoreStat, AllocError>
    ensures { IfOk result (λ s. s ≡ when (linked test (act (op.Unary Not))) (goes place.now after)) }
{
    let over = linked(test, act(alloc, CoreOp::Unary(Unary::Not)))?;
    let body = goes(alloc, place, after)?;
    when(alloc, over, body)
}

fn tested(
    alloc: Global,
    place: &Place,
    after: u32,
    test: Option<CoreExpr>,
    machine: &mut Machine,
) -> Result<(), AllocError>
    ensures { OnOk result (machine.new ≡ tested place.now after test machine.old) }
{
    match test {
        Some(test) => says(leave(alloc, place, after, test)?, machine),
        None => Ok(()),
    }
}

fn updated(update: Option<CoreExpr>, machine: &mut Machine) -> Result<(), AllocError>
    ensures { OnOk result (machine.new ≡ updated update machine.old) }
{
    match update {
        Some(update) => says(CoreStat::Do(update), machine),
        None => Ok(()),
    }
}

/// The state of a loop's test.
pub fn headed(
    alloc: Global,
    place: &Place,
    test: Option<CoreExpr>,
    head: u32,
    machine: &mut Machine,
) -> Result<(), AllocError>
    ensures { OnOk result (machine.new ≡ headed place.now test head machine.old) }
{
    draws(3, machine)?;
    goes_then(alloc, place, head, head, machine)?;
    let after = sum(head, 2)?;
    tested(alloc, place, after, test, machine)
}

/// The state of a loop's update, and the one behind the loop.
pub fn turned(
    alloc: Global,
    place: &Place,
    update: Option<CoreExpr>,
    head: u32,
    machine: &mut Machine,
) -> Result<(), AllocError>
    ensures { OnOk result (machine.new ≡ turned place.now update head machine.old) }
{
    let turn = sum(head, 1)?;
    goes_then(alloc, place, turn, turn, machine)?;
    updated(update, machine)?;
    let after = sum(head, 2)?;
    goes_then(alloc, place, head, after, machine)
}

/// The place under a label, which a state behind its statement has.
pub fn open_label(
    alloc: Global,
    place: &Place,
    label: Label,
    machine: &mut Machine,
) -> Result<Place, AllocError>
    ensures place { IfOk result (λ p. p ≡ under place.now machine.old.next machine.old.next (label ∷ [])) }
    ensures machine { OnOk result (machine.new ≡ draws 1 machine.old) }
{
    let state = machine.next;
    draws(1, machine)?;
    let mut labels = Items::new(alloc);
    labels.push(label)?;
    under(alloc, place, state, state, labels.as_slice())
}
