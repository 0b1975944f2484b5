//! Regions: blocks of a `try`.

ghost use Rattle.std.specs.Prelude.{◌≡◌, ◌+◌, [], ◌∷◌, ◌++◌, Some, IfOk, OnOk};
ghost use Rattle.pass_rules.specs.yield_rules.Yields.{case_of, number};
ghost use Rattle.pass_rules.specs.state_rules.States.{begins, catching, ends, goes_then, guarded, handed_on, keeping, kept_region, moves, nothing_kept, pair, region_with, says, takes_throw, within};

use crate::beginning::pair;
use crate::build::{alone, holds_number, number, set_number, when};
use crate::going::{again, handed_on, moves, push_moved, push_moves, push_number};
use crate::growing::{begins, draws, ends, goes_then, says};
use crate::numbers::sum;
use core_ast::{CoreCase, CoreStat, Var};
use pass_rules::state_rules::{Completion, Machine, Place};
use sqlite_items::Items;
use std::alloc::{AllocError, Global};

/// The place in a region with so many blocks with a finally round it.
fn within(alloc: Global, place: &Place, region: u32, finals: u32) -> Result<Place, AllocError>
    ensures { IfOk result (λ p. p ≡ within place.now region finals) }
{
    let targets = Items::from_slice(alloc, place.targets.as_slice())?;
    Ok(Place {
        registers: place.registers,
        region,
        finals,
        targets,
    })
}

/// A region's row, under its number.
fn push_row(
    alloc: Global,
    region: u32,
    body: Items<CoreStat>,
    rows: &mut Items<CoreCase>,
) -> Result<(), AllocError>
    ensures { OnOk result (rows.new ≡ rows.old ++ case_of (Some (number region)) body ∷ []) }
{
    let test = Some(number(alloc, region as u64));
    rows.push(CoreCase { test, body })
}

/// A new region with its row, and what it keeps between the steps.
fn region_with(
    alloc: Global,
    place: &Place,
    row: Items<CoreStat>,
    locals: Items<Var>,
    machine: &mut Machine,
) -> Result<(), AllocError>
    ensures { OnOk result (machine.new ≡ region_with place.now row locals machine.old) }
{
    let region = machine.regions;
    push_row(alloc, region, row, &mut machine.rows)?;
    machine.locals.append(locals)?;
    machine.regions = sum(region, 1)?;
    draws(2, machine)?;
    let stat = set_number(alloc, place.registers.region, region as u64)?;
    says(stat, machine)
}

fn takes_throw(
    alloc: Global,
    place: &Place,
    parameter: Var,
    handler: u32,
) -> Result<CoreStat, AllocError>
    ensures { IfOk result (λ s. s ≡ takes_throw place.now parameter handler) }
{
    let ending = place.registers.ending;
    let mut body = Items::new(alloc);
    push_number(alloc, ending.kind, 0, &mut body)?;
    push_moved(alloc, parameter, ending.value, &mut body)?;
    push_number(alloc, place.registers.state, handler as u64, &mut body)?;
    let test = holds_number(alloc, ending.kind, 1)?;
    when(alloc, test, body)
}

fn catching(
    alloc: Global,
    place: &Place,
    parameter: Var,
    handler: u32,
) -> Result<Items<CoreStat>, AllocError>
    ensures { IfOk result (λ ss. ss ≡ catching place.now parameter handler) }
{
    let mut out = Items::new(alloc);
    push_number(alloc, place.registers.region, place.region as u64, &mut out)?;
    out.push(takes_throw(alloc, place, parameter, handler)?)?;
    out.push(again(place.registers.turn))?;
    Ok(out)
}

fn one_var(alloc: Global, var: Var) -> Result<Items<Var>, AllocError>
    ensures { IfOk result (λ xs. xs ≡ var ∷ []) }
{
    let mut vars = Items::new(alloc);
    vars.push(var)?;
    Ok(vars)
}

/// The region of a block with a handler.
fn guarded(
    alloc: Global,
    place: &Place,
    parameter: Var,
    machine: &mut Machine,
) -> Result<(), AllocError>
    ensures { OnOk result (machine.new ≡ guarded place.now parameter machine.old) }
{
    let row = catching(alloc, place, parameter, machine.next)?;
    let locals = one_var(alloc, parameter)?;
    region_with(alloc, place, row, locals, machine)
}

/// The place of the block, in a new region with the handler's parameter.
pub fn open_region(
    alloc: Global,
    place: &Place,
    parameter: Var,
    machine: &mut Machine,
) -> Result<Place, AllocError>
    ensures place { IfOk result (λ p. p ≡ within place.now machine.old.regions place.now.finals) }
    ensures machine { OnOk result (machine.new ≡ guarded place.now parameter machine.old) }
{
    let inner = within(alloc, place, machine.regions, place.finals)?;
    guarded(alloc, place, parameter, machine)?;
    Ok(inner)
}

/// The state of a handler, whose number is this one, behind its block.
pub fn open_handler(
    alloc: Global,
    place: &Place,
    handler: u32,
    machine: &mut Machine,
) -> Result<(), AllocError>
    ensures { OnOk result (machine.new ≡ begins handler (ends (moves place.now place.now.region (handler + 1)) machine.old)) }
{
    let after = sum(handler, 1)?;
    let stats = moves(alloc, place, place.region, after)?;
    ends(stats, machine)?;
    begins(alloc, handler, machine)
}

/// The state behind a handler.
pub fn close_handler(
    alloc: Global,
    place: &Place,
    handler: u32,
    machine: &mut Machine,
) -> Result<(), AllocError>
    ensures { OnOk result (machine.new ≡ goes_then place.now (handler + 1) (handler + 1) machine.old) }
{
    let after = sum(handler, 1)?;
    goes_then(alloc, place, after, after, machine)
}

/// What a region with a finally does with a completion: it keeps it, and goes on with the last statements.
fn keeping(
    alloc: Global,
    place: &Place,
    kept: Completion,
    last: u32,
) -> Result<Items<CoreStat>, AllocError>
    ensures { IfOk result (λ ss. ss ≡ keeping place.now kept last) }
{
    let ending = place.registers.ending;
    let mut out = Items::new(alloc);
    push_moved(alloc, kept.kind, ending.kind, &mut out)?;
    push_moved(alloc, kept.value, ending.value, &mut out)?;
    push_number(alloc, ending.kind, 0, &mut out)?;
    push_moves(alloc, place, place.region, last, &mut out)?;
    Ok(out)
}

/// The region of a block with a finally, whose completion is kept here.
fn kept_region(
    alloc: Global,
    place: &Place,
    kept: Completion,
    machine: &mut Machine,
) -> Result<(), AllocError>
    ensures { OnOk result (machine.new ≡ region_with place.now (keeping place.now kept machine.old.next) (kept.kind ∷ kept.value ∷ []) machine.old) }
{
    let row = keeping(alloc, place, kept, machine.next)?;
    let mut locals = one_var(alloc, kept.kind)?;
    locals.push(kept.value)?;
    region_with(alloc, place, row, locals, machine)
}

/// The region of a block with a finally, and the names that keep its completion.
fn keep_region(
    alloc: Global,
    place: &Place,
    machine: &mut Machine,
) -> Result<Completion, AllocError>
    ensures kept { IfOk result (λ c. c ≡ pair machine.old.fresh) }
    ensures machine { OnOk result (machine.new ≡ kept_region place.now (pair machine.old.fresh) machine.old) }
{
    let kept = pair(&mut machine.fresh)?;
    kept_region(alloc, place, kept, machine)?;
    Ok(kept)
}

/// The place of the block, in a new region with a finally, and the names that keep its completion.
pub fn open_finally(
    alloc: Global,
    place: &Place,
    machine: &mut Machine,
) -> Result<(Place, Completion), AllocError>
    ensures place { IfOk result (λ p. (p.0 ≡ within place.now machine.old.regions (place.now.finals + 1)) × (p.1 ≡ pair machine.old.fresh)) }
    ensures machine { OnOk result (machine.new ≡ kept_region place.now (pair machine.old.fresh) machine.old) }
{
    let finals = sum(place.finals, 1)?;
    let inner = within(alloc, place, machine.regions, finals)?;
    let kept = keep_region(alloc, place, machine)?;
    Ok((inner, kept))
}

fn nothing_kept(
    alloc: Global,
    place: &Place,
    kept: Completion,
    state: u32,
) -> Result<Items<CoreStat>, AllocError>
    ensures { IfOk result (λ ss. ss ≡ nothing_kept place.now kept state) }
{
    let mut out = alone(alloc, set_number(alloc, kept.kind, 0)?)?;
    push_moves(alloc, place, place.region, state, &mut out)?;
    Ok(out)
}

/// The state of the last statements, whose number is this one, behind their block.
pub fn open_last(
    alloc: Global,
    place: &Place,
    kept: Completion,
    last: u32,
    machine: &mut Machine,
) -> Result<(), AllocError>
    ensures { OnOk result (machine.new ≡ begins last (ends (nothing_kept place.now kept last) machine.old)) }
{
    let stats = nothing_kept(alloc, place, kept, last)?;
    ends(stats, machine)?;
    begins(alloc, last, machine)
}

/// The end of the last statements hands on what is kept, and a state behind them is open.
pub fn close_last(
    alloc: Global,
    place: &Place,
    kept: Completion,
    last: u32,
    machine: &mut Machine,
) -> Result<(), AllocError>
    ensures { OnOk result (machine.new ≡ goes_then place.now (last + 1) (last + 1) (says (handed_on place.now kept) machine.old)) }
{
    says(handed_on(alloc, place, kept)?, machine)?;
    let after = sum(last, 1)?;
    goes_then(alloc, place, after, after, machine)
}
