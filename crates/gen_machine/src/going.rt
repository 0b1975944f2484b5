//! Where a state goes on.

ghost use Rattle.std.specs.Prelude.{◌≡◌, [], ◌∷◌, ◌++◌, true, Some, IfOk, OnOk};
ghost use Rattle.core_ast.specs.declared.tree.CoreStat.TheVariants as stat;
ghost use Rattle.pass_rules.specs.state_rules.States.{goes, goes_to, handed_on, moved, moves, set_number, unwinds};

use crate::build::{alone, is_there, moved, set, set_number, when};
use core_ast::{CoreExpr, CoreStat, Label, Var};
use pass_rules::state_rules::{Completion, Place};
use sqlite_items::Items;
use std::alloc::{AllocError, Global};

/// The next turn.
pub(crate) fn again(turn: Label) -> CoreStat
    ensures { result ≡ stat.Jump true (Some turn) }
{
    CoreStat::Jump {
        goes_on: true,
        label: Some(turn),
    }
}

pub(crate) fn push_number(
    alloc: Global,
    var: Var,
    value: u64,
    out: &mut Items<CoreStat>,
) -> Result<(), AllocError>
    ensures { OnOk result (out.new ≡ out.old ++ set_number var value ∷ []) }
{
    let one = set_number(alloc, var, value)?;
    out.push(one)
}

pub(crate) fn push_moved(
    alloc: Global,
    var: Var,
    other: Var,
    out: &mut Items<CoreStat>,
) -> Result<(), AllocError>
    ensures { OnOk result (out.new ≡ out.old ++ moved var other ∷ []) }
{
    let one = moved(alloc, var, other)?;
    out.push(one)
}

/// To the state of the place's region.
pub(crate) fn push_goes(
    alloc: Global,
    place: &Place,
    state: u32,
    out: &mut Items<CoreStat>,
) -> Result<(), AllocError>
    ensures { OnOk result (out.new ≡ out.old ++ goes place.now state) }
{
    push_number(alloc, place.registers.state, state as u64, out)?;
    out.push(again(place.registers.turn))
}

/// To a state of another region.
pub(crate) fn push_moves(
    alloc: Global,
    place: &Place,
    region: u32,
    state: u32,
    out: &mut Items<CoreStat>,
) -> Result<(), AllocError>
    ensures { OnOk result (out.new ≡ out.old ++ moves place.now region state) }
{
    push_number(alloc, place.registers.region, region as u64, out)?;
    push_goes(alloc, place, state, out)
}

pub(crate) fn goes(alloc: Global, place: &Place, state: u32) -> Result<Items<CoreStat>, AllocError>
    ensures { IfOk result (λ ss. ss ≡ goes place.now state) }
{
    let mut out = Items::new(alloc);
    push_goes(alloc, place, state, &mut out)?;
    Ok(out)
}

pub(crate) fn moves(
    alloc: Global,
    place: &Place,
    region: u32,
    state: u32,
) -> Result<Items<CoreStat>, AllocError>
    ensures { IfOk result (λ ss. ss ≡ moves place.now region state) }
{
    let mut out = Items::new(alloc);
    push_moves(alloc, place, region, state, &mut out)?;
    Ok(out)
}

pub(crate) fn goes_to(
    alloc: Global,
    place: &Place,
    region: u32,
    state: u32,
) -> Result<Items<CoreStat>, AllocError>
    ensures { IfOk result (λ ss. ss ≡ goes_to place.now region state) }
{
    if region == place.region {
        return goes(alloc, place, state);
    }
    moves(alloc, place, region, state)
}

/// A completion is under way.
pub(crate) fn unwinds(
    alloc: Global,
    place: &Place,
    kind: u64,
    value: CoreExpr,
) -> Result<Items<CoreStat>, AllocError>
    ensures { IfOk result (λ ss. ss ≡ unwinds place.now kind value) }
{
    let mut out = alone(alloc, set(alloc, place.registers.ending.value, value)?)?;
    push_number(alloc, place.registers.ending.kind, kind, &mut out)?;
    out.push(again(place.registers.turn))?;
    Ok(out)
}

/// A completion that is kept goes on, if there is one.
pub(crate) fn handed_on(
    alloc: Global,
    place: &Place,
    completion: Completion,
) -> Result<CoreStat, AllocError>
    ensures { IfOk result (λ s. s ≡ handed_on place.now completion) }
{
    let ending = place.registers.ending;
    let mut body = Items::new(alloc);
    push_moved(alloc, ending.kind, completion.kind, &mut body)?;
    push_moved(alloc, ending.value, completion.value, &mut body)?;
    body.push(again(place.registers.turn))?;
    let test = is_there(alloc, completion)?;
    when(alloc, test, body)
}
