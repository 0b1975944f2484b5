//! Yields, returns and jumps.

ghost use Rattle.std.specs.Prelude.{◌≡◌, ◌++◌, map, IfOk, OnOk};
ghost use Rattle.pass_rules.specs.state_rules.States.{ends, found, handing, hands_out, jumped, jumps_to, reaches, state_of, target, under, unwinds, yielded};

use crate::build::{alone, given, moved, number};
use crate::going::{goes_to, handed_on, push_number, unwinds};
use crate::growing::{begins, draws, ends, says};
use core_ast::{CoreExpr, CoreStat, Label, Var};
use pass_rules::state_rules::{Machine, Place, Target};
use sqlite_items::Items;
use std::alloc::{AllocError, Global};

/// A return is a completion.
pub fn returned(
    alloc: Global,
    place: &Place,
    value: CoreExpr,
    machine: &mut Machine,
) -> Result<(), AllocError>
    ensures { OnOk result (machine.new ≡ ends (unwinds place.now 2 value) machine.old) }
{
    let stats = unwinds(alloc, place, 2, value)?;
    ends(stats, machine)
}

fn handing(
    alloc: Global,
    place: &Place,
    how: u64,
    value: CoreExpr,
    state: u32,
) -> Result<Items<CoreStat>, AllocError>
    ensures { IfOk result (λ ss. ss ≡ handing place.now how value state) }
{
    let mut out = Items::new(alloc);
    push_number(alloc, place.registers.state, state as u64, &mut out)?;
    out.push(given(alloc, how, value)?)?;
    Ok(out)
}

/// A value is handed out, and a new state takes what comes back.
fn hands_out(
    alloc: Global,
    place: &Place,
    how: u64,
    value: CoreExpr,
    machine: &mut Machine,
) -> Result<(), AllocError>
    ensures { OnOk result (machine.new ≡ hands_out place.now how value machine.old) }
{
    let state = machine.next;
    let stats = handing(alloc, place, how, value, state)?;
    ends(stats, machine)?;
    draws(1, machine)?;
    begins(alloc, state, machine)
}

/// A yield; a delegating one takes a resumption of any kind.
pub fn yielded(
    alloc: Global,
    place: &Place,
    value: CoreExpr,
    kind: Option<Var>,
    result_var: Var,
    machine: &mut Machine,
) -> Result<(), AllocError>
    ensures { OnOk result (machine.new ≡ yielded place.now value kind result_var machine.old) }
{
    let resumption = place.registers.resumption;
    match kind {
        Some(kind) => {
            hands_out(alloc, place, 1, value, machine)?;
            says(moved(alloc, kind, resumption.kind)?, machine)?;
            says(moved(alloc, result_var, resumption.value)?, machine)
        }
        None => {
            hands_out(alloc, place, 0, value, machine)?;
            says(handed_on(alloc, place, resumption)?, machine)?;
            says(moved(alloc, result_var, resumption.value)?, machine)
        }
    }
}

fn found(label: Label, targets: &[Target]) -> Option<Target>
    ensures { result ≡ found label targets.now }
{
    for target in targets {
        if target.label.0 == label.0 {
            return Some(*target);
        }
    }
    None
}

fn state_of(goes_on: bool, target: Target) -> u32
    ensures { result ≡ state_of goes_on target }
{
    if goes_on {
        return target.goes_on;
    }
    target.leaves
}

/// A jump goes straight on, unless a finally is told of it.
fn reaches(
    alloc: Global,
    place: &Place,
    state: u32,
    target: Target,
) -> Result<Items<CoreStat>, AllocError>
    ensures { IfOk result (λ ss. ss ≡ reaches place.now state target) }
{
    if target.finals == place.finals {
        return goes_to(alloc, place, target.region, state);
    }
    let kind = target.region as u64 + 3;
    unwinds(alloc, place, kind, number(alloc, state as u64))
}

fn jumps_to(
    alloc: Global,
    place: &Place,
    goes_on: bool,
    label: Label,
    target: Option<Target>,
) -> Result<Items<CoreStat>, AllocError>
    ensures { IfOk result (λ ss. ss ≡ jumps_to place.now goes_on label target) }
{
    match target {
        Some(target) => reaches(alloc, place, state_of(goes_on, target), target),
        None => {
            let label = Some(label);
            alone(alloc, CoreStat::Jump { goes_on, label })
        }
    }
}

/// A break or a continue.
pub fn jumped(
    alloc: Global,
    place: &Place,
    goes_on: bool,
    label: Option<Label>,
    machine: &mut Machine,
) -> Result<(), AllocError>
    ensures { OnOk result (machine.new ≡ jumped place.now goes_on label machine.old) }
{
    match label {
        Some(label) => {
            let target = found(label, place.targets.as_slice());
            let stats = jumps_to(alloc, place, goes_on, label, target)?;
            ends(stats, machine)
        }
        None => {
            let label = None;
            ends(alone(alloc, CoreStat::Jump { goes_on, label })?, machine)
        }
    }
}

fn push_targets(
    place: &Place,
    leaves: u32,
    goes_on: u32,
    labels: &[Label],
    targets: &mut Items<Target>,
) -> Result<(), AllocError>
    ensures { OnOk result (targets.new ≡ targets.old ++ map (target place.now leaves goes_on) labels.now) }
{
    for label in labels {
        targets.push(Target {
            label: *label,
            region: place.region,
            finals: place.finals,
            leaves,
            goes_on,
        })?;
    }
    Ok(())
}

/// The place under a statement with these labels.
pub fn under(
    alloc: Global,
    place: &Place,
    leaves: u32,
    goes_on: u32,
    labels: &[Label],
) -> Result<Place, AllocError>
    ensures { IfOk result (λ p. p ≡ under place.now leaves goes_on labels.now) }
{
    let mut targets = Items::from_slice(alloc, place.targets.as_slice())?;
    push_targets(place, leaves, goes_on, labels, &mut targets)?;
    Ok(Place {
        registers: place.registers,
        region: place.region,
        finals: place.finals,
        targets,
    })
}
