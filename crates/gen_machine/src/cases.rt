//! Cases: each goes on with a state of its own.

ghost use Rattle.std.specs.Prelude.{◌≡◌, [], ◌∷◌, ◌++◌, OnOk};
ghost use Rattle.pass_rules.specs.yield_rules.Yields.{case_of};
ghost use Rattle.pass_rules.specs.state_rules.States.{dispatching, ends, goes};

use crate::build::alone;
use crate::going::{goes, push_goes};
use crate::growing::{draws, ends};
use core_ast::{CoreCase, CoreExpr, CoreStat};
use pass_rules::state_rules::{Machine, Place};
use sqlite_items::Items;
use std::alloc::{AllocError, Global};

/// A case that goes on with the state.
pub fn push_case(
    alloc: Global,
    place: &Place,
    state: u32,
    test: Option<CoreExpr>,
    cases: &mut Items<CoreCase>,
) -> Result<(), AllocError>
    ensures { OnOk result (cases.new ≡ cases.old ++ case_of test (goes place.now state) ∷ []) }
{
    let body = goes(alloc, place, state)?;
    cases.push(CoreCase { test, body })
}

/// The choice between so many states, or what goes on behind them.
pub fn dispatching(
    alloc: Global,
    place: &Place,
    choice: CoreStat,
    count: u32,
    after: u32,
    machine: &mut Machine,
) -> Result<(), AllocError>
    ensures { OnOk result (machine.new ≡ dispatching place.now choice count after machine.old) }
{
    let mut stats = alone(alloc, choice)?;
    push_goes(alloc, place, after, &mut stats)?;
    draws(count, machine)?;
    draws(1, machine)?;
    ends(stats, machine)
}

/// The state of a case goes on with this one.
pub fn goes_on(
    alloc: Global,
    place: &Place,
    state: u32,
    machine: &mut Machine,
) -> Result<(), AllocError>
    ensures { OnOk result (machine.new ≡ ends (goes place.now state) machine.old) }
{
    let stats = goes(alloc, place, state)?;
    ends(stats, machine)
}
