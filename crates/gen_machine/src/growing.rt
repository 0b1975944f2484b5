//! The machine so far: nothing is said behind a jump.

ghost use Rattle.std.specs.Prelude.{◌≡◌, OnOk};
ghost use Rattle.core_ast.specs.Made.{undefined};
ghost use Rattle.pass_rules.specs.state_rules.States.{begins, draws, ends, goes_then, says, unwinds};

use crate::build::number;
use crate::going::{goes, unwinds};
use crate::numbers::sum;
use core_ast::{CoreCase, CoreStat, undefined};
use pass_rules::state_rules::{Machine, Place};
use sqlite_items::Items;
use std::alloc::{AllocError, Global};
use std::mem;

/// A statement of the state that is open.
pub fn says(stat: CoreStat, machine: &mut Machine) -> Result<(), AllocError>
    ensures { OnOk result (machine.new ≡ says stat machine.old) }
{
    if machine.over {
        return Ok(());
    }
    machine.stats.push(stat)
}

/// The last statements of the state that is open.
pub fn ends(stats: Items<CoreStat>, machine: &mut Machine) -> Result<(), AllocError>
    ensures { OnOk result (machine.new ≡ ends stats machine.old) }
{
    if machine.over {
        return Ok(());
    }
    machine.stats.append(stats)?;
    machine.over = true;
    Ok(())
}

/// The state that was open is done, and the one with this number is open.
pub fn begins(alloc: Global, here: u32, machine: &mut Machine) -> Result<(), AllocError>
    ensures { OnOk result (machine.new ≡ begins here machine.old) }
{
    let body = mem::replace(&mut machine.stats, Items::new(alloc));
    let test = Some(number(alloc, machine.here as u64));
    machine.states.push(CoreCase { test, body })?;
    machine.here = here;
    machine.over = false;
    Ok(())
}

/// So many states more have a number.
pub(crate) fn draws(count: u32, machine: &mut Machine) -> Result<(), AllocError>
    ensures { OnOk result (machine.new ≡ draws count machine.old) }
{
    machine.next = sum(machine.next, count)?;
    Ok(())
}

/// The state that is open goes on with this one, and another is open.
pub fn goes_then(
    alloc: Global,
    place: &Place,
    state: u32,
    here: u32,
    machine: &mut Machine,
) -> Result<(), AllocError>
    ensures { OnOk result (machine.new ≡ goes_then place.now state here machine.old) }
{
    let stats = goes(alloc, place, state)?;
    ends(stats, machine)?;
    begins(alloc, here, machine)
}

/// The end of a body returns.
pub fn close_body(alloc: Global, place: &Place, machine: &mut Machine) -> Result<(), AllocError>
    ensures { OnOk result (machine.new ≡ begins 0 (ends (unwinds place.now 2 undefined) machine.old)) }
{
    let stats = unwinds(alloc, place, 2, undefined(alloc))?;
    ends(stats, machine)?;
    begins(alloc, 0, machine)
}
