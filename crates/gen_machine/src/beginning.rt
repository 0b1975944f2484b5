//! What a machine begins with.

ghost use Rattle.std.specs.Prelude.{◌≡◌, [], ◌∷◌, IfOk, OnOk};
ghost use Rattle.pass_rules.specs.state_rules.States.{after_pair, after_registers, last_row, outermost, pair, registers, started};

use crate::build::{alone, given, holds_number, number, when};
use core_ast::{CoreCase, CoreStat, Fresh, Label, Var, variable};
use pass_rules::state_rules::{Completion, Machine, Place, Registers};
use sqlite_items::Items;
use std::alloc::{AllocError, Global};

/// Two new names.
pub(crate) fn pair(fresh: &mut Fresh) -> Result<Completion, AllocError>
    ensures drawn { IfOk result (λ c. c ≡ pair fresh.old) }
    ensures fresh { OnOk result (fresh.new ≡ after_pair fresh.old) }
{
    let kind = fresh.name()?;
    let value = fresh.name()?;
    Ok(Completion { kind, value })
}

/// The names of a machine.
pub fn registers(fresh: &mut Fresh, turn: Label) -> Result<Registers, AllocError>
    ensures drawn { IfOk result (λ r. r ≡ registers fresh.old turn) }
    ensures fresh { OnOk result (fresh.new ≡ after_registers fresh.old) }
{
    let resumption = pair(fresh)?;
    let ending = pair(fresh)?;
    let Completion {
        kind: state,
        value: region,
    } = pair(fresh)?;
    let thrown = fresh.name()?;
    Ok(Registers {
        resumption,
        ending,
        state,
        region,
        thrown,
        turn,
    })
}

/// The place of a body.
pub fn outermost(alloc: Global, registers: Registers) -> Place
    ensures { result ≡ outermost registers }
{
    Place {
        registers,
        region: 0,
        finals: 0,
        targets: Items::new(alloc),
    }
}

/// The function's own region throws or returns.
fn last_row(alloc: Global, registers: Registers) -> Result<CoreCase, AllocError>
    ensures { IfOk result (λ c. c ≡ last_row registers) }
{
    let ending = registers.ending;
    let test = holds_number(alloc, ending.kind, 1)?;
    let throw = alone(alloc, CoreStat::Throw(variable(alloc, ending.value)))?;
    let mut body = alone(alloc, when(alloc, test, throw)?)?;
    body.push(given(alloc, 2, variable(alloc, ending.value))?)?;
    let test = Some(number(alloc, 0));
    Ok(CoreCase { test, body })
}

fn first_rows(alloc: Global, registers: Registers) -> Result<Items<CoreCase>, AllocError>
    ensures { IfOk result (λ cs. cs ≡ last_row registers ∷ []) }
{
    let mut rows = Items::new(alloc);
    rows.push(last_row(alloc, registers)?)?;
    Ok(rows)
}

fn first_locals(alloc: Global, registers: Registers) -> Result<Items<Var>, AllocError>
    ensures { IfOk result (λ xs. xs ≡ registers.ending.kind ∷ registers.ending.value ∷ registers.state ∷ registers.region ∷ []) }
{
    let mut locals = Items::new(alloc);
    locals.push(registers.ending.kind)?;
    locals.push(registers.ending.value)?;
    locals.push(registers.state)?;
    locals.push(registers.region)?;
    Ok(locals)
}

/// A machine whose first state is open.
pub fn started(alloc: Global, registers: Registers, fresh: Fresh) -> Result<Machine, AllocError>
    ensures { IfOk result (λ m. m ≡ started registers fresh) }
{
    let rows = first_rows(alloc, registers)?;
    let locals = first_locals(alloc, registers)?;
    Ok(Machine {
        states: Items::new(alloc),
        here: 0,
        stats: Items::new(alloc),
        over: false,
        next: 1,
        rows,
        regions: 1,
        locals,
        fresh,
    })
}
