//! The step of a generator, and the body that makes it.

ghost use Rattle.std.specs.Prelude.{◌≡◌, IfOk};
ghost use Rattle.pass_rules.specs.state_rules.States.{arrival, caught_step, guarded_step, has_arrived, making, passed_on, step, unwinder, with_machine};

use crate::build::{alone, holds_number, is_same, is_there, moved, number, set_number, two, when};
use crate::going::{again, push_moved, push_number};
use core_ast::{
    Binary, CoreCase, CoreExpr, CoreFunction, CoreHead, CoreOp, CoreStat, Fresh, Primitive,
    Resumption, expression, variable,
};
use pass_rules::state_rules::{Machine, Registers};
use sqlite_items::Items;
use std::alloc::{AllocError, Global};

fn has_arrived(alloc: Global, registers: Registers) -> Result<CoreExpr, AllocError>
    ensures { IfOk result (λ x. x ≡ has_arrived registers) }
{
    let region = variable(alloc, registers.region);
    let kind = two(
        alloc,
        region,
        CoreOp::Operator(Binary::Add),
        number(alloc, 3),
    )?;
    is_same(alloc, variable(alloc, registers.ending.kind), kind)
}

/// A jump is in the region of its state.
fn arrival(alloc: Global, registers: Registers) -> Result<CoreStat, AllocError>
    ensures { IfOk result (λ s. s ≡ arrival registers) }
{
    let ending = registers.ending;
    let mut body = alone(alloc, moved(alloc, registers.state, ending.value)?)?;
    push_number(alloc, ending.kind, 0, &mut body)?;
    body.push(again(registers.turn))?;
    let test = has_arrived(alloc, registers)?;
    when(alloc, test, body)
}

/// What is done with a completion.
fn unwinder(
    alloc: Global,
    registers: Registers,
    rows: Items<CoreCase>,
) -> Result<CoreStat, AllocError>
    ensures { IfOk result (λ s. s ≡ unwinder registers rows) }
{
    let mut body = alone(alloc, arrival(alloc, registers)?)?;
    body.push(CoreStat::Switch {
        subject: variable(alloc, registers.region),
        cases: rows,
    })?;
    let test = is_there(alloc, registers.ending)?;
    when(alloc, test, body)
}

/// The function's own region throws what it throws.
fn passed_on(alloc: Global, registers: Registers) -> Result<CoreStat, AllocError>
    ensures { IfOk result (λ s. s ≡ passed_on registers) }
{
    let throw = alone(alloc, CoreStat::Throw(variable(alloc, registers.thrown)))?;
    let test = holds_number(alloc, registers.region, 0)?;
    let body = alone(alloc, when(alloc, test, throw)?)?;
    let test = holds_number(alloc, registers.ending.kind, 1)?;
    when(alloc, test, body)
}

/// What is thrown is a completion.
fn caught_step(alloc: Global, registers: Registers) -> Result<Items<CoreStat>, AllocError>
    ensures { IfOk result (λ ss. ss ≡ caught_step registers) }
{
    let mut out = alone(alloc, passed_on(alloc, registers)?)?;
    push_moved(alloc, registers.ending.value, registers.thrown, &mut out)?;
    push_number(alloc, registers.ending.kind, 1, &mut out)?;
    Ok(out)
}

fn guarded_step(
    alloc: Global,
    registers: Registers,
    rows: Items<CoreCase>,
    states: Items<CoreCase>,
) -> Result<CoreStat, AllocError>
    ensures { IfOk result (λ s. s ≡ guarded_step registers rows states) }
{
    let mut block = alone(alloc, unwinder(alloc, registers, rows)?)?;
    block.push(CoreStat::Switch {
        subject: variable(alloc, registers.state),
        cases: states,
    })?;
    let handler = caught_step(alloc, registers)?;
    Ok(CoreStat::TryCatch {
        block,
        parameter: registers.thrown,
        names: Items::new(alloc),
        handler,
    })
}

fn step(
    alloc: Global,
    registers: Registers,
    rows: Items<CoreCase>,
    states: Items<CoreCase>,
) -> Result<Items<CoreStat>, AllocError>
    ensures { IfOk result (λ ss. ss ≡ step registers rows states) }
{
    let mut labels = Items::new(alloc);
    labels.push(registers.turn)?;
    let body = alone(alloc, guarded_step(alloc, registers, rows, states)?)?;
    alone(
        alloc,
        CoreStat::Loop {
            labels,
            test: None,
            update: None,
            body,
        },
    )
}

/// The body makes the generator, whose machine is at the first state.
fn making(alloc: Global, registers: Registers) -> Result<Items<CoreStat>, AllocError>
    ensures { IfOk result (λ ss. ss ≡ making registers) }
{
    let mut out = alone(alloc, set_number(alloc, registers.ending.kind, 0)?)?;
    push_number(alloc, registers.state, 0, &mut out)?;
    push_number(alloc, registers.region, 0, &mut out)?;
    let made = expression(alloc, CoreHead::Primitive(Primitive::GeneratorMake));
    out.push(CoreStat::Return(made))?;
    Ok(out)
}

/// The function with its machine, and the names of its core.
pub fn with_machine(
    alloc: Global,
    function: CoreFunction,
    registers: Registers,
    machine: Machine,
) -> Result<(CoreFunction, Fresh), AllocError>
    ensures { IfOk result (λ made. (made.0 ≡ with_machine function registers machine) × (made.1 ≡ machine.fresh)) }
{
    let Machine {
        states,
        rows,
        locals: more,
        fresh,
        ..
    } = machine;
    let body = making(alloc, registers)?;
    let step = step(alloc, registers, rows, states)?;
    let mut function = function;
    function.locals.append(more)?;
    function.body = body;
    function.step = step;
    function.resumption = Some(Resumption {
        kind: registers.resumption.kind,
        value: registers.resumption.value,
    });
    Ok((function, fresh))
}
