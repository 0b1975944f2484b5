//! The pass: generators, functions and the core.

ghost use Rattle.std.specs.Prelude.{◌≡◌, ◌+◌, [], max, true, IfOk};
ghost use Rattle.core_ast.specs.Lawful.{is_generator};
ghost use Rattle.gen_states.specs.Kept.{has_no_generator};
ghost use Rattle.pass_rules.specs.yield_rules.Yields.{label_behind};
ghost use Rattle.pass_rules.specs.state_rules.States.{all_functions, generator, machine, one_function, turn_label, with_machines};

use crate::walk::stats;
use core_ast::{Core, CoreFunction, CoreKind, CoreStat, Fresh, Label, Mentions};
use gen_machine::{close_body, next, outermost, registers, started, with_machine};
use pass_rules::state_rules::{Machine, Registers};
use sqlite_items::Items;
use std::alloc::{AllocError, Global};
use std::collections::VecDeque;

/// The core in which each generator is a machine.
#[tactic(auto, using(crate::proofs::Kept::core_kept))]
pub fn machines(alloc: Global, core: Core) -> Result<Core, AllocError>
    ensures exact { IfOk result (λ after. after ≡ with_machines core) }
    ensures unchanged { has_no_generator core ≡ true → IfOk result (λ after. after ≡ core) }
{
    let Core {
        functions,
        parts,
        order,
        fresh,
    } = core;
    let (functions, fresh) = all_functions(alloc, functions, fresh)?;
    Ok(Core {
        functions,
        parts,
        order,
        fresh,
    })
}

/// The number, or the one behind the other, whichever is greater.
fn greater(number: u32, other: u32) -> Result<u32, AllocError>
    ensures { IfOk result (λ n. n ≡ max number (other + 1)) }
{
    let behind = next(other)?;
    if number < behind {
        return Ok(behind);
    }
    Ok(number)
}

fn label_behind(labels: &[Label]) -> Result<u32, AllocError>
    ensures { IfOk result (λ n. n ≡ label_behind labels.now 0) }
{
    let mut behind: u32 = 0;
    for label in labels {
        behind = greater(behind, label.0)?;
    }
    Ok(behind)
}

/// The label of the turns is behind those that stand in the function.
fn turn_label(alloc: Global, function: &CoreFunction) -> Result<Label, AllocError>
    ensures { IfOk result (λ l. l ≡ turn_label function.now) }
{
    let mentions = Mentions::of_function(alloc, function)?;
    Ok(Label(label_behind(mentions.labels.as_slice())?))
}

/// The machine of a body.
fn machine(
    alloc: Global,
    registers: Registers,
    body: &[CoreStat],
    fresh: Fresh,
) -> Result<Machine, AllocError>
    ensures { IfOk result (λ m. m ≡ machine registers body.now fresh) }
{
    let place = outermost(alloc, registers);
    let mut made = started(alloc, registers, fresh)?;
    stats(alloc, &place, body, &mut made)?;
    close_body(alloc, &place, &mut made)?;
    Ok(made)
}

fn generator(
    alloc: Global,
    function: CoreFunction,
    fresh: Fresh,
) -> Result<(CoreFunction, Fresh), AllocError>
    ensures { IfOk result (λ made. record { made = made.0; fresh = made.1 } ≡ generator function fresh) }
{
    let mut fresh = fresh;
    let turn = turn_label(alloc, &function)?;
    let registers = registers(&mut fresh, turn)?;
    let made = machine(alloc, registers, function.body.as_slice(), fresh)?;
    with_machine(alloc, function, registers, made)
}

fn is_generator(kind: CoreKind) -> bool
    ensures { result ≡ is_generator kind }
{
    match kind {
        CoreKind::Generator => true,
        _ => false,
    }
}

fn one_function(
    alloc: Global,
    function: CoreFunction,
    fresh: Fresh,
) -> Result<(CoreFunction, Fresh), AllocError>
    ensures { IfOk result (λ made. record { made = made.0; fresh = made.1 } ≡ one_function function fresh) }
{
    if is_generator(function.kind) {
        return generator(alloc, function, fresh);
    }
    Ok((function, fresh))
}

/// The functions, the first of which leaves first.
fn in_turn(
    alloc: Global,
    functions: Items<CoreFunction>,
) -> Result<VecDeque<CoreFunction>, AllocError>
    ensures { IfOk result (λ left. left.items ≡ functions) }
{
    let mut back = functions;
    let mut left = VecDeque::new(alloc);
    while let Some(function) = back.pop() {
        left.push_front(function)?;
    }
    Ok(left)
}

fn all_functions(
    alloc: Global,
    functions: Items<CoreFunction>,
    fresh: Fresh,
) -> Result<(Items<CoreFunction>, Fresh), AllocError>
    ensures { IfOk result (λ fs. all_functions functions [] fresh ≡ record { made = fs.0; fresh = fs.1 }) }
{
    let mut left = in_turn(alloc, functions)?;
    let mut made = Items::new(alloc);
    let mut fresh = fresh;
    while let Some(function) = left.pop_front() {
        let (one, after) = one_function(alloc, function, fresh)?;
        made.push(one)?;
        fresh = after;
    }
    Ok((made, fresh))
}
