//! The pass: functions, parts and the core.

ghost use Rattle.std.specs.Prelude.{◌≡◌, ◌+◌, ◌++◌, map, max, [], length, IfOk, OnOk};
ghost use Rattle.pass_rules.specs.yield_rules.Yields.{all_functions, all_parts, begins, drawn, function_at, label_behind, name_behind, one_function, one_part, part_at, part_with_slots, slot_name, slots, with_slots, with_yields_flat};

use crate::walk::block;
use core_ast::{Core, CoreFunction, CorePart, Fresh, Label, Mentions, ScopedName, Var};
use pass_rules::yield_rules::Place;
use sqlite_items::Items;
use std::alloc::{AllocError, Global};

/// The core in which each yield is a statement, and no statement stands in an expression.
pub fn flatten_yields(alloc: Global, core: Core) -> Result<Core, AllocError>
    ensures { IfOk result (λ after. after ≡ with_yields_flat core) }
{
    let Core {
        functions,
        parts,
        order,
        mut fresh,
    } = core;
    let functions = all_functions(alloc, functions.as_slice(), &mut fresh)?;
    let parts = all_parts(alloc, parts.as_slice(), &mut fresh)?;
    Ok(Core {
        functions,
        parts,
        order,
        fresh,
    })
}

fn label_behind(labels: &[Label]) -> Result<u32, AllocError>
    ensures { IfOk result (λ n. n ≡ label_behind labels.now 0) }
{
    let mut behind: u32 = 0;
    for label in labels {
        behind = greater(behind, label.0)?;
    }
    Ok(behind)
}

/// The number, or the one behind the other, whichever is greater.
fn greater(number: u32, other: u32) -> Result<u32, AllocError>
    ensures { IfOk result (λ n. n ≡ max number (other + 1)) }
{
    match other.checked_add(1) {
        Some(behind) => {
            if number < behind {
                return Ok(behind);
            }
            Ok(number)
        }
        None => Err(AllocError),
    }
}

fn name_behind(vars: &[Var], begin: u32) -> Result<u32, AllocError>
    ensures { IfOk result (λ n. n ≡ name_behind vars.now begin) }
{
    let mut behind = begin;
    for var in vars {
        behind = greater(behind, var.0)?;
    }
    Ok(behind)
}

fn next_name(fresh: &Fresh) -> Result<u32, AllocError>
    ensures { IfOk result (λ n. n ≡ length fresh.now.hints) }
{
    match u32::try_from(fresh.hints.len()) {
        Ok(place) => Ok(place),
        Err(_) => Err(AllocError),
    }
}

/// Slots are new names, and labels begin behind those that stand there.
fn begins(mentions: &Mentions, fresh: &Fresh) -> Result<Place, AllocError>
    ensures { IfOk result (λ p. p ≡ begins mentions.now fresh.now) }
{
    let slot = next_name(fresh)?;
    let label = label_behind(mentions.labels.as_slice())?;
    Ok(Place { slot, label })
}

/// How many slots are used.
fn slots(mentions: &Mentions, fresh: &Fresh) -> Result<u32, AllocError>
    ensures { IfOk result (λ n. n ≡ slots mentions.now fresh.now) }
{
    let begin = next_name(fresh)?;
    let end = name_behind(mentions.uses.as_slice(), begin)?;
    Ok(end.saturating_sub(begin))
}

/// Draws so many slots.
#[tactic(auto, using(crate::proofs::Lists::drawn_more))]
fn draw(alloc: Global, count: u32, fresh: &mut Fresh) -> Result<Items<Var>, AllocError>
    ensures { IfOk result (λ xs. record { names = xs; fresh = fresh.new } ≡ drawn count fresh.old) }
{
    let mut names = Items::new(alloc);
    for i in 0..count {
        names.push(fresh.name()?)?;
    }
    Ok(names)
}

fn function_at(
    alloc: Global,
    place: Place,
    function: &CoreFunction,
) -> Result<CoreFunction, AllocError>
    ensures { IfOk result (λ f. f ≡ function_at place function.now) }
{
    let parameters = Items::from_slice(alloc, function.parameters.as_slice())?;
    let cells = Items::from_slice(alloc, function.cells.as_slice())?;
    let locals = Items::from_slice(alloc, function.locals.as_slice())?;
    let declared = Items::from_slice(alloc, function.declared.as_slice())?;
    let setup = block(alloc, place, function.setup.as_slice())?;
    let body = block(alloc, place, function.body.as_slice())?;
    let step = block(alloc, place, function.step.as_slice())?;
    Ok(CoreFunction {
        kind: function.kind,
        own: function.own,
        parameters,
        length: function.length,
        arguments: function.arguments,
        cells,
        locals,
        declared,
        setup,
        body,
        resumption: function.resumption,
        step,
    })
}

fn push_slots(slots: &[Var], locals: &mut Items<Var>) -> Result<(), AllocError>
    ensures { OnOk result (locals.new ≡ locals.old ++ slots.now) }
{
    for slot in slots {
        locals.push(*slot)?;
    }
    Ok(())
}

/// The function with its slots as locals.
fn with_slots(function: CoreFunction, slots: &[Var]) -> Result<CoreFunction, AllocError>
    ensures { IfOk result (λ f. f ≡ with_slots function slots.now) }
{
    let mut function = function;
    push_slots(slots, &mut function.locals)?;
    Ok(function)
}

fn one_function(
    alloc: Global,
    function: &CoreFunction,
    fresh: &mut Fresh,
) -> Result<CoreFunction, AllocError>
    ensures { IfOk result (λ f. one_function function.now fresh.old ≡ record { made = f; fresh = fresh.new }) }
{
    let mentions = Mentions::of_function(alloc, function)?;
    let place = begins(&mentions, fresh)?;
    let made = function_at(alloc, place, function)?;
    let mentions = Mentions::of_function(alloc, &made)?;
    let count = slots(&mentions, fresh)?;
    let names = draw(alloc, count, fresh)?;
    with_slots(made, names.as_slice())
}

fn all_functions(
    alloc: Global,
    functions: &[CoreFunction],
    fresh: &mut Fresh,
) -> Result<Items<CoreFunction>, AllocError>
    ensures { IfOk result (λ fs. all_functions functions.now [] fresh.old ≡ record { made = fs; fresh = fresh.new }) }
{
    let mut made = Items::new(alloc);
    for function in functions {
        made.push(one_function(alloc, function, fresh)?)?;
    }
    Ok(made)
}

fn part_at(alloc: Global, place: Place, part: &CorePart) -> Result<CorePart, AllocError>
    ensures { IfOk result (λ p. p ≡ part_at place part.now) }
{
    let names = Items::from_slice(alloc, part.names.as_slice())?;
    let instantiate = block(alloc, place, part.instantiate.as_slice())?;
    let body = block(alloc, place, part.body.as_slice())?;
    Ok(CorePart {
        names,
        instantiate,
        body,
    })
}

fn push_slot_names(slots: &[Var], names: &mut Items<ScopedName>) -> Result<(), AllocError>
    ensures { OnOk result (names.new ≡ names.old ++ map slot_name slots.now) }
{
    for slot in slots {
        names.push(ScopedName {
            var: *slot,
            shared: false,
            mutable: true,
        })?;
    }
    Ok(())
}

/// The part with its slots as names.
fn part_with_slots(part: CorePart, slots: &[Var]) -> Result<CorePart, AllocError>
    ensures { IfOk result (λ p. p ≡ part_with_slots part slots.now) }
{
    let mut part = part;
    push_slot_names(slots, &mut part.names)?;
    Ok(part)
}

fn one_part(alloc: Global, part: &CorePart, fresh: &mut Fresh) -> Result<CorePart, AllocError>
    ensures { IfOk result (λ p. one_part part.now fresh.old ≡ record { made = p; fresh = fresh.new }) }
{
    let mentions = Mentions::of_part(alloc, part)?;
    let place = begins(&mentions, fresh)?;
    let made = part_at(alloc, place, part)?;
    let mentions = Mentions::of_part(alloc, &made)?;
    let count = slots(&mentions, fresh)?;
    let names = draw(alloc, count, fresh)?;
    part_with_slots(made, names.as_slice())
}

fn all_parts(
    alloc: Global,
    parts: &[CorePart],
    fresh: &mut Fresh,
) -> Result<Items<CorePart>, AllocError>
    ensures { IfOk result (λ ps. all_parts parts.now [] fresh.old ≡ record { made = ps; fresh = fresh.new }) }
{
    let mut made = Items::new(alloc);
    for part in parts {
        made.push(one_part(alloc, part, fresh)?)?;
    }
    Ok(made)
}
