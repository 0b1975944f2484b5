//! Array patterns (ECMA-262, 6th edition, 12.14.5 and 13.3.3).

ghost use Rattle.std.specs.Prelude.{◌≡◌, [], ◌∷◌, ◌++◌, true, None, Some, IfOk, OnOk};
ghost use Rattle.std.specs.List.{flat_map};
ghost use Rattle.core_ast.specs.Made.{variable};
ghost use Rattle.core_ast.specs.declared.parts.CoreOp.TheVariants as op;
ghost use Rattle.core_ast.specs.declared.tree.CoreStat.TheVariants as stat;
ghost use Rattle.lowering_rules.specs.Iteration.{has_result, value_of};
ghost use Rattle.lowering_rules.specs.Making.{defaulted, flag, set, two, when};
ghost use Rattle.lowering_rules.specs.Patterns.{array_part, array_pattern, element_taken, rest_taken, step_then};

use crate::iteration::{closing, has_result, iterator_of, opened, stepped, value_of, when_open};
use core_ast::{CoreExpr, CoreHead, CoreOp, CoreStat, expression, undefined, variable};
use lower_parts::{alone, push_default, set, two, when};
use lowering_rules::{ArrayPart, Iteration, Target};
use sqlite_items::Items;
use std::alloc::{AllocError, Global};
use std::collections::VecDeque;

fn with_result(
    alloc: Global,
    names: Iteration,
    body: Items<CoreStat>,
) -> Result<CoreStat, AllocError>
    ensures { IfOk result (λ s. s ≡ when (has_result names) (body ++ set names.is_open (flag true) ∷ [])) }
{
    let mut body = body;
    body.push(opened(alloc, names, true)?)?;
    when(alloc, has_result(alloc, names)?, body)
}

/// A step, and what is done with its result if there is one.
fn step_then(
    alloc: Global,
    names: Iteration,
    body: Items<CoreStat>,
) -> Result<Items<CoreStat>, AllocError>
    ensures { IfOk result (λ ss. ss ≡ step_then names body) }
{
    let mut out = alone(alloc, opened(alloc, names, false)?)?;
    out.push(CoreStat::Do(stepped(alloc, names)?))?;
    out.push(with_result(alloc, names, body)?)?;
    Ok(out)
}

fn open_step(alloc: Global, names: Iteration, body: Items<CoreStat>) -> Result<CoreStat, AllocError>
    ensures { IfOk result (λ s. s ≡ when (variable names.is_open) (step_then names body)) }
{
    let step = step_then(alloc, names, body)?;
    when_open(alloc, names, step)
}

/// The value of the next step, or undefined behind the last.
fn push_element(
    alloc: Global,
    names: Iteration,
    out: &mut Items<CoreStat>,
) -> Result<(), AllocError>
    ensures { OnOk result (out.new ≡ out.old ++ element_taken names) }
{
    let value = value_of(alloc, names)?;
    let body = alone(alloc, set(alloc, names.value, value)?)?;
    out.push(set(alloc, names.value, undefined(alloc))?)?;
    out.push(open_step(alloc, names, body)?)
}

/// The value of a step goes behind those of the array.
fn collected(alloc: Global, names: Iteration) -> Result<CoreStat, AllocError>
    ensures { IfOk result (λ s. s ≡ stat.Do (two (variable names.value) op.Element (value_of names))) }
{
    let list = variable(alloc, names.value);
    let value = value_of(alloc, names)?;
    let more = two(alloc, list, CoreOp::Element, value)?;
    Ok(CoreStat::Do(more))
}

fn rest_loop(alloc: Global, names: Iteration) -> Result<CoreStat, AllocError>
    ensures { IfOk result (λ s. s ≡ stat.Loop [] (Some (variable names.is_open)) None (step_then names (stat.Do (two (variable names.value) op.Element (value_of names)) ∷ []))) }
{
    let one = alone(alloc, collected(alloc, names)?)?;
    let body = step_then(alloc, names, one)?;
    Ok(CoreStat::Loop {
        labels: Items::new(alloc),
        test: Some(variable(alloc, names.is_open)),
        update: None,
        body,
    })
}

/// An array of the values of all further steps.
fn push_rest(alloc: Global, names: Iteration, out: &mut Items<CoreStat>) -> Result<(), AllocError>
    ensures { OnOk result (out.new ≡ out.old ++ rest_taken names) }
{
    let list = expression(alloc, CoreHead::ArrayList);
    out.push(set(alloc, names.value, list)?)?;
    out.push(rest_loop(alloc, names)?)
}

fn push_single(
    alloc: Global,
    names: Iteration,
    target: Target,
    out: &mut Items<CoreStat>,
) -> Result<(), AllocError>
    ensures { OnOk result (out.new ≡ out.old ++ target.before ++ element_taken names ++ defaulted names.value target.default ++ target.after) }
{
    out.append(target.before)?;
    push_element(alloc, names, out)?;
    push_default(alloc, names.value, target.default, out)?;
    out.append(target.after)
}

fn push_all(
    alloc: Global,
    names: Iteration,
    target: Target,
    out: &mut Items<CoreStat>,
) -> Result<(), AllocError>
    ensures { OnOk result (out.new ≡ out.old ++ target.before ++ rest_taken names ++ target.after) }
{
    out.append(target.before)?;
    push_rest(alloc, names, out)?;
    out.append(target.after)
}

#[tactic(auto, unfolding(lowering_rules::specs::Patterns::array_part))]
fn push_part(
    alloc: Global,
    names: Iteration,
    part: ArrayPart,
    out: &mut Items<CoreStat>,
) -> Result<(), AllocError>
    ensures { OnOk result (out.new ≡ out.old ++ array_part names part) }
{
    match part {
        ArrayPart::Elision => out.push(open_step(alloc, names, Items::new(alloc))?),
        ArrayPart::Element(target) => push_single(alloc, names, target, out),
        ArrayPart::Rest(target) => push_all(alloc, names, target, out),
    }
}

fn parts_taken(
    alloc: Global,
    names: Iteration,
    parts: Vec<ArrayPart>,
) -> Result<Items<CoreStat>, AllocError>
    ensures { IfOk result (λ ss. ss ≡ flat_map (array_part names) parts.items) }
{
    let mut left = VecDeque::from_vec(parts);
    let mut out = Items::new(alloc);
    while let Some(part) = left.pop_front() {
        push_part(alloc, names, part, &mut out)?;
    }
    Ok(out)
}

/// The parts take the steps of the subject's iterator.
pub fn lower_array_pattern(
    alloc: Global,
    names: Iteration,
    subject: CoreExpr,
    parts: Vec<ArrayPart>,
) -> Result<Items<CoreStat>, AllocError>
    ensures { IfOk result (λ ss. ss ≡ array_pattern names subject parts.items) }
{
    let iterator = iterator_of(alloc, subject)?;
    let mut out = alone(alloc, set(alloc, names.iterator, iterator)?)?;
    out.push(opened(alloc, names, true)?)?;
    let body = parts_taken(alloc, names, parts)?;
    out.push(closing(alloc, names, body)?)?;
    Ok(out)
}
