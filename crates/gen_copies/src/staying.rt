//! Whether a statement stays as it is: no yield, no return and no jump leaves it.

ghost use Rattle.std.specs.Prelude.{◌≡◌, [], ◌∷◌, ◌++◌, map, IfOk, OnOk};
ghost use Rattle.core_ast.specs.Lawful.{has_label};
ghost use Rattle.pass_rules.specs.state_rules.States.{all_stay, branch, cases_stay, jump_stays, part};

use core_ast::{CoreCase, CoreStat, Label};
use sqlite_items::Items;
use std::alloc::{AllocError, Global};

fn has_label(label: Label, inside: &[Label]) -> bool
    ensures { result ≡ has_label label inside.now }
{
    for one in inside {
        if label.0 == one.0 {
            return true;
        }
    }
    false
}

fn jump_stays(label: Option<Label>, inside: &[Label]) -> bool
    ensures { result ≡ jump_stays label inside.now }
{
    match label {
        Some(label) => has_label(label, inside),
        None => true,
    }
}

fn push_labels(labels: &[Label], out: &mut Items<Label>) -> Result<(), AllocError>
    ensures { OnOk result (out.new ≡ out.old ++ labels.now) }
{
    for label in labels {
        out.push(*label)?;
    }
    Ok(())
}

fn with_labels(
    alloc: Global,
    labels: &[Label],
    inside: &[Label],
) -> Result<Items<Label>, AllocError>
    ensures { IfOk result (λ ls. ls ≡ labels.now ++ inside.now) }
{
    let mut all = Items::from_slice(alloc, labels)?;
    push_labels(inside, &mut all)?;
    Ok(all)
}

fn with_label(alloc: Global, label: Label, inside: &[Label]) -> Result<Items<Label>, AllocError>
    ensures { IfOk result (λ ls. ls ≡ label ∷ inside.now) }
{
    let mut all = Items::new(alloc);
    all.push(label)?;
    push_labels(inside, &mut all)?;
    Ok(all)
}

#[cycle(staying)]
fn all_stay(alloc: Global, source: &[CoreStat], inside: &[Label]) -> Result<bool, AllocError>
    ensures { IfOk result (λ b. b ≡ all_stay (map part source.now) inside.now) }
{
    for one in source {
        if !stays(alloc, one, inside)? {
            return Ok(false);
        }
    }
    Ok(true)
}

#[cycle(staying)]
fn case_stays(alloc: Global, source: &CoreCase, inside: &[Label]) -> Result<bool, AllocError>
    ensures { IfOk result (λ b. b ≡ (branch source.now).stays inside.now) }
{
    all_stay(alloc, source.body.as_slice(), inside)
}

#[cycle(staying)]
fn cases_stay(alloc: Global, source: &[CoreCase], inside: &[Label]) -> Result<bool, AllocError>
    ensures { IfOk result (λ b. b ≡ cases_stay (map branch source.now) inside.now) }
{
    for one in source {
        if !case_stays(alloc, one, inside)? {
            return Ok(false);
        }
    }
    Ok(true)
}

#[cycle(staying)]
fn stays(alloc: Global, source: &CoreStat, inside: &[Label]) -> Result<bool, AllocError>
    ensures { IfOk result (λ b. b ≡ (part source.now).stays inside.now) }
{
    match source {
        CoreStat::Do(_) | CoreStat::Throw(_) => Ok(true),
        CoreStat::Return(_) => Ok(false),
        CoreStat::Yield { .. } => Ok(false),
        CoreStat::If { cases } => cases_stay(alloc, cases.as_slice(), inside),
        CoreStat::Switch { cases, .. } => cases_stay(alloc, cases.as_slice(), inside),
        CoreStat::Loop { labels, body, .. } => {
            let inner = with_labels(alloc, labels.as_slice(), inside)?;
            all_stay(alloc, body.as_slice(), inner.as_slice())
        }
        CoreStat::Labelled { label, body } => {
            let inner = with_label(alloc, *label, inside)?;
            all_stay(alloc, body.as_slice(), inner.as_slice())
        }
        CoreStat::Jump { label, .. } => Ok(jump_stays(*label, inside)),
        CoreStat::TryCatch { block, handler, .. } => {
            if !all_stay(alloc, block.as_slice(), inside)? {
                return Ok(false);
            }
            all_stay(alloc, handler.as_slice(), inside)
        }
        CoreStat::TryFinally { block, last } => {
            if !all_stay(alloc, block.as_slice(), inside)? {
                return Ok(false);
            }
            all_stay(alloc, last.as_slice(), inside)
        }
        CoreStat::Scoped { body, .. } => all_stay(alloc, body.as_slice(), inside),
    }
}

/// Whether the statement stays as it is by itself.
pub fn stays_alone(alloc: Global, source: &CoreStat) -> Result<bool, AllocError>
    ensures { IfOk result (λ b. b ≡ (part source.now).stays []) }
{
    let none = Items::new(alloc);
    stays(alloc, source, none.as_slice())
}
