//! Lazy links.

ghost use Rattle.std.specs.Prelude.{◌≡◌, [], ◌∷◌, Some, IfOk};
ghost use Rattle.core_ast.specs.Made.{linked};
ghost use Rattle.core_ast.specs.declared.tree.CoreLink.TheVariants as link;
ghost use Rattle.pass_rules.specs.yield_rules.Yields.{branch, branched, first_case, going_on, one_branch, rest, test_of, two_branches, two_cases};

use crate::build::{going_on, in_slot, keep};
use crate::chains::finished;
use crate::parts::has;
use core_ast::{CoreCase, CoreExpr, CoreLink, CoreOp, CoreStat, Unary, When, act, linked};
use pass_rules::yield_rules::{Chain, Place, Spilled};
use sqlite_items::{Boxed, Items};
use std::alloc::{AllocError, Global};

/// Whether the branch is taken, by the value in the slot.
#[tactic(auto, unfolding(pass_rules::specs::yield_rules::Yields::test_of))]
fn test_of(alloc: Global, place: Place, when: When) -> Result<CoreExpr, AllocError>
    ensures { IfOk result (λ x. x ≡ test_of place when) }
{
    match when {
        When::Falsy => linked(in_slot(alloc, place), act(alloc, CoreOp::Unary(Unary::Not))),
        _ => Ok(in_slot(alloc, place)),
    }
}

/// A branch leaves its value in the slot.
fn branch(alloc: Global, place: Place, spilled: Spilled) -> Result<Items<CoreStat>, AllocError>
    ensures { IfOk result (λ ss. ss ≡ branch place spilled) }
{
    let Spilled { mut before, rest } = spilled;
    keep(alloc, place, rest, &mut before)?;
    Ok(before)
}

/// The branch, as the case of an `if`.
fn first_case(
    alloc: Global,
    place: Place,
    when: When,
    yes: Spilled,
) -> Result<Items<CoreCase>, AllocError>
    ensures { IfOk result (λ cs. cs ≡ first_case place when yes ∷ []) }
{
    let test = Some(test_of(alloc, place, when)?);
    let body = branch(alloc, place, yes)?;
    let mut cases = Items::new(alloc);
    cases.push(CoreCase { test, body })?;
    Ok(cases)
}

/// The current value in the slot, and the `if` behind it.
fn chosen(
    alloc: Global,
    place: Place,
    cases: Items<CoreCase>,
    chain: Chain,
) -> Result<Chain, AllocError>
    ensures { IfOk result (λ c. c ≡ branched place cases chain) }
{
    let Spilled { mut before, rest } = finished(alloc, chain)?;
    keep(alloc, place, rest, &mut before)?;
    before.push(CoreStat::If { cases })?;
    Ok(going_on(before, in_slot(alloc, place)))
}

/// `&&` and `||`.
pub fn one_branch(
    alloc: Global,
    place: Place,
    when: When,
    yes: Spilled,
    chain: Chain,
) -> Result<Chain, AllocError>
    ensures { IfOk result (λ c. c ≡ one_branch place when yes chain) }
{
    if has(&yes) {
        let cases = first_case(alloc, place, when, yes)?;
        return chosen(alloc, place, cases, chain);
    }
    let Spilled { rest: yes, .. } = yes;
    let yes = Boxed::new(alloc, yes)?;
    let no = None;
    let Spilled { before, rest } = finished(alloc, chain)?;
    Ok(going_on(before, linked(rest, CoreLink::Lazy { when, yes, no })?))
}

fn plain_branches(
    alloc: Global,
    when: When,
    yes: CoreExpr,
    no: CoreExpr,
    chain: Chain,
) -> Result<Chain, AllocError>
    ensures { IfOk result (λ c. c ≡ going_on chain.before (linked (rest chain) (link.Lazy when yes (Some no)))) }
{
    let yes = Boxed::new(alloc, yes)?;
    let no = Some(Boxed::new(alloc, no)?);
    let Spilled { before, rest } = finished(alloc, chain)?;
    Ok(going_on(before, linked(rest, CoreLink::Lazy { when, yes, no })?))
}

fn two_cases(
    alloc: Global,
    place: Place,
    when: When,
    yes: Spilled,
    no: Spilled,
) -> Result<Items<CoreCase>, AllocError>
    ensures { IfOk result (λ cs. cs ≡ two_cases place when yes no) }
{
    let mut cases = first_case(alloc, place, when, yes)?;
    let body = branch(alloc, place, no)?;
    let test = None;
    cases.push(CoreCase { test, body })?;
    Ok(cases)
}

/// `? :`
pub fn two_branches(
    alloc: Global,
    place: Place,
    when: When,
    yes: Spilled,
    no: Spilled,
    chain: Chain,
) -> Result<Chain, AllocError>
    ensures { IfOk result (λ c. c ≡ two_branches place when yes no chain) }
{
    if has(&yes) | has(&no) {
        let cases = two_cases(alloc, place, when, yes, no)?;
        return chosen(alloc, place, cases, chain);
    }
    let Spilled { rest: yes, .. } = yes;
    let Spilled { rest: no, .. } = no;
    plain_branches(alloc, when, yes, no, chain)
}
