//! Loops but for-of (ECMA-262, 6th edition, 13.7).

ghost use Rattle.std.specs.Prelude.{◌≡◌, [], ◌∷◌, ◌++◌, false, IfOk, OnOk};
ghost use Rattle.core_ast.specs.declared.tree.CoreStat.TheVariants as stat;
ghost use Rattle.lowering_rules.specs.Making.{when};
ghost use Rattle.lowering_rules.specs.statement_rules.Statements.{all_turns, copied, copying_turns, do_while, followed, for_loop, jump, labelled, negated, own_turns, turn_names, turns, while_loop};

use crate::jumps::{jump, labelled};
use core_ast::{
    CoreExpr, CoreHead, CoreOp, CoreStat, Label, ScopedName, Unary, Var, act, expression, linked,
};
use lower_parts::{alone, push_scoped, then, when};
use lowering_rules::statement_rules::{ForLoop, ForTurns};
use sqlite_items::Items;
use std::alloc::{AllocError, Global};

fn looping(
    alloc: Global,
    label: Label,
    test: Option<CoreExpr>,
    update: Option<CoreExpr>,
    body: Items<CoreStat>,
) -> Result<CoreStat, AllocError>
    ensures { IfOk result (λ s. s ≡ stat.Loop (label ∷ []) test update body) }
{
    let mut labels = Items::new(alloc);
    labels.push(label)?;
    Ok(CoreStat::Loop {
        labels,
        test,
        update,
        body,
    })
}

/// A loop with its test before the body.
pub fn lower_while(
    alloc: Global,
    label: Label,
    test: CoreExpr,
    body: Items<CoreStat>,
) -> Result<CoreStat, AllocError>
    ensures { IfOk result (λ s. s ≡ while_loop label test body) }
{
    looping(alloc, label, Some(test), None, body)
}

/// The loop is left unless the test holds.
fn last_test(alloc: Global, exit: Label, test: CoreExpr) -> Result<CoreStat, AllocError>
    ensures { IfOk result (λ s. s ≡ when (negated test) (jump false exit ∷ [])) }
{
    let ends = linked(test, act(alloc, CoreOp::Unary(Unary::Not)))?;
    let leave = alone(alloc, jump(false, exit))?;
    when(alloc, ends, leave)
}

/// A loop with its test behind the body, which has a label of its own: a `continue` leaves it.
pub fn lower_do_while(
    alloc: Global,
    exit: Label,
    inside: Label,
    body: Items<CoreStat>,
    test: CoreExpr,
) -> Result<CoreStat, AllocError>
    ensures { IfOk result (λ s. s ≡ do_while exit inside body test) }
{
    let mut turn = alone(alloc, labelled(inside, body))?;
    turn.push(last_test(alloc, exit, test)?)?;
    looping(alloc, exit, None, None, turn)
}

/// The names that have a binding of their own at each turn.
fn turn_names(alloc: Global, names: &[ScopedName]) -> Result<Items<Var>, AllocError>
    ensures { IfOk result (λ xs. xs ≡ turn_names names.now) }
{
    let mut vars = Items::new(alloc);
    for name in names {
        if name.mutable {
            vars.push(name.var)?;
        }
    }
    Ok(vars)
}

fn copied(alloc: Global, vars: &[Var]) -> Result<CoreExpr, AllocError>
    ensures { IfOk result (λ x. x ≡ copied vars.now) }
{
    let vars = Items::from_slice(alloc, vars)?;
    Ok(expression(alloc, CoreHead::Copy(vars)))
}

#[tactic(auto, unfolding(lowering_rules::specs::statement_rules::Statements::followed))]
fn followed(alloc: Global, value: CoreExpr, next: Option<CoreExpr>) -> Result<CoreExpr, AllocError>
    ensures { IfOk result (λ x. x ≡ followed value next) }
{
    match next {
        Some(next) => then(alloc, value, next),
        None => Ok(value),
    }
}

fn turns(alloc: Global, parts: ForTurns) -> Result<CoreStat, AllocError>
    ensures { IfOk result (λ s. s ≡ turns parts parts.update) }
{
    let ForTurns {
        label,
        test,
        update,
        body,
    } = parts;
    looping(alloc, label, test, update, body)
}

/// The turns, each behind a copy of the names.
fn copying_turns(alloc: Global, parts: ForTurns, vars: &[Var]) -> Result<CoreStat, AllocError>
    ensures { IfOk result (λ s. s ≡ copying_turns parts vars.now) }
{
    let ForTurns {
        label,
        test,
        update,
        body,
    } = parts;
    let update = followed(alloc, copied(alloc, vars)?, update)?;
    looping(alloc, label, test, Some(update), body)
}

fn push_own_turns(
    alloc: Global,
    parts: ForTurns,
    vars: &[Var],
    out: &mut Items<CoreStat>,
) -> Result<(), AllocError>
    ensures { OnOk result (out.new ≡ out.old ++ own_turns parts vars.now) }
{
    let copy = copied(alloc, vars)?;
    out.push(CoreStat::Do(copy))?;
    out.push(copying_turns(alloc, parts, vars)?)
}

fn push_turns(
    alloc: Global,
    parts: ForTurns,
    vars: &[Var],
    out: &mut Items<CoreStat>,
) -> Result<(), AllocError>
    ensures { OnOk result (out.new ≡ out.old ++ all_turns parts vars.now) }
{
    if vars.len() == 0 {
        return out.push(turns(alloc, parts)?);
    }
    push_own_turns(alloc, parts, vars, out)
}

/// A `for` in a scope of the names of its head. The names of a `let` have a binding of their own at each turn.
pub fn lower_for(alloc: Global, parts: ForLoop) -> Result<Items<CoreStat>, AllocError>
    ensures { IfOk result (λ ss. ss ≡ for_loop parts) }
{
    let ForLoop {
        names,
        first,
        turns,
    } = parts;
    let vars = turn_names(alloc, names.as_slice())?;
    let mut body = first;
    push_turns(alloc, turns, vars.as_slice(), &mut body)?;
    let mut out = Items::new(alloc);
    push_scoped(names, body, &mut out)?;
    Ok(out)
}
