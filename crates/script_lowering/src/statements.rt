//! What is made of statements that are done (ECMA-262, 5.1 edition, 12).

ghost use Rattle.std.specs.Prelude.{◌≡◌, ◌∷◌, ◌++◌, [], None, Some, IfOk, OnOk};
ghost use Rattle.core_ast.specs.declared.tree.CoreStat.{out-CoreStat};
ghost use Rattle.core_ast.specs.declared.tree.CoreStat.TheVariants as stat;
ghost use Rattle.script_lowering.specs.Statements.{case_with, declared_with, do_while, for_loop, label_last, labelled, looping, otherwise, plain, returned, single, store_truth, with_label};
ghost use Rattle.script_lowering.specs.Makers.{or_test, turning};

use crate::read::StatRead;
use core_ast::{
    Constant, CoreCase, CoreExpr, CoreHead, CoreLink, CoreOp, CoreStat, Label, Var, When, act,
    expression, linked, undefined, variable,
};
use sqlite_items::{Boxed, Items};
use std::alloc::{AllocError, Global};

/// One item.
pub(crate) fn alone<T: Drop>(alloc: Global, item: T) -> Result<Items<T>, AllocError>
    ensures { IfOk result (λ list. list ≡ item ∷ []) }
{
    let mut list = Items::new(alloc);
    list.push(item)?;
    Ok(list)
}

/// An item before others.
fn before<T: Drop>(alloc: Global, item: T, rest: Items<T>) -> Result<Items<T>, AllocError>
    ensures { IfOk result (λ list. list ≡ item ∷ rest) }
{
    let mut list = alone(alloc, item)?;
    list.append(rest)?;
    Ok(list)
}

/// Two items.
fn both<T: Drop>(alloc: Global, first: T, second: T) -> Result<Items<T>, AllocError>
    ensures { IfOk result (λ list. list ≡ first ∷ second ∷ []) }
{
    let mut list = alone(alloc, first)?;
    list.push(second)?;
    Ok(list)
}

/// Statements to which no label goes.
pub(crate) fn plain(stats: Items<CoreStat>) -> StatRead
    ensures { result ≡ plain stats }
{
    StatRead {
        stats,
        is_loop: false,
    }
}

fn looping(stats: Items<CoreStat>) -> StatRead
    ensures { result ≡ looping stats }
{
    StatRead {
        stats,
        is_loop: true,
    }
}

/// One statement.
pub(crate) fn single(alloc: Global, stat: CoreStat) -> Result<StatRead, AllocError>
    ensures { IfOk result (λ r. r ≡ single stat) }
{
    let stats = alone(alloc, stat)?;
    Ok(plain(stats))
}

/// 12.9
pub(crate) fn returned(alloc: Global, value: Option<CoreExpr>) -> CoreStat
    ensures { result ≡ returned value }
{
    match value {
        None => CoreStat::Return(undefined(alloc)),
        Some(value) => CoreStat::Return(value),
    }
}

/// A variable that takes its value (12.2).
pub(crate) fn push_declared(
    alloc: Global,
    var: Var,
    value: Option<CoreExpr>,
    out: &mut Items<CoreStat>,
) -> Result<(), AllocError>
    ensures { OnOk result (out.new ≡ out.old ++ declared_with var value) }
{
    match value {
        None => Ok(()),
        Some(value) => {
            let set = linked(value, act(alloc, CoreOp::Set(var)))?;
            out.push(CoreStat::Do(set))
        }
    }
}

/// 12.5, the clause of `else`
pub(crate) fn push_otherwise(
    body: Option<Items<CoreStat>>,
    out: &mut Items<CoreCase>,
) -> Result<(), AllocError>
    ensures { OnOk result (out.new ≡ out.old ++ otherwise body) }
{
    match body {
        None => Ok(()),
        Some(body) => out.push(case_with(None, body)),
    }
}

/// A case of an `if` or a switch (12.5, 12.11).
pub(crate) fn case_with(test: Option<CoreExpr>, body: Items<CoreStat>) -> CoreCase
    ensures { result ≡ case_with test body }
{
    CoreCase { test, body }
}

/// A loop behind what it begins with (12.6).
pub(crate) fn for_loop(
    alloc: Global,
    first: Items<CoreStat>,
    test: Option<CoreExpr>,
    update: Option<CoreExpr>,
    body: Items<CoreStat>,
) -> Result<StatRead, AllocError>
    ensures { IfOk result (λ r. r ≡ for_loop first test update body) }
{
    let looped = CoreStat::Loop {
        labels: Items::new(alloc),
        test,
        update,
        body,
    };
    let mut stats = first;
    stats.push(looped)?;
    Ok(looping(stats))
}

fn store_truth(alloc: Global, var: Var, truth: bool) -> Result<CoreStat, AllocError>
    ensures { IfOk result (λ s. s ≡ store_truth var truth) }
{
    let value = expression(alloc, CoreHead::Constant(Constant::Truth(truth)));
    let value = linked(value, act(alloc, CoreOp::Set(var)))?;
    Ok(CoreStat::Do(value))
}

/// The variable, or else the test.
fn or_test(alloc: Global, var: Var, test: CoreExpr) -> Result<CoreExpr, AllocError>
    ensures { IfOk result (λ x. x ≡ or_test var test) }
{
    let yes = Boxed::new(alloc, test)?;
    let when = When::Falsy;
    linked(
        variable(alloc, var),
        CoreLink::Lazy {
            when,
            yes,
            no: None,
        },
    )
}

/// A loop whose test is a first turn, or this one.
fn turning(
    alloc: Global,
    var: Var,
    body: Items<CoreStat>,
    test: CoreExpr,
) -> Result<CoreStat, AllocError>
    ensures { IfOk result (λ s. s ≡ turning var body test) }
{
    let test = or_test(alloc, var, test)?;
    let stored = store_truth(alloc, var, false)?;
    let body = before(alloc, stored, body)?;
    Ok(CoreStat::Loop {
        labels: Items::new(alloc),
        test: Some(test),
        update: None,
        body,
    })
}

/// 12.6.1
pub(crate) fn do_while(
    alloc: Global,
    var: Var,
    body: Items<CoreStat>,
    test: CoreExpr,
) -> Result<StatRead, AllocError>
    ensures { IfOk result (λ r. r ≡ looping (do_while var body test)) }
{
    let looped = turning(alloc, var, body, test)?;
    let begun = store_truth(alloc, var, true)?;
    Ok(looping(both(alloc, begun, looped)?))
}

/// A loop with one label more (12.12).
fn with_label(alloc: Global, label: Label, stat: CoreStat) -> Result<CoreStat, AllocError>
    ensures { IfOk result (λ s. s ≡ with_label label stat (out-CoreStat stat)) }
{
    match stat {
        CoreStat::Loop {
            labels,
            test,
            update,
            body,
        } => {
            let labels = before(alloc, label, labels)?;
            Ok(CoreStat::Loop {
                labels,
                test,
                update,
                body,
            })
        }
        other => Ok(other),
    }
}

/// Statements and a last one, which takes one label more.
#[tactic(auto, using(crate::proofs::Labels::label_last_push))]
fn with_last(
    alloc: Global,
    label: Label,
    stats: Items<CoreStat>,
    last: CoreStat,
) -> Result<Items<CoreStat>, AllocError>
    ensures { IfOk result (λ ss. ss ≡ label_last label (stats ++ last ∷ [])) }
{
    let mut stats = stats;
    stats.push(with_label(alloc, label, last)?)?;
    Ok(stats)
}

/// The last statement with one label more.
fn label_last(
    alloc: Global,
    label: Label,
    stats: Items<CoreStat>,
) -> Result<Items<CoreStat>, AllocError>
    ensures { IfOk result (λ ss. ss ≡ label_last label stats) }
{
    let mut stats = stats;
    match stats.pop() {
        None => Ok(stats),
        Some(last) => with_last(alloc, label, stats, last),
    }
}

/// 12.12
pub(crate) fn labelled(alloc: Global, label: Label, read: StatRead) -> Result<StatRead, AllocError>
    ensures { IfOk result (λ r. r ≡ labelled label read) }
{
    let StatRead { stats, is_loop } = read;
    if is_loop {
        return Ok(looping(label_last(alloc, label, stats)?));
    }
    single(alloc, CoreStat::Labelled { label, body: stats })
}
