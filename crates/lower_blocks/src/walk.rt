//! The walk: one cycle over the four types.

ghost use Rattle.std.specs.Prelude.{◌≡◌, map, Some, IfOk, OnOk};
ghost use Rattle.core_ast.specs.Made.{linked};
ghost use Rattle.core_ast.specs.Walks.{along};
ghost use Rattle.core_ast.specs.declared.tree.CoreLink.TheVariants as link;
ghost use Rattle.core_ast.specs.declared.tree.CoreStat.TheVariants as stat;
ghost use Rattle.pass_rules.specs.Scopes.{case_flat, caught_flat, expr_flat, link_flat, stat_flat, stats_flat};

use crate::build::{begun, entered, strict};
use core_ast::{CoreCase, CoreExpr, CoreLink, CoreStat, Label, ScopedName, Var, When, linked};
use sqlite_items::{Boxed, Items};
use std::alloc::{AllocError, Global};

#[cycle(walk)]
fn expr(alloc: Global, owners: &[usize], source: &CoreExpr) -> Result<CoreExpr, AllocError>
    ensures { IfOk result (λ x. x ≡ expr_flat owners.now source.now) }
{
    let begin = begun(alloc, owners, source.site, &source.head, source.links.len())?;
    links(alloc, owners, source.links.as_slice(), begin)
}

#[cycle(walk)]
fn links(
    alloc: Global,
    owners: &[usize],
    source: &[CoreLink],
    begin: CoreExpr,
) -> Result<CoreExpr, AllocError>
    ensures { IfOk result (λ x. x ≡ along (map (link_flat owners.now) source.now) begin) }
{
    let mut made = begin;
    for one in source {
        made = link(alloc, owners, one, made)?;
    }
    Ok(made)
}

#[cycle(walk)]
fn link(
    alloc: Global,
    owners: &[usize],
    source: &CoreLink,
    made: CoreExpr,
) -> Result<CoreExpr, AllocError>
    ensures { IfOk result (λ x. x ≡ link_flat owners.now source.now made) }
{
    match source {
        CoreLink::Strict { op, parts, site } => {
            let parts = exprs(alloc, owners, parts.as_slice())?;
            let op = op.copy(alloc)?;
            strict(alloc, owners, op, parts, *site, made)
        }
        CoreLink::Lazy { when, yes, no } => {
            let yes = boxed(alloc, owners, yes.get())?;
            let when = *when;
            match no {
                Some(no) => choice(alloc, owners, no.get(), when, yes, made),
                None => linked(
                    made,
                    CoreLink::Lazy {
                        when,
                        yes,
                        no: None,
                    },
                ),
            }
        }
        CoreLink::Run { body } => {
            let body = block(alloc, owners, body.as_slice())?;
            linked(made, CoreLink::Run { body })
        }
    }
}

#[cycle(walk)]
fn boxed(alloc: Global, owners: &[usize], source: &CoreExpr) -> Result<Boxed<CoreExpr>, AllocError>
    ensures { IfOk result (λ x. x ≡ expr_flat owners.now source.now) }
{
    let made = expr(alloc, owners, source)?;
    Boxed::new(alloc, made)
}

/// A lazy link with two branches.
#[cycle(walk)]
fn choice(
    alloc: Global,
    owners: &[usize],
    source: &CoreExpr,
    when: When,
    yes: Boxed<CoreExpr>,
    made: CoreExpr,
) -> Result<CoreExpr, AllocError>
    ensures { IfOk result (λ x. x ≡ linked made (link.Lazy when yes (Some (expr_flat owners.now source.now)))) }
{
    let no = Some(boxed(alloc, owners, source)?);
    linked(made, CoreLink::Lazy { when, yes, no })
}

#[cycle(walk)]
fn exprs(
    alloc: Global,
    owners: &[usize],
    source: &[CoreExpr],
) -> Result<Items<CoreExpr>, AllocError>
    ensures { IfOk result (λ xs. xs ≡ map (expr_flat owners.now) source.now) }
{
    let mut made = Items::from_vec(Vec::with_capacity(alloc, source.len())?);
    for one in source {
        made.push(expr(alloc, owners, one)?)?;
    }
    Ok(made)
}

#[cycle(walk)]
fn case(alloc: Global, owners: &[usize], source: &CoreCase) -> Result<CoreCase, AllocError>
    ensures { IfOk result (λ x. x ≡ case_flat owners.now source.now) }
{
    let test = match &source.test {
        Some(test) => Some(expr(alloc, owners, test)?),
        None => None,
    };
    let body = block(alloc, owners, source.body.as_slice())?;
    Ok(CoreCase { test, body })
}

#[cycle(walk)]
fn cases(
    alloc: Global,
    owners: &[usize],
    source: &[CoreCase],
) -> Result<Items<CoreCase>, AllocError>
    ensures { IfOk result (λ xs. xs ≡ map (case_flat owners.now) source.now) }
{
    let mut made = Items::from_vec(Vec::with_capacity(alloc, source.len())?);
    for one in source {
        made.push(case(alloc, owners, one)?)?;
    }
    Ok(made)
}

/// Statements without scopes.
#[cycle(walk)]
pub(crate) fn block(
    alloc: Global,
    owners: &[usize],
    source: &[CoreStat],
) -> Result<Items<CoreStat>, AllocError>
    ensures { IfOk result (λ xs. xs ≡ stats_flat owners.now source.now) }
{
    let mut made = Items::from_vec(Vec::with_capacity(alloc, source.len())?);
    stats(alloc, owners, source, &mut made)?;
    Ok(made)
}

#[cycle(walk)]
fn stats(
    alloc: Global,
    owners: &[usize],
    source: &[CoreStat],
    out: &mut Items<CoreStat>,
) -> Result<(), AllocError>
    ensures { OnOk result (out.new ≡ along (map (stat_flat owners.now) source.now) out.old) }
{
    for one in source {
        stat(alloc, owners, one, out)?;
    }
    Ok(())
}

#[cycle(walk)]
fn looped(
    alloc: Global,
    owners: &[usize],
    source: &[CoreStat],
    labels: &[Label],
    test: Option<CoreExpr>,
    update: Option<CoreExpr>,
) -> Result<CoreStat, AllocError>
    ensures { IfOk result (λ x. x ≡ stat.Loop labels.now test update (stats_flat owners.now source.now)) }
{
    let body = block(alloc, owners, source)?;
    let labels = Items::from_slice(alloc, labels)?;
    Ok(CoreStat::Loop {
        labels,
        test,
        update,
        body,
    })
}

/// A handler begins with the names of its pattern.
#[cycle(walk)]
fn caught(
    alloc: Global,
    owners: &[usize],
    source: &[CoreStat],
    parameter: Var,
    names: &[ScopedName],
    block: Items<CoreStat>,
) -> Result<CoreStat, AllocError>
    ensures { IfOk result (λ x. x ≡ caught_flat owners.now block parameter names.now source.now) }
{
    let mut handler = Items::new(alloc);
    entered(alloc, names, &mut handler)?;
    stats(alloc, owners, source, &mut handler)?;
    Ok(CoreStat::TryCatch {
        block,
        parameter,
        names: Items::new(alloc),
        handler,
    })
}

#[cycle(walk)]
fn finished(
    alloc: Global,
    owners: &[usize],
    source: &[CoreStat],
    block: Items<CoreStat>,
) -> Result<CoreStat, AllocError>
    ensures { IfOk result (λ x. x ≡ stat.TryFinally block (stats_flat owners.now source.now)) }
{
    let last = crate::walk::block(alloc, owners, source)?;
    Ok(CoreStat::TryFinally { block, last })
}

#[cycle(walk)]
fn stat(
    alloc: Global,
    owners: &[usize],
    source: &CoreStat,
    out: &mut Items<CoreStat>,
) -> Result<(), AllocError>
    ensures { OnOk result (out.new ≡ stat_flat owners.now source.now out.old) }
{
    match source {
        CoreStat::Do(value) => {
            let value = expr(alloc, owners, value)?;
            out.push(CoreStat::Do(value))
        }
        CoreStat::If { cases: all } => {
            let cases = cases(alloc, owners, all.as_slice())?;
            out.push(CoreStat::If { cases })
        }
        CoreStat::Switch {
            subject,
            cases: all,
        } => {
            let subject = expr(alloc, owners, subject)?;
            let cases = cases(alloc, owners, all.as_slice())?;
            out.push(CoreStat::Switch { subject, cases })
        }
        CoreStat::Loop {
            labels,
            test,
            update,
            body,
        } => {
            let test = match test {
                Some(test) => Some(expr(alloc, owners, test)?),
                None => None,
            };
            let update = match update {
                Some(update) => Some(expr(alloc, owners, update)?),
                None => None,
            };
            let labels = labels.as_slice();
            out.push(looped(alloc, owners, body.as_slice(), labels, test, update)?)
        }
        CoreStat::Labelled { label, body } => {
            let body = block(alloc, owners, body.as_slice())?;
            out.push(CoreStat::Labelled {
                label: *label,
                body,
            })
        }
        CoreStat::Jump { goes_on, label } => out.push(CoreStat::Jump {
            goes_on: *goes_on,
            label: *label,
        }),
        CoreStat::Return(value) => {
            let value = expr(alloc, owners, value)?;
            out.push(CoreStat::Return(value))
        }
        CoreStat::Throw(value) => {
            let value = expr(alloc, owners, value)?;
            out.push(CoreStat::Throw(value))
        }
        CoreStat::TryCatch {
            block: source,
            parameter,
            names,
            handler,
        } => {
            let block = block(alloc, owners, source.as_slice())?;
            let names = names.as_slice();
            out.push(caught(alloc, owners, handler.as_slice(), *parameter, names, block)?)
        }
        CoreStat::TryFinally {
            block: source,
            last,
        } => {
            let block = block(alloc, owners, source.as_slice())?;
            out.push(finished(alloc, owners, last.as_slice(), block)?)
        }
        CoreStat::Scoped { names, body } => {
            entered(alloc, names.as_slice(), out)?;
            stats(alloc, owners, body.as_slice(), out)
        }
        CoreStat::Yield {
            value,
            kind,
            result,
        } => {
            let value = expr(alloc, owners, value)?;
            out.push(CoreStat::Yield {
                value,
                kind: *kind,
                result: *result,
            })
        }
    }
}
