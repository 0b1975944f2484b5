//! Equal trees, for the statements that stay as they are.

ghost use Rattle.std.specs.Prelude.{◌≡◌, map, Some, IfOk};
ghost use Rattle.core_ast.specs.declared.tree.CoreLink.TheVariants as link;
ghost use Rattle.core_ast.specs.declared.tree.CoreStat.TheVariants as stat;
ghost use Rattle.pass_rules.specs.state_rules.States.{branch, expr_whole, link_whole, part, whole_cases, wholes};

use core_ast::{CoreCase, CoreExpr, CoreLink, CoreStat, Label, ScopedName, Var, When};
use sqlite_items::{Boxed, Items};
use std::alloc::{AllocError, Global};

#[cycle(copies)]
pub fn copied_expr(alloc: Global, source: &CoreExpr) -> Result<CoreExpr, AllocError>
    ensures { IfOk result (λ x. x ≡ expr_whole source.now) }
{
    let links = links(alloc, source.links.as_slice())?;
    let head = source.head.copy(alloc)?;
    Ok(CoreExpr {
        site: source.site,
        head,
        links,
    })
}

#[cycle(copies)]
fn links(alloc: Global, source: &[CoreLink]) -> Result<Items<CoreLink>, AllocError>
    ensures { IfOk result (λ xs. xs ≡ map link_whole source.now) }
{
    let mut made = Items::from_vec(Vec::with_capacity(alloc, source.len())?);
    for one in source {
        made.push(link(alloc, one)?)?;
    }
    Ok(made)
}

#[cycle(copies)]
fn link(alloc: Global, source: &CoreLink) -> Result<CoreLink, AllocError>
    ensures { IfOk result (λ x. x ≡ link_whole source.now) }
{
    match source {
        CoreLink::Strict { op, parts, site } => {
            let parts = exprs(alloc, parts.as_slice())?;
            Ok(CoreLink::Strict {
                op: op.copy(alloc)?,
                parts,
                site: *site,
            })
        }
        CoreLink::Lazy { when, yes, no } => {
            let yes = boxed(alloc, yes.get())?;
            match no {
                Some(no) => choice(alloc, no.get(), *when, yes),
                None => Ok(CoreLink::Lazy {
                    when: *when,
                    yes,
                    no: None,
                }),
            }
        }
        CoreLink::Run { body } => {
            let body = stats(alloc, body.as_slice())?;
            Ok(CoreLink::Run { body })
        }
    }
}

#[cycle(copies)]
fn boxed(alloc: Global, source: &CoreExpr) -> Result<Boxed<CoreExpr>, AllocError>
    ensures { IfOk result (λ x. x ≡ expr_whole source.now) }
{
    let made = copied_expr(alloc, source)?;
    Boxed::new(alloc, made)
}

/// A lazy link with two branches.
#[cycle(copies)]
fn choice(
    alloc: Global,
    source: &CoreExpr,
    when: When,
    yes: Boxed<CoreExpr>,
) -> Result<CoreLink, AllocError>
    ensures { IfOk result (λ x. x ≡ link.Lazy when yes (Some (expr_whole source.now))) }
{
    let no = Some(boxed(alloc, source)?);
    Ok(CoreLink::Lazy { when, yes, no })
}

#[cycle(copies)]
fn exprs(alloc: Global, source: &[CoreExpr]) -> Result<Items<CoreExpr>, AllocError>
    ensures { IfOk result (λ xs. xs ≡ map expr_whole source.now) }
{
    let mut made = Items::from_vec(Vec::with_capacity(alloc, source.len())?);
    for one in source {
        made.push(copied_expr(alloc, one)?)?;
    }
    Ok(made)
}

#[cycle(copies)]
fn case(alloc: Global, source: &CoreCase) -> Result<CoreCase, AllocError>
    ensures { IfOk result (λ x. x ≡ (branch source.now).whole) }
{
    let test = match &source.test {
        Some(test) => Some(copied_expr(alloc, test)?),
        None => None,
    };
    let body = stats(alloc, source.body.as_slice())?;
    Ok(CoreCase { test, body })
}

#[cycle(copies)]
fn cases(alloc: Global, source: &[CoreCase]) -> Result<Items<CoreCase>, AllocError>
    ensures { IfOk result (λ xs. xs ≡ whole_cases (map branch source.now)) }
{
    let mut made = Items::from_vec(Vec::with_capacity(alloc, source.len())?);
    for one in source {
        made.push(case(alloc, one)?)?;
    }
    Ok(made)
}

#[cycle(copies)]
fn stats(alloc: Global, source: &[CoreStat]) -> Result<Items<CoreStat>, AllocError>
    ensures { IfOk result (λ xs. xs ≡ wholes (map part source.now)) }
{
    let mut made = Items::from_vec(Vec::with_capacity(alloc, source.len())?);
    for one in source {
        made.push(copied_stat(alloc, one)?)?;
    }
    Ok(made)
}

#[cycle(copies)]
fn looped(
    alloc: Global,
    source: &[CoreStat],
    labels: &[Label],
    test: Option<CoreExpr>,
    update: Option<CoreExpr>,
) -> Result<CoreStat, AllocError>
    ensures { IfOk result (λ x. x ≡ stat.Loop labels.now test update (wholes (map part source.now))) }
{
    let body = stats(alloc, source)?;
    let labels = Items::from_slice(alloc, labels)?;
    Ok(CoreStat::Loop {
        labels,
        test,
        update,
        body,
    })
}

#[cycle(copies)]
fn caught(
    alloc: Global,
    source: &[CoreStat],
    parameter: Var,
    names: &[ScopedName],
    block: Items<CoreStat>,
) -> Result<CoreStat, AllocError>
    ensures { IfOk result (λ x. x ≡ stat.TryCatch block parameter names.now (wholes (map part source.now))) }
{
    let handler = stats(alloc, source)?;
    let names = Items::from_slice(alloc, names)?;
    Ok(CoreStat::TryCatch {
        block,
        parameter,
        names,
        handler,
    })
}

#[cycle(copies)]
fn finished(
    alloc: Global,
    source: &[CoreStat],
    block: Items<CoreStat>,
) -> Result<CoreStat, AllocError>
    ensures { IfOk result (λ x. x ≡ stat.TryFinally block (wholes (map part source.now))) }
{
    let last = stats(alloc, source)?;
    Ok(CoreStat::TryFinally { block, last })
}

#[cycle(copies)]
fn scoped(alloc: Global, source: &[CoreStat], names: &[ScopedName]) -> Result<CoreStat, AllocError>
    ensures { IfOk result (λ x. x ≡ stat.Scoped names.now (wholes (map part source.now))) }
{
    let body = stats(alloc, source)?;
    let names = Items::from_slice(alloc, names)?;
    Ok(CoreStat::Scoped { names, body })
}

#[cycle(copies)]
pub fn copied_stat(alloc: Global, source: &CoreStat) -> Result<CoreStat, AllocError>
    ensures { IfOk result (λ x. x ≡ (part source.now).whole) }
{
    match source {
        CoreStat::Do(value) => Ok(CoreStat::Do(copied_expr(alloc, value)?)),
        CoreStat::If { cases: all } => {
            let cases = cases(alloc, all.as_slice())?;
            Ok(CoreStat::If { cases })
        }
        CoreStat::Switch {
            subject,
            cases: all,
        } => {
            let subject = copied_expr(alloc, subject)?;
            let cases = cases(alloc, all.as_slice())?;
            Ok(CoreStat::Switch { subject, cases })
        }
        CoreStat::Loop {
            labels,
            test,
            update,
            body,
        } => {
            let test = match test {
                Some(test) => Some(copied_expr(alloc, test)?),
                None => None,
            };
            let update = match update {
                Some(update) => Some(copied_expr(alloc, update)?),
                None => None,
            };
            looped(alloc, body.as_slice(), labels.as_slice(), test, update)
        }
        CoreStat::Labelled { label, body } => {
            let body = stats(alloc, body.as_slice())?;
            Ok(CoreStat::Labelled {
                label: *label,
                body,
            })
        }
        CoreStat::Jump { goes_on, label } => Ok(CoreStat::Jump {
            goes_on: *goes_on,
            label: *label,
        }),
        CoreStat::Return(value) => Ok(CoreStat::Return(copied_expr(alloc, value)?)),
        CoreStat::Throw(value) => Ok(CoreStat::Throw(copied_expr(alloc, value)?)),
        CoreStat::TryCatch {
            block,
            parameter,
            names,
            handler,
        } => {
            let block = stats(alloc, block.as_slice())?;
            caught(
                alloc,
                handler.as_slice(),
                *parameter,
                names.as_slice(),
                block,
            )
        }
        CoreStat::TryFinally { block, last } => {
            let block = stats(alloc, block.as_slice())?;
            finished(alloc, last.as_slice(), block)
        }
        CoreStat::Scoped { names, body } => scoped(alloc, body.as_slice(), names.as_slice()),
        CoreStat::Yield {
            value,
            kind,
            result,
        } => {
            let value = copied_expr(alloc, value)?;
            Ok(CoreStat::Yield {
                value,
                kind: *kind,
                result: *result,
            })
        }
    }
}
