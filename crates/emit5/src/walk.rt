//! Statements: one cycle over two of the four types.

ghost use Rattle.std.specs.Prelude.{◌≡◌, [], IfOk, OnOk};
ghost use Rattle.emit_expressions.specs.Giving.{Gives};
ghost use Rattle.emission_rules.specs.Emission.{case_emitted, cases_emitted, caught_by, finished_by, looped_by, stat_emitted, stats_emitted};
ghost use Rattle.emission_rules.specs.Scenes.{gives};

use crate::choices::push_if;
use crate::values::{expr, optional};
use crate::{labels, statements};
use core_ast::{CoreCase, CoreStat, Label, Var};
use emission_rules::Scene;
use emit_expressions::name_of;
use es5_ast::{Case5, Expr5, Stat5};
use es5_nodes::lists::push;
use sqlite_items::{Boxed, Items};
use std::alloc::{AllocError, Global};

#[cycle(walk)]
fn case(alloc: Global, source: &CoreCase, scene: &mut Scene) -> Result<Case5, AllocError>
    ensures { Gives result scene.new (case_emitted source.now scene.old) }
{
    let test = optional(alloc, &source.test, scene)?;
    let body = block(alloc, source.body.as_slice(), scene)?;
    Ok(statements::case(test, body))
}

#[cycle(walk)]
fn cases(alloc: Global, source: &[CoreCase], scene: &mut Scene) -> Result<Vec<Case5>, AllocError>
    ensures { IfOk result (λ cs. gives cs.items scene.new ≡ cases_emitted source.now scene.old) }
{
    let mut made = Vec::new(alloc);
    for one in source {
        made.push(case(alloc, one, scene)?)?;
    }
    Ok(made)
}

/// Statements of their own.
#[cycle(walk)]
pub(crate) fn block(
    alloc: Global,
    source: &[CoreStat],
    scene: &mut Scene,
) -> Result<Items<Stat5>, AllocError>
    ensures { Gives result scene.new (stats_emitted source.now [] scene.old) }
{
    let mut made = Items::new(alloc);
    stats(alloc, source, scene, &mut made)?;
    Ok(made)
}

#[cycle(walk)]
pub(crate) fn stats(
    alloc: Global,
    source: &[CoreStat],
    scene: &mut Scene,
    out: &mut Items<Stat5>,
) -> Result<(), AllocError>
    ensures { OnOk result (gives out.new scene.new ≡ stats_emitted source.now out.old scene.old) }
{
    for one in source {
        stat(alloc, one, scene, out)?;
    }
    Ok(())
}

#[cycle(walk)]
fn looped(
    alloc: Global,
    source: &[CoreStat],
    labels: &[Label],
    test: Option<Boxed<Expr5>>,
    update: Option<Boxed<Expr5>>,
    scene: &mut Scene,
) -> Result<Boxed<Stat5>, AllocError>
    ensures { Gives result scene.new (looped_by labels.now test update (stats_emitted source.now [] scene.old)) }
{
    let body = block(alloc, source, scene)?;
    labels::looped(alloc, labels, test, update, body)
}

#[cycle(walk)]
fn caught(
    alloc: Global,
    source: &[CoreStat],
    body: Items<Stat5>,
    parameter: Var,
    scene: &mut Scene,
) -> Result<Stat5, AllocError>
    ensures { Gives result scene.new (caught_by body parameter (stats_emitted source.now [] scene.old)) }
{
    let handler = block(alloc, source, scene)?;
    statements::caught(alloc, body, name_of(scene, parameter), handler)
}

#[cycle(walk)]
fn finished(
    alloc: Global,
    source: &[CoreStat],
    body: Items<Stat5>,
    scene: &mut Scene,
) -> Result<Stat5, AllocError>
    ensures { Gives result scene.new (finished_by body (stats_emitted source.now [] scene.old)) }
{
    let last = block(alloc, source, scene)?;
    Ok(statements::finished(body, last))
}

#[cycle(walk)]
fn stat(
    alloc: Global,
    source: &CoreStat,
    scene: &mut Scene,
    out: &mut Items<Stat5>,
) -> Result<(), AllocError>
    ensures { OnOk result (gives out.new scene.new ≡ stat_emitted source.now out.old scene.old) }
{
    match source {
        CoreStat::Do(value) => {
            let value = expr(alloc, value, scene)?;
            out.push(statements::expression(value))
        }
        CoreStat::If { cases: all } => {
            let cases = cases(alloc, all.as_slice(), scene)?;
            push_if(alloc, cases, out)
        }
        CoreStat::Switch {
            subject,
            cases: all,
        } => {
            let subject = expr(alloc, subject, scene)?;
            let cases = cases(alloc, all.as_slice(), scene)?;
            out.push(statements::switch(subject, cases))
        }
        CoreStat::Loop {
            labels,
            test,
            update,
            body,
        } => {
            let test = optional(alloc, test, scene)?;
            let update = optional(alloc, update, scene)?;
            let labels = labels.as_slice();
            push(
                out,
                looped(alloc, body.as_slice(), labels, test, update, scene)?,
            )
        }
        CoreStat::Labelled { label, body } => {
            let body = block(alloc, body.as_slice(), scene)?;
            push(out, labels::labelled(alloc, *label, body)?)
        }
        CoreStat::Jump { goes_on, label } => { out.push(labels::jumped(alloc, *goes_on, *label)?) }
        CoreStat::Return(value) => {
            let value = expr(alloc, value, scene)?;
            out.push(statements::returned(value))
        }
        CoreStat::Throw(value) => {
            let value = expr(alloc, value, scene)?;
            out.push(statements::thrown(value))
        }
        CoreStat::TryCatch {
            block: source,
            parameter,
            handler,
            ..
        } => {
            let body = block(alloc, source.as_slice(), scene)?;
            out.push(caught(alloc, handler.as_slice(), body, *parameter, scene)?)
        }
        CoreStat::TryFinally {
            block: source,
            last,
        } => {
            let body = block(alloc, source.as_slice(), scene)?;
            out.push(finished(alloc, last.as_slice(), body, scene)?)
        }
        CoreStat::Scoped { body, .. } => stats(alloc, body.as_slice(), scene, out),
        CoreStat::Yield { value, .. } => {
            let value = expr(alloc, value, scene)?;
            out.push(statements::expression(value))
        }
    }
}
