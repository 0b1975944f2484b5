//! How many checks of names a core has.

ghost use Rattle.std.specs.Prelude.{◌≡◌, map};
ghost use Rattle.core_ast.specs.Walks.{along};
ghost use Rattle.core_ast.specs.Checks.{case_checks, checks, expr_checks, function_checks, link_checks, of_head, of_op, of_primitive, part_checks, stat_checks, stats_checks};

use crate::parts::{CoreHead, CoreOp, Primitive};
use crate::tree::{CoreCase, CoreExpr, CoreLink, CoreStat};
use crate::whole::{Core, CoreFunction, CorePart};

/// The number of check_ready nodes, and the greatest usize where there are more.
pub fn checks(core: &Core) -> usize
    ensures { result ≡ checks core.now }
{
    let mut count = 0;
    for function in core.functions.as_slice() {
        count = in_function(function, count);
    }
    for part in core.parts.as_slice() {
        count = in_part(part, count);
    }
    count
}

fn in_function(function: &CoreFunction, count: usize) -> usize
    ensures { result ≡ function_checks function.now count }
{
    let count = stats(function.setup.as_slice(), count);
    let count = stats(function.body.as_slice(), count);
    stats(function.step.as_slice(), count)
}

fn in_part(part: &CorePart, count: usize) -> usize
    ensures { result ≡ part_checks part.now count }
{
    let count = stats(part.instantiate.as_slice(), count);
    stats(part.body.as_slice(), count)
}

#[tactic(auto, unfolding(crate::specs::Checks::of_primitive))]
fn primitive(source: Primitive, count: usize) -> usize
    ensures { result ≡ of_primitive source count }
{
    match source {
        Primitive::CheckReady => count.saturating_add(1),
        _ => count,
    }
}

#[tactic(auto, unfolding(crate::specs::Checks::of_head))]
fn head(source: &CoreHead, count: usize) -> usize
    ensures { result ≡ of_head source.now count }
{
    match source {
        CoreHead::Primitive(source) => primitive(*source, count),
        _ => count,
    }
}

#[tactic(auto, unfolding(crate::specs::Checks::of_op))]
fn op(source: &CoreOp, count: usize) -> usize
    ensures { result ≡ of_op source.now count }
{
    match source {
        CoreOp::Primitive(source) => primitive(*source, count),
        _ => count,
    }
}

#[cycle(checks)]
fn expr(source: &CoreExpr, count: usize) -> usize
    ensures { result ≡ expr_checks source.now count }
{
    links(source.links.as_slice(), head(&source.head, count))
}

#[cycle(checks)]
fn links(source: &[CoreLink], count: usize) -> usize
    ensures { result ≡ along (map link_checks source.now) count }
{
    let mut so_far = count;
    for one in source {
        so_far = link(one, so_far);
    }
    so_far
}

#[cycle(checks)]
fn link(source: &CoreLink, count: usize) -> usize
    ensures { result ≡ link_checks source.now count }
{
    match source {
        CoreLink::Strict {
            op: made,
            parts,
            ..
        } => {
            let count = exprs(parts.as_slice(), count);
            op(made, count)
        }
        CoreLink::Lazy { yes, no, .. } => {
            let count = expr(yes.get(), count);
            match no {
                Some(no) => expr(no.get(), count),
                None => count,
            }
        }
        CoreLink::Run { body } => stats(body.as_slice(), count),
    }
}

#[cycle(checks)]
fn exprs(source: &[CoreExpr], count: usize) -> usize
    ensures { result ≡ along (map expr_checks source.now) count }
{
    let mut so_far = count;
    for one in source {
        so_far = expr(one, so_far);
    }
    so_far
}

#[cycle(checks)]
fn case(source: &CoreCase, count: usize) -> usize
    ensures { result ≡ case_checks source.now count }
{
    let count = match &source.test {
        Some(test) => expr(test, count),
        None => count,
    };
    stats(source.body.as_slice(), count)
}

#[cycle(checks)]
fn cases(source: &[CoreCase], count: usize) -> usize
    ensures { result ≡ along (map case_checks source.now) count }
{
    let mut so_far = count;
    for one in source {
        so_far = case(one, so_far);
    }
    so_far
}

#[cycle(checks)]
fn stats(source: &[CoreStat], count: usize) -> usize
    ensures { result ≡ stats_checks source.now count }
{
    let mut so_far = count;
    for one in source {
        so_far = stat(one, so_far);
    }
    so_far
}

#[cycle(checks)]
fn stat(source: &CoreStat, count: usize) -> usize
    ensures { result ≡ stat_checks source.now count }
{
    match source {
        CoreStat::Do(value) | CoreStat::Return(value) | CoreStat::Throw(value) => expr(
            value, count,
        ),
        CoreStat::Yield { value, .. } => expr(value, count),
        CoreStat::If { cases: all } => cases(all.as_slice(), count),
        CoreStat::Switch {
            subject,
            cases: all,
        } => {
            let count = expr(subject, count);
            cases(all.as_slice(), count)
        }
        CoreStat::Loop {
            test,
            update,
            body,
            ..
        } => {
            let count = match test {
                Some(test) => expr(test, count),
                None => count,
            };
            let count = match update {
                Some(update) => expr(update, count),
                None => count,
            };
            stats(body.as_slice(), count)
        }
        CoreStat::Labelled { body, .. } => stats(body.as_slice(), count),
        CoreStat::Scoped { body, .. } => stats(body.as_slice(), count),
        CoreStat::Jump { .. } => count,
        CoreStat::TryCatch { block, handler, .. } => {
            let count = stats(block.as_slice(), count);
            stats(handler.as_slice(), count)
        }
        CoreStat::TryFinally { block, last } => {
            let count = stats(block.as_slice(), count);
            stats(last.as_slice(), count)
        }
    }
}
