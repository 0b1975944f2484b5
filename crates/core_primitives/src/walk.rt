//! The walk over a core.

ghost use Rattle.std.specs.Prelude.{◌≡◌, map};
ghost use Rattle.std.specs.Option.{option_map};
ghost use Rattle.core_ast.specs.Walks.{along, perhaps};
ghost use Rattle.core_primitives.specs.Used.{case_used, expr_used, function_used, link_used, loop_body_used, loop_tests_used, of_arguments, of_head, of_kind, part_used, stat_used, stats_used, used_primitives};

use crate::literal::{Literal, Met};
use crate::used::UsedPrimitives;
use core_ast::{
    Core, CoreCase, CoreExpr, CoreFunction, CoreHead, CoreKind, CoreLink, CorePart, CoreStat,
    Primitive, Var,
};

/// The primitives that stand in a core.
pub(crate) fn whole(source: &Core) -> UsedPrimitives
    ensures { result ≡ used_primitives source.now }
{
    let mut used = UsedPrimitives::none();
    for function in source.functions.as_slice() {
        used = in_function(function, used);
    }
    for part in source.parts.as_slice() {
        used = in_part(part, used);
    }
    used
}

fn in_function(function: &CoreFunction, used: UsedPrimitives) -> UsedPrimitives
    ensures { result ≡ function_used function.now used }
{
    let used = arguments(function.arguments, kind(function.kind, used));
    let used = stats(function.setup.as_slice(), used);
    let used = stats(function.body.as_slice(), used);
    stats(function.step.as_slice(), used)
}

fn in_part(part: &CorePart, used: UsedPrimitives) -> UsedPrimitives
    ensures { result ≡ part_used part.now used }
{
    let used = stats(part.instantiate.as_slice(), used);
    stats(part.body.as_slice(), used)
}

#[tactic(auto, unfolding(crate::specs::Used::of_head))]
fn head(source: &CoreHead, used: UsedPrimitives) -> UsedPrimitives
    ensures { result ≡ of_head source.now used }
{
    match source {
        CoreHead::Primitive(primitive) => used.with(*primitive),
        _ => used,
    }
}

#[tactic(auto, unfolding(crate::specs::Used::of_kind))]
fn kind(source: CoreKind, used: UsedPrimitives) -> UsedPrimitives
    ensures { result ≡ of_kind source used }
{
    match source {
        CoreKind::Generator => used.with(Primitive::GeneratorMake),
        _ => used,
    }
}

#[tactic(auto, unfolding(crate::specs::Used::of_arguments))]
fn arguments(source: Option<Var>, used: UsedPrimitives) -> UsedPrimitives
    ensures { result ≡ of_arguments source used }
{
    match source {
        Some(_) => used.with(Primitive::ArgumentsPut),
        None => used,
    }
}

#[cycle(used)]
fn expr(source: &CoreExpr, used: UsedPrimitives) -> UsedPrimitives
    ensures { result ≡ expr_used source.now used }
{
    let begun = Met {
        literal: Literal::of_head(&source.head),
        used: head(&source.head, used),
    };
    links(source.links.as_slice(), begun).used
}

#[cycle(used)]
fn links(source: &[CoreLink], met: Met) -> Met
    ensures { result ≡ along (map link_used source.now) met }
{
    let mut so_far = met;
    for one in source {
        so_far = link(one, so_far);
    }
    so_far
}

#[cycle(used)]
fn link(source: &CoreLink, met: Met) -> Met
    ensures { result ≡ link_used source.now met }
{
    match source {
        CoreLink::Strict { op, parts, .. } => {
            let used = exprs(parts.as_slice(), met.used);
            Met {
                literal: met.literal,
                used,
            }
            .behind(op)
        }
        CoreLink::Lazy { yes, no, .. } => {
            let used = expr(yes.get(), met.used);
            match no {
                Some(no) => Met::value(expr(no.get(), used)),
                None => Met::value(used),
            }
        }
        CoreLink::Run { body } => Met::value(stats(body.as_slice(), met.used)),
    }
}

#[cycle(used)]
fn exprs(source: &[CoreExpr], used: UsedPrimitives) -> UsedPrimitives
    ensures { result ≡ along (map expr_used source.now) used }
{
    let mut so_far = used;
    for one in source {
        so_far = expr(one, so_far);
    }
    so_far
}

#[cycle(used)]
fn optional(source: &Option<CoreExpr>, used: UsedPrimitives) -> UsedPrimitives
    ensures { result ≡ perhaps (option_map expr_used source.now) used }
{
    match source {
        Some(source) => expr(source, used),
        None => used,
    }
}

#[cycle(used)]
fn case(source: &CoreCase, used: UsedPrimitives) -> UsedPrimitives
    ensures { result ≡ case_used source.now used }
{
    let used = match &source.test {
        Some(test) => expr(test, used),
        None => used,
    };
    stats(source.body.as_slice(), used)
}

#[cycle(used)]
fn cases(source: &[CoreCase], used: UsedPrimitives) -> UsedPrimitives
    ensures { result ≡ along (map case_used source.now) used }
{
    let mut so_far = used;
    for one in source {
        so_far = case(one, so_far);
    }
    so_far
}

#[cycle(used)]
fn stats(source: &[CoreStat], used: UsedPrimitives) -> UsedPrimitives
    ensures { result ≡ stats_used source.now used }
{
    let mut so_far = used;
    for one in source {
        so_far = stat(one, so_far);
    }
    so_far
}

/// The test and the update of a loop.
#[cycle(used)]
fn loop_tests(source: &CoreStat, used: UsedPrimitives) -> UsedPrimitives
    ensures { result ≡ loop_tests_used source.now used }
{
    match source {
        CoreStat::Loop { test, update, .. } => optional(update, optional(test, used)),
        _ => used,
    }
}

#[cycle(used)]
fn loop_body(source: &CoreStat, used: UsedPrimitives) -> UsedPrimitives
    ensures { result ≡ loop_body_used source.now used }
{
    match source {
        CoreStat::Loop { body, .. } => stats(body.as_slice(), used),
        _ => used,
    }
}

#[cycle(used)]
fn stat(source: &CoreStat, used: UsedPrimitives) -> UsedPrimitives
    ensures { result ≡ stat_used source.now used }
{
    match source {
        CoreStat::Do(value) | CoreStat::Return(value) | CoreStat::Throw(value) => expr(value, used),
        CoreStat::Yield { value, .. } => expr(value, used),
        CoreStat::If { cases: all } => cases(all.as_slice(), used),
        CoreStat::Switch {
            subject,
            cases: all,
        } => {
            let used = expr(subject, used);
            cases(all.as_slice(), used)
        }
        CoreStat::Loop { .. } => loop_body(source, loop_tests(source, used)),
        CoreStat::Labelled { body, .. } => stats(body.as_slice(), used),
        CoreStat::Scoped { body, .. } => stats(body.as_slice(), used),
        CoreStat::Jump { .. } => used,
        CoreStat::TryCatch { block, handler, .. } => {
            let used = stats(block.as_slice(), used);
            stats(handler.as_slice(), used)
        }
        CoreStat::TryFinally { block, last } => {
            let used = stats(block.as_slice(), used);
            stats(last.as_slice(), used)
        }
    }
}
