//! The walk: one cycle over the four types.

ghost use Rattle.std.specs.Prelude.{◌≡◌, ◌++◌, map, IfOk, OnOk};
ghost use Rattle.core_ast.specs.declared.tree.CoreStat.TheVariants as stat;
ghost use Rattle.pass_rules.specs.yield_rules.Yields.{all_at, begun, case_spilled, cases_at, deeper, expr_spilled, link_spilled, loop_place, looped, parts_settled, rest, stat_spilled, stats_spilled, two_branches, under, with_effects};

use core_ast::{
    CoreCase, CoreExpr, CoreHead, CoreLink, CoreOp, CoreStat, Label, ScopedName, Var, When,
    undefined,
};
use es_outside::Site;
use gen_spill::{
    cased, deeper, finished, going_on, loop_place, one_branch, push_effects, push_if, push_loop,
    push_switch, room, settled, strict, two_branches, under,
};
use pass_rules::yield_rules::{Chain, Place, Settled, Spilled, SpilledCase};
use sqlite_items::Items;
use std::alloc::{AllocError, Global};

/// Where the statements stand, the value is said.
fn say(spilled: Spilled, out: &mut Items<CoreStat>) -> Result<CoreExpr, AllocError>
    ensures value { IfOk result (λ x. x ≡ spilled.rest) }
    ensures before { OnOk result (out.new ≡ out.old ++ spilled.before) }
{
    let Spilled { before, rest } = spilled;
    out.append(before)?;
    Ok(rest)
}

/// A head alone, with the site of its expression, and room for so many links.
fn begun(
    alloc: Global,
    site: Option<Site>,
    head: &CoreHead,
    room: usize,
) -> Result<Chain, AllocError>
    ensures { IfOk result (λ c. c ≡ begun site head.now) }
{
    let base = CoreExpr {
        site,
        head: head.copy(alloc)?,
        links: Items::from_vec(Vec::with_capacity(alloc, room)?),
    };
    Ok(going_on(Items::new(alloc), base))
}

/// The statements before a `Run`: what was so far is evaluated first.
fn run(alloc: Global, chain: Chain) -> Result<Items<CoreStat>, AllocError>
    ensures { IfOk result (λ xs. xs ≡ with_effects (rest chain) chain.before) }
{
    let Spilled { mut before, rest } = finished(alloc, chain)?;
    push_effects(rest, &mut before)?;
    Ok(before)
}

#[cycle(walk)]
fn expr(alloc: Global, place: Place, source: &CoreExpr) -> Result<Spilled, AllocError>
    ensures { IfOk result (λ s. s ≡ expr_spilled source.now place) }
{
    let begin = begun(alloc, source.site, &source.head, source.links.len())?;
    let chain = links(alloc, place, source.links.as_slice(), begin)?;
    finished(alloc, chain)
}

#[cycle(walk)]
fn links(
    alloc: Global,
    place: Place,
    source: &[CoreLink],
    begin: Chain,
) -> Result<Chain, AllocError>
    ensures { IfOk result (λ c. c ≡ all_at (map link_spilled source.now) place begin) }
{
    let mut made = begin;
    for one in source {
        made = link(alloc, place, one, made)?;
    }
    Ok(made)
}

#[cycle(walk)]
fn link(alloc: Global, place: Place, source: &CoreLink, chain: Chain) -> Result<Chain, AllocError>
    ensures { IfOk result (λ c. c ≡ link_spilled source.now place chain) }
{
    match source {
        CoreLink::Strict { op, parts, site } => {
            let t = exprs(alloc, place, parts.as_slice(), op)?;
            strict(alloc, place, op, t, *site, chain)
        }
        CoreLink::Lazy { when, yes, no } => {
            let inner = deeper(place, 1)?;
            let yes = expr(alloc, inner, yes.get())?;
            match no {
                Some(no) => choice(alloc, place, no.get(), *when, yes, chain),
                None => one_branch(alloc, place, *when, yes, chain),
            }
        }
        CoreLink::Run { body } => {
            let mut before = run(alloc, chain)?;
            stats(alloc, place, body.as_slice(), &mut before)?;
            Ok(going_on(before, undefined(alloc)))
        }
    }
}

#[cycle(walk)]
fn choice(
    alloc: Global,
    place: Place,
    source: &CoreExpr,
    when: When,
    yes: Spilled,
    chain: Chain,
) -> Result<Chain, AllocError>
    ensures { IfOk result (λ c. c ≡ two_branches place when yes (expr_spilled source.now (deeper 1 place)) chain) }
{
    let inner = deeper(place, 1)?;
    let no = expr(alloc, inner, source)?;
    two_branches(alloc, place, when, yes, no, chain)
}

/// The parts of an operation.
#[cycle(walk)]
fn exprs(
    alloc: Global,
    place: Place,
    source: &[CoreExpr],
    op: &CoreOp,
) -> Result<Settled, AllocError>
    ensures { IfOk result (λ t. t ≡ parts_settled place op.now (map expr_spilled source.now)) }
{
    let begin = deeper(place, room(op))?;
    let mut made = Vec::with_capacity(alloc, source.len())?;
    let mut at = begin;
    for one in source {
        made.push(expr(alloc, at, one)?)?;
        at = deeper(at, 1)?;
    }
    settled(alloc, begin, made)
}

#[cycle(walk)]
fn case(
    alloc: Global,
    test_place: Place,
    source: &CoreCase,
    place: Place,
) -> Result<SpilledCase, AllocError>
    ensures { IfOk result (λ c. c ≡ case_spilled source.now test_place place) }
{
    let test = match &source.test {
        Some(test) => Some(expr(alloc, test_place, test)?),
        None => None,
    };
    let body = block(alloc, place, source.body.as_slice())?;
    Ok(cased(alloc, test, body))
}

#[cycle(walk)]
fn cases(
    alloc: Global,
    test_place: Place,
    source: &[CoreCase],
    place: Place,
) -> Result<Vec<SpilledCase>, AllocError>
    ensures { IfOk result (λ cs. cs.items ≡ cases_at (map case_spilled source.now) test_place place) }
{
    let mut made = Vec::with_capacity(alloc, source.len())?;
    for one in source {
        made.push(case(alloc, test_place, one, place)?)?;
    }
    Ok(made)
}

/// Statements without yields in expressions.
#[cycle(walk)]
pub(crate) fn block(
    alloc: Global,
    place: Place,
    source: &[CoreStat],
) -> Result<Items<CoreStat>, AllocError>
    ensures { IfOk result (λ xs. xs ≡ stats_spilled source.now place) }
{
    let mut made = Items::from_vec(Vec::with_capacity(alloc, source.len())?);
    stats(alloc, place, source, &mut made)?;
    Ok(made)
}

#[cycle(walk)]
fn stats(
    alloc: Global,
    place: Place,
    source: &[CoreStat],
    out: &mut Items<CoreStat>,
) -> Result<(), AllocError>
    ensures { OnOk result (out.new ≡ all_at (map stat_spilled source.now) place out.old) }
{
    for one in source {
        stat(alloc, place, one, out)?;
    }
    Ok(())
}

/// An expression, before which its statements go out.
#[cycle(walk)]
fn value(
    alloc: Global,
    place: Place,
    source: &CoreExpr,
    out: &mut Items<CoreStat>,
) -> Result<CoreExpr, AllocError>
    ensures rest { IfOk result (λ x. x ≡ (expr_spilled source.now place).rest) }
    ensures before { OnOk result (out.new ≡ out.old ++ (expr_spilled source.now place).before) }
{
    let spilled = expr(alloc, place, source)?;
    say(spilled, out)
}

#[cycle(walk)]
fn looped(
    alloc: Global,
    place: Place,
    source: &[CoreStat],
    labels: &[Label],
    test: Option<Spilled>,
    update: Option<Spilled>,
    out: &mut Items<CoreStat>,
) -> Result<(), AllocError>
    ensures { OnOk result (out.new ≡ looped place labels.now test update (stats_spilled source.now (loop_place place update)) out.old) }
{
    let inner = loop_place(place, &update)?;
    let body = block(alloc, inner, source)?;
    push_loop(alloc, place, labels, test, update, body, out)
}

#[cycle(walk)]
fn handled(
    alloc: Global,
    place: Place,
    source: &[CoreStat],
    parameter: Var,
    names: &[ScopedName],
    block: Items<CoreStat>,
) -> Result<CoreStat, AllocError>
    ensures { IfOk result (λ x. x ≡ stat.TryCatch block parameter names.now (stats_spilled source.now place)) }
{
    let handler = crate::walk::block(alloc, place, source)?;
    let names = Items::from_slice(alloc, names)?;
    Ok(CoreStat::TryCatch {
        block,
        parameter,
        names,
        handler,
    })
}

#[cycle(walk)]
fn finally(
    alloc: Global,
    place: Place,
    source: &[CoreStat],
    block: Items<CoreStat>,
) -> Result<CoreStat, AllocError>
    ensures { IfOk result (λ x. x ≡ stat.TryFinally block (stats_spilled source.now place)) }
{
    let last = crate::walk::block(alloc, place, source)?;
    Ok(CoreStat::TryFinally { block, last })
}

#[cycle(walk)]
fn scoped(
    alloc: Global,
    place: Place,
    source: &[CoreStat],
    names: &[ScopedName],
) -> Result<CoreStat, AllocError>
    ensures { IfOk result (λ x. x ≡ stat.Scoped names.now (stats_spilled source.now place)) }
{
    let body = block(alloc, place, source)?;
    let names = Items::from_slice(alloc, names)?;
    Ok(CoreStat::Scoped { names, body })
}

/// The places of the tests and of the bodies of a switch.
fn switch_places(place: Place) -> Result<(Place, Place), AllocError>
    ensures { IfOk result (λ p. (p.0 ≡ deeper 2 (under place)) × (p.1 ≡ under place)) }
{
    let inner = under(place)?;
    Ok((deeper(inner, 2)?, inner))
}

/// The place of a loop's update.
fn update_place(place: Place) -> Result<Place, AllocError>
    ensures { IfOk result (λ p. p ≡ deeper 1 (under place)) }
{
    deeper(under(place)?, 1)
}

#[cycle(walk)]
fn stat(
    alloc: Global,
    place: Place,
    source: &CoreStat,
    out: &mut Items<CoreStat>,
) -> Result<(), AllocError>
    ensures { OnOk result (out.new ≡ stat_spilled source.now place out.old) }
{
    match source {
        CoreStat::Do(source) => {
            let value = value(alloc, place, source, out)?;
            out.push(CoreStat::Do(value))
        }
        CoreStat::If { cases: all } => {
            let inner = under(place)?;
            let cases = cases(alloc, inner, all.as_slice(), inner)?;
            push_if(alloc, place, cases, out)
        }
        CoreStat::Switch {
            subject,
            cases: all,
        } => {
            let subject = expr(alloc, place, subject)?;
            let (tests, bodies) = switch_places(place)?;
            let cases = cases(alloc, tests, all.as_slice(), bodies)?;
            push_switch(alloc, place, subject, cases, out)
        }
        CoreStat::Loop {
            labels,
            test,
            update,
            body,
        } => {
            let last = update_place(place)?;
            let update = match update {
                Some(update) => Some(expr(alloc, last, update)?),
                None => None,
            };
            let inner = loop_place(place, &update)?;
            let test = match test {
                Some(test) => Some(expr(alloc, inner, test)?),
                None => None,
            };
            let labels = labels.as_slice();
            looped(alloc, place, body.as_slice(), labels, test, update, out)
        }
        CoreStat::Labelled { label, body } => {
            let body = block(alloc, place, body.as_slice())?;
            out.push(CoreStat::Labelled {
                label: *label,
                body,
            })
        }
        CoreStat::Jump { goes_on, label } => out.push(CoreStat::Jump {
            goes_on: *goes_on,
            label: *label,
        }),
        CoreStat::Return(source) => {
            let value = value(alloc, place, source, out)?;
            out.push(CoreStat::Return(value))
        }
        CoreStat::Throw(source) => {
            let value = value(alloc, place, source, out)?;
            out.push(CoreStat::Throw(value))
        }
        CoreStat::TryCatch {
            block: source,
            parameter,
            names,
            handler,
        } => {
            let block = block(alloc, place, source.as_slice())?;
            let names = names.as_slice();
            out.push(handled(alloc, place, handler.as_slice(), *parameter, names, block)?)
        }
        CoreStat::TryFinally {
            block: source,
            last,
        } => {
            let block = block(alloc, place, source.as_slice())?;
            out.push(finally(alloc, place, last.as_slice(), block)?)
        }
        CoreStat::Scoped { names, body } => {
            out.push(scoped(alloc, place, body.as_slice(), names.as_slice())?)
        }
        CoreStat::Yield {
            value: source,
            kind,
            result,
        } => {
            let value = value(alloc, place, source, out)?;
            out.push(CoreStat::Yield {
                value,
                kind: *kind,
                result: *result,
            })
        }
    }
}
