//! The walk over the statements of a body.

ghost use Rattle.std.specs.Prelude.{◌≡◌, ◌+◌, [], cond, length, map, option_map, IfOk, OnOk};
ghost use Rattle.core_ast.specs.declared.tree.CoreStat.TheVariants as stat;
ghost use Rattle.pass_rules.specs.state_rules.States.{add, add_all, add_case, add_cases, begins, branch, dispatched, dispatching, ends, expr_whole, finished, guarded, handled, headed, kept_region, pair, part, says, turned, under, unwinds, within, yielded};

use core_ast::{CoreCase, CoreExpr, CoreStat, Label, Var};
use gen_copies::{copied_expr, copied_stat, stays_alone};
use gen_machine::{
    begins, close_handler, close_last, dispatching, goes_on, goes_then, headed, jumped, loop_place,
    next, open_finally, open_handler, open_label, open_last, open_region, push_case, returned,
    says, sum, turned, yielded,
};
use pass_rules::state_rules::{Completion, Machine, Place};
use sqlite_items::Items;
use std::alloc::{AllocError, Global};

/// A statement that stays as it is, if it does.
fn kept(alloc: Global, source: &CoreStat, machine: &mut Machine) -> Result<bool, AllocError>
    ensures stays { IfOk result (λ b. b ≡ (part source.now).stays []) }
    ensures machine { OnOk result (machine.new ≡ cond ((part source.now).stays []) (says (part source.now).whole machine.old) machine.old) }
{
    if !stays_alone(alloc, source)? {
        return Ok(false);
    }
    let stat = copied_stat(alloc, source)?;
    says(stat, machine)?;
    Ok(true)
}

fn done(alloc: Global, source: &CoreExpr, machine: &mut Machine) -> Result<(), AllocError>
    ensures { OnOk result (machine.new ≡ says (stat.Do (expr_whole source.now)) machine.old) }
{
    let value = copied_expr(alloc, source)?;
    says(CoreStat::Do(value), machine)
}

fn thrown(alloc: Global, source: &CoreExpr, machine: &mut Machine) -> Result<(), AllocError>
    ensures { OnOk result (machine.new ≡ says (stat.Throw (expr_whole source.now)) machine.old) }
{
    let value = copied_expr(alloc, source)?;
    says(CoreStat::Throw(value), machine)
}

fn returns(
    alloc: Global,
    place: &Place,
    source: &CoreExpr,
    machine: &mut Machine,
) -> Result<(), AllocError>
    ensures { OnOk result (machine.new ≡ ends (unwinds place.now 2 (expr_whole source.now)) machine.old) }
{
    let value = copied_expr(alloc, source)?;
    returned(alloc, place, value, machine)
}

fn yields(
    alloc: Global,
    place: &Place,
    source: &CoreExpr,
    kind: Option<Var>,
    result_var: Var,
    machine: &mut Machine,
) -> Result<(), AllocError>
    ensures { OnOk result (machine.new ≡ yielded place.now (expr_whole source.now) kind result_var machine.old) }
{
    let value = copied_expr(alloc, source)?;
    yielded(alloc, place, value, kind, result_var, machine)
}

fn maybe(alloc: Global, source: &Option<CoreExpr>) -> Result<Option<CoreExpr>, AllocError>
    ensures { IfOk result (λ x. x ≡ option_map expr_whole source.now) }
{
    match source {
        Some(source) => Ok(Some(copied_expr(alloc, source)?)),
        None => Ok(None),
    }
}

/// The state of a loop's update, and the one behind the loop.
fn close_loop(
    alloc: Global,
    place: &Place,
    update: &Option<CoreExpr>,
    head: u32,
    machine: &mut Machine,
) -> Result<(), AllocError>
    ensures { OnOk result (machine.new ≡ turned place.now (option_map expr_whole update.now) head machine.old) }
{
    let update = maybe(alloc, update)?;
    turned(alloc, place, update, head, machine)
}

/// The cases, each of which goes on with a state of its own.
fn dispatched(
    alloc: Global,
    place: &Place,
    first: u32,
    source: &[CoreCase],
) -> Result<Items<CoreCase>, AllocError>
    ensures { IfOk result (λ cs. cs ≡ dispatched place.now first (map branch source.now)) }
{
    let mut made = Items::new(alloc);
    let mut state = first;
    for one in source {
        push_case(alloc, place, state, maybe(alloc, &one.test)?, &mut made)?;
        state = next(state)?;
    }
    Ok(made)
}

#[tactic(auto, using(crate::proofs::Lists::cases_counted))]
fn count(source: &[CoreCase]) -> Result<u32, AllocError>
    ensures { IfOk result (λ n. n ≡ length (map branch source.now)) }
{
    match u32::try_from(source.len()) {
        Ok(count) => Ok(count),
        Err(_) => Err(AllocError),
    }
}

/// A choice between cases that are at hand, and the number of the state behind them.
fn open_choice(
    alloc: Global,
    place: &Place,
    source: &[CoreCase],
    choice: CoreStat,
    machine: &mut Machine,
) -> Result<u32, AllocError>
    ensures after { IfOk result (λ n. n ≡ machine.old.next + length (map branch source.now)) }
    ensures machine { OnOk result (machine.new ≡ dispatching place.now choice (length (map branch source.now)) (machine.old.next + length (map branch source.now)) machine.old) }
{
    let count = count(source)?;
    let after = sum(machine.next, count)?;
    dispatching(alloc, place, choice, count, after, machine)?;
    Ok(after)
}

/// The `if` goes on with the first case whose test holds.
fn open_if(
    alloc: Global,
    place: &Place,
    source: &[CoreCase],
    machine: &mut Machine,
) -> Result<u32, AllocError>
    ensures after { IfOk result (λ n. n ≡ machine.old.next + length (map branch source.now)) }
    ensures machine { OnOk result (machine.new ≡ dispatching place.now (stat.If (dispatched place.now machine.old.next (map branch source.now))) (length (map branch source.now)) (machine.old.next + length (map branch source.now)) machine.old) }
{
    let cases = dispatched(alloc, place, machine.next, source)?;
    open_choice(alloc, place, source, CoreStat::If { cases }, machine)
}

/// The `switch` goes on with the case that is meant.
fn open_switch(
    alloc: Global,
    place: &Place,
    subject: &CoreExpr,
    source: &[CoreCase],
    machine: &mut Machine,
) -> Result<u32, AllocError>
    ensures after { IfOk result (λ n. n ≡ machine.old.next + length (map branch source.now)) }
    ensures machine { OnOk result (machine.new ≡ dispatching place.now (stat.Switch (expr_whole subject.now) (dispatched place.now machine.old.next (map branch source.now))) (length (map branch source.now)) (machine.old.next + length (map branch source.now)) machine.old) }
{
    let subject = copied_expr(alloc, subject)?;
    let cases = dispatched(alloc, place, machine.next, source)?;
    open_choice(
        alloc,
        place,
        source,
        CoreStat::Switch { subject, cases },
        machine,
    )
}

/// The state that a case goes on with.
fn behind(falls: bool, following: u32, after: u32) -> u32
    ensures { result ≡ cond falls following after }
{
    if falls {
        return following;
    }
    after
}

#[cycle(walk)]
pub(crate) fn stats(
    alloc: Global,
    place: &Place,
    source: &[CoreStat],
    machine: &mut Machine,
) -> Result<(), AllocError>
    ensures { OnOk result (machine.new ≡ add_all place.now (map part source.now) machine.old) }
{
    for one in source {
        stat(alloc, place, one, machine)?;
    }
    Ok(())
}

#[cycle(walk)]
fn stat(
    alloc: Global,
    place: &Place,
    source: &CoreStat,
    machine: &mut Machine,
) -> Result<(), AllocError>
    ensures { OnOk result (machine.new ≡ add place.now (part source.now) machine.old) }
{
    if kept(alloc, source, machine)? {
        return Ok(());
    }
    turned_out(alloc, place, source, machine)
}

#[cycle(walk)]
fn case(
    alloc: Global,
    place: &Place,
    source: &CoreCase,
    state: u32,
    behind: u32,
    machine: &mut Machine,
) -> Result<(), AllocError>
    ensures { OnOk result (machine.new ≡ add_case place.now state behind (branch source.now) machine.old) }
{
    begins(alloc, state, machine)?;
    stats(alloc, place, source.body.as_slice(), machine)?;
    goes_on(alloc, place, behind, machine)
}

/// The states of cases, and the one behind them.
#[cycle(walk)]
fn cases(
    alloc: Global,
    place: &Place,
    source: &[CoreCase],
    falls: bool,
    first: u32,
    after: u32,
    machine: &mut Machine,
) -> Result<(), AllocError>
    ensures { OnOk result (machine.new ≡ begins after (add_cases place.now falls after first (map branch source.now) machine.old)) }
{
    let mut state = first;
    for one in source {
        let following = next(state)?;
        case(
            alloc,
            place,
            one,
            state,
            behind(falls, following, after),
            machine,
        )?;
        state = following;
    }
    begins(alloc, after, machine)
}

#[cycle(walk)]
fn handled(
    alloc: Global,
    place: &Place,
    source: &[CoreStat],
    handler: u32,
    machine: &mut Machine,
) -> Result<(), AllocError>
    ensures { OnOk result (machine.new ≡ handled place.now (map part source.now) handler machine.old) }
{
    open_handler(alloc, place, handler, machine)?;
    stats(alloc, place, source, machine)?;
    close_handler(alloc, place, handler, machine)
}

#[cycle(walk)]
fn finished(
    alloc: Global,
    place: &Place,
    source: &[CoreStat],
    kept: Completion,
    last: u32,
    machine: &mut Machine,
) -> Result<(), AllocError>
    ensures { OnOk result (machine.new ≡ finished place.now kept (map part source.now) last machine.old) }
{
    open_last(alloc, place, kept, last, machine)?;
    stats(alloc, place, source, machine)?;
    close_last(alloc, place, kept, last, machine)
}

/// The body of a loop, behind its test.
#[cycle(walk)]
fn looped(
    alloc: Global,
    place: &Place,
    source: &[CoreStat],
    labels: &[Label],
    test: Option<CoreExpr>,
    machine: &mut Machine,
) -> Result<(), AllocError>
    ensures { OnOk result (machine.new ≡ add_all (under place.now (machine.old.next + 2) (machine.old.next + 1) labels.now) (map part source.now) (headed place.now test machine.old.next machine.old)) }
{
    let head = machine.next;
    let inner = loop_place(alloc, place, head, labels)?;
    headed(alloc, place, test, head, machine)?;
    stats(alloc, &inner, source, machine)
}

/// The block of a handler.
#[cycle(walk)]
fn guarded(
    alloc: Global,
    place: &Place,
    source: &[CoreStat],
    parameter: Var,
    machine: &mut Machine,
) -> Result<(), AllocError>
    ensures { OnOk result (machine.new ≡ add_all (within place.now machine.old.regions place.now.finals) (map part source.now) (guarded place.now parameter machine.old)) }
{
    let inner = open_region(alloc, place, parameter, machine)?;
    stats(alloc, &inner, source, machine)
}

/// The block of a finally, and the names that keep its completion.
#[cycle(walk)]
fn ensured(
    alloc: Global,
    place: &Place,
    source: &[CoreStat],
    machine: &mut Machine,
) -> Result<Completion, AllocError>
    ensures kept { IfOk result (λ c. c ≡ pair machine.old.fresh) }
    ensures machine { OnOk result (machine.new ≡ add_all (within place.now machine.old.regions (place.now.finals + 1)) (map part source.now) (kept_region place.now (pair machine.old.fresh) machine.old)) }
{
    let (inner, kept) = open_finally(alloc, place, machine)?;
    stats(alloc, &inner, source, machine)?;
    Ok(kept)
}

/// A loop whose test is at hand.
#[cycle(walk)]
fn repeats(
    alloc: Global,
    place: &Place,
    source: &[CoreStat],
    labels: &[Label],
    test: Option<CoreExpr>,
    update: &Option<CoreExpr>,
    machine: &mut Machine,
) -> Result<(), AllocError>
    ensures { OnOk result (machine.new ≡ turned place.now (option_map expr_whole update.now) machine.old.next (add_all (under place.now (machine.old.next + 2) (machine.old.next + 1) labels.now) (map part source.now) (headed place.now test machine.old.next machine.old))) }
{
    let head = machine.next;
    looped(alloc, place, source, labels, test, machine)?;
    close_loop(alloc, place, update, head, machine)
}

/// A statement that doesn't stay as it is.
#[cycle(walk)]
fn turned_out(
    alloc: Global,
    place: &Place,
    source: &CoreStat,
    machine: &mut Machine,
) -> Result<(), AllocError>
    ensures { OnOk result (machine.new ≡ (part source.now).adds place.now machine.old) }
{
    match source {
        CoreStat::Do(value) => done(alloc, value, machine),
        CoreStat::If { cases: all } => {
            let first = machine.next;
            let after = open_if(alloc, place, all.as_slice(), machine)?;
            cases(alloc, place, all.as_slice(), false, first, after, machine)
        }
        CoreStat::Switch {
            subject,
            cases: all,
        } => {
            let first = machine.next;
            let after = open_switch(alloc, place, subject, all.as_slice(), machine)?;
            cases(alloc, place, all.as_slice(), true, first, after, machine)
        }
        CoreStat::Loop {
            labels,
            test,
            update,
            body,
        } => {
            let test = maybe(alloc, test)?;
            repeats(
                alloc,
                place,
                body.as_slice(),
                labels.as_slice(),
                test,
                update,
                machine,
            )
        }
        CoreStat::Labelled { label, body } => {
            let state = machine.next;
            let inner = open_label(alloc, place, *label, machine)?;
            stats(alloc, &inner, body.as_slice(), machine)?;
            goes_then(alloc, place, state, state, machine)
        }
        CoreStat::Jump { goes_on, label } => jumped(alloc, place, *goes_on, *label, machine),
        CoreStat::Return(value) => returns(alloc, place, value, machine),
        CoreStat::Throw(value) => thrown(alloc, value, machine),
        CoreStat::TryCatch {
            block,
            parameter,
            handler,
            ..
        } => {
            let state = machine.next;
            guarded(alloc, place, block.as_slice(), *parameter, machine)?;
            handled(alloc, place, handler.as_slice(), state, machine)
        }
        CoreStat::TryFinally { block, last } => {
            let state = machine.next;
            let kept = ensured(alloc, place, block.as_slice(), machine)?;
            finished(alloc, place, last.as_slice(), kept, state, machine)
        }
        CoreStat::Scoped { body, .. } => stats(alloc, place, body.as_slice(), machine),
        CoreStat::Yield {
            value,
            kind,
            result,
        } => yields(alloc, place, value, *kind, *result, machine),
    }
}
