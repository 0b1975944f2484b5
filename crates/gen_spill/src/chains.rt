//! Strict links behind an expression so far.

ghost use Rattle.std.specs.Prelude.{◌≡◌, [], ◌∷◌, ◌++◌, Some, IfOk, OnOk};
ghost use Rattle.core_ast.specs.Made.{linked};
ghost use Rattle.core_ast.specs.declared.parts.CoreOp.TheVariants as op;
ghost use Rattle.core_ast.specs.declared.tree.CoreLink.TheVariants as link;
ghost use Rattle.pass_rules.specs.yield_rules.Yields.{behind_slot, behind_statements, behind_value, called, called_function, called_host, called_method, changed, finished, going_on, indexed, kept, member, method_call, method_kept, old_kept, plain, put, reference_kept, refers, rest, room, strict, then_part, updated};

use crate::build::{going_on, in_slot, is_bare_host, keep, push_effects};
use crate::delegation::{delegated, yielded};
use crate::places::deeper;
use crate::references::{fix, referring, target, whole};
use core_ast::{Binary, CoreExpr, CoreLink, CoreOp, CoreStat, Key, linked, undefined};
use es_outside::Site;
use pass_rules::yield_rules::{Chain, Place, Reference, Settled, Spilled};
use sqlite_items::Items;
use std::alloc::{AllocError, Global};

/// How many slots stand before those of the parts.
#[tactic(auto, unfolding(pass_rules::specs::yield_rules::Yields::room))]
pub fn room(op: &CoreOp) -> u32
    ensures { result ≡ room op.now }
{
    match op {
        CoreOp::Call | CoreOp::Put => 2,
        CoreOp::Update(_) => 3,
        _ => 1,
    }
}

/// The expression at its end.
pub fn finished(alloc: Global, chain: Chain) -> Result<Spilled, AllocError>
    ensures { IfOk result (λ s. s ≡ finished chain) }
{
    let Chain {
        before,
        base,
        reference,
    } = chain;
    let rest = whole(alloc, base, reference)?;
    Ok(Spilled { before, rest })
}

/// A strict link, whose parts are done.
pub fn strict(
    alloc: Global,
    place: Place,
    op: &CoreOp,
    t: Settled,
    site: Option<Site>,
    chain: Chain,
) -> Result<Chain, AllocError>
    ensures { IfOk result (λ c. c ≡ strict place op.now t site chain) }
{
    let op = op.copy(alloc)?;
    if t.before.len() == 0 {
        let Settled { parts, .. } = t;
        return behind_value(alloc, place, op, parts, site, chain);
    }
    behind_statements(alloc, place, op, t, site, chain)
}

#[tactic(auto, unfolding(pass_rules::specs::yield_rules::Yields::behind_value))]
fn behind_value(
    alloc: Global,
    place: Place,
    op: CoreOp,
    parts: Items<CoreExpr>,
    site: Option<Site>,
    chain: Chain,
) -> Result<Chain, AllocError>
    ensures { IfOk result (λ c. c ≡ behind_value place op parts site chain) }
{
    match op {
        CoreOp::Yield => yielded(alloc, place, chain),
        CoreOp::Delegate => delegated(alloc, place, chain),
        CoreOp::Member(key) => member(alloc, key, parts, site, chain),
        CoreOp::Index => refers(alloc, chain, Reference::Keyed { keys: parts, site }),
        op => plain(alloc, op, parts, site, chain),
    }
}

fn refers(alloc: Global, chain: Chain, reference: Reference) -> Result<Chain, AllocError>
    ensures { IfOk result (λ c. c ≡ refers chain reference) }
{
    let Spilled { before, rest: base } = finished(alloc, chain)?;
    let reference = Some(reference);
    Ok(Chain {
        before,
        base,
        reference,
    })
}

fn plain(
    alloc: Global,
    op: CoreOp,
    parts: Items<CoreExpr>,
    site: Option<Site>,
    chain: Chain,
) -> Result<Chain, AllocError>
    ensures { IfOk result (λ c. c ≡ plain op parts site chain) }
{
    let Spilled { before, rest } = finished(alloc, chain)?;
    let base = linked(rest, CoreLink::Strict { op, parts, site })?;
    Ok(going_on(before, base))
}

fn member(
    alloc: Global,
    key: Key,
    parts: Items<CoreExpr>,
    site: Option<Site>,
    chain: Chain,
) -> Result<Chain, AllocError>
    ensures { IfOk result (λ c. c ≡ member key parts site chain) }
{
    if parts.len() == 0 {
        return refers(alloc, chain, Reference::Named { key, site });
    }
    plain(alloc, CoreOp::Member(key), parts, site, chain)
}

#[tactic(auto, unfolding(pass_rules::specs::yield_rules::Yields::behind_statements))]
fn behind_statements(
    alloc: Global,
    place: Place,
    op: CoreOp,
    t: Settled,
    site: Option<Site>,
    chain: Chain,
) -> Result<Chain, AllocError>
    ensures { IfOk result (λ c. c ≡ behind_statements place op t site chain) }
{
    match op {
        CoreOp::Index => indexed(alloc, place, t, site, chain),
        CoreOp::Call => called(alloc, place, t, site, chain),
        CoreOp::CallList => called_function(alloc, place, CoreOp::CallList, t, site, chain),
        CoreOp::Put => put(alloc, place, t, site, chain),
        CoreOp::Update(binary) => updated(alloc, place, binary, t, site, chain),
        CoreOp::Then => then_part(alloc, t, site, chain),
        op => behind_slot(alloc, place, op, t, site, chain),
    }
}

/// The current value goes into the slot, and the statements follow.
fn kept_before(
    alloc: Global,
    place: Place,
    more: Items<CoreStat>,
    chain: Chain,
) -> Result<Items<CoreStat>, AllocError>
    ensures { IfOk result (λ xs. xs ≡ chain.before ++ kept place (rest chain) ∷ [] ++ more) }
{
    let Spilled { mut before, rest } = finished(alloc, chain)?;
    keep(alloc, place, rest, &mut before)?;
    before.append(more)?;
    Ok(before)
}

fn behind_slot(
    alloc: Global,
    place: Place,
    op: CoreOp,
    t: Settled,
    site: Option<Site>,
    chain: Chain,
) -> Result<Chain, AllocError>
    ensures { IfOk result (λ c. c ≡ behind_slot place op t site chain) }
{
    let Settled { before, parts } = t;
    let before = kept_before(alloc, place, before, chain)?;
    let base = linked(in_slot(alloc, place), CoreLink::Strict { op, parts, site })?;
    Ok(going_on(before, base))
}

fn indexed(
    alloc: Global,
    place: Place,
    t: Settled,
    site: Option<Site>,
    chain: Chain,
) -> Result<Chain, AllocError>
    ensures { IfOk result (λ c. c ≡ indexed place t site chain) }
{
    let Settled { before, parts } = t;
    let before = kept_before(alloc, place, before, chain)?;
    Ok(Chain {
        before,
        base: in_slot(alloc, place),
        reference: Some(Reference::Keyed { keys: parts, site }),
    })
}

fn then_part(
    alloc: Global,
    t: Settled,
    site: Option<Site>,
    chain: Chain,
) -> Result<Chain, AllocError>
    ensures { IfOk result (λ c. c ≡ then_part t site chain) }
{
    let Settled {
        before: more,
        parts,
    } = t;
    let Spilled { mut before, rest } = finished(alloc, chain)?;
    push_effects(rest, &mut before)?;
    before.append(more)?;
    let op = CoreOp::Then;
    let base = linked(undefined(alloc), CoreLink::Strict { op, parts, site })?;
    Ok(going_on(before, base))
}

fn called_host(
    op: CoreOp,
    t: Settled,
    site: Option<Site>,
    chain: Chain,
) -> Result<Chain, AllocError>
    ensures { IfOk result (λ c. c ≡ called_host op t site chain) }
{
    let Settled {
        before: more,
        parts,
    } = t;
    let Chain {
        mut before,
        base,
        ..
    } = chain;
    before.append(more)?;
    let base = linked(base, CoreLink::Strict { op, parts, site })?;
    Ok(going_on(before, base))
}

fn called_function(
    alloc: Global,
    place: Place,
    op: CoreOp,
    t: Settled,
    site: Option<Site>,
    chain: Chain,
) -> Result<Chain, AllocError>
    ensures { IfOk result (λ c. c ≡ called_function place op t site chain) }
{
    if is_bare_host(&chain.base) {
        return called_host(op, t, site, chain);
    }
    behind_slot(alloc, place, op, t, site, chain)
}

fn called(
    alloc: Global,
    place: Place,
    t: Settled,
    site: Option<Site>,
    chain: Chain,
) -> Result<Chain, AllocError>
    ensures { IfOk result (λ c. c ≡ called place t site chain chain.reference) }
{
    let Chain {
        before,
        base,
        reference,
    } = chain;
    match reference {
        Some(reference) => called_method(alloc, place, t, site, before, base, reference),
        None => called_function(alloc, place, CoreOp::Call, t, site, going_on(before, base)),
    }
}

/// The method of an object in a slot goes into the next one.
fn keep_method(
    alloc: Global,
    place: Place,
    base: CoreExpr,
    reference: Reference,
    out: &mut Items<CoreStat>,
) -> Result<(), AllocError>
    ensures { OnOk result (out.new ≡ method_kept place base reference out.old) }
{
    keep(alloc, place, base, out)?;
    let method = linked(in_slot(alloc, place), referring(alloc, reference))?;
    let next = deeper(place, 1)?;
    keep(alloc, next, method, out)
}

fn method_call(
    alloc: Global,
    place: Place,
    more: Items<CoreExpr>,
    site: Option<Site>,
) -> Result<CoreExpr, AllocError>
    ensures { IfOk result (λ x. x ≡ method_call place more site) }
{
    let mut parts = Items::new(alloc);
    parts.push(in_slot(alloc, place))?;
    parts.append(more)?;
    let next = deeper(place, 1)?;
    let op = CoreOp::CallWith;
    linked(in_slot(alloc, next), CoreLink::Strict { op, parts, site })
}

fn called_method(
    alloc: Global,
    place: Place,
    t: Settled,
    site: Option<Site>,
    before: Items<CoreStat>,
    base: CoreExpr,
    reference: Reference,
) -> Result<Chain, AllocError>
    ensures { IfOk result (λ c. c ≡ called_method place t site before base reference) }
{
    let Settled {
        before: more,
        parts,
    } = t;
    let mut before = before;
    keep_method(alloc, place, base, reference, &mut before)?;
    before.append(more)?;
    let base = method_call(alloc, place, parts, site)?;
    Ok(going_on(before, base))
}

fn put(
    alloc: Global,
    place: Place,
    t: Settled,
    site: Option<Site>,
    chain: Chain,
) -> Result<Chain, AllocError>
    ensures { IfOk result (λ c. c ≡ put place t site chain chain.reference) }
{
    let Chain {
        before,
        base,
        reference,
    } = chain;
    match reference {
        Some(reference) => put_kept(alloc, place, t, site, before, base, reference),
        None => behind_slot(alloc, place, CoreOp::Put, t, site, going_on(before, base)),
    }
}

/// The base and the converted key go into slots.
fn keep_reference(
    alloc: Global,
    place: Place,
    base: CoreExpr,
    reference: Reference,
    out: &mut Items<CoreStat>,
) -> Result<(), AllocError>
    ensures { OnOk result (out.new ≡ reference_kept place base reference out.old) }
{
    keep(alloc, place, base, out)?;
    fix(alloc, place, reference, out)
}

fn put_kept(
    alloc: Global,
    place: Place,
    t: Settled,
    site: Option<Site>,
    before: Items<CoreStat>,
    base: CoreExpr,
    reference: Reference,
) -> Result<Chain, AllocError>
    ensures { IfOk result (λ c. c ≡ put place t site (going_on before base) (Some reference)) }
{
    let Settled {
        before: more,
        parts,
    } = t;
    let made = target(alloc, place, &reference)?;
    let mut before = before;
    keep_reference(alloc, place, base, reference, &mut before)?;
    before.append(more)?;
    let op = CoreOp::Put;
    let base = linked(made, CoreLink::Strict { op, parts, site })?;
    Ok(going_on(before, base))
}

fn updated(
    alloc: Global,
    place: Place,
    binary: Binary,
    t: Settled,
    site: Option<Site>,
    chain: Chain,
) -> Result<Chain, AllocError>
    ensures { IfOk result (λ c. c ≡ updated place binary t site chain chain.reference) }
{
    let Chain {
        before,
        base,
        reference,
    } = chain;
    match reference {
        Some(reference) => update_kept(alloc, place, binary, t, site, before, base, reference),
        None => {
            let chain = going_on(before, base);
            behind_slot(alloc, place, CoreOp::Update(binary), t, site, chain)
        }
    }
}

/// The old value goes into a slot behind the reference's.
fn keep_old(
    alloc: Global,
    place: Place,
    base: CoreExpr,
    reference: Reference,
    out: &mut Items<CoreStat>,
) -> Result<(), AllocError>
    ensures { OnOk result (out.new ≡ old_kept place base reference out.old) }
{
    let old = target(alloc, place, &reference)?;
    keep_reference(alloc, place, base, reference, out)?;
    let third = deeper(place, 2)?;
    keep(alloc, third, old, out)
}

/// The old value with the operator and the parts.
fn changed(
    alloc: Global,
    place: Place,
    binary: Binary,
    parts: Items<CoreExpr>,
) -> Result<CoreExpr, AllocError>
    ensures { IfOk result (λ x. x ≡ changed place binary parts) }
{
    let third = deeper(place, 2)?;
    let op = CoreOp::Operator(binary);
    let site = None;
    linked(in_slot(alloc, third), CoreLink::Strict { op, parts, site })
}

/// The value is written to the reference.
fn write(
    alloc: Global,
    made: CoreExpr,
    value: CoreExpr,
    site: Option<Site>,
) -> Result<CoreExpr, AllocError>
    ensures { IfOk result (λ x. x ≡ linked made (link.Strict op.Put (value ∷ []) site)) }
{
    let mut parts = Items::new(alloc);
    parts.push(value)?;
    let op = CoreOp::Put;
    linked(made, CoreLink::Strict { op, parts, site })
}

fn update_kept(
    alloc: Global,
    place: Place,
    binary: Binary,
    t: Settled,
    site: Option<Site>,
    before: Items<CoreStat>,
    base: CoreExpr,
    reference: Reference,
) -> Result<Chain, AllocError>
    ensures { IfOk result (λ c. c ≡ updated place binary t site (going_on before base) (Some reference)) }
{
    let Settled {
        before: more,
        parts,
    } = t;
    let made = target(alloc, place, &reference)?;
    let mut before = before;
    keep_old(alloc, place, base, reference, &mut before)?;
    before.append(more)?;
    let value = changed(alloc, place, binary, parts)?;
    let base = write(alloc, made, value, site)?;
    Ok(going_on(before, base))
}
