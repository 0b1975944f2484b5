//! Properties and patterns that are assigned, and properties that are updated (ECMA-262, 6th edition, 12.4, 12.5 and 12.14).

ghost use Rattle.std.specs.Prelude.{◌≡◌, IfOk};
ghost use Rattle.core_ast.specs.declared.parts.CoreOp.TheVariants as op;
ghost use Rattle.lowering_rules.specs.Making.{stored, two};
ghost use Rattle.lowering_rules.specs.Patterns.{property_read};
ghost use Rattle.lowering_rules.specs.reference_rules.Drawing.{Makes};
ghost use Rattle.lowering_rules.specs.declared.reference_rules.references.MemberName.TheVariants.{Named};
ghost use Rattle.lowering_rules.specs.reference_rules.References.{as_number, is_direct, is_still, is_still_head, member, member_assigned, member_operated, member_updated, operated_in, pattern_assigned, put_at, settled_first, settled_operated, settled_updated, updated_after_at, updated_at};

use crate::members::{Settled, drawn_member, member, old_at, settle};
use crate::operators::{as_number, gives_old, one_further, operated};
use crate::properties::at_name;
use core_ast::{
    CoreExpr, CoreHead, CoreLink, CoreOp, CoreStat, Key, Update, Var, act, linked, variable,
};
use lower_parts::{stored, then, two};
use lowering_rules::reference_rules::{Compound, MemberName};
use lowering_rules::{MemberTarget, Names, PropertyName};
use sqlite_items::Items;
use std::alloc::{AllocError, Global};

#[tactic(auto, unfolding(lowering_rules::specs::reference_rules::References::is_still_head))]
fn is_still_head(head: &CoreHead) -> bool
    ensures { result ≡ is_still_head head.now }
{
    match head {
        CoreHead::Constant(_)
        | CoreHead::Variable(_)
        | CoreHead::Global(_)
        | CoreHead::This
        | CoreHead::ArrayList
        | CoreHead::ObjectList
        | CoreHead::Function(_) => true,
        CoreHead::Empty
        | CoreHead::TypeOf(_)
        | CoreHead::Host(_)
        | CoreHead::ArgumentList
        | CoreHead::Primitive(_)
        | CoreHead::Copy(_) => false,
    }
}

/// Whether it doesn't matter when the value is evaluated.
fn is_still(value: &CoreExpr) -> bool
    ensures { result ≡ is_still value.now }
{
    (value.links.len() == 0) & is_still_head(&value.head)
}

#[tactic(auto, unfolding(lowering_rules::specs::reference_rules::References::is_direct))]
fn is_direct(name: &MemberName, value: &CoreExpr) -> bool
    ensures { result ≡ is_direct name.now value.now }
{
    match name {
        MemberName::Named(_) => is_still(value),
        MemberName::Indexed(_) | MemberName::AtIterator => false,
    }
}

/// The value is written once the property is settled.
fn settled_put(alloc: Global, target: MemberTarget, value: CoreExpr) -> Result<CoreExpr, AllocError>
    ensures { IfOk result (λ x. x ≡ settled_first target (put_at target value)) }
{
    let Settled { before, at } = settle(alloc, target)?;
    let put = two(alloc, at, CoreOp::Put, value)?;
    then(alloc, before, put)
}

fn direct_put(
    alloc: Global,
    object: CoreExpr,
    name: MemberName,
    value: CoreExpr,
) -> Result<CoreExpr, AllocError>
    ensures { IfOk result (λ x. x ≡ two (member object name) op.Put value) }
{
    let at = member(alloc, object, name)?;
    two(alloc, at, CoreOp::Put, value)
}

/// `o.k = e`, `o[k] = e`
pub(crate) fn member_assigned(
    alloc: Global,
    object: CoreExpr,
    name: MemberName,
    value: CoreExpr,
    names: &mut Names,
) -> Result<CoreExpr, AllocError>
    ensures { Makes result names.new (member_assigned object name value names.old) }
{
    if is_direct(&name, &value) {
        return direct_put(alloc, object, name, value);
    }
    let target = drawn_member(object, name, names)?;
    settled_put(alloc, target, value)
}

fn settled_operated(
    alloc: Global,
    target: MemberTarget,
    by: Compound,
    value: CoreExpr,
) -> Result<CoreExpr, AllocError>
    ensures { IfOk result (λ x. x ≡ operated_in target by value) }
{
    let old = old_at(alloc, target.base, &target.name)?;
    let new = operated(alloc, old, by, value)?;
    settled_put(alloc, target, new)
}

fn drawn_operated(
    alloc: Global,
    object: CoreExpr,
    name: MemberName,
    by: Compound,
    value: CoreExpr,
    names: &mut Names,
) -> Result<CoreExpr, AllocError>
    ensures { Makes result names.new (settled_operated object name by value names.old) }
{
    let target = drawn_member(object, name, names)?;
    settled_operated(alloc, target, by, value)
}

#[tactic(auto, unfolding(lowering_rules::specs::reference_rules::References::member_operated))]
fn named_operated(
    alloc: Global,
    object: CoreExpr,
    key: Key,
    by: Compound,
    value: CoreExpr,
    names: &mut Names,
) -> Result<CoreExpr, AllocError>
    ensures { Makes result names.new (member_operated object (Named key) by value names.old) }
{
    match by {
        Compound::Operates(binary) => {
            let at = at_name(alloc, object, key)?;
            two(alloc, at, CoreOp::Update(binary), value)
        }
        Compound::Powers => {
            drawn_operated(alloc, object, MemberName::Named(key), by, value, names)
        }
    }
}

/// `o.k += e`, `o[k] += e` and the like.
#[tactic(auto, unfolding(lowering_rules::specs::reference_rules::References::member_operated))]
pub(crate) fn member_operated(
    alloc: Global,
    object: CoreExpr,
    name: MemberName,
    by: Compound,
    value: CoreExpr,
    names: &mut Names,
) -> Result<CoreExpr, AllocError>
    ensures { Makes result names.new (member_operated object name by value names.old) }
{
    match name {
        MemberName::Named(key) => named_operated(alloc, object, key, by, value, names),
        MemberName::Indexed(key) => {
            drawn_operated(alloc, object, MemberName::Indexed(key), by, value, names)
        }
        MemberName::AtIterator => {
            drawn_operated(alloc, object, MemberName::AtIterator, by, value, names)
        }
    }
}

fn updated_at(alloc: Global, target: MemberTarget, update: Update) -> Result<CoreExpr, AllocError>
    ensures { IfOk result (λ x. x ≡ updated_at target update) }
{
    let old = old_at(alloc, target.base, &target.name)?;
    let new = one_further(alloc, update, as_number(alloc, old)?)?;
    settled_put(alloc, target, new)
}

fn old_kept(
    alloc: Global,
    base: Var,
    name: &PropertyName,
    kept: Var,
) -> Result<CoreExpr, AllocError>
    ensures { IfOk result (λ x. x ≡ stored kept (as_number (property_read base name.now))) }
{
    let old = old_at(alloc, base, name)?;
    stored(alloc, kept, as_number(alloc, old)?)
}

fn updated_after_at(
    alloc: Global,
    target: MemberTarget,
    update: Update,
    kept: Var,
) -> Result<CoreExpr, AllocError>
    ensures { IfOk result (λ x. x ≡ updated_after_at target update kept) }
{
    let old = old_kept(alloc, target.base, &target.name, kept)?;
    let new = one_further(alloc, update, variable(alloc, kept))?;
    let Settled { before, at } = settle(alloc, target)?;
    let read = then(alloc, before, old)?;
    let put = then(alloc, read, two(alloc, at, CoreOp::Put, new)?)?;
    then(alloc, put, variable(alloc, kept))
}

fn settled_updated(
    alloc: Global,
    object: CoreExpr,
    name: MemberName,
    update: Update,
    names: &mut Names,
) -> Result<CoreExpr, AllocError>
    ensures { Makes result names.new (settled_updated object name update names.old) }
{
    let target = drawn_member(object, name, names)?;
    if !gives_old(update) {
        return updated_at(alloc, target, update);
    }
    let kept = names.temporary()?;
    updated_after_at(alloc, target, update, kept)
}

/// `o.k++`, `o[k]++` and the like.
#[tactic(auto, unfolding(lowering_rules::specs::reference_rules::References::member_updated))]
pub(crate) fn member_updated(
    alloc: Global,
    object: CoreExpr,
    name: MemberName,
    update: Update,
    names: &mut Names,
) -> Result<CoreExpr, AllocError>
    ensures { Makes result names.new (member_updated object name update names.old) }
{
    match name {
        MemberName::Named(key) => {
            let at = at_name(alloc, object, key)?;
            linked(at, act(alloc, CoreOp::Step(update)))
        }
        MemberName::Indexed(key) => {
            settled_updated(alloc, object, MemberName::Indexed(key), update, names)
        }
        MemberName::AtIterator => {
            settled_updated(alloc, object, MemberName::AtIterator, update, names)
        }
    }
}

/// A pattern that is assigned in an expression: its statements, where the variable keeps the right side.
pub fn pattern_assigned(
    alloc: Global,
    right: CoreExpr,
    kept: Var,
    body: Items<CoreStat>,
) -> Result<CoreExpr, AllocError>
    ensures { IfOk result (λ x. x ≡ pattern_assigned right kept body) }
{
    let right = stored(alloc, kept, right)?;
    let assigned = linked(right, CoreLink::Run { body })?;
    then(alloc, assigned, variable(alloc, kept))
}
