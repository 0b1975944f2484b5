//! Properties that are read and deleted, and those that are settled before a value is written to them (ECMA-262, 6th edition,
//! 12.3.2 and 12.5.4).

ghost use Rattle.std.specs.Prelude.{◌≡◌, IfOk};
ghost use Rattle.core_ast.specs.Made.{variable};
ghost use Rattle.core_ast.specs.declared.parts.Key.TheVariants.{TextKey};
ghost use Rattle.lowering_rules.specs.reference_rules.Drawing.{Makes};
ghost use Rattle.lowering_rules.specs.Patterns.{at_key, at_name, iterator_name, member_at, property_read};
ghost use Rattle.lowering_rules.specs.reference_rules.References.{accessed, converted, drawn_member, drawn_name, member, member_deleted, member_read, settled, settled_computed, settled_key, settled_object};

use crate::properties::{at_iterator, at_key, at_name, base_checked, iterator_read};
use crate::reached::value_of;
use core_ast::{CoreExpr, CoreOp, Key, Var, act, linked, variable};
use lower_parts::{stored, then, to_text, two};
use lowering_rules::reference_rules::{MemberName, Reached};
use lowering_rules::{MemberTarget, Names, PropertyName};
use std::alloc::{AllocError, Global};

/// The property as a reference.
#[tactic(auto, unfolding(lowering_rules::specs::reference_rules::References::member))]
pub(crate) fn member(
    alloc: Global,
    object: CoreExpr,
    name: MemberName,
) -> Result<CoreExpr, AllocError>
    ensures { IfOk result (λ x. x ≡ member object name) }
{
    match name {
        MemberName::Named(key) => at_name(alloc, object, key),
        MemberName::Indexed(key) => two(alloc, object, CoreOp::Index, key),
        MemberName::AtIterator => at_iterator(alloc, object),
    }
}

/// The value of the property.
#[tactic(auto, unfolding(lowering_rules::specs::reference_rules::References::member_read))]
pub(crate) fn member_read(
    alloc: Global,
    object: CoreExpr,
    name: MemberName,
) -> Result<CoreExpr, AllocError>
    ensures { IfOk result (λ x. x ≡ member_read object name) }
{
    match name {
        MemberName::Named(key) => at_name(alloc, object, key),
        MemberName::Indexed(key) => two(alloc, object, CoreOp::Index, key),
        MemberName::AtIterator => iterator_read(alloc, object),
    }
}

/// `delete` of the property.
pub(crate) fn member_deleted(
    alloc: Global,
    object: CoreExpr,
    name: MemberName,
) -> Result<CoreExpr, AllocError>
    ensures { IfOk result (λ x. x ≡ member_deleted object name) }
{
    let at = member(alloc, object, name)?;
    linked(at, act(alloc, CoreOp::Delete))
}

/// A property of what is reached.
pub fn lower_accessed(
    alloc: Global,
    reached: Reached,
    name: MemberName,
) -> Result<Reached, AllocError>
    ensures { IfOk result (λ r. r ≡ accessed reached name) }
{
    let object = value_of(alloc, reached)?;
    Ok(Reached::Property { object, name })
}

#[tactic(auto, unfolding(lowering_rules::specs::reference_rules::References::drawn_name))]
fn drawn_name(name: MemberName, names: &mut Names) -> Result<PropertyName, AllocError>
    ensures { Makes result names.new (drawn_name name names.old) }
{
    match name {
        MemberName::Named(key) => Ok(PropertyName::Literal(key)),
        MemberName::Indexed(key) => Ok(PropertyName::Computed {
            kept: names.temporary()?,
            key,
        }),
        MemberName::AtIterator => Ok(PropertyName::Iterator),
    }
}

/// A property that is to be written, with the temporaries that keep its object and what is computed of its name.
pub fn drawn_member(
    object: CoreExpr,
    name: MemberName,
    names: &mut Names,
) -> Result<MemberTarget, AllocError>
    ensures { Makes result names.new (drawn_member object name names.old) }
{
    let base = names.temporary()?;
    let name = drawn_name(name, names)?;
    Ok(MemberTarget { base, object, name })
}

/// A property that is settled: what does that, and the reference to it.
#[derive(Drop)]
pub(crate) struct Settled {
    pub before: CoreExpr,
    pub at: CoreExpr,
}

fn checked_object(alloc: Global, base: Var, object: CoreExpr) -> Result<CoreExpr, AllocError>
    ensures { IfOk result (λ x. x ≡ settled_object base object) }
{
    let object = stored(alloc, base, object)?;
    then(alloc, object, base_checked(alloc, base)?)
}

fn checked_key(
    alloc: Global,
    base: Var,
    object: CoreExpr,
    kept: Var,
    key: CoreExpr,
) -> Result<CoreExpr, AllocError>
    ensures { IfOk result (λ x. x ≡ settled_key base object kept key) }
{
    let object = stored(alloc, base, object)?;
    let named = then(alloc, object, stored(alloc, kept, key)?)?;
    then(alloc, named, base_checked(alloc, base)?)
}

fn converted(alloc: Global, kept: Var) -> Result<CoreExpr, AllocError>
    ensures { IfOk result (λ x. x ≡ converted kept) }
{
    let key = to_text(alloc, variable(alloc, kept))?;
    stored(alloc, kept, key)
}

fn literal_place(
    alloc: Global,
    base: Var,
    object: CoreExpr,
    key: Key,
) -> Result<Settled, AllocError>
    ensures before { IfOk result (λ s. s.before ≡ settled_object base object) }
    ensures at { IfOk result (λ s. s.at ≡ at_name (variable base) key) }
{
    let before = checked_object(alloc, base, object)?;
    let at = at_name(alloc, variable(alloc, base), key)?;
    Ok(Settled { before, at })
}

fn computed_before(
    alloc: Global,
    base: Var,
    object: CoreExpr,
    kept: Var,
    key: CoreExpr,
) -> Result<CoreExpr, AllocError>
    ensures { IfOk result (λ x. x ≡ settled_computed base object kept key) }
{
    let checked = checked_key(alloc, base, object, kept, key)?;
    then(alloc, checked, converted(alloc, kept)?)
}

fn computed_place(
    alloc: Global,
    base: Var,
    object: CoreExpr,
    kept: Var,
    key: CoreExpr,
) -> Result<Settled, AllocError>
    ensures before { IfOk result (λ s. s.before ≡ settled_computed base object kept key) }
    ensures at { IfOk result (λ s. s.at ≡ at_key (variable base) kept) }
{
    let before = computed_before(alloc, base, object, kept, key)?;
    let at = at_key(alloc, variable(alloc, base), kept)?;
    Ok(Settled { before, at })
}

fn iterator_place(alloc: Global, base: Var, object: CoreExpr) -> Result<Settled, AllocError>
    ensures before { IfOk result (λ s. s.before ≡ settled_object base object) }
    ensures at { IfOk result (λ s. s.at ≡ at_name (variable base) (TextKey iterator_name)) }
{
    let before = checked_object(alloc, base, object)?;
    let at = at_iterator(alloc, variable(alloc, base))?;
    Ok(Settled { before, at })
}

/// The property is settled.
#[tactic(auto, unfolding(lowering_rules::specs::Patterns::member_at, lowering_rules::specs::reference_rules::References::settled))]
pub(crate) fn settle(alloc: Global, target: MemberTarget) -> Result<Settled, AllocError>
    ensures before { IfOk result (λ s. s.before ≡ settled target.base target.object target.name) }
    ensures at { IfOk result (λ s. s.at ≡ member_at target.base target.name) }
{
    let MemberTarget { base, object, name } = target;
    match name {
        PropertyName::Literal(key) => literal_place(alloc, base, object, key),
        PropertyName::Computed { kept, key } => computed_place(alloc, base, object, kept, key),
        PropertyName::Iterator => iterator_place(alloc, base, object),
    }
}

/// The value of the property, once it is settled.
#[tactic(auto, unfolding(lowering_rules::specs::Patterns::property_read))]
pub(crate) fn old_at(alloc: Global, base: Var, name: &PropertyName) -> Result<CoreExpr, AllocError>
    ensures { IfOk result (λ x. x ≡ property_read base name.now) }
{
    let object = variable(alloc, base);
    match name {
        PropertyName::Literal(key) => at_name(alloc, object, key.copy(alloc)?),
        PropertyName::Computed { kept, .. } => at_key(alloc, object, *kept),
        PropertyName::Iterator => iterator_read(alloc, object),
    }
}
