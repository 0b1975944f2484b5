//! Properties and their names.

ghost use Rattle.std.specs.Prelude.{◌≡◌, [], ◌∷◌, IfOk};
ghost use Rattle.core_ast.specs.declared.parts.Primitive.TheVariants.{IterStart};
ghost use Rattle.lowering_rules.specs.Making.{number, set, through_with, to_text};
ghost use Rattle.lowering_rules.specs.Patterns.{at_key, at_name, base_check, iterator_name, member_at, member_found, name_kept, property_read};
ghost use Rattle.core_ast.specs.Made.{variable};
ghost use Rattle.core_ast.specs.declared.parts.Key.TheVariants.{TextKey};

use core_ast::{CoreExpr, CoreOp, CoreStat, Key, Primitive, Var, act, linked, variable};
use lower_parts::{alone, number, set, through_with, to_text, two};
use lowering_rules::PropertyName;
use shared_text::Units;
use sqlite_items::Items;
use std::alloc::{AllocError, Global};

/// A property: the statements that find it, and the property.
#[derive(Drop)]
pub(crate) struct Found {
    pub before: Items<CoreStat>,
    pub at: CoreExpr,
}

fn at_name(alloc: Global, object: Var, key: Key) -> Result<CoreExpr, AllocError>
    ensures { IfOk result (λ x. x ≡ at_name (variable object) key) }
{
    linked(variable(alloc, object), act(alloc, CoreOp::Member(key)))
}

fn at_key(alloc: Global, object: Var, kept: Var) -> Result<CoreExpr, AllocError>
    ensures { IfOk result (λ x. x ≡ at_key (variable object) kept) }
{
    let object = variable(alloc, object);
    two(alloc, object, CoreOp::Index, variable(alloc, kept))
}

fn named(alloc: Global, object: Var, name: &[u16]) -> Result<CoreExpr, AllocError>
    ensures { IfOk result (λ x. x ≡ at_name (variable object) (TextKey name.now)) }
{
    let units = Units::of_units(Vec::from_slice(alloc, name)?);
    at_name(alloc, object, Key::TextKey(units))
}

/// Throws where the value has no properties.
pub(crate) fn base_check(alloc: Global, object: Var) -> Result<CoreStat, AllocError>
    ensures { IfOk result (λ s. s ≡ base_check object) }
{
    let read = named(alloc, object, &[64, 64, 98, 97, 115, 101])?;
    Ok(CoreStat::Do(read))
}

fn kept_key(alloc: Global, kept: Var, key: CoreExpr) -> Result<Items<CoreStat>, AllocError>
    ensures { IfOk result (λ ss. ss ≡ set kept (to_text key) ∷ []) }
{
    let key = to_text(alloc, key)?;
    alone(alloc, set(alloc, kept, key)?)
}

fn literal(alloc: Global, object: Var, key: Key) -> Result<Found, AllocError>
    ensures { IfOk result (λ f. f ≡ record { before = []; at = at_name (variable object) key }) }
{
    let at = at_name(alloc, object, key)?;
    let before = Items::new(alloc);
    Ok(Found { before, at })
}

fn computed(alloc: Global, object: Var, kept: Var, key: CoreExpr) -> Result<Found, AllocError>
    ensures { IfOk result (λ f. f ≡ record { before = set kept (to_text key) ∷ []; at = at_key (variable object) kept }) }
{
    let before = kept_key(alloc, kept, key)?;
    let at = at_key(alloc, object, kept)?;
    Ok(Found { before, at })
}

fn iterated(alloc: Global, object: Var) -> Result<Found, AllocError>
    ensures { IfOk result (λ f. f ≡ record { before = []; at = through_with (variable object) IterStart (number 1) }) }
{
    let object = variable(alloc, object);
    let at = through_with(alloc, object, Primitive::IterStart, number(alloc, 1))?;
    let before = Items::new(alloc);
    Ok(Found { before, at })
}

/// The property of the object is read.
#[tactic(auto, unfolding(lowering_rules::specs::Patterns::name_kept, lowering_rules::specs::Patterns::property_read))]
pub(crate) fn read(alloc: Global, object: Var, name: PropertyName) -> Result<Found, AllocError>
    ensures { IfOk result (λ f. f ≡ record { before = name_kept name; at = property_read object name }) }
{
    match name {
        PropertyName::Literal(key) => literal(alloc, object, key),
        PropertyName::Computed { kept, key } => computed(alloc, object, kept, key),
        PropertyName::Iterator => iterated(alloc, object),
    }
}

fn checked(alloc: Global, base: Var, at: CoreExpr) -> Result<Found, AllocError>
    ensures { IfOk result (λ f. f ≡ record { before = base_check base ∷ []; at = at }) }
{
    let before = alone(alloc, base_check(alloc, base)?)?;
    Ok(Found { before, at })
}

fn literal_place(alloc: Global, base: Var, key: Key) -> Result<Found, AllocError>
    ensures { IfOk result (λ f. f ≡ record { before = base_check base ∷ []; at = at_name (variable base) key }) }
{
    let at = at_name(alloc, base, key)?;
    checked(alloc, base, at)
}

fn computed_before(
    alloc: Global,
    base: Var,
    kept: Var,
    key: CoreExpr,
) -> Result<Items<CoreStat>, AllocError>
    ensures { IfOk result (λ ss. ss ≡ set kept key ∷ base_check base ∷ set kept (to_text (variable kept)) ∷ []) }
{
    let mut before = alone(alloc, set(alloc, kept, key)?)?;
    before.push(base_check(alloc, base)?)?;
    before.append(kept_key(alloc, kept, variable(alloc, kept))?)?;
    Ok(before)
}

fn computed_place(alloc: Global, base: Var, kept: Var, key: CoreExpr) -> Result<Found, AllocError>
    ensures { IfOk result (λ f. f ≡ record { before = set kept key ∷ base_check base ∷ set kept (to_text (variable kept)) ∷ []; at = at_key (variable base) kept }) }
{
    let before = computed_before(alloc, base, kept, key)?;
    let at = at_key(alloc, base, kept)?;
    Ok(Found { before, at })
}

fn iterator_place(alloc: Global, base: Var) -> Result<Found, AllocError>
    ensures { IfOk result (λ f. f ≡ record { before = base_check base ∷ []; at = at_name (variable base) (TextKey iterator_name) }) }
{
    let at = named(
        alloc,
        base,
        &[64, 64, 105, 116, 101, 114, 97, 116, 111, 114],
    )?;
    checked(alloc, base, at)
}

/// The property of the object is written.
#[tactic(auto, unfolding(lowering_rules::specs::Patterns::member_at, lowering_rules::specs::Patterns::member_found))]
pub(crate) fn place(alloc: Global, base: Var, name: PropertyName) -> Result<Found, AllocError>
    ensures { IfOk result (λ f. f ≡ record { before = member_found base name; at = member_at base name }) }
{
    match name {
        PropertyName::Literal(key) => literal_place(alloc, base, key),
        PropertyName::Computed { kept, key } => computed_place(alloc, base, kept, key),
        PropertyName::Iterator => iterator_place(alloc, base),
    }
}
