//! Properties of objects (ECMA-262, 6th edition, 12.3.2).

ghost use Rattle.std.specs.Prelude.{◌≡◌, IfOk};
ghost use Rattle.core_ast.specs.Made.{variable};
ghost use Rattle.core_ast.specs.declared.parts.Key.TheVariants.{TextKey};
ghost use Rattle.core_ast.specs.declared.parts.Primitive.TheVariants.{IterStart};
ghost use Rattle.lowering_rules.specs.Making.{number, through_with};
ghost use Rattle.lowering_rules.specs.Patterns.{at_key, at_name, base_name, iterator_name};

use core_ast::{CoreExpr, CoreOp, Key, Primitive, Var, act, linked, variable};
use lower_parts::{number, through_with, two};
use shared_text::Units;
use std::alloc::{AllocError, Global};

/// The property with this key.
pub(crate) fn at_name(alloc: Global, object: CoreExpr, key: Key) -> Result<CoreExpr, AllocError>
    ensures { IfOk result (λ x. x ≡ at_name object key) }
{
    linked(object, act(alloc, CoreOp::Member(key)))
}

/// The property whose key the variable keeps.
pub(crate) fn at_key(alloc: Global, object: CoreExpr, kept: Var) -> Result<CoreExpr, AllocError>
    ensures { IfOk result (λ x. x ≡ at_key object kept) }
{
    two(alloc, object, CoreOp::Index, variable(alloc, kept))
}

fn at_units(alloc: Global, object: CoreExpr, name: &[u16]) -> Result<CoreExpr, AllocError>
    ensures { IfOk result (λ x. x ≡ at_name object (TextKey name.now)) }
{
    let units = Units::of_units(Vec::from_slice(alloc, name)?);
    at_name(alloc, object, Key::TextKey(units))
}

/// The property `[Symbol.iterator]` where it is written or deleted.
pub(crate) fn at_iterator(alloc: Global, object: CoreExpr) -> Result<CoreExpr, AllocError>
    ensures { IfOk result (λ x. x ≡ at_name object (TextKey iterator_name)) }
{
    at_units(
        alloc,
        object,
        &[64, 64, 105, 116, 101, 114, 97, 116, 111, 114],
    )
}

/// The value of the property `[Symbol.iterator]`.
pub(crate) fn iterator_read(alloc: Global, object: CoreExpr) -> Result<CoreExpr, AllocError>
    ensures { IfOk result (λ x. x ≡ through_with object IterStart (number 1)) }
{
    through_with(alloc, object, Primitive::IterStart, number(alloc, 1))
}

/// Throws where the value of the variable has no properties.
pub(crate) fn base_checked(alloc: Global, object: Var) -> Result<CoreExpr, AllocError>
    ensures { IfOk result (λ x. x ≡ at_name (variable object) (TextKey base_name)) }
{
    let object = variable(alloc, object);
    at_units(alloc, object, &[64, 64, 98, 97, 115, 101])
}
