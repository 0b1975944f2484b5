//! The operators of assignments (ECMA-262, 6th edition, 12.4, 12.5 and 12.14; of powers the 7th).

ghost use Rattle.std.specs.Prelude.{◌≡◌, IfOk};
ghost use Rattle.lowering_rules.specs.reference_rules.References.{as_number, by_one, gives_old, one_further, operated, operation};

use core_ast::{Binary, CoreExpr, CoreOp, Primitive, Unary, Update, act, linked};
use lower_parts::{number, two};
use lowering_rules::reference_rules::Compound;
use std::alloc::{AllocError, Global};

#[tactic(auto, unfolding(lowering_rules::specs::reference_rules::References::operation))]
fn operation(by: Compound) -> CoreOp
    ensures { result ≡ operation by }
{
    match by {
        Compound::Operates(binary) => CoreOp::Operator(binary),
        Compound::Powers => CoreOp::Primitive(Primitive::Power),
    }
}

/// What the operator makes of the two values.
pub(crate) fn operated(
    alloc: Global,
    old: CoreExpr,
    by: Compound,
    value: CoreExpr,
) -> Result<CoreExpr, AllocError>
    ensures { IfOk result (λ x. x ≡ operated old by value) }
{
    two(alloc, old, operation(by), value)
}

/// The value as a number.
pub(crate) fn as_number(alloc: Global, value: CoreExpr) -> Result<CoreExpr, AllocError>
    ensures { IfOk result (λ x. x ≡ as_number value) }
{
    linked(value, act(alloc, CoreOp::Unary(Unary::Plus)))
}

#[tactic(auto, unfolding(lowering_rules::specs::reference_rules::References::by_one))]
fn by_one(update: Update) -> Binary
    ensures { result ≡ by_one update }
{
    match update {
        Update::IncrementBefore | Update::IncrementAfter => Binary::Add,
        Update::DecrementBefore | Update::DecrementAfter => Binary::Subtract,
    }
}

/// Whether the value is that before the update.
#[tactic(auto, unfolding(lowering_rules::specs::reference_rules::References::gives_old))]
pub(crate) fn gives_old(update: Update) -> bool
    ensures { result ≡ gives_old update }
{
    match update {
        Update::IncrementBefore | Update::DecrementBefore => false,
        Update::IncrementAfter | Update::DecrementAfter => true,
    }
}

/// One more or less.
pub(crate) fn one_further(
    alloc: Global,
    update: Update,
    old: CoreExpr,
) -> Result<CoreExpr, AllocError>
    ensures { IfOk result (λ x. x ≡ one_further update old) }
{
    let op = CoreOp::Operator(by_one(update));
    two(alloc, old, op, number(alloc, 1))
}
