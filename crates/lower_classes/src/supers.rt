//! `this` and `super` (ECMA-262, 6th edition, 12.2.2 and 12.3.5).

ghost use Rattle.std.specs.Prelude.{◌≡◌, IfOk};
ghost use Rattle.lowering_rules.specs.Classes.{super_call, super_get, this};

use core_ast::{CoreExpr, CoreHead, CoreOp, Primitive, act, expression, linked};
use lower_parts::{lower_arguments, through, through_with};
use lowering_rules::ListPart;
use std::alloc::{AllocError, Global};

/// `this`, which may be uninitialized in the constructor of a derived class.
pub fn lower_this(alloc: Global, derived: bool) -> Result<CoreExpr, AllocError>
    ensures { IfOk result (λ x. x ≡ this derived) }
{
    let this = expression(alloc, CoreHead::This);
    if !derived {
        return Ok(this);
    }
    linked(this, act(alloc, CoreOp::Primitive(Primitive::CheckReady)))
}

/// `super` called with these arguments; what the parent gives becomes `this`.
pub fn lower_super_call(alloc: Global, arguments: Vec<ListPart>) -> Result<CoreExpr, AllocError>
    ensures { IfOk result (λ x. x ≡ super_call arguments.items) }
{
    let list = lower_arguments(alloc, arguments)?;
    let given = through(alloc, list, Primitive::SuperConstruct)?;
    through(alloc, given, Primitive::ThisBind)
}

/// The property of `super` with this key.
pub fn lower_super_get(alloc: Global, key: CoreExpr, derived: bool) -> Result<CoreExpr, AllocError>
    ensures { IfOk result (λ x. x ≡ super_get key derived) }
{
    let this = lower_this(alloc, derived)?;
    through_with(alloc, key, Primitive::SuperGet, this)
}
